// What the stand-in controller holds. The rules of its byte exchange and of its commands are in specs/, the code that keeps them in controller and registers.
#![tactic(auto)]

mod command;

ghost use Rattle.std.specs.Prelude.{◌≡◌};
ghost use Rattle.bus.specs.Bus as spec;

pub use command::{
    CommandRow, ModeRight, Performed, REPLY_LIMIT, Register, ReplyBytes, Ways, response,
};
use settings::Settings;

// What the next byte of an open packet is. Data holds how many data bytes are left.
#[derive(Clone, Copy)]
pub enum Phase {
    Idle,
    Command,
    Length,
    Data(u8),
    Checksum,
}

// The open packet's fields so far, and the sum of its bytes modulo 256. Its data stand in an array by value, a form that document 01 asks for.
#[derive(Clone, Copy)]
pub struct Collected {
    pub command: u8,
    pub count: u8,
    pub sum: u8,
    pub body: [u8; 255],
}

// A reply on its way out: its first len bytes, of which sent are out. An array, since a value with more sent than there are is answered too.
#[derive(Clone, Copy)]
pub struct Outgoing {
    pub bytes: [u8; REPLY_LIMIT],
    pub len: u8,
    pub sent: u8,
}

// An escape byte that waits for its second is told beside the phase, a form that document 01 asks for.
#[derive(Clone, Copy)]
pub struct Controller {
    pub phase: Phase,
    pub escape: bool,
    pub packet: Collected,
    pub reply: Outgoing,
    pub settings: Settings,
}

#[derive(Clone, Copy)]
pub struct Exchanged {
    pub controller: Controller,
    pub out: u8,
}

fn nothing_unsent() -> Outgoing
    ensures { result ≡ spec.nothing_unsent }
{
    Outgoing {
        bytes: [0; REPLY_LIMIT],
        len: 0,
        sent: 0,
    }
}

impl Collected {
    fn none() -> Collected
        ensures { result ≡ spec.none }
    {
        Collected {
            command: 0,
            count: 0,
            sum: 0,
            body: [0; 255],
        }
    }
}

impl Controller {
    pub fn fresh() -> Controller
        ensures { result ≡ spec.fresh }
    {
        Controller {
            phase: Phase::Idle,
            escape: false,
            packet: Collected::none(),
            reply: nothing_unsent(),
            settings: Settings::fresh(),
        }
    }

    pub fn settings(self) -> Settings
        ensures { result ≡ self.settings }
    {
        self.settings
    }
}
