// What a command is about: its register, and what performing it gives.
ghost use Rattle.std.specs.Prelude.{◌≡◌, [], ◌∷◌};
ghost use Rattle.bus.specs.Commands as spec;

use settings::Settings;

#[derive(Clone, Copy)]
pub enum Register {
    Backlight,
    Master,
    Park,
    Splash,
    Strength,
    Heater,
    Bezel,
    Status,
    Pixels,
    CalibrationMode,
    RedLevel,
    GreenLevel,
    BlueLevel,
    CurrentLimit,
    SensorGain,
}

// Which ways of access a register has.
#[derive(Clone, Copy)]
pub enum Ways {
    ReadWrite,
    ReadOnly,
}

// When a register's commands are available (mode right): at any time; while master is on; or while master is on and, to a write, in calibration mode.
#[derive(Clone, Copy)]
pub enum ModeRight {
    Always,
    MasterOn,
    CalibrationOnly,
}

// A row of the command table. The count is that of a write's data, and of the data in a read's reply.
#[derive(Clone, Copy)]
pub struct CommandRow {
    pub id: u8,
    pub register: Register,
    pub ways: Ways,
    pub count: u8,
    pub right: ModeRight,
}

// The longest reply: a response, a length, 8 data bytes and a sum.
pub const REPLY_LIMIT: usize = 11;

// A reply: the first len of the bytes, as the bus sends them out of its own array.
#[derive(Clone, Copy)]
pub struct ReplyBytes {
    pub bytes: [u8; REPLY_LIMIT],
    pub len: u8,
}

#[derive(Clone, Copy)]
pub struct Performed {
    pub settings: Settings,
    pub reply: ReplyBytes,
}

// A reply without data.
pub fn response(code: u8) -> ReplyBytes
    ensures { result ≡ spec.reply_of (code ∷ []) }
{
    ReplyBytes {
        bytes: [code, 0, 0, 0, 0, 0, 0, 0, 0, 0, 0],
        len: 1,
    }
}
