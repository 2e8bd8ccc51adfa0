// The frames by value.
ghost use Rattle.std.specs.Prelude.{◌≡◌, min, replicate};
ghost use Rattle.base.specs.Writes.{answer};
ghost use Rattle.settings.specs.Settings.{fresh};
ghost use Rattle.frame.specs.Frame as spec;
ghost use Rattle.frame.specs.View as view;

use base::Refusal;
use settings::Settings;

// Two types, so that a session and an order's number cannot be exchanged.
#[derive(Clone, Copy, PartialEq, Eq, PartialOrd, Ord)]
pub struct SessionId(pub u32);

#[derive(Clone, Copy, PartialEq, Eq, PartialOrd, Ord)]
pub struct OrderNumber(pub u16);

// A command's most data bytes.
pub const DATA_LIMIT: usize = 16;

// What an order asks for. A command's data stand beside it, in Change, since an order of a batch has them elsewhere.
#[derive(Clone, Copy)]
pub enum Ask {
    Command(u8),
    Raise(u16),
    Lower(u16),
}

// The data of a command are the first count bytes of body; any count is answered, so body and count are no ArrayVec.
#[derive(Clone, Copy)]
pub struct Change {
    pub ask: Ask,
    pub count: u8,
    pub body: [u8; DATA_LIMIT],
}

#[derive(Clone, Copy)]
pub enum Kind {
    Malformed,
    Opening,
    Welcome,
    Order,
    Ack,
    // The refusal's number: any byte, since a REFUSE is encoded whatever it carries.
    Refuse(u8),
}

// What a kind does not have is left at zero, or at fresh settings, and a contract says so: a struct, since a case of an enum would not
// have it. The number is an order's, or the acknowledged count.
#[derive(Clone, Copy)]
pub struct Frame {
    pub kind: Kind,
    pub session: SessionId,
    pub number: OrderNumber,
    pub change: Change,
    pub settings: Settings,
}

impl Change {
    // The command with its data; more than an ORDER can carry are refused.
    pub fn command(command: u8, bytes: &[u8]) -> Result<Change, Refusal>
        ensures { answer result ≡ view.change_made (spec.command command bytes.now) }
    {
        if DATA_LIMIT < bytes.len() {
            return Err(Refusal::DataTooLong);
        }
        let mut body = [0; DATA_LIMIT];
        body[..bytes.len()].copy_from_slice(bytes);
        Ok(Change {
            ask: Ask::Command(command),
            count: bytes.len() as u8,
            body,
        })
    }

    // How many bytes of body are its data.
    pub fn data_length(self) -> usize
        ensures { result ≡ min self.count spec.data_limit }
    {
        usize::from(self.count).min(DATA_LIMIT)
    }

    fn without_data(ask: Ask) -> Change
        ensures { result ≡ record { ask = ask; count = 0; body = replicate spec.data_limit 0 } }
    {
        Change {
            ask,
            count: 0,
            body: [0; DATA_LIMIT],
        }
    }

    pub fn raise(step: u16) -> Change
        ensures { result ≡ view.change_of (spec.raise step) }
    {
        Change::without_data(Ask::Raise(step))
    }

    pub fn lower(step: u16) -> Change
        ensures { result ≡ view.change_of (spec.lower step) }
    {
        Change::without_data(Ask::Lower(step))
    }
}

impl Frame {
    // A frame with no change and no settings of its own.
    fn bare(kind: Kind, session: SessionId, number: OrderNumber) -> Frame
        ensures { result ≡ view.bare kind session.0 number.0 }
    {
        Frame {
            kind,
            session,
            number,
            change: Change::raise(0),
            settings: Settings::fresh(),
        }
    }

    pub fn malformed() -> Frame
        ensures { result ≡ view.bare Kind.Malformed 0 0 }
    {
        Frame::bare(Kind::Malformed, SessionId(0), OrderNumber(0))
    }

    pub fn opening(session: SessionId) -> Frame
        ensures { result ≡ view.bare Kind.Opening session.0 0 }
    {
        Frame::bare(Kind::Opening, session, OrderNumber(0))
    }

    pub fn welcome(session: SessionId, settings: Settings) -> Frame
        ensures { result ≡ view.framed Kind.Welcome session.0 0 (view.change_of (spec.raise 0)) settings }
    {
        Frame {
            settings,
            ..Frame::bare(Kind::Welcome, session, OrderNumber(0))
        }
    }

    pub fn order(session: SessionId, number: OrderNumber, change: Change) -> Frame
        ensures { result ≡ view.framed Kind.Order session.0 number.0 change fresh }
    {
        Frame {
            change,
            ..Frame::bare(Kind::Order, session, number)
        }
    }

    pub fn ack(session: SessionId, count: OrderNumber) -> Frame
        ensures { result ≡ view.bare Kind.Ack session.0 count.0 }
    {
        Frame::bare(Kind::Ack, session, count)
    }

    pub fn refuse(session: SessionId, refusal: u8) -> Frame
        ensures { result ≡ view.bare (Kind.Refuse refusal) session.0 0 }
    {
        Frame::bare(Kind::Refuse(refusal), session, OrderNumber(0))
    }
}
