// What a line asks for.
use base::Refusal;
use bus::Register;
use calls::Call;
use frame::SessionId;
use judging::End;
use packet::Access;
use std::alloc::AllocError;
use text::DecimalError;
use thiserror::Error;

// What can be wrong with a line.
#[derive(Clone, Copy, Debug, PartialEq, Eq, Error)]
pub(crate) enum Fault {
    #[error("line too long")]
    TooLong,
    #[error("not a call")]
    NotACall,
    #[error("not a number")]
    NotANumber,
    #[error("number out of range")]
    OutOfRange,
    #[error("not bytes")]
    NotBytes,
    #[error("no such frame")]
    NoSuchFrame,
    #[error("not a frame")]
    NotAFrame,
    #[error("no such register")]
    NoSuchRegister,
    #[error("not a refusal")]
    NotARefusal,
    #[error("too many words")]
    TooManyWords,
    #[error("out of memory")]
    OutOfMemory(#[from(alloc)] AllocError),
}

impl From<DecimalError> for Fault {
    fn from(error: DecimalError) -> Fault {
        match error {
            DecimalError::NotDigits => Fault::NotANumber,
            DecimalError::TooLarge => Fault::OutOfRange,
        }
    }
}

// Whose settings are told, or whose receiver is given bytes.
#[derive(Clone, Copy)]
pub(crate) enum Holder {
    Bench,
    Box,
    Office,
}

// What is told of both ends and of the bench.
#[derive(Clone, Copy)]
pub(crate) enum Told {
    Show,
    Describe,
    Progress,
    Held(Holder, Register),
    Dropped,
}

// What is made of the bytes given alone.
#[derive(Clone, Copy)]
pub(crate) enum Made {
    Packet(u8, Access),
    Reply(Access),
    Encoded,
    // As a frame for this end.
    Decoded(End),
    // The output has so many bytes.
    Wrapped(usize),
}

// What only prints.
#[derive(Clone, Copy)]
pub(crate) enum Said {
    Told(Told),
    Made(Made),
    Explained(Refusal),
}

// What changes something, and is no call at box or office alone.
#[derive(Clone, Copy)]
pub(crate) enum Task {
    Many(u16),
    Room(usize),
    // Of the bytes that the controller on the bench sends all are printed, or the reply among them.
    Bus(Option<Access>),
    Restart(SessionId),
    // In pieces of so many bytes.
    Stream(Holder, usize),
}

// What concerns the offices that are not in use too.
#[derive(Clone, Copy)]
pub(crate) enum OfficesTask {
    // The office of this number.
    Use(usize),
    Fresh,
}

// A batch of orders, or a run of frames.
#[derive(Clone, Copy)]
pub(crate) enum Several {
    Orders,
    Frames,
}

#[derive(Clone, Copy)]
pub(crate) enum Action {
    Call(Call),
    Several(Several),
    Task(Task),
    Offices(OfficesTask),
    Say(Said),
}

#[derive(Clone, Copy)]
pub(crate) struct Asked {
    pub action: Action,
    // How long an output the call is lent, where the line ends in `into N`.
    pub lent: Option<usize>,
}

// An action with nothing behind it.
pub(crate) fn plain(action: Action) -> Asked {
    Asked { action, lent: None }
}
