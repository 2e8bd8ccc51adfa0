// The refusals, and their numbers in documents 01 and 02.
ghost use Rattle.std.specs.Prelude.{◌≡◌};
ghost use Rattle.base.specs.Refusal.{number as number_of, fault_number};

// Why a call refused.
#[derive(Clone, Copy, PartialEq, Eq)]
pub enum Refusal {
    OutputTooShort,
    DataTooLong,
    IdTooLarge,
    NoOpenSession,
    WrongSession,
    OrderTooFarAhead,
    WindowFull,
    OrderNumbersExhausted,
    OfficeNotOpen,
    InvalidReply,
    IncompleteReply,
    NothingToResend,
    Frame(Fault),
}

// A frame's fault: what is wrong, and the offset of the first byte of the field at fault.
#[derive(Clone, Copy, PartialEq, Eq)]
pub struct Fault {
    pub kind: FrameFault,
    pub offset: usize,
}

// What is wrong with a frame: each kind's number.
#[derive(Clone, Copy, PartialEq, Eq)]
pub enum FrameFault {
    Truncated = 14,
    UnexpectedTag = 15,
    WrongLength = 16,
    InvalidContents = 17,
    TrailingBytes = 18,
    OtherEnd = 19,
}

impl Refusal {
    // A match, since a case that holds a fault lets no case have a number of its own.
    pub fn number(self) -> u8
        ensures { result ≡ number_of self }
    {
        match self {
            Refusal::OutputTooShort => 1,
            Refusal::DataTooLong => 2,
            Refusal::IdTooLarge => 3,
            Refusal::NoOpenSession => 5,
            Refusal::WrongSession => 6,
            Refusal::OrderTooFarAhead => 7,
            Refusal::WindowFull => 8,
            Refusal::OrderNumbersExhausted => 9,
            Refusal::OfficeNotOpen => 10,
            Refusal::InvalidReply => 11,
            Refusal::IncompleteReply => 12,
            Refusal::NothingToResend => 13,
            Refusal::Frame(fault) => fault.kind.number(),
        }
    }
}

impl FrameFault {
    pub fn number(self) -> u8
        ensures { result ≡ fault_number self }
    {
        self as u8
    }
}

impl From<Fault> for Refusal {
    ghost use Rattle.base.specs.declared.refusal.Refusal.TheVariants.{Frame};

    ghost from_gives = { λ fault refusal. refusal ≡ Frame fault };

    fn from(fault: Fault) -> Refusal {
        Self::Frame(fault)
    }
}
