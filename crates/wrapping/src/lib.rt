// Frames over a link that hands over bytes in pieces of any size, document 02's first request: what their receiver holds. Its rules, how a
// frame is wrapped, and the theorems about both are in specs/; the calls that keep the rules are in stream.
#![tactic(auto)]

ghost use Rattle.std.specs.Prelude.{◌≡◌};
ghost use Rattle.wrapping.specs.Receiver as spec;

use base::Fault;

// The longest frame that is wrapped.
pub const CONTENTS_MOST: usize = 64;

// Where the next byte stands.
#[derive(Clone, Copy)]
pub enum Place {
    Tag,
    LengthLow,
    // Behind the length's low byte, which is given.
    LengthHigh(u8),
    // In a frame of so many bytes, so many of which are in the buffer: any count is answered, where an ArrayVec would hold 64 at most.
    Contents(u8, u8),
    // Among bytes to be skipped: so many are left.
    Skipped(u16),
}

// A frame begins at the front of the buffer, an array, since a place past its end is answered too. The count is of the bytes dropped where a tag should stand.
#[derive(Clone, Copy)]
pub struct Receiver {
    pub place: Place,
    pub buffer: [u8; CONTENTS_MOST],
    pub dropped: u32,
}

// What came with the last byte taken: a frame is the first bytes of the receiver's buffer, as many as are told. An enum of its own: a host does three things.
#[derive(Clone, Copy, PartialEq, Eq)]
pub enum Event {
    Nothing,
    Frame(usize),
    // What is wrong with the outer field; the offset is from its tag.
    Refused(Fault),
}

// The receiver afterwards, and how many bytes it took.
#[derive(Clone, Copy)]
pub struct Received {
    pub receiver: Receiver,
    pub took: usize,
    pub event: Event,
}

impl Receiver {
    // One that was given nothing.
    pub fn new() -> Receiver
        ensures { result ≡ spec.fresh }
    {
        Receiver {
            place: Place::Tag,
            buffer: [0; CONTENTS_MOST],
            dropped: 0,
        }
    }
}
