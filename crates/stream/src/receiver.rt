// The receiver's calls.
ghost use Rattle.std.specs.Prelude.{◌≡◌};
ghost use Rattle.wrapping.specs.Receiver as spec;

use crate::wrapper::{OUTER_TAG, fits};
use base::{Fault, FrameFault};
use wrapping::{CONTENTS_MOST, Event, Place, Received, Receiver};

// Takes the bytes up to and with the one that completes a frame or a refusal, or all of them.
#[tactic(auto, using(wrapping::proofs::ReceiverLaws::something, wrapping::proofs::ReceiverLaws::receive_more, wrapping::proofs::ReceiverLaws::receive_event, wrapping::proofs::ReceiverLaws::receive_end))]
pub fn receive(start: Receiver, bytes: &[u8]) -> Received
    ensures { result ≡ spec.receive start bytes.now }
{
    let mut receiver = start;
    for (i, byte) in bytes.iter().enumerate() {
        let done = step(receiver, *byte);
        if done.event != Event::Nothing {
            return Received {
                took: i + 1,
                ..done
            };
        }
        receiver = done.receiver;
    }
    Received {
        receiver,
        took: bytes.len(),
        event: Event::Nothing,
    }
}

// One byte.
fn step(receiver: Receiver, byte: u8) -> Received
    ensures { result ≡ spec.step receiver byte }
{
    match receiver.place {
        Place::Tag => at_tag(receiver, byte),
        Place::LengthLow => moved(receiver, Place::LengthHigh(byte), Event::Nothing),
        Place::LengthHigh(low) => at_length(receiver, u16::from_le_bytes([low, byte])),
        Place::Contents(length, filled) => at_contents(receiver, length, filled, byte),
        Place::Skipped(left) => moved(receiver, skipping(left.saturating_sub(1)), Event::Nothing),
    }
}

fn moved(receiver: Receiver, place: Place, event: Event) -> Received
    ensures { result ≡ spec.moved receiver place event }
{
    Received {
        receiver: Receiver { place, ..receiver },
        took: 1,
        event,
    }
}

#[tactic(auto, unfolding(wrapping::specs::Receiver::at_tag))]
fn at_tag(receiver: Receiver, byte: u8) -> Received
    ensures { result ≡ spec.at_tag receiver byte }
{
    if byte == OUTER_TAG {
        return moved(receiver, Place::LengthLow, Event::Nothing);
    }
    moved(dropping(receiver), Place::Tag, Event::Nothing)
}

// The count stops at its limit.
#[tactic(auto, unfolding(wrapping::specs::Receiver::counted))]
fn dropping(receiver: Receiver) -> Receiver
    ensures { result ≡ spec.dropping receiver }
{
    Receiver {
        dropped: receiver.dropped.saturating_add(1),
        ..receiver
    }
}

// The place with so many bytes left to be skipped.
#[tactic(auto, unfolding(wrapping::specs::Receiver::skipping))]
fn skipping(left: u16) -> Place
    ensures { result ≡ spec.skipping left }
{
    if left == 0 {
        return Place::Tag;
    }
    Place::Skipped(left)
}

#[tactic(auto, unfolding(wrapping::specs::Receiver::at_length))]
fn at_length(receiver: Receiver, length: u16) -> Received
    ensures { result ≡ spec.at_length receiver length }
{
    if fits(length as usize) {
        return moved(receiver, Place::Contents(length as u8, 0), Event::Nothing);
    }
    let fault = Fault {
        kind: FrameFault::WrongLength,
        offset: 0,
    };
    moved(receiver, skipping(length), Event::Refused(fault))
}

#[tactic(auto, unfolding(wrapping::specs::Receiver::at_contents))]
fn at_contents(receiver: Receiver, length: u8, filled: u8, byte: u8) -> Received
    ensures { result ≡ spec.at_contents receiver length filled byte }
{
    let stored = storing(receiver, filled as usize, byte);
    if length as usize <= filled as usize + 1 {
        let len = (length as usize).min(CONTENTS_MOST);
        return moved(stored, Place::Tag, Event::Frame(len));
    }
    moved(stored, Place::Contents(length, filled + 1), Event::Nothing)
}

// A place past the buffer's end stores nothing. An index behind the test: with get_mut the proof did not close.
fn storing(mut receiver: Receiver, i: usize, byte: u8) -> Receiver
    ensures { result ≡ spec.storing receiver i byte }
{
    if i < CONTENTS_MOST {
        receiver.buffer[i] = byte;
    }
    receiver
}
