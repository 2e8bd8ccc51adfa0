// Frames over a stream: wrapped, and bytes given to a receiver.
use crate::asked::Holder;
use crate::frames::Written;
use crate::print::Printed;
use crate::world::World;
use crate::{ends, lending, print};
use calls::Call;
use std::alloc::AllocError;
use wrapping::{Event, Received};

// wrap N BYTES
pub(crate) fn wrapped(out: &mut String, room: usize, frame: &[u8]) -> Printed {
    let mut page = lending::untouched();
    let lent = lending::lent(&mut page, room);
    match stream::wrap(frame, lent) {
        Ok(len) => {
            out.push_str("wrapped")?;
            print::bytes(out, text::part(lent, 0, len))?;
        }
        Err(refusal) => print::refused(out, refusal)?,
    }
    out.push('\n')
}

// stream BYTES, stream-box BYTES, stream-office BYTES, pieces-box I N, pieces-office I N: one call for each piece, and more while bytes of it are left
pub(crate) fn stream(
    world: &mut World,
    to: Holder,
    piece: usize,
    bytes: &[u8],
    written: &mut Written,
    out: &mut String,
) -> Printed {
    if bytes.is_empty() {
        call(world, to, bytes, written, out)?;
    }
    for piece in bytes.chunks(piece.max(1)) {
        let mut rest = piece;
        // each call takes a byte at least
        for _ in 0..piece.len() {
            if rest.is_empty() {
                break;
            }
            let took = call(world, to, rest, written, out)?;
            rest = number::rest(rest, took);
        }
    }
    Ok(())
}

// One call of the receiver, and how many bytes it took. A frame goes on to its end; the receiver on the bench has none.
fn call(
    world: &mut World,
    to: Holder,
    bytes: &[u8],
    written: &mut Written,
    out: &mut String,
) -> Result<usize, AllocError> {
    let receiver = world.receivers.at(to);
    let received = stream::receive(*receiver, bytes);
    *receiver = received.receiver;
    told(received, out)?;
    if let Event::Frame(len) = received.event {
        let frame = text::part(&received.receiver.buffer, 0, len);
        match to {
            Holder::Bench => {}
            Holder::Box => answered(world, Call::BoxFrame, frame, written, out)?,
            Holder::Office => answered(world, Call::OfficeFrame, frame, written, out)?,
        }
    }
    Ok(received.took)
}

// Words in the place of the newline that stands before.
fn instead(out: &mut String, words: &str) -> Printed {
    out.pop();
    out.push_str(words)
}

// What came, behind the outcomes before it, if any, and a newline behind it.
fn told(received: Received, out: &mut String) -> Printed {
    if !out.is_empty() {
        instead(out, " / ")?;
    }
    write!(out, "took {}", received.took)?;
    match received.event {
        Event::Nothing => {}
        Event::Frame(len) => {
            out.push_str(" frame")?;
            print::bytes(out, text::part(&received.receiver.buffer, 0, len))?;
        }
        Event::Refused(fault) => {
            out.push_str(" ")?;
            print::faulty(out, fault)?;
        }
    }
    out.push_str("\n")
}

// The frame's call, and its answer behind the frame.
fn answered(
    world: &mut World,
    call: Call,
    frame: &[u8],
    written: &mut Written,
    out: &mut String,
) -> Printed {
    instead(out, ": ")?;
    ends::call(world, call, frame, None, written, out)
}
