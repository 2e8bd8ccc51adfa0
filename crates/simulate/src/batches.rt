// A batch of orders at the office, and a run of frames at the box: the call, with its answer told and the frames that it wrote kept.
use crate::asked::Several;
use crate::frames::{Frames, Memory};
use crate::print::Printed;
use crate::world::World;
use crate::{lending, print};
use base::Refusal;
use judging::End;
use outcome::Parts;

pub(crate) fn call(
    world: &mut World,
    several: Several,
    into: Option<usize>,
    memory: &mut Memory,
    out: &mut String,
) -> Printed {
    let mut page = lending::untouched();
    let lent = lending::lent(&mut page, into.unwrap_or(world.room));
    let given = memory.given.as_slice();
    let (end, done) = match several {
        Several::Orders => (
            End::Office,
            batch_calls::issue_all(world.ends, memory.orders.as_slice(), given, lent),
        ),
        Several::Frames => (
            End::Box,
            batch_calls::box_frames(world.ends, memory.lengths.as_slice(), given, lent),
        ),
    };
    world.ends = done.state;
    world.note_opened();
    match done.parts {
        Ok(said) => parts(said, end, lent, into, memory.written.by_mut(end), out),
        Err(refusal) => {
            print::refused(out, refusal)?;
            lending::told(out, into, lent)
        }
    }
}

// The parts, whose frames stand one after another in the output.
fn parts(
    parts: Parts,
    end: End,
    lent: &[u8],
    into: Option<usize>,
    written: &mut Frames,
    out: &mut String,
) -> Printed {
    if parts.count == 0 {
        out.push_str("ok")?;
    }
    let mut rest = lent;
    for (i, part) in parts.each.iter().take(parts.count).enumerate() {
        let frame = text::part(rest, 0, part.len);
        rest = number::rest(rest, part.len);
        if i == 0 {
            print::answer(out, part.verdict, frame)?;
        } else {
            behind_others(end, part.verdict, frame, out)?;
        }
        written.keep(frame)?;
    }
    lending::told(out, into, rest)
}

// The orders of a batch have one verdict, the frames of a run one each.
fn behind_others(
    end: End,
    verdict: Result<(), Refusal>,
    frame: &[u8],
    out: &mut String,
) -> Printed {
    match end {
        End::Box => {
            out.push_str(" / ")?;
            print::answer(out, verdict, frame)
        }
        End::Office => {
            out.push_str(" /")?;
            print::bytes(out, frame)
        }
    }
}
