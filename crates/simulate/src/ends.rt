// The single calls at box and office.
use crate::frames::Written;
use crate::print::Printed;
use crate::world::World;
use crate::{lending, print};
use calls::Call;
use frame::{Ask, Frame};
use judging::End;
use link::FRAME_LIMIT;
use session::Pair;

// A call, with its answer told and the frame that it wrote kept.
pub(crate) fn call(
    world: &mut World,
    call: Call,
    bytes: &[u8],
    into: Option<usize>,
    written: &mut Written,
    out: &mut String,
) -> Printed {
    let mut page = lending::untouched();
    let lent = lending::lent(&mut page, into.unwrap_or(world.room));
    let done = calls::run(world.ends, call, bytes, lent);
    world.ends = done.state;
    world.note_opened();
    let frame = text::part(lent, 0, done.len);
    print::answer(out, done.verdict, frame)?;
    lending::told(out, into, text::part(lent, done.len, lent.len()))?;
    written.by_mut(caller(call)).keep(frame)
}

fn caller(call: Call) -> End {
    match call {
        Call::Restart(_) | Call::BoxFrame => End::Box,
        _ => End::Office,
    }
}

// issue-many N: so many orders to raise by 0, each confirmed at once by an ACK.
pub(crate) fn many(ends: &mut Pair, n: u16) {
    for _ in 0..n {
        let mut frame = [0; FRAME_LIMIT];
        *ends = calls::run(*ends, Call::Issue(Ask::Raise(0)), b"", &mut frame).state;
        let ack = link::encode(Frame::ack(ends.office.session, ends.office.issued));
        *ends = calls::run(*ends, Call::OfficeFrame, ack.as_slice(), &mut []).state;
    }
}
