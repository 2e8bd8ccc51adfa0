// The stream's lines: what each asks for.
use crate::arguments::Words;
use crate::asked::{Action, Asked, Fault, Holder, Made, Said, Task};
use crate::frames::Memory;
use crate::whole::LINE_LIMIT;
use crate::{arguments, asked, carried};
use judging::End;
use stream::WRAPPED_MOST;

// The longest output that `wrap` lends, and the longest piece.
const LONGEST: u64 = 128;

// wrap N BYTES
pub(crate) fn wrap(mut words: Words, memory: &mut Memory) -> Result<Asked, Fault> {
    let room = words.number(LONGEST)? as usize;
    arguments::with_bytes(Action::Say(Said::Made(Made::Wrapped(room))), words, memory)
}

// stream BYTES, stream-box BYTES, stream-office BYTES: in one piece, since a line gives fewer bytes than it is long
pub(crate) fn stream(to: Holder, words: Words, memory: &mut Memory) -> Result<Asked, Fault> {
    arguments::with_bytes(Action::Task(Task::Stream(to, LINE_LIMIT)), words, memory)
}

// pieces-box I N, pieces-office I N: frame i of those that the end wrote
pub(crate) fn pieces(
    to: Holder,
    writer: End,
    mut words: Words,
    memory: &mut Memory,
) -> Result<Asked, Fault> {
    let frame = carried::numbered(writer, &mut words, &memory.written)?;
    let piece = words.number(LONGEST)? as usize;
    if piece == 0 {
        return Err(Fault::OutOfRange);
    }
    words.end()?;
    let mut field = [0; WRAPPED_MOST];
    // no frame that an end writes is refused
    let len = stream::wrap(frame, &mut field).unwrap_or(0);
    memory.given.extend_from_slice(text::part(&field, 0, len))?;
    Ok(asked::plain(Action::Task(Task::Stream(to, piece))))
}
