// The lines of a batch of orders and of a run of frames: what stands behind the first word.
use crate::arguments::{Words, lent};
use crate::asked::{Action, Asked, Fault, Several};
use crate::carried;
use crate::frames::Memory;
use frame::Ask;
use judging::End;
use outcome::{BATCH_LIMIT, BatchOrder};

// No item stands there: the line ends, in `into N` or not.
fn ends(words: &Words) -> bool {
    words.is_empty() || words.peek() == b"into".as_slice()
}

// Takes a slash, if one stands there.
fn slash(words: &mut Words) -> bool {
    if words.peek() != b"/".as_slice() {
        return false;
    }
    words.next();
    true
}

// issue-all A / B / ..
pub(crate) fn orders(mut words: Words, memory: &mut Memory) -> Result<Asked, Fault> {
    memory.orders.clear();
    if !ends(&words) {
        // each order takes a word at least
        for _ in 0..=words.rest().len() {
            order(&mut words, memory)?;
            if !slash(&mut words) {
                break;
            }
        }
    }
    // what is wrong if something else than `into N` stands behind the last order
    let otherwise = match memory.orders.as_slice().last() {
        None => Fault::NotACall,
        Some(
            BatchOrder {
                ask: Ask::Command(_),
                ..
            },
        ) => Fault::NotBytes,
        Some(_) => Fault::TooManyWords,
    };
    lent(Action::Several(Several::Orders), words, otherwise)
}

// One order more, the data of a command behind those of the orders before.
fn order(words: &mut Words, memory: &mut Memory) -> Result<(), Fault> {
    let (ask, len) = match words.next() {
        b"raise" => (Ask::Raise(words.fitting()?), 0),
        b"lower" => (Ask::Lower(words.fitting()?), 0),
        b"command" => (
            Ask::Command(words.hex_byte()?),
            words.bytes(&mut memory.given)?,
        ),
        _ => return Err(Fault::NotACall),
    };
    memory.orders.push(BatchOrder { ask, len })?;
    Ok(())
}

// box-all BYTES / BYTES ..
pub(crate) fn frames(mut words: Words, memory: &mut Memory) -> Result<Asked, Fault> {
    memory.lengths.clear();
    if !ends(&words) {
        // each frame but the last has a slash behind it
        for _ in 0..=words.rest().len() {
            let len = words.bytes(&mut memory.given)?;
            memory.lengths.push(len)?;
            if !slash(&mut words) {
                break;
            }
        }
    }
    lent(Action::Several(Several::Frames), words, Fault::NotBytes)
}

// to-box-all I I ..
pub(crate) fn carried(mut words: Words, memory: &mut Memory) -> Result<Asked, Fault> {
    memory.lengths.clear();
    // each frame takes a word at least
    for _ in 0..words.rest().len() {
        if ends(&words) {
            break;
        }
        let frame = carried::numbered(End::Office, &mut words, &memory.written)?;
        // a run of more frames is refused whatever they are, so that no line allocates for them
        if memory.lengths.len() < BATCH_LIMIT {
            memory.given.extend_from_slice(frame)?;
        }
        memory.lengths.push(frame.len())?;
    }
    lent(Action::Several(Several::Frames), words, Fault::NotBytes)
}

// box-cut N N .. / BYTES
pub(crate) fn cut(mut words: Words, memory: &mut Memory) -> Result<Asked, Fault> {
    memory.lengths.clear();
    // each length takes a word at least
    for _ in 0..words.rest().len() {
        if ends(&words) {
            break;
        }
        if slash(&mut words) {
            words.bytes(&mut memory.given)?;
            break;
        }
        memory.lengths.push(words.number(u64::MAX)? as usize)?;
    }
    lent(Action::Several(Several::Frames), words, Fault::NotBytes)
}
