// A frame that one end wrote, carried to the other.
use crate::arguments::{Words, lent};
use crate::asked::{Action, Asked, Fault};
use crate::frames::{Memory, Written};
use calls::Call;
use judging::End;
use text::DecimalError;

// to-box I, to-office I: frame i of those that the end wrote
pub(crate) fn carried(writer: End, mut words: Words, memory: &mut Memory) -> Result<Asked, Fault> {
    let frame = numbered(writer, &mut words, &memory.written)?;
    memory.given.extend_from_slice(frame)?;
    let call = match writer {
        End::Box => Call::OfficeFrame,
        End::Office => Call::BoxFrame,
    };
    lent(Action::Call(call), words, Fault::TooManyWords)
}

// The frame whose number the next word writes.
pub(crate) fn numbered<'a>(
    writer: End,
    words: &mut Words,
    written: &'a Written,
) -> Result<&'a [u8], Fault> {
    match text::decimal(words.next()) {
        Ok(i) => written.by(writer).get(i as usize).ok_or(Fault::NoSuchFrame),
        Err(DecimalError::NotDigits) => Err(Fault::NotANumber),
        Err(DecimalError::TooLarge) => Err(Fault::NoSuchFrame),
    }
}
