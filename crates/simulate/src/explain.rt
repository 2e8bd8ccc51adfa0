// A refusal in words.
use crate::arguments::Words;
use crate::asked;
use crate::asked::{Action, Asked, Said};
use crate::print::Printed;
use base::{FrameFault, Refusal};

// explain N, explain N at O
pub(crate) fn asked(words: Words<'_>) -> Result<Asked, asked::Fault> {
    let refusal = refusal(words).ok_or(asked::Fault::NotARefusal)?;
    Ok(asked::plain(Action::Say(Said::Explained(refusal))))
}

// A refusal by its number, by a match and no TryFrom: that of a frame needs its offset, which stands behind it.
fn refusal(mut words: Words<'_>) -> Option<Refusal> {
    let n: u8 = words.fitting().ok()?;
    let refusal = match n {
        1 => Refusal::OutputTooShort,
        2 => Refusal::DataTooLong,
        3 => Refusal::IdTooLarge,
        5 => Refusal::NoOpenSession,
        6 => Refusal::WrongSession,
        7 => Refusal::OrderTooFarAhead,
        8 => Refusal::WindowFull,
        9 => Refusal::OrderNumbersExhausted,
        10 => Refusal::OfficeNotOpen,
        11 => Refusal::InvalidReply,
        12 => Refusal::IncompleteReply,
        13 => Refusal::NothingToResend,
        _ => Refusal::Frame(base::Fault {
            kind: frame_fault(n)?,
            offset: offset(&mut words)?,
        }),
    };
    if !words.is_empty() {
        return None;
    }
    Some(refusal)
}

// The inverse of FrameFault's number, which base gives one way alone, and only this explains a number.
fn frame_fault(n: u8) -> Option<FrameFault> {
    match n {
        14 => Some(FrameFault::Truncated),
        15 => Some(FrameFault::UnexpectedTag),
        16 => Some(FrameFault::WrongLength),
        17 => Some(FrameFault::InvalidContents),
        18 => Some(FrameFault::TrailingBytes),
        19 => Some(FrameFault::OtherEnd),
        _ => None,
    }
}

// at O
fn offset(words: &mut Words<'_>) -> Option<usize> {
    if words.next() != b"at".as_slice() {
        return None;
    }
    let offset: u32 = words.fitting().ok()?;
    Some(offset as usize)
}

pub(crate) fn told(out: &mut String, refusal: Refusal) -> Printed {
    write!(out, "{}: ", refusal.number())?;
    match refusal {
        Refusal::OutputTooShort => out.push_str("output too short")?,
        Refusal::DataTooLong => out.push_str(
            "too much data, more than 8 at once, lengths that do not fit the bytes, or a frame that cannot be wrapped",
        )?,
        Refusal::IdTooLarge => out.push_str("ID over 127")?,
        Refusal::NoOpenSession => out.push_str("no session open")?,
        Refusal::WrongSession => out.push_str("not the open session, nor one to open")?,
        Refusal::OrderTooFarAhead => out.push_str("an order before this one is missing")?,
        Refusal::WindowFull => out.push_str("8 orders unanswered")?,
        Refusal::OrderNumbersExhausted => out.push_str("no order number left")?,
        Refusal::OfficeNotOpen => out.push_str("office not open")?,
        Refusal::InvalidReply => out.push_str("reserved response, or wrong sum")?,
        Refusal::IncompleteReply => out.push_str("reply not complete")?,
        Refusal::NothingToResend => out.push_str("nothing to send again")?,
        Refusal::Frame(fault) => faulty(out, fault)?,
    }
    out.push('\n')
}

// The offset is told in several arms, and a format string names variables alone.
fn faulty(out: &mut String, fault: base::Fault) -> Printed {
    let at = fault.offset;
    match fault.kind {
        FrameFault::Truncated => write!(out, "ends inside the field at {at}, or before it"),
        FrameFault::UnexpectedTag => write!(out, "unexpected tag of the field at {at}"),
        FrameFault::WrongLength => write!(out, "wrong length of the field at {at}"),
        FrameFault::InvalidContents => { write!(out, "contents not allowed in the field at {at}") }
        FrameFault::TrailingBytes => write!(out, "bytes after the end, from {at} on"),
        FrameFault::OtherEnd => write!(out, "meant for the other end, by the field at {at}"),
    }
}
