// What several answers print: bytes in hexadecimal, and what a call answered. These are functions, here and elsewhere, since an impl of Display for
// another crate's type cannot stand in this one, and a type of its own around each would be longer.
use base::{Fault, Refusal};
use std::alloc::AllocError;

// The answer is gathered in a String, which may want more memory.
pub(crate) type Printed = Result<(), AllocError>;

const DIGITS: &[u8; 16] = b"0123456789ABCDEF";

// A space and the byte. By `{:02X}` it takes eight times as long, and frames are most of what a long session prints.
pub(crate) fn byte(out: &mut String, b: u8) -> Printed {
    out.push(' ')?;
    out.push(char::from(DIGITS[usize::from(b / 16)]))?;
    out.push(char::from(DIGITS[usize::from(b % 16)]))
}

pub(crate) fn bytes(out: &mut String, s: &[u8]) -> Printed {
    for b in s {
        byte(out, *b)?;
    }
    Ok(())
}

// A line of a word and bytes.
pub(crate) fn named_bytes(out: &mut String, word: &str, s: &[u8]) -> Printed {
    out.push_str(word)?;
    bytes(out, s)?;
    out.push('\n')
}

pub(crate) fn refused(out: &mut String, refusal: Refusal) -> Printed {
    match refusal {
        Refusal::Frame(fault) => faulty(out, fault),
        _ => write!(out, "refused {}", refusal.number()),
    }
}

pub(crate) fn faulty(out: &mut String, fault: Fault) -> Printed {
    write!(out, "refused {} at {}", fault.kind.number(), fault.offset)
}

// What a call answered, and the frame that it wrote.
pub(crate) fn answer(out: &mut String, said: Result<(), Refusal>, frame: &[u8]) -> Printed {
    match said {
        Ok(()) => out.push_str("ok")?,
        Err(refusal) => refused(out, refusal)?,
    }
    bytes(out, frame)
}
