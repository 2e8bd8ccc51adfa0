// The arguments of a call: numbers, bytes, and how a line ends.
use crate::asked;
use crate::asked::{Action, Asked, Fault};
use crate::frames::Memory;
use packet::PACKET_LIMIT;
use std::alloc::AllocError;

// What is left of a line; no space stands at its front.
#[derive(Clone, Copy)]
pub(crate) struct Words<'a> {
    rest: &'a [u8],
}

impl<'a> Words<'a> {
    pub(crate) fn new(line: &'a [u8]) -> Words<'a> {
        Words {
            rest: text::skip_spaces(line),
        }
    }

    pub(crate) fn rest(&self) -> &'a [u8] {
        self.rest
    }

    pub(crate) fn is_empty(&self) -> bool {
        self.rest.is_empty()
    }

    // The next word, which stays.
    pub(crate) fn peek(&self) -> &'a [u8] {
        text::word(self.rest)
    }

    // The next word; an empty one where the line has ended.
    pub(crate) fn next(&mut self) -> &'a [u8] {
        let word = text::word(self.rest);
        self.rest = text::after_word(self.rest);
        word
    }

    pub(crate) fn number(&mut self, limit: u64) -> Result<u64, Fault> {
        let n = text::decimal(self.next())?;
        if n > limit {
            return Err(Fault::OutOfRange);
        }
        Ok(n)
    }

    // A number of this type.
    pub(crate) fn fitting<N: TryFrom<u64>>(&mut self) -> Result<N, Fault>
    where
        N::Error: Drop,
    {
        N::try_from(self.number(u64::MAX)?).map_err(|_| Fault::OutOfRange)
    }

    pub(crate) fn hex_byte(&mut self) -> Result<u8, Fault> {
        text::hex_byte(self.next()).ok_or(Fault::NotBytes)
    }

    // As many bytes as stand next go behind those given; how many they are.
    pub(crate) fn bytes(&mut self, given: &mut Vec<u8>) -> Result<usize, AllocError> {
        let before = given.len();
        // a proved loop has to end, so the turns are counted: a byte takes a word at least
        for _ in 0..self.rest.len() {
            let Some(byte) = text::hex_byte(self.peek()) else {
                break;
            };
            given.push(byte)?;
            self.next();
        }
        Ok(given.len().saturating_sub(before))
    }

    pub(crate) fn end(&self) -> Result<(), Fault> {
        if self.is_empty() {
            return Ok(());
        }
        Err(Fault::TooManyWords)
    }

    // What `into N` at the line's end lends, or nothing; what else stands there is wrong.
    pub(crate) fn lent(mut self, otherwise: Fault) -> Result<Option<usize>, Fault> {
        match self.next() {
            b"" => Ok(None),
            b"into" => {
                let n = self.number(PACKET_LIMIT as u64)?;
                self.end()?;
                Ok(Some(n as usize))
            }
            _ => Err(otherwise),
        }
    }
}

// A line that ends where its arguments do.
pub(crate) fn ended(action: Action, words: Words<'_>) -> Result<Asked, Fault> {
    words.end()?;
    Ok(asked::plain(action))
}

// An action on a line that may end in `into N`.
pub(crate) fn lent(action: Action, words: Words<'_>, otherwise: Fault) -> Result<Asked, Fault> {
    let lent = words.lent(otherwise)?;
    Ok(Asked { action, lent })
}

// An action whose arguments are bytes.
pub(crate) fn with_bytes(
    action: Action,
    mut words: Words<'_>,
    memory: &mut Memory,
) -> Result<Asked, Fault> {
    words.bytes(&mut memory.given)?;
    if !words.is_empty() {
        return Err(Fault::NotBytes);
    }
    Ok(asked::plain(action))
}

// The same, on a line that may end in `into N`.
pub(crate) fn lent_with_bytes(
    action: Action,
    mut words: Words<'_>,
    memory: &mut Memory,
) -> Result<Asked, Fault> {
    words.bytes(&mut memory.given)?;
    lent(action, words, Fault::NotBytes)
}
