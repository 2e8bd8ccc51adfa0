// A line that is whole: its call, and the answer that it expects.
use crate::asked::Fault;
use std::alloc::{AllocError, Global};

// The longest line.
pub(crate) const LINE_LIMIT: usize = 4096;

// The line that is being read, and its number in the script.
#[derive(Drop)]
pub(crate) struct Line {
    // No more than one byte beyond the limit.
    text: Vec<u8>,
    pub number: u64,
}

impl Line {
    pub(crate) fn new(alloc: Global) -> Result<Line, AllocError> {
        Ok(Line {
            text: Vec::with_capacity(alloc, LINE_LIMIT + 1)?,
            number: 1,
        })
    }

    pub(crate) fn extend(&mut self, more: &[u8]) -> Result<(), AllocError> {
        let room = (LINE_LIMIT + 1).saturating_sub(self.text.len());
        self.text
            .extend_from_slice(more.get(..room).unwrap_or(more))
    }

    // What stands before ` ->`, without the spaces in front of it, and the answer expected behind that, if one is. What stands behind `#` is
    // no part of the line.
    pub(crate) fn parts(&self) -> (Result<&[u8], Fault>, Option<&[u8]>) {
        let text = self.text.as_slice();
        if text.len() > LINE_LIMIT {
            return (Err(Fault::TooLong), None);
        }
        let line = text::part(text, 0, text::find(text, 0, b'#'));
        let at = text::find(line, 0, b'>');
        let call = text::part(line, 0, at).strip_suffix(b" -");
        let expected = number::rest(line, at).strip_prefix(b">");
        match (call, expected) {
            (Some(call), Some(expected)) => (Ok(text::skip_spaces(call)), Some(trimmed(expected))),
            _ => (Ok(text::skip_spaces(line)), None),
        }
    }

    // The next line begins.
    pub(crate) fn begin_next(&mut self) {
        self.text.clear();
        self.number = self.number.wrapping_add(1);
    }
}

// Without the spaces around it.
fn trimmed(s: &[u8]) -> &[u8] {
    let behind = s.iter().rev().take_while(|byte| **byte == b' ').count();
    text::skip_spaces(text::part(s, 0, s.len().saturating_sub(behind)))
}
