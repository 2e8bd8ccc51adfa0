// The output that a call is lent.
use crate::print::Printed;
use packet::PACKET_LIMIT;

// What a byte of an output holds before the call, so that it can be told afterwards whether it is as it was.
const UNTOUCHED: u8 = 0xEE;

pub(crate) type Page = [u8; PACKET_LIMIT];

pub(crate) fn untouched() -> Page {
    [UNTOUCHED; PACKET_LIMIT]
}

// As many bytes as are asked for, and no more than there are.
pub(crate) fn lent(page: &mut Page, len: usize) -> &mut [u8] {
    &mut page[..len.min(PACKET_LIMIT)]
}

// The end of an answer: behind `into N`, how many bytes of the rest are as they were.
pub(crate) fn told(out: &mut String, into: Option<usize>, rest: &[u8]) -> Printed {
    if into.is_some() {
        let count = rest.iter().filter(|byte| **byte == UNTOUCHED).count();
        write!(out, ", {count} untouched")?;
    }
    out.push_str("\n")
}
