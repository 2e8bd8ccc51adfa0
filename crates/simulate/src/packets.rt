// The packet writer and the reply reader.
use crate::print::Printed;
use crate::{lending, print};
use packet::{Access, PACKET_LIMIT};
use std::alloc::AllocError;

// packet write ID BYTES, packet read ID BYTES; behind `into N` the packet's length is told in its place
pub(crate) fn packet(
    out: &mut String,
    id: u8,
    access: Access,
    into: Option<usize>,
    bytes: &[u8],
) -> Printed {
    let mut page = lending::untouched();
    let lent = lending::lent(&mut page, into.unwrap_or(PACKET_LIMIT));
    let len = match packet::write(id, access, bytes, lent) {
        Ok(len) => {
            if into.is_some() {
                write!(out, "packet of {len} bytes")?;
            } else {
                out.push_str("packet")?;
                print::bytes(out, text::part(lent, 0, len))?;
            }
            len
        }
        Err(refusal) => {
            print::refused(out, refusal)?;
            0
        }
    };
    lending::told(out, into, text::part(lent, len, lent.len()))
}

// reply write BYTES, reply read BYTES: the first reply among the bytes, and where it ends
pub(crate) fn reply(out: &mut String, access: Access, bytes: &[u8]) -> Printed {
    match first_reply(out, "reply", access, bytes)? {
        Some(end) => writeln!(out, " end {end}"),
        None => out.push('\n'),
    }
}

// exchange write BYTES, exchange read BYTES: the reply among the bytes sent
pub(crate) fn response(out: &mut String, access: Access, sent: &[u8]) -> Printed {
    first_reply(out, "response", access, sent)?;
    out.push('\n')
}

// The first reply among the bytes, behind a word; where it ends, if there is one.
fn first_reply(
    out: &mut String,
    word: &str,
    access: Access,
    bytes: &[u8],
) -> Result<Option<usize>, AllocError> {
    match reply::read_reply(access, bytes) {
        Ok(found) => {
            out.push_str(word)?;
            print::byte(out, found.response)?;
            out.push_str(" data")?;
            print::bytes(
                out,
                text::part(number::rest(bytes, found.start), 0, found.count),
            )?;
            Ok(Some(found.end))
        }
        Err(refusal) => {
            print::refused(out, refusal)?;
            Ok(None)
        }
    }
}
