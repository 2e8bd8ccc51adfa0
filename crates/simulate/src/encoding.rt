// Frames of the link to bytes and back.
use crate::arguments::Words;
use crate::asked::{Action, Asked, Fault, Made, Said};
use crate::frames::Memory;
use crate::print::Printed;
use crate::{asked, print};
use frame::{Change, Frame, Kind, OrderNumber, SessionId};
use judging::End;
use settings::Settings;

// encode open S, welcome S, order S N raise N, lower N or command BYTES, ack S N, refuse S N
pub(crate) fn encode(words: Words, memory: &mut Memory) -> Result<Asked, Fault> {
    let given = &mut memory.given;
    let frame = named(words, given).ok_or(Fault::NotAFrame)?;
    given.clear();
    given.extend_from_slice(link::encode(frame).as_slice())?;
    Ok(asked::plain(Action::Say(Said::Made(Made::Encoded))))
}

// The frame that the words name; the data of a command are given.
fn named(mut words: Words, given: &mut Vec<u8>) -> Option<Frame> {
    let kind = words.next();
    let session = SessionId(words.fitting().ok()?);
    if words.is_empty() {
        return match kind {
            b"open" => Some(Frame::opening(session)),
            b"welcome" => Some(Frame::welcome(session, Settings::fresh())),
            _ => None,
        };
    }
    let number = words.fitting().ok()?;
    if kind == b"order".as_slice() {
        return Some(Frame::order(session, OrderNumber(number), change(words, given)?));
    }
    if !words.is_empty() {
        return None;
    }
    match kind {
        b"ack" => Some(Frame::ack(session, OrderNumber(number))),
        b"refuse" => Some(Frame::refuse(session, u8::try_from(number).ok()?)),
        _ => None,
    }
}

fn change(mut words: Words, given: &mut Vec<u8>) -> Option<Change> {
    match words.next() {
        b"raise" => Some(Change::raise(step(words)?)),
        b"lower" => Some(Change::lower(step(words)?)),
        b"command" => command(words, given),
        _ => None,
    }
}

// All of the rest, with any space behind it.
fn step(words: Words) -> Option<u16> {
    u16::try_from(text::decimal(words.rest()).ok()?).ok()
}

fn command(mut words: Words, given: &mut Vec<u8>) -> Option<Change> {
    let command = words.hex_byte().ok()?;
    words.bytes(given).ok()?;
    if !words.is_empty() {
        return None;
    }
    Change::command(command, given.as_slice()).ok()
}

// decode box BYTES, decode office BYTES
pub(crate) fn decoded(out: &mut String, end: End, bytes: &[u8]) -> Printed {
    match decoding::decode(end, bytes) {
        Ok(frame) => told(out, frame)?,
        Err(fault) => print::faulty(out, fault)?,
    }
    out.push_str("\n")
}

// A number that is told in several arms is bound first: a format string names variables alone.
fn told(out: &mut String, frame: Frame) -> Printed {
    let session = frame.session.0;
    let number = frame.number.0;
    match frame.kind {
        Kind::Malformed => out.push_str("malformed"),
        Kind::Opening => write!(out, "open {session}"),
        Kind::Welcome => write!(out, "welcome {session}"),
        Kind::Order => write!(out, "order {session} {number}"),
        Kind::Ack => write!(out, "ack {session} {number}"),
        Kind::Refuse(refusal) => write!(out, "refuse {session} {refusal}"),
    }
}
