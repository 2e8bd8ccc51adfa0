// What is wrong with bytes as a frame: the first fault, field by field.
ghost use Rattle.std.specs.Prelude.{◌≡◌, ◌<◌, ◌+◌, drop, Err};
ghost use Rattle.judging.specs.Decoding as spec;
ghost use Rattle.judging.specs.View.{fault_found};
ghost use Rattle.decoding.specs.Steps as steps;

use base::{Fault, FrameFault};
use frame::DATA_LIMIT;
use judging::End;
use link::tag;
use number::{byte, le16, le32, rest};
use registers::{BLOCK, block, from_block};

// A field's tag and length.
const HEADER: usize = 3;

// How long contents are: a session; one with a number or a count; one with a refusal; a step.
const SESSION: usize = 4;

const NUMBERED: usize = SESSION + 2;

const REFUSING: usize = SESSION + 1;

const STEP: usize = 2;

fn is_first(tag: u8) -> bool
    ensures { result ≡ spec.is_first tag }
{
    matches!(tag, tag::OPENING..=tag::REFUSE)
}

fn is_change(tag: u8) -> bool
    ensures { result ≡ spec.is_change tag }
{
    matches!(tag, tag::COMMAND..=tag::LOWER)
}

fn is_for(end: End, tag: u8) -> bool
    ensures { result ≡ spec.is_for end tag }
{
    match end {
        End::Box => matches!(tag, tag::OPENING | tag::ORDER),
        End::Office => matches!(tag, tag::WELCOME | tag::ACK | tag::REFUSE),
    }
}

#[tactic(auto, unfolding(judging::specs::Decoding::length_right))]
fn length_right(tag: u8, len: usize) -> bool
    ensures { result ≡ spec.length_right tag len }
{
    match tag {
        tag::OPENING | tag::WELCOME => len == SESSION,
        tag::ORDER | tag::ACK => len == NUMBERED,
        tag::REFUSE => len == REFUSING,
        tag::SETTINGS => len == BLOCK,
        tag::COMMAND => 1 <= len && len <= 1 + DATA_LIMIT,
        _ => len == STEP,
    }
}

// Settings that a controller could hold, in the bytes that it would write.
#[tactic(auto, unfolding(judging::specs::Decoding::settings_allowed))]
fn settings_allowed(contents: &[u8]) -> bool
    ensures { result ≡ spec.settings_allowed contents.now }
{
    let settings = from_block(contents);
    settings.in_range() && block(settings).as_slice() == contents
}

// A REFUSE carries any byte, so its refusal is a number and no Refusal.
fn refusal_allowed(session: u32, refusal: u8) -> bool
    ensures { result ≡ spec.refusal_allowed session refusal }
{
    match refusal {
        5..=7 => true,
        14..=19 => session == 0,
        _ => false,
    }
}

#[tactic(auto, unfolding(judging::specs::Decoding::contents_allowed))]
fn contents_allowed(tag: u8, contents: &[u8]) -> bool
    ensures { result ≡ spec.contents_allowed tag contents.now }
{
    match tag {
        tag::ORDER => 1 <= le16(rest(contents, SESSION)),
        tag::REFUSE => refusal_allowed(le32(contents), byte(contents, SESSION)),
        tag::SETTINGS => settings_allowed(contents),
        _ => true,
    }
}

// What is left of a frame, and its offset in it.
#[derive(Clone, Copy)]
struct Left<'a> {
    bytes: &'a [u8],
    offset: usize,
}

impl<'a> Left<'a> {
    // How long the contents of the field at the front are, by its own header.
    fn contents_length(self) -> usize
        ensures value { result ≡ spec.contents_length self.entry.bytes.now }
        ensures small { result < 65536 }
    {
        usize::from(le16(rest(self.bytes, 1)))
    }

    // Behind the field at the front. The offset's limit is asked at each call, since it is past the limit behind a second field.
    fn behind_field(self) -> Left<'a>
        requires { self.offset < steps.offset_limit }
        ensures bytes { result.bytes.now ≡ drop (spec.field_length self.entry.bytes.now) self.entry.bytes.now }
        ensures offset { result.offset ≡ self.entry.offset + spec.field_length self.entry.bytes.now }
    {
        let len = HEADER + self.contents_length();
        Left {
            bytes: rest(self.bytes, len),
            offset: self.offset + len,
        }
    }

    fn fault(self, kind: FrameFault) -> Result<(), Fault>
        ensures { result ≡ Err (record { kind = kind; offset = self.entry.offset }) }
    {
        Err(Fault {
            kind,
            offset: self.offset,
        })
    }

    // In the field at the front, where a tag like its own is expected or not. Always inlined, since a call passes what is left, and its Result, through memory.
    #[inline(always)]
    #[tactic(auto, unfolding(judging::specs::Decoding::field_fault))]
    fn check_field(self, expected: bool) -> Result<(), Fault>
        ensures { fault_found result ≡ spec.field_fault expected self.entry.bytes.now self.entry.offset }
    {
        let tag = byte(self.bytes, 0);
        let len = self.contents_length();
        if self.bytes.len() < HEADER + len {
            return self.fault(FrameFault::Truncated);
        }
        if !expected {
            return self.fault(FrameFault::UnexpectedTag);
        }
        if !length_right(tag, len) {
            return self.fault(FrameFault::WrongLength);
        }
        if !contents_allowed(tag, &rest(self.bytes, HEADER)[..len]) {
            return self.fault(FrameFault::InvalidContents);
        }
        Ok(())
    }

    // Where the frame must have ended.
    fn check_end(self) -> Result<(), Fault>
        ensures { fault_found result ≡ spec.end_fault self.entry.bytes.now self.entry.offset }
    {
        if self.bytes.is_empty() {
            return Ok(());
        }
        self.fault(FrameFault::TrailingBytes)
    }

    // In the frame's last field, and behind it.
    #[tactic(auto, unfolding(judging::specs::Decoding::last_fault))]
    fn check_last(self, expected: bool) -> Result<(), Fault>
        requires { self.offset < steps.offset_limit }
        ensures { fault_found result ≡ spec.last_fault expected self.entry.bytes.now self.entry.offset }
    {
        self.check_field(expected)?;
        self.behind_field().check_end()
    }

    // Behind the first field, which has this tag.
    #[tactic(auto, unfolding(judging::specs::Decoding::rest_fault))]
    fn check_rest(self, tag: u8) -> Result<(), Fault>
        requires { self.offset < steps.offset_limit }
        ensures { fault_found result ≡ spec.rest_fault tag self.entry.bytes.now self.entry.offset }
    {
        let next = byte(self.bytes, 0);
        match tag {
            tag::WELCOME => self.check_last(next == tag::SETTINGS),
            tag::ORDER => self.check_last(is_change(next)),
            _ => self.check_end(),
        }
    }
}

#[tactic(auto, unfolding(judging::specs::Decoding::fault_told))]
pub(crate) fn check(end: End, bytes: &[u8]) -> Result<(), Fault>
    ensures { fault_found result ≡ spec.fault_told end bytes.now }
{
    let frame = Left { bytes, offset: 0 };
    let tag = byte(bytes, 0);
    frame.check_field(is_first(tag))?;
    if !is_for(end, tag) {
        return frame.fault(FrameFault::OtherEnd);
    }
    frame.behind_field().check_rest(tag)
}
