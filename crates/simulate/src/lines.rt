// A line's call, by its first word.
use crate::arguments::{Words, ended, lent, lent_with_bytes, with_bytes};
use crate::asked::{Action, Asked, Fault, Holder, Made, OfficesTask, Said, Task, Told};
use crate::frames::Memory;
use crate::offices::OFFICES;
use crate::world::ROOM_LIMIT;
use crate::{asked, carried, encoding, explain, registers_named, several, streamed};
use calls::Call;
use frame::{Ask, OrderNumber, SessionId};
use judging::End;
use packet::Access;

// A call; s is not empty, and no space stands at its front.
pub(crate) fn read(s: &[u8], opened: u32, memory: &mut Memory) -> Result<Asked, Fault> {
    memory.given.clear();
    let mut words = Words::new(s);
    match words.next() {
        b"to-box" => carried::carried(End::Office, words, memory),
        b"to-office" => carried::carried(End::Box, words, memory),
        b"raise" => without_bytes(Call::Issue(Ask::Raise(words.fitting()?)), words),
        b"lower" => without_bytes(Call::Issue(Ask::Lower(words.fitting()?)), words),
        b"resend" => without_bytes(Call::Resend(OrderNumber(words.fitting()?)), words),
        b"open" => without_bytes(Call::OpenSession(SessionId(words.fitting()?)), words),
        b"reopen" => without_bytes(Call::Reopen, words),
        b"command" => of_bytes(Call::Issue(Ask::Command(words.hex_byte()?)), words, memory),
        b"box" => of_bytes(Call::BoxFrame, words, memory),
        b"office" => of_bytes(Call::OfficeFrame, words, memory),
        b"issue-all" => several::orders(words, memory),
        b"box-all" => several::frames(words, memory),
        b"to-box-all" => several::carried(words, memory),
        b"box-cut" => several::cut(words, memory),
        b"stream" => streamed::stream(Holder::Bench, words, memory),
        b"stream-box" => streamed::stream(Holder::Box, words, memory),
        b"stream-office" => streamed::stream(Holder::Office, words, memory),
        b"pieces-box" => streamed::pieces(Holder::Box, End::Office, words, memory),
        b"pieces-office" => streamed::pieces(Holder::Office, End::Box, words, memory),
        b"wrap" => streamed::wrap(words, memory),
        b"restart" => restart(words, opened),
        b"room" => room(words),
        b"issue-many" => ended(Action::Task(Task::Many(words.fitting()?)), words),
        b"use" => use_office(words),
        b"fresh" => ended(Action::Offices(OfficesTask::Fresh), words),
        name => bench_or_told(name, words, memory),
    }
}

// The calls that change neither end.
fn bench_or_told(name: &[u8], mut words: Words<'_>, memory: &mut Memory) -> Result<Asked, Fault> {
    match name {
        b"bus" => with_bytes(Action::Task(Task::Bus(None)), words, memory),
        b"exchange" => {
            let task = Task::Bus(Some(access(&mut words)?));
            with_bytes(Action::Task(task), words, memory)
        }
        b"packet" => packet(words, memory),
        b"reply" => made(Made::Reply(access(&mut words)?), words, memory),
        b"decode" => made(Made::Decoded(end(&mut words)?), words, memory),
        b"encode" => encoding::encode(words, memory),
        b"explain" => explain::asked(words),
        b"show" => told(Told::Show, words),
        b"describe" => told(Told::Describe, words),
        b"word" => told(Told::Progress, words),
        b"dropped" => told(Told::Dropped, words),
        b"held" => registers_named::held(Holder::Bench, words),
        b"box-held" => registers_named::held(Holder::Box, words),
        b"office-held" => registers_named::held(Holder::Office, words),
        _ => Err(Fault::NotACall),
    }
}

// A call that takes no bytes, or those that the line gives, and may be lent an output of its own.
fn without_bytes(call: Call, words: Words<'_>) -> Result<Asked, Fault> {
    lent(Action::Call(call), words, Fault::TooManyWords)
}

fn of_bytes(call: Call, words: Words<'_>, memory: &mut Memory) -> Result<Asked, Fault> {
    lent_with_bytes(Action::Call(call), words, memory)
}

fn made(made: Made, words: Words<'_>, memory: &mut Memory) -> Result<Asked, Fault> {
    with_bytes(Action::Say(Said::Made(made)), words, memory)
}

fn told(told: Told, words: Words<'_>) -> Result<Asked, Fault> {
    ended(Action::Say(Said::Told(told)), words)
}

// restart, or restart N
fn restart(mut words: Words<'_>, opened: u32) -> Result<Asked, Fault> {
    let highest = if words.is_empty() {
        opened
    } else {
        words.fitting()?
    };
    ended(Action::Task(Task::Restart(SessionId(highest))), words)
}

// room N
fn room(mut words: Words<'_>) -> Result<Asked, Fault> {
    let n = words.number(ROOM_LIMIT as u64)?;
    ended(Action::Task(Task::Room(n as usize)), words)
}

// use N
fn use_office(mut words: Words<'_>) -> Result<Asked, Fault> {
    let n = words.number(OFFICES as u64)?;
    if n == 0 {
        return Err(Fault::OutOfRange);
    }
    ended(Action::Offices(OfficesTask::Use(n as usize)), words)
}

// packet write ID BYTES, packet read ID BYTES
fn packet(mut words: Words<'_>, memory: &mut Memory) -> Result<Asked, Fault> {
    let access = access(&mut words)?;
    let id = words.hex_byte()?;
    let action = Action::Say(Said::Made(Made::Packet(id, access)));
    lent_with_bytes(action, words, memory)
}

fn access(words: &mut Words<'_>) -> Result<Access, Fault> {
    match words.next() {
        b"write" => Ok(Access::Write),
        b"read" => Ok(Access::Read),
        _ => Err(Fault::NotACall),
    }
}

fn end(words: &mut Words<'_>) -> Result<End, Fault> {
    match words.next() {
        b"box" => Ok(End::Box),
        b"office" => Ok(End::Office),
        _ => Err(Fault::NotACall),
    }
}
