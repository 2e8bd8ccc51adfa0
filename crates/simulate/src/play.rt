// A script that is played, line by line.
use crate::asked::Fault;
use crate::frames::Memory;
use crate::whole::Line;
use crate::world::World;
use crate::{lines, perform};
use std::alloc::Global;
use std::io;
use std::io::{Stdout, Write};

// As many bytes as one read may give, and as are gathered before they are written.
pub(crate) const BLOCK_LIMIT: usize = 65536;

// More than any answer takes, and what it should have been. The longest is that of a line of OPENs to the box's receiver: a WELCOME to
// each, some 25,000 characters.
const ANSWER_LIMIT: usize = 28672;

#[derive(Drop)]
pub(crate) struct Play {
    world: World,
    memory: Memory,
    line: Line,
    // The answer to the line.
    answer: String,
    // How many answers were as expected, and how many not.
    same: u64,
    other: u64,
    // What is printed and not written yet, and where it goes.
    printed: Vec<u8>,
    to: Stdout,
}

impl Play {
    pub(crate) fn new(alloc: Global, to: Stdout) -> io::Result<Play> {
        Ok(Play {
            world: World::fresh(),
            memory: Memory::new(alloc)?,
            line: Line::new(alloc)?,
            answer: String::with_capacity(alloc, ANSWER_LIMIT)?,
            same: 0,
            other: 0,
            printed: Vec::with_capacity(alloc, BLOCK_LIMIT)?,
            to,
        })
    }

    // The bytes of one read: each line that ends among them is done.
    pub(crate) fn read(&mut self, bytes: &[u8]) -> io::Result<()> {
        for piece in bytes.split_inclusive(|byte| *byte == b'\n') {
            match piece.strip_suffix(b"\n") {
                Some(last) => {
                    self.line.extend(last)?;
                    self.end_line()?;
                }
                None => self.line.extend(piece)?,
            }
        }
        self.write()
    }

    // The input has ended, in a line that may have no newline. How many answers were as expected is told where any was expected.
    pub(crate) fn end(&mut self) -> io::Result<()> {
        self.end_line()?;
        if self.same != 0 || self.other != 0 {
            writeln!(
                self.printed,
                "{} answers as expected, {} not",
                self.same, self.other
            )?;
        }
        self.write()
    }

    fn write(&mut self) -> io::Result<()> {
        self.to.write_all(self.printed.as_slice())?;
        self.printed.clear();
        Ok(())
    }

    // What is gathered is written first, unless it leaves room for any answer.
    fn end_line(&mut self) -> io::Result<()> {
        if self.printed.len() > BLOCK_LIMIT - ANSWER_LIMIT {
            self.write()?;
        }
        let number = self.line.number;
        let (call, expected) = self.line.parts();
        self.answer.clear();
        let answered = match call {
            Ok(b"") => Ok(()),
            Ok(call) => answer_call(call, &mut self.world, &mut self.memory, &mut self.answer),
            Err(fault) => Err(fault),
        };
        if let Err(fault) = answered {
            writeln!(self.answer, "line {number}: {fault}")?;
        }
        if !self.answer.is_empty() {
            self.printed.extend_from_slice(self.answer.as_bytes())?;
        }
        if let Some(expected) = expected {
            // an answer ends in a newline, if there is any
            if self.answer.as_bytes().strip_suffix(b"\n").unwrap_or(b"") == expected {
                self.same = self.same.wrapping_add(1);
            } else {
                self.other = self.other.wrapping_add(1);
                write!(self.printed, "line {number}: expected ")?;
                self.printed.extend_from_slice(expected)?;
                self.printed.push(b'\n')?;
            }
        }
        self.line.begin_next();
        Ok(())
    }
}

// Not inlined, since its frame is large, and a line that asks for nothing is not to pay for it.
#[inline(never)]
fn answer_call(
    call: &[u8],
    world: &mut World,
    memory: &mut Memory,
    answer: &mut String,
) -> Result<(), Fault> {
    let asked = lines::read(call, world.opened, memory)?;
    perform::perform(world, asked, memory, answer)?;
    Ok(())
}
