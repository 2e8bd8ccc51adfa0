// Plays a script from standard input: a line is a call at the cab box, at an office or at a controller on the bench, or
// a frame carried from one end to the other. It prints what each call answered, and whether that is what the line expects.
#![tactic(auto)]

mod arguments;
mod asked;
mod batches;
mod bench;
mod carried;
mod describe;
mod encoding;
mod ends;
mod explain;
mod frames;
mod held;
mod lending;
mod lines;
mod offices;
mod packets;
mod perform;
mod play;
mod print;
mod registers_named;
mod several;
mod show;
mod streamed;
mod streams;
mod whole;
mod world;

use play::{BLOCK_LIMIT, Play};
use std::io;
use std::io::{Read, Stdin};

// What is printed of the lines of one read is written before the next one, so that whoever types sees each answer at once.
// A proved loop has to end, and an input need not. So the reads are counted, up to a number that no run uses up.
fn read_all(mut from: Stdin, play: &mut Play) -> io::Result<()> {
    let mut input = [0u8; BLOCK_LIMIT];
    for _ in 0..u64::MAX {
        let len = from.read(&mut input)?;
        if len == 0 {
            return play.end();
        }
        play.read(&input[..len])?;
    }
    Ok(())
}

fn main(rt: HostRuntime) -> io::Result<()> {
    let mut play = Play::new(rt.alloc(), rt.stdout())?;
    read_all(rt.stdin(), &mut play)
}
