// The cab box behind a pipe: reads wrapped frames from standard input as they come, whatever the pieces, and writes the box's answer to
// each, wrapped, to standard output at once. Its argument is the highest session ever opened at the box; none means 0.
#![tactic(auto)]

mod argument;
mod messages;

use frame::SessionId;
use link::FRAME_LIMIT;
use session::Cab;
use std::io;
use std::io::{Read, Stdin, Stdout};
use stream::WRAPPED_MOST;
use wrapping::{Event, Receiver};

// As many bytes as one read may give.
const READ_LIMIT: usize = 4096;

// The box behind its receiver, and how many lengths that has refused.
#[derive(Clone, Copy)]
struct Station {
    cab: Cab,
    receiver: Receiver,
    refused: u64,
}

impl Station {
    fn new(highest: u32) -> Station {
        Station {
            cab: starting::restarted(SessionId(highest)),
            receiver: Receiver::new(),
            refused: 0,
        }
    }

    // Until the input ends. A proved loop has to end, and an input need not, so the reads are counted, up to a number that no run uses up.
    fn run(&mut self, mut from: Stdin, to: Stdout) -> io::Result<()> {
        let mut input = [0u8; READ_LIMIT];
        for _ in 0..u64::MAX {
            let n = from.read(&mut input)?;
            if n == 0 {
                break;
            }
            self.take(to, &input[..n])?;
        }
        Ok(())
    }

    // All bytes of a read.
    fn take(&mut self, to: Stdout, bytes: &[u8]) -> io::Result<()> {
        let mut rest = bytes;
        // a proved loop has to end, so the turns are counted: a call takes one byte at least
        for _ in 0..bytes.len() {
            if rest.is_empty() {
                break;
            }
            let received = stream::receive(self.receiver, rest);
            self.receiver = received.receiver;
            rest = number::rest(rest, received.took);
            match received.event {
                Event::Nothing => {}
                // a refused length gets no answer
                Event::Refused(..) => self.refused = self.refused.wrapping_add(1),
                Event::Frame(len) => self.answer(to, len)?,
            }
        }
        Ok(())
    }

    // The frame is the first bytes of the receiver's buffer.
    fn answer(&mut self, to: Stdout, len: usize) -> io::Result<()> {
        let mut output = [0; FRAME_LIMIT];
        let frame = text::part(&self.receiver.buffer, 0, len);
        let done = cabbox::frame_in(self.cab, frame, &mut output);
        self.cab = done.state;
        write_wrapped(to, text::part(&output, 0, done.len))
    }
}

fn write_wrapped(to: Stdout, frame: &[u8]) -> io::Result<()> {
    let mut field = [0; WRAPPED_MOST];
    // no frame that a box writes is refused
    let Ok(len) = stream::wrap(frame, &mut field) else {
        return Err(io::Error::from(io::ErrorKind::InvalidData));
    };
    to.write_all(text::part(&field, 0, len))
}

fn main(rt: HostRuntime) -> io::Result<()> {
    let Some(highest) = argument::highest(&rt) else {
        return messages::usage(&rt);
    };
    let mut station = Station::new(highest);
    station.run(rt.stdin(), rt.stdout())?;
    messages::lost(&rt, station.receiver.dropped, station.refused)
}
