// A packet by value.
ghost use Rattle.std.specs.Prelude.{◌≡◌, ◌+◌, ◌≤◌, length, take};
ghost use Rattle.packet.specs.Packet.{data_most, packet_limit, escape_byte, escape, packet_of};
ghost use Rattle.packet.specs.Writer.{built};
ghost use Rattle.packet.specs.Steps.{Put, head};

use crate::sum::checksum;

// The longest packet's length.
pub const PACKET_LIMIT: usize = 516;

// A packet's most data bytes.
pub const DATA_MOST: usize = 255;

const START: u8 = 0xA5;

const ESCAPE: u8 = 0x5A;

// A packet's first len bytes, as a value that may be copied.
#[derive(Clone, Copy)]
pub struct Packet {
    pub bytes: [u8; PACKET_LIMIT],
    pub len: usize,
}

impl Packet {
    // Where len is over the limit, which no call returns, all bytes.
    pub fn as_slice(&self) -> &[u8]
        ensures value { result.now ≡ take self.now.len self.now.bytes }
        ensures fits { length result.now ≤ packet_limit }
    {
        &self.bytes[..PACKET_LIMIT.min(self.len)]
    }
}

// The packet of a command byte and its data. Data past the most are left out: a caller that takes longer data refuses them before.
pub fn build(command: u8, bytes: &[u8]) -> Packet
    ensures { result ≡ built (packet_of command (take data_most bytes.now)) }
{
    let data = &bytes[..DATA_MOST.min(bytes.len())];
    let count = data.len() as u8;
    let mut packet = Packet {
        bytes: [0; PACKET_LIMIT],
        len: 0,
    };
    let start = put_head(command, count, &mut packet.bytes);
    let end = put_all(data, &mut packet.bytes, start);
    packet.len = put(checksum(command, count, data), &mut packet.bytes, end);
    packet
}

// The start, the command byte and the count.
fn put_head(command: u8, count: u8, out: &mut [u8; PACKET_LIMIT]) -> usize
    ensures { Put (head command count) 0 out.old out.new result }
{
    out[0] = START;
    let at = put(command, out, 1);
    put(count, out, at)
}

// Stores bytes escaped at out[start] and on, and answers the place after them.
fn put_all(bytes: &[u8], out: &mut [u8; PACKET_LIMIT], start: usize) -> usize
    requires { start + length (escape bytes.now) ≤ packet_limit }
    ensures { Put (escape bytes.now) start out.old out.new result }
{
    let mut at = start;
    for byte in bytes {
        at = put(*byte, out, at);
    }
    at
}

// The same of one byte.
#[tactic(auto, unfolding(crate::specs::Packet::escape_byte))]
fn put(byte: u8, out: &mut [u8; PACKET_LIMIT], at: usize) -> usize
    requires { at + length (escape_byte byte) ≤ packet_limit }
    ensures { Put (escape_byte byte) at out.old out.new result }
{
    match byte {
        START => {
            out[at] = ESCAPE;
            out[at + 1] = 0;
            at + 2
        }
        ESCAPE => {
            out[at] = ESCAPE;
            out[at + 1] = ESCAPE;
            at + 2
        }
        _ => {
            out[at] = byte;
            at + 1
        }
    }
}
