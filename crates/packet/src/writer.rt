// The packet writer.
ghost use Rattle.std.specs.Prelude.{◌≡◌, ◌≤◌};
ghost use Rattle.packet.specs.Packet.{command_byte};
ghost use Rattle.base.specs.Writes.{Writes};
ghost use Rattle.packet.specs.Writer.{id_most, written};

use crate::builder::{DATA_MOST, build};
use base::{Refusal, Written, put};

// Whether a command writes a register or reads it: document 01's "way".
#[derive(Clone, Copy, PartialEq, Eq)]
pub enum Access {
    Write,
    Read,
}

// The highest ID.
const ID_MOST: u8 = 127;

// Writes a packet at the start of out. A refusal leaves out as it was.
#[tactic(auto, unfolding(crate::specs::Writer::written))]
pub fn write(id: u8, access: Access, bytes: &[u8], out: &mut [u8]) -> Written
    ensures { Writes (written id access bytes.now) result out.old out.new }
{
    if ID_MOST < id {
        return Err(Refusal::IdTooLarge);
    }
    if DATA_MOST < bytes.len() {
        return Err(Refusal::DataTooLong);
    }
    put(build(command_byte(id, access), bytes).as_slice(), out)
}

fn command_byte(id: u8, access: Access) -> u8
    requires { id ≤ id_most }
    ensures { result ≡ command_byte id access }
{
    match access {
        Access::Write => 2 * id,
        Access::Read => 2 * id + 1,
    }
}
