// What a call answers that writes into a lent output, and bytes written there whole.
ghost use Rattle.base.specs.Writes.{Writes, fitting};

use crate::refusal::Refusal;

// How many bytes were written, at the start of the output.
pub type Written = Result<usize, Refusal>;

// Writes all of the bytes at the start of out, or none where they have no room.
#[tactic(auto, unfolding(crate::specs::Writes::fitting))]
pub fn put(bytes: &[u8], out: &mut [u8]) -> Written
    ensures { Writes (fitting bytes.now) result out.old out.new }
{
    if out.len() < bytes.len() {
        return Err(Refusal::OutputTooShort);
    }
    out[..bytes.len()].copy_from_slice(bytes);
    Ok(bytes.len())
}
