// A frame wrapped in an outer field.
ghost use Rattle.std.specs.Prelude.{◌≡◌, ◌≤◌, true};
ghost use Rattle.base.specs.Writes.{Writes};
ghost use Rattle.wrapping.specs.Wrapping.{contents_most, fits as fits_length, wrapping};

use base::{Refusal, Written, store};
use wrapping::CONTENTS_MOST;

// The longest field.
pub const WRAPPED_MOST: usize = CONTENTS_MOST + HEAD;

// The outer field's tag, and the length of tag and length together.
pub(crate) const OUTER_TAG: u8 = 0x01;

const HEAD: usize = 3;

#[tactic(auto, unfolding(wrapping::specs::Wrapping::fits))]
pub(crate) fn fits(len: usize) -> bool
    ensures value { result ≡ fits_length len }
    ensures within { result ≡ true → len ≤ contents_most }
{
    (1..=CONTENTS_MOST).contains(&len)
}

// Writes the wrapped frame at the start of out. A refusal leaves out as it was.
#[tactic(auto, unfolding(wrapping::specs::Wrapping::wrapping))]
pub fn wrap(frame: &[u8], out: &mut [u8]) -> Written
    ensures { Writes (wrapping frame.now) result out.old out.new }
{
    let len = frame.len();
    if !fits(len) {
        return Err(Refusal::DataTooLong);
    }
    if out.len() < HEAD + len {
        return Err(Refusal::OutputTooShort);
    }
    let [low, high] = (len as u16).to_le_bytes();
    store(&[OUTER_TAG, low, high], out, 0);
    store(frame, out, HEAD);
    Ok(HEAD + len)
}
