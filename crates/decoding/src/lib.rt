// Bytes of the adjustment link to frames, or to what is wrong with them.
#![tactic(auto)]

mod fault;
mod read;

ghost use Rattle.std.specs.Prelude.{◌≡◌};
ghost use Rattle.frame.specs.View.{frame_of, meaning};
ghost use Rattle.judging.specs.Decoding as spec;
ghost use Rattle.judging.specs.View as view;

use base::Fault;
use fault::check;
use frame::Frame;
use judging::End;
use read::frame_in;

// The frame that bytes are at an end, with nothing after it, or what is wrong with them.
pub fn decode(end: End, bytes: &[u8]) -> Result<Frame, Fault>
    ensures fault { view.fault_found result ≡ view.fault_in (spec.decode end bytes.now) }
    ensures whole { view.frame_found result ≡ frame_of (view.frame_read (spec.decode end bytes.now)) }
    ensures meaning { meaning (view.frame_found result) ≡ view.frame_read (spec.decode end bytes.now) }
{
    check(end, bytes)?;
    Ok(frame_in(bytes))
}
