// A frame sent, with the office beside it.
ghost use Rattle.std.specs.Prelude.{◌≡◌, length};
ghost use Rattle.frame.specs.View.{meaning, refusal_of};
ghost use Rattle.outcome.specs.Turn.{Gives};
ghost use Rattle.office.specs.View as view;

use base::{Refusal, Written};
use frame::Frame;
use outcome::Answered;
use session::Office;

fn verdict_of(written: Written) -> Result<(), Refusal>
    ensures { refusal_of result ≡ refusal_of written }
{
    written?;
    Ok(())
}

// Writes a frame at the start of out, and hands on the office as it is. A refusal leaves out as it was.
// Without a match, which would copy the office in each arm; always inlined, since a call copies the office in and out.
#[inline(always)]
pub fn send(office: Office, frame: Frame, out: &mut [u8]) -> Answered<Office>
    ensures { Gives (view.sent office (meaning frame) (length out.old)) result out.old out.new }
{
    let sent = link::send(frame, out);
    let verdict = verdict_of(sent);
    let len = sent.unwrap_or(0);
    Answered {
        state: office,
        verdict,
        len,
    }
}
