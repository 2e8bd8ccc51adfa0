// The batches of orders and runs of frames of demand 3's list, at the code's own box and at one office.
#![tactic(auto)]

ghost use Rattle.std.specs.Prelude.{length};
ghost use Rattle.std.proofs.Common.{inl, inr};
ghost use Rattle.outcome.specs.Batch.{GivesParts};
ghost use Rattle.session.specs.Calls as list;
ghost use Rattle.session.specs.OneOffice.{pair_rules};

use outcome::{BatchAnswered, BatchOrder};
use session::Pair;

// A batch of orders at the office. The bytes are their data.
pub fn issue_all(
    ends: Pair,
    orders: &[BatchOrder],
    bytes: &[u8],
    out: &mut [u8],
) -> BatchAnswered<Pair>
    ensures { GivesParts (pair_rules ends (inr (list.issue_all orders.now bytes.now (length out.old)))) result out.old out.new }
{
    let issued = order_batch::issue_all(ends.office, orders, bytes, out);
    issued.with_state(Pair {
        office: issued.state,
        ..ends
    })
}

// A run of frames at the box.
pub fn box_frames(
    ends: Pair,
    lengths: &[usize],
    bytes: &[u8],
    out: &mut [u8],
) -> BatchAnswered<Pair>
    ensures { GivesParts (pair_rules ends (inl (list.box_frames lengths.now bytes.now (length out.old)))) result out.old out.new }
{
    let judged = frame_run::frames_in(ends.cab, lengths, bytes, out);
    judged.with_state(Pair {
        cab: judged.state,
        ..ends
    })
}
