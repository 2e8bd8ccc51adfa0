// At the office: issuing a batch of orders, all or none.
#![tactic(auto)]

ghost use Rattle.std.specs.Prelude.{◌≡◌, ◌≤◌, length, IfOk};
ghost use Rattle.outcome.specs.Batch.{GivesParts, changes};
ghost use Rattle.session.specs.Office as spec;
ghost use Rattle.order_batch.specs.View as view;

use base::{Refusal, store};
use link::FRAME_LIMIT;
use outcome::{BATCH_LIMIT, BatchAnswered, BatchOrder, Part, Parts, lengths_fit};
use session::Office;

// The most bytes that the frames of a batch take.
const FRAMES_LIMIT: usize = BATCH_LIMIT * FRAME_LIMIT;

// What the orders so far gave. Their data were the first used of the bytes lent, and their frames are the first written of a buffer,
// which is an array, since there is no heap and a refusal leaves the output as it was.
#[derive(Clone, Copy)]
struct Issued {
    office: Office,
    parts: Parts,
    used: usize,
    written: usize,
}

impl Issued {
    // The next order, with its frame behind the earlier ones. A refused one leaves all as it was but the buffer.
    fn issue(&mut self, order: BatchOrder, bytes: &[u8], frames: &mut [u8]) -> Result<(), Refusal>
        requires { view.Ready self.old order bytes.now frames.old }
        ensures { view.Goes self.old order bytes.now result self.new frames.old frames.new }
    {
        let end = self.used + order.len;
        let next = issuing::issue(
            self.office,
            order.ask,
            &bytes[self.used..end],
            &mut frames[self.written..],
        );
        next.verdict?;
        self.office = next.state;
        self.parts = self.parts.with(Part {
            verdict: Ok(()),
            len: next.len,
        });
        self.used = end;
        self.written += next.len;
        Ok(())
    }

    // Each order of a batch that fits, up to a refused one.
    fn issue_each(
        &mut self,
        orders: &[BatchOrder],
        bytes: &[u8],
        frames: &mut [u8],
    ) -> Result<(), Refusal>
        requires { view.AllReady self.old orders.now bytes.now frames.old }
        ensures within { IfOk result (λ _. self.new.written ≤ length frames.new) }
        ensures leads { view.AllGo self.old orders.now bytes.now result self.new frames.old frames.new }
    {
        for order in orders {
            self.issue(*order, bytes, frames)?;
        }
        Ok(())
    }
}

// Whether a batch is short enough, and its data are so many bytes. The lengths are gathered: one try_fold over the orders was tried, its proof not closed.
#[tactic(auto, using(base::proofs::Tests::tests, crate::proofs::Lengths::lengths_more, crate::proofs::Lengths::lengths_all), unfolding(crate::specs::View::batch_fits))]
fn batch_fits(orders: &[BatchOrder], total: usize) -> bool
    ensures { result ≡ view.batch_fits orders.now total }
{
    if BATCH_LIMIT < orders.len() {
        return false;
    }
    let mut lengths = [0; BATCH_LIMIT];
    for (i, order) in orders.iter().enumerate() {
        lengths[i] = order.len;
    }
    lengths_fit(&lengths[..orders.len()], total)
}

// Issues a batch that fits. The frames go out, with the office after them; or nothing, with the office as it was given.
fn issue_fitting(
    office: Office,
    orders: &[BatchOrder],
    bytes: &[u8],
    out: &mut [u8],
) -> BatchAnswered<Office>
    requires { view.Fitting orders.now bytes.now }
    ensures { GivesParts (spec.issue_each office (changes orders.now bytes.now) (length out.old)) result out.old out.new }
{
    let mut frames = [0; FRAMES_LIMIT];
    let limit = out.len().min(FRAMES_LIMIT);
    let mut issued = Issued {
        office,
        parts: Parts::none(),
        used: 0,
        written: 0,
    };
    match issued.issue_each(orders, bytes, &mut frames[..limit]) {
        Ok(()) => {
            store(&frames[..issued.written], out, 0);
            BatchAnswered {
                state: issued.office,
                parts: Ok(issued.parts),
            }
        }
        Err(refusal) => BatchAnswered::refused(office, refusal),
    }
}

// Issues orders in one call, all or none. The bytes are their data, joined.
pub fn issue_all(
    office: Office,
    orders: &[BatchOrder],
    bytes: &[u8],
    out: &mut [u8],
) -> BatchAnswered<Office>
    ensures { GivesParts (spec.issue_all office orders.now bytes.now (length out.old)) result out.old out.new }
{
    if !batch_fits(orders, bytes.len()) {
        return BatchAnswered::refused(office, Refusal::DataTooLong);
    }
    issue_fitting(office, orders, bytes, out)
}
