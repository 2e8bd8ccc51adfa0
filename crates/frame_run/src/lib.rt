// A run of frames at the cab box: one call takes up to eight, each judged alone from the box that the earlier ones left.
#![tactic(auto)]

ghost use Rattle.std.specs.Prelude.{◌≡◌, ◌+◌, ◌≤◌, length};
ghost use Rattle.link.specs.View.{frame_limit};
ghost use Rattle.outcome.specs.Batch.{GivesParts, cut};
ghost use Rattle.session.specs.Box as spec;
ghost use Rattle.frame_run.specs.View as view;

use base::Refusal;
use link::FRAME_LIMIT;
use outcome::{BATCH_LIMIT, BatchAnswered, Part, Parts, lengths_fit};
use session::Cab;

// A run after some of its frames: where the next one begins, and how much of the output is written.
// One struct for this and for a batch of orders would have to be public, below both crates.
#[derive(Clone, Copy)]
struct Running {
    cab: Cab,
    parts: Parts,
    at: usize,
    written: usize,
}

// One frame more, of the next len bytes. Its answer goes behind what was written before.
fn step(run: Running, len: usize, bytes: &[u8], out: &mut [u8]) -> Running
    requires { (run.at + len ≤ length bytes.now) × (frame_limit + run.written ≤ length out.old) }
    ensures { view.Steps run len bytes.now result out.old out.new }
{
    let end = run.at + len;
    let answered = cabbox::frame_in(run.cab, &bytes[run.at..end], &mut out[run.written..]);
    Running {
        cab: answered.state,
        parts: run.parts.with(Part {
            verdict: answered.verdict,
            len: answered.len,
        }),
        at: end,
        written: run.written + answered.len,
    }
}

// Takes each frame where there is room for all answers.
fn each(cab: Cab, lengths: &[usize], bytes: &[u8], out: &mut [u8]) -> BatchAnswered<Cab>
    requires { view.Roomy lengths.now bytes.now out.old }
    ensures { GivesParts (spec.all_judged cab (cut lengths.now bytes.now)) result out.old out.new }
{
    let mut run = Running {
        cab,
        parts: Parts::none(),
        at: 0,
        written: 0,
    };
    for len in lengths {
        run = step(run, *len, bytes, out);
    }
    BatchAnswered {
        state: run.cab,
        parts: Ok(run.parts),
    }
}

// Takes any bytes as a run of frames, whose lengths stand beside them, and writes each one's answer behind the earlier ones.
#[tactic(auto, using(base::proofs::Tests::tests), unfolding(session::specs::Box::frames_in))]
pub fn frames_in(cab: Cab, lengths: &[usize], bytes: &[u8], out: &mut [u8]) -> BatchAnswered<Cab>
    ensures { GivesParts (spec.frames_in cab lengths.now bytes.now (length out.old)) result out.old out.new }
{
    if BATCH_LIMIT < lengths.len() || !lengths_fit(lengths, bytes.len()) {
        return BatchAnswered::refused(cab, Refusal::DataTooLong);
    }
    if out.len() < FRAME_LIMIT * lengths.len() {
        return BatchAnswered::refused(cab, Refusal::OutputTooShort);
    }
    each(cab, lengths, bytes, out)
}
