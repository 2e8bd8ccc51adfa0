// What a call at either end gives, and what one with several parts is lent.
#![tactic(auto)]

ghost use Rattle.std.specs.Prelude.{◌≡◌};
ghost use Rattle.outcome.specs.Batch as batch;
ghost use Rattle.outcome.specs.Turn as turn;

use base::Refusal;
use frame::Ask;

// The most orders of a batch, and frames of a run.
pub const BATCH_LIMIT: usize = 8;

// An order of a batch. Its data are len of the bytes lent beside the batch, behind those of the orders before it.
#[derive(Clone, Copy)]
pub struct BatchOrder {
    pub ask: Ask,
    pub len: usize,
}

// What a call at either end gives: its state afterwards, whether it refused, and the length of the frame written at the start of the output.
// A refused frame in writes a REFUSE, so the length stands beside the verdict.
#[derive(Clone, Copy)]
pub struct Answered<S> {
    pub state: S,
    pub verdict: Result<(), Refusal>,
    pub len: usize,
}

impl<S> Answered<S> {
    // Nothing is written, and the state stays.
    pub fn refused(state: S, refusal: Refusal) -> Answered<S>
        ensures { result ≡ turn.refused_answer state refusal }
    {
        Answered {
            state,
            verdict: Err(refusal),
            len: 0,
        }
    }

    // The same beside another state.
    pub fn with_state<T>(self, state: T) -> Answered<T>
    where
        S: Copy,
        ensures { result ≡ record { state = state; verdict = self.verdict; len = self.len } }
    {
        Answered {
            state,
            verdict: self.verdict,
            len: self.len,
        }
    }
}

// What became of one order of a batch, or of one frame of a run, and the length of the frame that it wrote, which stands beside the verdict as in Answered.
#[derive(Clone, Copy)]
pub struct Part {
    pub verdict: Result<(), Refusal>,
    pub len: usize,
}

// The parts of a batch or a run. Places past the count tell nothing: accepted, with length 0, and so they are an array.
#[derive(Clone, Copy)]
pub struct Parts {
    pub count: usize,
    pub each: [Part; BATCH_LIMIT],
}

impl Parts {
    // No part yet.
    pub fn none() -> Parts
        ensures { result ≡ batch.no_parts }
    {
        let blank = Part {
            verdict: Ok(()),
            len: 0,
        };
        Parts {
            count: 0,
            each: [blank; BATCH_LIMIT],
        }
    }

    // One part more. The borrow checker does not cover get_mut, so the place is told by its index.
    #[tactic(auto, unfolding(crate::specs::Batch::with_part))]
    pub fn with(mut self, part: Part) -> Parts
        ensures { result ≡ batch.with_part self part }
    {
        if self.count < BATCH_LIMIT {
            self.each[self.count] = part;
            self.count += 1;
        }
        self
    }
}

// The same of a call with several parts, whose frames stand one after another at the start of the output. One refused as a whole has none.
#[derive(Clone, Copy)]
pub struct BatchAnswered<S> {
    pub state: S,
    pub parts: Result<Parts, Refusal>,
}

impl<S> BatchAnswered<S> {
    pub fn refused(state: S, why: Refusal) -> BatchAnswered<S>
        ensures { result ≡ batch.refused_answer state why }
    {
        BatchAnswered {
            state,
            parts: Err(why),
        }
    }

    pub fn with_state<T>(self, state: T) -> BatchAnswered<T>
    where
        S: Copy,
        ensures { result ≡ record { state = state; parts = self.parts } }
    {
        BatchAnswered {
            state,
            parts: self.parts,
        }
    }
}

// Whether lengths sum to a total. Each is taken from what the earlier ones left, since their sum may be too large for any number.
// One try_fold with checked_sub was tried: the proof of what it returns did not close.
#[tactic(auto, using(crate::proofs::PartsLaws::fits_end, crate::proofs::PartsLaws::fits_next, crate::proofs::PartsLaws::fits_too_long))]
pub fn lengths_fit(lengths: &[usize], total: usize) -> bool
    ensures { result ≡ batch.fits lengths.now total }
{
    let mut left = total;
    for len in lengths {
        if left < *len {
            return false;
        }
        left -= *len;
    }
    left == 0
}
