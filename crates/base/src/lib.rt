// What every layer uses: why a call refused, what one answers that writes, a run of bytes stored at a place, and bytes put at the front whole or not at all.
#![tactic(auto)]

mod place;
mod refusal;
mod written;

pub use place::store;
pub use refusal::{Fault, FrameFault, Refusal};
pub use written::{Written, put};
