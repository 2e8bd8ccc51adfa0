// Frames over a link that hands over bytes in pieces of any size: a frame wrapped in an outer field, and bytes given to a receiver, which
// takes such fields apart.
#![tactic(auto)]

mod receiver;
mod wrapper;

pub use receiver::receive;
pub use wrapper::{WRAPPED_MOST, wrap};
