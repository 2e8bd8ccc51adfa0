// Frames of the adjustment link to bytes.
#![tactic(auto)]

mod encoded;
mod encoder;
pub mod tag;

pub use encoded::{Encoded, FRAME_LIMIT};
pub use encoder::{encode, send};
