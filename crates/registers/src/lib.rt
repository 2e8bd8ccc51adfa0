// The registers in bytes: what each command does to the settings, and the settings block.
#![tactic(auto)]

mod block_bytes;
mod command;
mod fields;
mod lookup;
mod reads;
mod reply;
mod writes;

pub use block_bytes::{BLOCK, block, from_block};
pub use command::perform;
