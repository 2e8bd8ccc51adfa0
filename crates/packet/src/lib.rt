// Packets on the bus: by value, and as the writer writes them.
#![tactic(auto)]

mod builder;
mod sum;
mod writer;

pub use builder::{DATA_MOST, PACKET_LIMIT, Packet, build};
pub use sum::checksum;
pub use writer::{Access, write};
