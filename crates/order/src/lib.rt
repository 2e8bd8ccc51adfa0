// What an order does: the packet that the box sends for it, and the settings after it.
#![tactic(auto)]

mod change;
mod effect;

pub use change::order_packet;
pub use effect::apply;
