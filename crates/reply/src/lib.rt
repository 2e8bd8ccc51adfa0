// The reader of the controller's replies.
#![tactic(auto)]

mod reader;

pub use reader::{Reply, read_reply};
