// The office end: its word on its session, and a frame sent with the office beside it. Its other calls are in sending, issuing and receiving.
#![tactic(auto)]

mod answer;
mod state;

pub use answer::send;
pub use state::progress;
