// The byte exchange of the stand-in controller's main application.
#![tactic(auto)]

mod open_packet;
mod run;
mod state;

pub use run::{exchange, exchange_all};
