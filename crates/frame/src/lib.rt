// Frames of the adjustment link by value.
#![tactic(auto)]

mod frame;

pub use frame::{Ask, Change, DATA_LIMIT, Frame, Kind, OrderNumber, SessionId};
