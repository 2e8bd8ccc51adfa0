// What both ends of the adjustment link hold. Their rules are in specs/; the calls that keep them, in starting, cabbox, frame_run, office, sending,
// issuing, order_batch and receiving.
#![tactic(auto)]

use bus::Controller;
use frame::{Change, OrderNumber, SessionId};
use settings::Settings;

// The cab box. The highest session is the highest opened, or told at a restart; while active, it is the open one, and taken counts its orders run.
// Active stands beside taken, since a box with none open and any count is answered too, and a refusal hands it back whole.
#[derive(Clone, Copy)]
pub struct Cab {
    pub controller: Controller,
    pub highest: SessionId,
    pub active: bool,
    pub taken: OrderNumber,
}

// Where the office stands with its session. In document 01's words: never opened, opening, open, over.
#[derive(Clone, Copy, PartialEq, Eq)]
pub enum Stage {
    Unopened,
    Awaiting,
    Live,
    Ended,
}

// The most unanswered orders.
pub const WINDOW_LIMIT: usize = 8;

// The last order's number.
pub const ORDER_LIMIT: u16 = 65535;

#[derive(Clone, Copy)]
pub struct Order {
    pub number: OrderNumber,
    pub change: Change,
}

// The office. The settings are its own copy, after all orders issued. The window holds the orders issued and not confirmed, each at
// its number's place: an array by value, a form that document 01 asks for.
// Session and counts stand beside the stage also where it does not use them, since an office with any is answered too, and handed back whole.
#[derive(Clone, Copy)]
pub struct Office {
    pub stage: Stage,
    pub session: SessionId,
    pub settings: Settings,
    pub issued: OrderNumber,
    pub confirmed: OrderNumber,
    pub window: [Order; WINDOW_LIMIT],
}

// How far the office is with its session: document 01's word. Settled: the box has taken every order issued.
#[derive(Clone, Copy, PartialEq, Eq)]
pub enum Progress {
    Settled,
    Waiting,
    Over,
}

// A box and one office.
#[derive(Clone, Copy)]
pub struct Pair {
    pub cab: Cab,
    pub office: Office,
}
