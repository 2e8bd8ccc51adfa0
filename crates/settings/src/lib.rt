// The settings that a controller holds, their status bits, and which of them are in range.
#![tactic(auto)]

mod range;
mod settings;

pub use range::{DUTY_LIMIT, GAIN_LIMIT, SIGN_LIMIT, STRENGTH_LIMIT, SWITCH_LIMIT};
pub use settings::{
    Area, Calibration, Flag, HeaterDrive, Offsets, Settings, StatusBytes, Switches,
};
