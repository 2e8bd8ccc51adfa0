// The largest values of the registers that have a limit, and which settings a controller could hold.
ghost use Rattle.std.specs.Prelude.{◌≡◌};
ghost use Rattle.settings.specs.Range as spec;

use crate::settings::{Calibration, Settings, Switches};

// Of master, park, splash mode and calibration mode.
pub const SWITCH_LIMIT: u8 = 1;

pub const STRENGTH_LIMIT: u8 = 2;

pub const DUTY_LIMIT: u8 = 100;

// Of a bezel offset's sign byte.
pub const SIGN_LIMIT: u8 = 1;

// Of the sensor gain.
pub const GAIN_LIMIT: u8 = 3;

impl Switches {
    fn in_range(self) -> bool
        ensures { result ≡ spec.switches_in_range self }
    {
        self.master <= SWITCH_LIMIT
            && self.park <= SWITCH_LIMIT
            && self.splash <= SWITCH_LIMIT
            && self.strength <= STRENGTH_LIMIT
    }
}

impl Calibration {
    fn in_range(self) -> bool
        ensures { result ≡ spec.calibration_in_range self }
    {
        self.mode <= SWITCH_LIMIT && self.gain <= GAIN_LIMIT
    }
}

impl Settings {
    // Whether a controller could hold these settings.
    pub fn in_range(self) -> bool
        ensures { result ≡ spec.in_range self }
    {
        self.switches.in_range() && self.heater.duty <= DUTY_LIMIT && self.calibration.in_range()
    }
}
