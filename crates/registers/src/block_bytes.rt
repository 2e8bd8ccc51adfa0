// The settings block of WELCOME.
ghost use Rattle.std.specs.Prelude.{◌≡◌};
ghost use Rattle.registers.specs.Block as spec;

use crate::fields::Part;
use base::store;
use number::rest;
use settings::{Area, Calibration, HeaterDrive, Offsets, Settings, StatusBytes, Switches};

// Where the parts begin; the backlight is first.
const SWITCHES_AT: usize = 2;

const HEATER_AT: usize = 6;

const BEZEL_AT: usize = 9;

const PIXELS_AT: usize = 15;

const CALIBRATION_AT: usize = 23;

const STATUS_AT: usize = 33;

// A settings block's length.
pub const BLOCK: usize = 37;

#[tactic(auto, unfolding(crate::specs::Block::block))]
pub fn block(settings: Settings) -> [u8; BLOCK]
    ensures { result ≡ spec.block settings }
{
    let mut out = [0; BLOCK];
    store(&settings.backlight.to_bytes(), &mut out, 0);
    store(&settings.switches.to_bytes(), &mut out, SWITCHES_AT);
    store(&settings.heater.to_bytes(), &mut out, HEATER_AT);
    store(&settings.bezel.to_bytes(), &mut out, BEZEL_AT);
    store(&settings.pixels.to_bytes(), &mut out, PIXELS_AT);
    store(&settings.calibration.to_bytes(), &mut out, CALIBRATION_AT);
    store(&settings.status.to_bytes(), &mut out, STATUS_AT);
    out
}

#[tactic(auto, unfolding(crate::specs::Block::from_block))]
pub fn from_block(bytes: &[u8]) -> Settings
    ensures { result ≡ spec.from_block bytes.now }
{
    Settings {
        backlight: u16::from_bytes(bytes),
        switches: Switches::from_bytes(rest(bytes, SWITCHES_AT)),
        heater: HeaterDrive::from_bytes(rest(bytes, HEATER_AT)),
        bezel: Offsets::from_bytes(rest(bytes, BEZEL_AT)),
        pixels: Area::from_bytes(rest(bytes, PIXELS_AT)),
        calibration: Calibration::from_bytes(rest(bytes, CALIBRATION_AT)),
        status: StatusBytes::from_bytes(rest(bytes, STATUS_AT)),
    }
}
