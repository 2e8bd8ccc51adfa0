// Which data a write of a register accepts, and what it does to the settings.
ghost use Rattle.std.specs.Prelude.{◌≡◌};
ghost use Rattle.bus.specs.Commands as spec;

use crate::fields::Part;
use crate::reply::{Failure, failed};
use bus::{Performed, Register, response};
use number::byte;
use settings::{DUTY_LIMIT, GAIN_LIMIT, SIGN_LIMIT, STRENGTH_LIMIT, SWITCH_LIMIT, Settings};

fn at_most(bytes: &[u8], i: usize, most: u8) -> bool
    ensures { result ≡ spec.at_most bytes.now i most }
{
    byte(bytes, i) <= most
}

// The sign bytes of both bezel offsets, horizontal then vertical.
fn signs_accepted(bytes: &[u8]) -> bool
    ensures { result ≡ spec.signs_accepted bytes.now }
{
    at_most(bytes, 2, SIGN_LIMIT) && at_most(bytes, 5, SIGN_LIMIT)
}

fn accepts(register: Register, bytes: &[u8]) -> bool
    ensures { result ≡ spec.accepts register bytes.now }
{
    match register {
        Register::Master | Register::Park | Register::Splash | Register::CalibrationMode => {
            at_most(bytes, 0, SWITCH_LIMIT)
        }
        Register::Strength => at_most(bytes, 0, STRENGTH_LIMIT),
        Register::Heater => at_most(bytes, 2, DUTY_LIMIT),
        Register::Bezel => signs_accepted(bytes),
        Register::SensorGain => at_most(bytes, 0, GAIN_LIMIT),
        Register::Backlight
        | Register::Status
        | Register::Pixels
        | Register::RedLevel
        | Register::GreenLevel
        | Register::BlueLevel
        | Register::CurrentLimit => true,
    }
}

fn written(mut settings: Settings, register: Register, bytes: &[u8]) -> Settings
    ensures { result ≡ spec.written settings register bytes.now }
{
    match register {
        Register::Backlight => settings.backlight = Part::from_bytes(bytes),
        Register::Master => settings.switches.master = Part::from_bytes(bytes),
        Register::Park => settings.switches.park = Part::from_bytes(bytes),
        Register::Splash => settings.switches.splash = Part::from_bytes(bytes),
        Register::Strength => settings.switches.strength = Part::from_bytes(bytes),
        Register::Heater => settings.heater = Part::from_bytes(bytes),
        Register::Bezel => settings.bezel = Part::from_bytes(bytes),
        Register::Status => {}
        Register::Pixels => settings.pixels = Part::from_bytes(bytes),
        Register::CalibrationMode => settings.calibration.mode = Part::from_bytes(bytes),
        Register::RedLevel => settings.calibration.red = Part::from_bytes(bytes),
        Register::GreenLevel => settings.calibration.green = Part::from_bytes(bytes),
        Register::BlueLevel => settings.calibration.blue = Part::from_bytes(bytes),
        Register::CurrentLimit => settings.calibration.limit = Part::from_bytes(bytes),
        Register::SensorGain => settings.calibration.gain = Part::from_bytes(bytes),
    }
    settings
}

#[tactic(auto, unfolding(bus::specs::Commands::write_register))]
pub(crate) fn write_register(settings: Settings, register: Register, bytes: &[u8]) -> Performed
    ensures { result ≡ spec.write_register settings register bytes.now }
{
    if accepts(register, bytes) {
        Performed {
            settings: written(settings, register, bytes),
            reply: response(0x01),
        }
    } else {
        failed(settings, Failure::OutOfRange)
    }
}
