// What a controller holds, register by register.
use crate::print::Printed;
use bus::Register;
use settings::{Area, Settings, StatusBytes};

// A register's numbers, or the status in bytes.
pub(crate) fn held(out: &mut String, settings: &Settings, register: Register) -> Printed {
    match register {
        Register::Backlight => write!(out, "{}", settings.backlight),
        Register::Master => write!(out, "{}", settings.switches.master),
        Register::Park => write!(out, "{}", settings.switches.park),
        Register::Splash => write!(out, "{}", settings.switches.splash),
        Register::Strength => write!(out, "{}", settings.switches.strength),
        Register::Heater => write!(out, "{} {}", settings.heater.khz, settings.heater.duty),
        Register::Bezel => write!(
            out,
            "{} {}",
            settings.bezel.horizontal, settings.bezel.vertical
        ),
        Register::Pixels => pixels(out, &settings.pixels),
        Register::CalibrationMode => write!(out, "{}", settings.calibration.mode),
        Register::RedLevel => write!(out, "{}", settings.calibration.red),
        Register::GreenLevel => write!(out, "{}", settings.calibration.green),
        Register::BlueLevel => write!(out, "{}", settings.calibration.blue),
        Register::CurrentLimit => write!(out, "{}", settings.calibration.limit),
        Register::SensorGain => write!(out, "{}", settings.calibration.gain),
        Register::Status => status(out, &settings.status),
    }
}

fn pixels(out: &mut String, a: &Area) -> Printed {
    write!(out, "{} {} {} {}", a.x0, a.y0, a.x1, a.y1)
}

fn status(out: &mut String, s: &StatusBytes) -> Printed {
    write!(
        out,
        "{:02X} {:02X} {:02X} {:02X}",
        s.first, s.second, s.third, s.fourth
    )
}
