// What a read of a register gives, and what it does to the settings.
ghost use Rattle.std.specs.Prelude.{◌≡◌, ◌≤◌};
ghost use Rattle.packet.specs.Reply.{success as success_of};
ghost use Rattle.bus.specs.Commands as spec;

use crate::fields::Part;
use crate::reply::success;
use bus::{Performed, Register, ReplyBytes};
use settings::Settings;

const STATUS_ID: u8 = 0x33;

fn parked(park: u8) -> u8
    ensures { result ≡ spec.parked park }
{
    if park == 0 { 0 } else { 2 }
}

fn reply_of<const N: usize, P: Part<N>>(part: P) -> ReplyBytes
    requires { N ≤ 8 }
    ensures { result ≡ spec.reply_of (success_of (P.in_bytes part)) }
{
    success(&part.to_bytes())
}

fn read(settings: Settings, register: Register) -> ReplyBytes
    ensures { result ≡ spec.reply_of (success_of (spec.read settings register)) }
{
    match register {
        Register::Backlight => reply_of(settings.backlight),
        Register::Master => reply_of(settings.switches.master),
        Register::Park => reply_of(parked(settings.switches.park)),
        Register::Splash => reply_of(settings.switches.splash),
        Register::Strength => reply_of(settings.switches.strength),
        Register::Heater => reply_of(settings.heater),
        Register::Bezel => reply_of(settings.bezel),
        Register::Status => reply_of(settings.status),
        Register::Pixels => reply_of(settings.pixels),
        Register::CalibrationMode => reply_of(settings.calibration.mode),
        Register::RedLevel => reply_of(settings.calibration.red),
        Register::GreenLevel => reply_of(settings.calibration.green),
        Register::BlueLevel => reply_of(settings.calibration.blue),
        Register::CurrentLimit => reply_of(settings.calibration.limit),
        Register::SensorGain => reply_of(settings.calibration.gain),
    }
}

// Its definition in bus's specs goes by the ID, and not by the register, so this does.
fn after_read(settings: Settings, id: u8) -> Settings
    ensures { result ≡ spec.after_read settings id }
{
    if id == STATUS_ID {
        settings.cleared()
    } else {
        settings
    }
}

pub(crate) fn read_register(settings: Settings, id: u8, register: Register) -> Performed
    ensures { result ≡ spec.read_register settings id register }
{
    Performed {
        settings: after_read(settings, id),
        reply: read(settings, register),
    }
}
