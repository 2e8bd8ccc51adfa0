// The registers by name.
use crate::arguments;
use crate::arguments::Words;
use crate::asked::{Action, Asked, Fault, Holder, Said, Told};
use bus::Register;

// held REGISTER, box-held REGISTER, office-held REGISTER
pub(crate) fn held(holder: Holder, mut words: Words<'_>) -> Result<Asked, Fault> {
    let register = named(words.next())?;
    arguments::ended(Action::Say(Said::Told(Told::Held(holder, register))), words)
}

fn named(word: &[u8]) -> Result<Register, Fault> {
    match word {
        b"backlight" => Ok(Register::Backlight),
        b"master" => Ok(Register::Master),
        b"park" => Ok(Register::Park),
        b"splash" => Ok(Register::Splash),
        b"strength" => Ok(Register::Strength),
        b"heater" => Ok(Register::Heater),
        b"bezel" => Ok(Register::Bezel),
        b"pixels" => Ok(Register::Pixels),
        b"calibration" => Ok(Register::CalibrationMode),
        b"red" => Ok(Register::RedLevel),
        b"green" => Ok(Register::GreenLevel),
        b"blue" => Ok(Register::BlueLevel),
        b"limit" => Ok(Register::CurrentLimit),
        b"gain" => Ok(Register::SensorGain),
        b"status" => Ok(Register::Status),
        _ => Err(Fault::NoSuchRegister),
    }
}
