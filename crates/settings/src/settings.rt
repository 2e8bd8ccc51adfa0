// What a controller holds, and the status bits.
ghost use Rattle.std.specs.Prelude.{◌≡◌};
ghost use Rattle.settings.specs.Settings as spec;

// Registers of one byte: master, park, splash mode and drive strength.
#[derive(Clone, Copy)]
pub struct Switches {
    pub master: u8,
    pub park: u8,
    pub splash: u8,
    pub strength: u8,
}

#[derive(Clone, Copy, Default)]
pub struct HeaterDrive {
    pub khz: u16,
    pub duty: u8,
}

// Bezel offsets: below zero is left or up.
#[derive(Clone, Copy, Default)]
pub struct Offsets {
    pub horizontal: i32,
    pub vertical: i32,
}

// Test pixels from (x0, y0) to (x1, y1).
#[derive(Clone, Copy, Default)]
pub struct Area {
    pub x0: u16,
    pub y0: u16,
    pub x1: u16,
    pub y1: u16,
}

// Calibration mode, the PWM levels of the three lamps and of the current limit, and the sensor gain.
#[derive(Clone, Copy, Default)]
pub struct Calibration {
    pub mode: u8,
    pub red: u16,
    pub green: u16,
    pub blue: u16,
    pub limit: u16,
    pub gain: u8,
}

#[derive(Clone, Copy, Default)]
pub struct StatusBytes {
    pub first: u8,
    pub second: u8,
    pub third: u8,
    pub fourth: u8,
}

#[derive(Clone, Copy)]
pub struct Settings {
    pub backlight: u16,
    pub switches: Switches,
    pub heater: HeaterDrive,
    pub bezel: Offsets,
    pub pixels: Area,
    pub calibration: Calibration,
    pub status: StatusBytes,
}

// The status bits that this controller sets.
#[derive(Clone, Copy)]
pub enum Flag {
    Incomplete,
    NotAvailable,
    InvalidCommand,
    OutOfRange,
    EscapeSeen,
    WrongLength,
    BytesIgnored,
    WrongChecksum,
}

impl StatusBytes {
    #[tactic(auto, using(crate::proofs::StatusLaws::ors))]
    pub fn with_flag(mut self, flag: Flag) -> StatusBytes
        ensures { result ≡ spec.with_flag self flag }
    {
        match flag {
            Flag::Incomplete => self.first |= 0x08,
            Flag::NotAvailable => self.first |= 0x04,
            Flag::InvalidCommand => self.first |= 0x01,
            Flag::OutOfRange => self.second |= 0x20,
            Flag::EscapeSeen => self.fourth |= 0x80,
            Flag::WrongLength => self.fourth |= 0x40,
            Flag::BytesIgnored => self.fourth |= 0x20,
            Flag::WrongChecksum => self.fourth |= 0x10,
        }
        self
    }
}

// flagged and cleared set a field of a copy: with `..self`, or a `mut self`, bench takes 46 instructions a byte of short packets, and 40 so.
impl Settings {
    pub fn fresh() -> Settings
        ensures { result ≡ spec.fresh }
    {
        Settings {
            backlight: 0,
            switches: Switches {
                master: 1,
                park: 0,
                splash: 0,
                strength: 0,
            },
            heater: HeaterDrive::default(),
            bezel: Offsets::default(),
            pixels: Area::default(),
            calibration: Calibration::default(),
            status: StatusBytes::default(),
        }
    }

    #[tactic(auto, unfolding(crate::specs::Settings::flagged))]
    pub fn flagged(self, flag: Flag) -> Settings
        ensures { result ≡ spec.flagged self flag }
    {
        let mut settings = self;
        settings.status = self.status.with_flag(flag);
        settings
    }

    pub fn cleared(self) -> Settings
        ensures { result ≡ spec.cleared self }
    {
        let mut settings = self;
        settings.status = StatusBytes::default();
        settings
    }
}
