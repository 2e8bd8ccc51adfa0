// The parts of the settings in bytes and back.
ghost use Rattle.std.specs.Prelude.{◌≡◌, ◌<◌, ℕ, ℤ, List, [], ◌∷◌, get_or, nat_abs};
ghost use Rattle.number.specs.Number.{le16 as le16_of, le16_bytes};
ghost use Rattle.settings.specs.Range.{SwitchesHeld, HeaterHeld, OffsetsHeld, AreaHeld, CalibrationHeld, StatusHeld};
ghost use Rattle.bus.specs.Commands as spec;
ghost use Rattle.registers.specs.Parts as parts;

use number::{byte, high, le16, low, magnitude, offset, rest, sign};
use settings::{Area, Calibration, HeaterDrive, Offsets, StatusBytes, Switches};

// A part of the settings, of N bytes.
pub(crate) trait Part<const N: usize>: Copy {
    ghost in_bytes: { Self → List ℕ };

    ghost of_bytes: { List ℕ → Self };

    ghost Fits: { Self → Type 0 };

    fn to_bytes(self) -> [u8; N]
        ensures { result ≡ in_bytes self };

    // What the bytes begin with; a byte past their end counts as 0.
    fn from_bytes(bytes: &[u8]) -> Self
        ensures { result ≡ of_bytes bytes.now };

    ghost reads_back: { (part : Self) → Fits part → of_bytes (in_bytes part) ≡ part };
}

impl Part<1> for u8 {
    ghost in_bytes = { λ value. value ∷ [] };

    ghost of_bytes = { λ bytes. get_or bytes 0 0 };

    ghost Fits = { λ value. value < 256 };

    ghost reads_back = { parts.byte_read };

    fn to_bytes(self) -> [u8; 1] {
        [self]
    }

    fn from_bytes(bytes: &[u8]) -> u8 {
        byte(bytes, 0)
    }
}

impl Part<2> for u16 {
    ghost in_bytes = { le16_bytes };

    ghost of_bytes = { le16_of };

    ghost Fits = { λ level. level < 65536 };

    ghost reads_back = { parts.level_read };

    fn to_bytes(self) -> [u8; 2] {
        [low(self), high(self)]
    }

    fn from_bytes(bytes: &[u8]) -> u16 {
        le16(bytes)
    }
}

// An offset of the bezel: its amount and its sign.
impl Part<3> for i32 {
    ghost in_bytes = { spec.offset_bytes };

    ghost of_bytes = { spec.offset_from };

    ghost Fits = { λ offset. nat_abs offset < 65536 };

    ghost reads_back = { parts.offset_read };

    fn to_bytes(self) -> [u8; 3] {
        let amount = magnitude(self);
        [low(amount), high(amount), sign(self)]
    }

    fn from_bytes(bytes: &[u8]) -> i32 {
        offset(le16(bytes), byte(bytes, 2))
    }
}

impl Part<4> for Switches {
    ghost in_bytes = { spec.switch_bytes };

    ghost of_bytes = { spec.switches_from };

    ghost Fits = { SwitchesHeld };

    ghost reads_back = { parts.switches_read };

    fn to_bytes(self) -> [u8; 4] {
        [self.master, self.park, self.splash, self.strength]
    }

    fn from_bytes(bytes: &[u8]) -> Switches {
        Switches {
            master: byte(bytes, 0),
            park: byte(bytes, 1),
            splash: byte(bytes, 2),
            strength: byte(bytes, 3),
        }
    }
}

impl Part<3> for HeaterDrive {
    ghost in_bytes = { spec.heater_bytes };

    ghost of_bytes = { spec.heater_from };

    ghost Fits = { HeaterHeld };

    ghost reads_back = { parts.heater_read };

    fn to_bytes(self) -> [u8; 3] {
        [low(self.khz), high(self.khz), self.duty]
    }

    fn from_bytes(bytes: &[u8]) -> HeaterDrive {
        HeaterDrive {
            khz: le16(bytes),
            duty: byte(bytes, 2),
        }
    }
}

impl Part<6> for Offsets {
    ghost in_bytes = { spec.bezel_bytes };

    ghost of_bytes = { spec.bezel_from };

    ghost Fits = { OffsetsHeld };

    ghost reads_back = { parts.bezel_read };

    fn to_bytes(self) -> [u8; 6] {
        let h: [u8; 3] = self.horizontal.to_bytes();
        let v: [u8; 3] = self.vertical.to_bytes();
        [h[0], h[1], h[2], v[0], v[1], v[2]]
    }

    fn from_bytes(bytes: &[u8]) -> Offsets {
        Offsets {
            horizontal: i32::from_bytes(bytes),
            vertical: i32::from_bytes(rest(bytes, 3)),
        }
    }
}

// Two numbers of two bytes.
fn pair_bytes(x: u16, y: u16) -> [u8; 4]
    ensures { result ≡ spec.pair_bytes x y }
{
    [low(x), high(x), low(y), high(y)]
}

impl Part<8> for Area {
    ghost in_bytes = { spec.area_bytes };

    ghost of_bytes = { spec.area_from };

    ghost Fits = { AreaHeld };

    ghost reads_back = { parts.area_read };

    fn to_bytes(self) -> [u8; 8] {
        let start = pair_bytes(self.x0, self.y0);
        let end = pair_bytes(self.x1, self.y1);
        [
            start[0], start[1], start[2], start[3], end[0], end[1], end[2], end[3],
        ]
    }

    fn from_bytes(bytes: &[u8]) -> Area {
        Area {
            x0: le16(bytes),
            y0: le16(rest(bytes, 2)),
            x1: le16(rest(bytes, 4)),
            y1: le16(rest(bytes, 6)),
        }
    }
}

impl Part<10> for Calibration {
    ghost in_bytes = { spec.calibration_bytes };

    ghost of_bytes = { spec.calibration_from };

    ghost Fits = { CalibrationHeld };

    ghost reads_back = { parts.calibration_read };

    fn to_bytes(self) -> [u8; 10] {
        let first = pair_bytes(self.red, self.green);
        let second = pair_bytes(self.blue, self.limit);
        [
            self.mode, first[0], first[1], first[2], first[3], second[0], second[1], second[2],
            second[3], self.gain,
        ]
    }

    fn from_bytes(bytes: &[u8]) -> Calibration {
        Calibration {
            mode: byte(bytes, 0),
            red: le16(rest(bytes, 1)),
            green: le16(rest(bytes, 3)),
            blue: le16(rest(bytes, 5)),
            limit: le16(rest(bytes, 7)),
            gain: byte(bytes, 9),
        }
    }
}

impl Part<4> for StatusBytes {
    ghost in_bytes = { spec.status_bytes };

    ghost of_bytes = { spec.status_from };

    ghost Fits = { StatusHeld };

    ghost reads_back = { parts.status_read };

    fn to_bytes(self) -> [u8; 4] {
        [self.first, self.second, self.third, self.fourth]
    }

    fn from_bytes(bytes: &[u8]) -> StatusBytes {
        StatusBytes {
            first: byte(bytes, 0),
            second: byte(bytes, 1),
            third: byte(bytes, 2),
            fourth: byte(bytes, 3),
        }
    }
}
