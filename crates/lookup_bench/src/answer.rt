// A row in one number, as the C interface has it: its codes stand here, not in the enums.
ghost use Rattle.std.specs.Prelude.{◌≡◌, ◌≤◌};
ghost use Rattle.lookup_bench.specs.Answer as spec;

use bus::{CommandRow, ModeRight, Register, Ways};

fn register_code(register: Register) -> u32
    ensures code { result ≡ spec.register_code register }
    ensures small { result ≤ 0xE00 }
{
    match register {
        Register::Backlight => 0x000,
        Register::Master => 0x100,
        Register::Park => 0x200,
        Register::Splash => 0x300,
        Register::Strength => 0x400,
        Register::Heater => 0x500,
        Register::Bezel => 0x600,
        Register::Status => 0x700,
        Register::Pixels => 0x800,
        Register::CalibrationMode => 0x900,
        Register::RedLevel => 0xA00,
        Register::GreenLevel => 0xB00,
        Register::BlueLevel => 0xC00,
        Register::CurrentLimit => 0xD00,
        Register::SensorGain => 0xE00,
    }
}

fn ways_code(ways: Ways) -> u32
    ensures code { result ≡ spec.ways_code ways }
    ensures small { result ≤ 0x1000 }
{
    match ways {
        Ways::ReadWrite => 0x1000,
        Ways::ReadOnly => 0,
    }
}

fn right_code(right: ModeRight) -> u32
    ensures code { result ≡ spec.right_code right }
    ensures small { result ≤ 0x4000 }
{
    match right {
        ModeRight::Always => 0x2000,
        ModeRight::MasterOn => 0,
        ModeRight::CalibrationOnly => 0x4000,
    }
}

pub(crate) fn row_answer(row: CommandRow) -> u32
    ensures { result ≡ spec.row_answer row }
{
    row.count as u32 + register_code(row.register) + ways_code(row.ways) + right_code(row.right)
}
