// The lookup as it would be without a table: a match on the ID, one on the register found, and tests of the ID.
ghost use Rattle.std.specs.Prelude.{◌≡◌, ◌/◌};
ghost use Rattle.bus.specs.Commands.{lookup};
ghost use Rattle.lookup_bench.specs.Answer.{answer};
ghost use Rattle.lookup_bench.specs.ByMatch as spec;

use crate::answer::row_answer;
use bus::{CommandRow, ModeRight, Register, Ways};

#[tactic(auto, unfolding(crate::specs::ByMatch::match_id))]
fn match_id(id: u8) -> Option<Register>
    ensures { result ≡ spec.match_id id }
{
    match id {
        0x00 => Some(Register::Backlight),
        0x01 => Some(Register::Master),
        0x02 => Some(Register::Park),
        0x25 => Some(Register::Splash),
        0x26 => Some(Register::Strength),
        0x27 => Some(Register::Heater),
        0x28 => Some(Register::Bezel),
        0x33 => Some(Register::Status),
        0x53 => Some(Register::Pixels),
        0x64 => Some(Register::CalibrationMode),
        0x65 => Some(Register::RedLevel),
        0x66 => Some(Register::GreenLevel),
        0x67 => Some(Register::BlueLevel),
        0x68 => Some(Register::CurrentLimit),
        0x69 => Some(Register::SensorGain),
        _ => None,
    }
}

fn data_count(register: Register) -> u8
    ensures { result ≡ spec.data_count register }
{
    match register {
        Register::Backlight => 2,
        Register::Master => 1,
        Register::Park => 1,
        Register::Splash => 1,
        Register::Strength => 1,
        Register::Heater => 3,
        Register::Bezel => 6,
        Register::Status => 4,
        Register::Pixels => 8,
        Register::CalibrationMode => 1,
        Register::RedLevel => 2,
        Register::GreenLevel => 2,
        Register::BlueLevel => 2,
        Register::CurrentLimit => 2,
        Register::SensorGain => 1,
    }
}

fn ways(id: u8) -> Ways
    ensures { result ≡ spec.ways id }
{
    if id == 0x33 {
        Ways::ReadOnly
    } else {
        Ways::ReadWrite
    }
}

fn right(id: u8) -> ModeRight
    ensures { result ≡ spec.right id }
{
    if id == 0x01 {
        ModeRight::Always
    } else if id < 0x65 {
        ModeRight::MasterOn
    } else {
        ModeRight::CalibrationOnly
    }
}

fn row(id: u8, register: Register) -> CommandRow
    ensures { result ≡ spec.row id register }
{
    CommandRow {
        id,
        register,
        ways: ways(id),
        count: data_count(register),
        right: right(id),
    }
}

#[unsafe(no_mangle)]
pub extern "C" fn puoskenda_lookup_by_match(command: u8) -> u32
    ensures { result ≡ answer (lookup (command / 2)) }
{
    let id = command / 2;
    match match_id(id) {
        Some(register) => row_answer(row(id, register)),
        None => 0,
    }
}
