// The command table, and the row of a command byte found by its ID. The rows are constants that a match picks by their number, and the index is packed into
// words: the compiler makes tables of both, in the program's constant data, where it would write a constant array to the stack anew for each lookup.
#![tactic(auto)]

ghost use Rattle.std.specs.Prelude.{◌≡◌, ◌/◌};
ghost use Rattle.bus.specs.Commands.{lookup};
ghost use Rattle.command_table.specs.Index.{paper_number, row_at, index_word};

use bus::{CommandRow, ModeRight, Register, Ways};

const BACKLIGHT: CommandRow = CommandRow {
    id: 0x00,
    register: Register::Backlight,
    ways: Ways::ReadWrite,
    count: 2,
    right: ModeRight::MasterOn,
};

const MASTER: CommandRow = CommandRow {
    id: 0x01,
    register: Register::Master,
    ways: Ways::ReadWrite,
    count: 1,
    right: ModeRight::Always,
};

const PARK: CommandRow = CommandRow {
    id: 0x02,
    register: Register::Park,
    ways: Ways::ReadWrite,
    count: 1,
    right: ModeRight::MasterOn,
};

const SPLASH: CommandRow = CommandRow {
    id: 0x25,
    register: Register::Splash,
    ways: Ways::ReadWrite,
    count: 1,
    right: ModeRight::MasterOn,
};

const STRENGTH: CommandRow = CommandRow {
    id: 0x26,
    register: Register::Strength,
    ways: Ways::ReadWrite,
    count: 1,
    right: ModeRight::MasterOn,
};

const HEATER: CommandRow = CommandRow {
    id: 0x27,
    register: Register::Heater,
    ways: Ways::ReadWrite,
    count: 3,
    right: ModeRight::MasterOn,
};

const BEZEL: CommandRow = CommandRow {
    id: 0x28,
    register: Register::Bezel,
    ways: Ways::ReadWrite,
    count: 6,
    right: ModeRight::MasterOn,
};

const STATUS: CommandRow = CommandRow {
    id: 0x33,
    register: Register::Status,
    ways: Ways::ReadOnly,
    count: 4,
    right: ModeRight::MasterOn,
};

const PIXELS: CommandRow = CommandRow {
    id: 0x53,
    register: Register::Pixels,
    ways: Ways::ReadWrite,
    count: 8,
    right: ModeRight::MasterOn,
};

const CALIBRATION_MODE: CommandRow = CommandRow {
    id: 0x64,
    register: Register::CalibrationMode,
    ways: Ways::ReadWrite,
    count: 1,
    right: ModeRight::MasterOn,
};

const RED_LEVEL: CommandRow = CommandRow {
    id: 0x65,
    register: Register::RedLevel,
    ways: Ways::ReadWrite,
    count: 2,
    right: ModeRight::CalibrationOnly,
};

const GREEN_LEVEL: CommandRow = CommandRow {
    id: 0x66,
    register: Register::GreenLevel,
    ways: Ways::ReadWrite,
    count: 2,
    right: ModeRight::CalibrationOnly,
};

const BLUE_LEVEL: CommandRow = CommandRow {
    id: 0x67,
    register: Register::BlueLevel,
    ways: Ways::ReadWrite,
    count: 2,
    right: ModeRight::CalibrationOnly,
};

const CURRENT_LIMIT: CommandRow = CommandRow {
    id: 0x68,
    register: Register::CurrentLimit,
    ways: Ways::ReadWrite,
    count: 2,
    right: ModeRight::CalibrationOnly,
};

const SENSOR_GAIN: CommandRow = CommandRow {
    id: 0x69,
    register: Register::SensorGain,
    ways: Ways::ReadWrite,
    count: 1,
    right: ModeRight::CalibrationOnly,
};

// The row with this number, counted from 1.
#[tactic(auto, unfolding(crate::specs::Index::entry))]
fn row_at(number: u8) -> Option<CommandRow>
    ensures { result ≡ row_at number }
{
    match number {
        0 => None,
        1 => Some(BACKLIGHT),
        2 => Some(MASTER),
        3 => Some(PARK),
        4 => Some(SPLASH),
        5 => Some(STRENGTH),
        6 => Some(HEATER),
        7 => Some(BEZEL),
        8 => Some(STATUS),
        9 => Some(PIXELS),
        10 => Some(CALIBRATION_MODE),
        11 => Some(RED_LEVEL),
        12 => Some(GREEN_LEVEL),
        13 => Some(BLUE_LEVEL),
        14 => Some(CURRENT_LIMIT),
        15 => Some(SENSOR_GAIN),
        _ => None,
    }
}

// The numbers of the rows of the eight IDs from 8 * block on: a byte each, the first ID's lowest, 0 where an ID has no row. No ID comes to the last
// arm; since its word differs from 0, the compiler keeps all sixteen words in one table.
#[tactic(auto, unfolding(crate::specs::Index::entry))]
fn index_word(block: u64) -> u64
    ensures { result ≡ index_word block }
{
    match block {
        0x0 => 0x03_02_01,
        0x1 => 0,
        0x2 => 0,
        0x3 => 0,
        0x4 => 0x06_05_04_00_00_00_00_00,
        0x5 => 0x07,
        0x6 => 0x08_00_00_00,
        0x7 => 0,
        0x8 => 0,
        0x9 => 0,
        0xA => 0x09_00_00_00,
        0xB => 0,
        0xC => 0x0D_0C_0B_0A_00_00_00_00,
        0xD => 0x0F_0E,
        0xE => 0,
        0xF => 0,
        _ => u64::MAX,
    }
}

#[tactic(auto, using(crate::proofs::IndexLaws::index_as_written))]
fn row_number(command: u8) -> u8
    ensures { result ≡ paper_number (command / 2) }
{
    let id = (command / 2) as u64;
    ((index_word(id / 8) >> (8 * (id % 8))) % 256) as u8
}

// The row that a command byte asks for: that of its ID.
#[tactic(auto, using(crate::proofs::IndexLaws::lookup_by_number))]
pub fn lookup_command(command: u8) -> Option<CommandRow>
    ensures { result ≡ lookup (command / 2) }
{
    row_at(row_number(command))
}
