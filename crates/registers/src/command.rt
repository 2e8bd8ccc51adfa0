// What each command does to the settings, and what it answers.
ghost use Rattle.std.specs.Prelude.{◌≡◌};
ghost use Rattle.bus.specs.Commands as spec;

use crate::lookup::{access, offers, request_length};
use crate::reads::read_register;
use crate::reply::{Failure, failed};
use crate::writes::write_register;
use bus::{CommandRow, ModeRight, Performed};
use command_table::lookup_command;
use packet::Access;
use settings::Settings;

fn execute(settings: Settings, row: CommandRow, access: Access, bytes: &[u8]) -> Performed
    ensures { result ≡ spec.execute settings row access bytes.now }
{
    match access {
        Access::Write => write_register(settings, row.register, bytes),
        Access::Read => read_register(settings, row.id, row.register),
    }
}

fn denies(right: ModeRight, access: Access, master: u8, mode: u8) -> bool
    ensures { result ≡ spec.denies right access master mode }
{
    match (right, access) {
        (ModeRight::Always, _) => false,
        (ModeRight::CalibrationOnly, Access::Write) => master == 0 || mode == 0,
        (ModeRight::MasterOn | ModeRight::CalibrationOnly, _) => master == 0,
    }
}

// Whether master or the calibration mode keeps a register from being written, or read.
fn locked(settings: Settings, row: CommandRow, access: Access) -> bool
    ensures { result ≡ spec.locked settings row access }
{
    denies(
        row.right,
        access,
        settings.switches.master,
        settings.calibration.mode,
    )
}

// Each check is a definition of its own in bus's specs, in the paper's order, and takes what that takes.
#[tactic(auto, unfolding(bus::specs::Commands::perform_offered))]
fn perform_offered(settings: Settings, row: CommandRow, access: Access, bytes: &[u8]) -> Performed
    ensures { result ≡ spec.perform_offered settings row access bytes.now }
{
    if locked(settings, row, access) {
        failed(settings, Failure::NotAvailable)
    } else if bytes.len() == request_length(row, access) {
        execute(settings, row, access, bytes)
    } else {
        failed(settings, Failure::WrongLength)
    }
}

#[tactic(auto, unfolding(bus::specs::Commands::perform_found))]
fn perform_found(settings: Settings, row: CommandRow, access: Access, bytes: &[u8]) -> Performed
    ensures { result ≡ spec.perform_found settings row access bytes.now }
{
    if offers(row, access) {
        perform_offered(settings, row, access, bytes)
    } else {
        failed(settings, Failure::InvalidCommand)
    }
}

// Runs a command whose checksum was right: the settings after it and its reply.
pub fn perform(settings: Settings, command: u8, bytes: &[u8]) -> Performed
    ensures { result ≡ spec.perform settings command bytes.now }
{
    match lookup_command(command) {
        Some(row) => perform_found(settings, row, access(command), bytes),
        None => failed(settings, Failure::InvalidCommand),
    }
}
