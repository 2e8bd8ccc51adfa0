// What a command byte asks for, and what its row says of that.
ghost use Rattle.std.specs.Prelude.{◌≡◌};
ghost use Rattle.bus.specs.Commands as spec;

use bus::{CommandRow, Ways};
use packet::Access;

// Whether a command byte writes or reads.
#[tactic(auto, unfolding(bus::specs::Commands::access))]
pub(crate) fn access(command: u8) -> Access
    ensures { result ≡ spec.access command }
{
    if command % 2 == 1 {
        Access::Read
    } else {
        Access::Write
    }
}

pub(crate) fn offers(row: CommandRow, access: Access) -> bool
    ensures { result ≡ spec.offers row access }
{
    !matches!((row.ways, access), (Ways::ReadOnly, Access::Write))
}

pub(crate) fn request_length(row: CommandRow, access: Access) -> usize
    ensures { result ≡ spec.request_length row access }
{
    match access {
        Access::Write => row.count as usize,
        Access::Read => 0,
    }
}
