// The lookup of a command byte for a program in another language to time: as it is, and as it would be without a table. Both answer
// the row in one number, as specs/Answer.antt says.
#![tactic(auto)]

mod answer;
mod by_match;

ghost use Rattle.std.specs.Prelude.{◌≡◌, ◌/◌};
ghost use Rattle.bus.specs.Commands.{lookup};
ghost use Rattle.lookup_bench.specs.Answer as spec;

use crate::answer::row_answer;
pub use by_match::puoskenda_lookup_by_match;
use command_table::lookup_command;

#[unsafe(no_mangle)]
pub extern "C" fn puoskenda_lookup(command: u8) -> u32
    ensures { result ≡ spec.answer (lookup (command / 2)) }
{
    match lookup_command(command) {
        Some(row) => row_answer(row),
        None => 0,
    }
}
