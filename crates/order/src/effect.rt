// The settings after an order, worked out without a controller.
ghost use Rattle.std.specs.Prelude.{◌≡◌};
ghost use Rattle.bus.specs.Bus.{noted};
ghost use Rattle.frame.specs.View.{asked};
ghost use Rattle.order.specs.Apply as spec;

use crate::change::resolve;
use frame::Change;
use registers::perform;
use settings::{Flag, Settings};

const ESCAPE: u8 = 0x5A;

// The settings with "escape seen" where the packet holds an escape.
fn note(settings: Settings, packet: &[u8]) -> Settings
    ensures { result ≡ noted settings packet.now }
{
    if packet.contains(&ESCAPE) {
        settings.flagged(Flag::EscapeSeen)
    } else {
        settings
    }
}

#[tactic(auto, unfolding(crate::specs::Apply::apply))]
pub fn apply(settings: Settings, change: Change) -> Settings
    ensures { result ≡ spec.apply settings (asked change) }
{
    let command = resolve(settings.backlight, change);
    let packet = command.packet();
    let noted = note(settings, packet.as_slice());
    perform(noted, command.command, command.body.as_slice()).settings
}
