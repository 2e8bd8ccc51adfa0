// An order at the controller.
ghost use Rattle.std.specs.Prelude.{◌≡◌, replicate, take};
ghost use Rattle.bus.specs.Run.{run};
ghost use Rattle.frame.specs.View.{asked};
ghost use Rattle.session.specs.Box as spec;

use bus::Controller;
use controller::exchange_all;
use frame::Change;
use packet::{PACKET_LIMIT, Packet};

// The most bytes of a reply that a controller value can have unsent.
const UNSENT_LIMIT: usize = 255;

// The exchange wants room for what is sent, which nobody reads here.
fn run_packet(controller: Controller, packet: &Packet) -> Controller
    ensures { result ≡ run controller (take packet.now.len packet.now.bytes) }
{
    let mut out = [0; PACKET_LIMIT];
    exchange_all(controller, packet.as_slice(), &mut out)
}

fn run_zeros(controller: Controller, count: u8) -> Controller
    ensures { result ≡ run controller (replicate count 0x00) }
{
    let mut out = [0; UNSENT_LIMIT];
    exchange_all(controller, &[0; UNSENT_LIMIT], &mut out[..count as usize])
}

// How many bytes of the reply are unsent.
fn unsent(controller: Controller) -> u8
    ensures { result ≡ spec.unsent controller }
{
    controller.reply.len.saturating_sub(controller.reply.sent)
}

// The packet byte by byte, then 0x00 until the reply is out.
#[tactic(auto, unfolding(session::specs::Box::sent))]
pub(crate) fn obey(controller: Controller, change: Change) -> Controller
    ensures { result ≡ spec.obeyed controller (asked change) }
{
    let packet = order::order_packet(controller.settings().backlight, change);
    let after = run_packet(controller, &packet);
    run_zeros(after, unsent(after))
}
