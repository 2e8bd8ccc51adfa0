// A change as a command, and its packet.
ghost use Rattle.std.specs.Prelude.{◌≡◌};
ghost use Rattle.number.specs.Number.{le16_bytes};
ghost use Rattle.packet.specs.Packet.{packet_of};
ghost use Rattle.packet.specs.Writer.{built};
ghost use Rattle.frame.specs.View.{asked};
ghost use Rattle.order.specs.Apply as spec;

use arrayvec::ArrayVec;
use frame::{Ask, Change, DATA_LIMIT};
use number::{high, low};
use packet::{Packet, build};

// The command that a change comes to.
#[derive(Drop)]
pub struct Resolved {
    pub command: u8,
    pub body: ArrayVec<u8, DATA_LIMIT>,
}

fn level_write(level: u16) -> Resolved
    ensures command { result.command ≡ 0x00 }
    ensures body { result.body.items ≡ le16_bytes level }
{
    let mut body = ArrayVec::new();
    body.push(low(level));
    body.push(high(level));
    Resolved {
        command: 0x00,
        body,
    }
}

// What a change comes to at this backlight level.
pub(crate) fn resolve(level: u16, change: Change) -> Resolved
    ensures { spec.Resolves level (asked change) result }
{
    match change.ask {
        Ask::Command(command) => {
            let mut body = ArrayVec::from(change.body);
            body.truncate(change.data_length());
            Resolved { command, body }
        }
        Ask::Raise(step) => level_write(level.saturating_add(step)),
        Ask::Lower(step) => level_write(level.saturating_sub(step)),
    }
}

impl Resolved {
    pub(crate) fn packet(&self) -> Packet
        ensures { result ≡ built (packet_of self.now.command self.now.body.items) }
    {
        build(self.command, self.body.as_slice())
    }
}

// The packet that the box sends for a change at this backlight level.
pub fn order_packet(level: u16, change: Change) -> Packet
    ensures { result ≡ built (spec.order_packet level (asked change)) }
{
    resolve(level, change).packet()
}
