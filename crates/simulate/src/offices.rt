// The eight offices. The one in use stands in the world, where the calls change it; the others are kept here.
use crate::world::World;
use session::Office;
use wrapping::Receiver;

pub(crate) const OFFICES: usize = 8;

// An office, and its receiver.
#[derive(Clone, Copy)]
struct KeptOffice {
    office: Office,
    receiver: Receiver,
}

// Office n has the place n modulo 8. What stands in the place of the one in use is out of date.
#[derive(Drop)]
pub(crate) struct Offices {
    kept: [KeptOffice; OFFICES],
    in_use: usize,
}

impl Offices {
    // All offices never opened, office 1 in use.
    pub(crate) fn unopened() -> Offices {
        let unopened = KeptOffice {
            office: starting::never_opened(),
            receiver: Receiver::new(),
        };
        Offices {
            kept: [unopened; OFFICES],
            in_use: 1,
        }
    }
}

// use N: the office in use goes to its place, and office n comes from its own.
pub(crate) fn put_in_use(world: &mut World, n: usize) {
    let offices = &mut world.offices;
    offices.kept[offices.in_use % OFFICES] = KeptOffice {
        office: world.ends.office,
        receiver: world.receivers.office,
    };
    let next = offices.kept[n % OFFICES];
    world.ends.office = next.office;
    world.receivers.office = next.receiver;
    offices.in_use = n;
}
