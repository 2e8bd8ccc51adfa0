// What a script's lines change at both ends and on the bench.
use crate::asked::Holder;
use crate::offices::Offices;
use bus::Controller;
use frame::SessionId;
use link::FRAME_LIMIT;
use session::Pair;
use settings::Settings;
use wrapping::Receiver;

// The longest output that `room` lends.
pub(crate) const ROOM_LIMIT: usize = 512;

// Those on the bench, at the box and at the office in use.
#[derive(Drop)]
pub(crate) struct Receivers {
    pub bench: Receiver,
    pub cab: Receiver,
    pub office: Receiver,
}

impl Receivers {
    pub(crate) fn at(&mut self, holder: Holder) -> &mut Receiver {
        match holder {
            Holder::Bench => &mut self.bench,
            Holder::Box => &mut self.cab,
            Holder::Office => &mut self.office,
        }
    }
}

// The box and the office in use, the controller on the bench, the receivers, and the other offices.
#[derive(Drop)]
pub(crate) struct World {
    pub ends: Pair,
    pub bench: Controller,
    pub receivers: Receivers,
    pub offices: Offices,
    // The highest session opened at the box.
    pub opened: u32,
    // How long an output the calls are lent.
    pub room: usize,
}

impl World {
    // As at the start: no session opened, office 1 in use.
    pub(crate) fn fresh() -> World {
        World {
            ends: Pair {
                cab: starting::restarted(SessionId(0)),
                office: starting::never_opened(),
            },
            bench: Controller::fresh(),
            receivers: Receivers {
                bench: Receiver::new(),
                cab: Receiver::new(),
                office: Receiver::new(),
            },
            offices: Offices::unopened(),
            opened: 0,
            room: FRAME_LIMIT,
        }
    }

    // After a call: the session that the box has open.
    pub(crate) fn note_opened(&mut self) {
        if self.ends.cab.active {
            self.opened = self.opened.max(self.ends.cab.highest.0);
        }
    }

    pub(crate) fn settings(&self, holder: Holder) -> Settings {
        match holder {
            Holder::Bench => self.bench.settings(),
            Holder::Box => self.ends.cab.controller.settings(),
            Holder::Office => self.ends.office.settings,
        }
    }
}
