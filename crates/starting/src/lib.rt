// How each end starts, and the tests of an office's stage.
#![tactic(auto)]

ghost use Rattle.std.specs.Prelude.{◌≡◌};
ghost use Rattle.session.specs.Box as box;
ghost use Rattle.session.specs.Office as spec;

use bus::Controller;
use frame::{Change, OrderNumber, SessionId};
use session::{Cab, Office, Order, Stage, WINDOW_LIMIT};
use settings::Settings;

// The box after its host started it: a fresh controller and no session open.
pub fn restarted(highest: SessionId) -> Cab
    ensures { result ≡ box.started highest.0 }
{
    Cab {
        controller: Controller::fresh(),
        highest,
        active: false,
        taken: OrderNumber(0),
    }
}

// An office never opened, with the settings of a fresh controller until WELCOME tells others.
pub fn never_opened() -> Office
    ensures { result ≡ spec.never }
{
    let none = Order {
        number: OrderNumber(0),
        change: Change::raise(0),
    };
    Office {
        stage: Stage::Unopened,
        session: SessionId(0),
        settings: Settings::fresh(),
        issued: OrderNumber(0),
        confirmed: OrderNumber(0),
        window: [none; WINDOW_LIMIT],
    }
}

pub fn is_awaiting(stage: Stage) -> bool
    ensures { result ≡ spec.is_awaiting stage }
{
    stage == Stage::Awaiting
}

pub fn is_live(stage: Stage) -> bool
    ensures { result ≡ spec.is_live stage }
{
    stage == Stage::Live
}
