// The office's word on its session.
ghost use Rattle.std.specs.Prelude.{◌≡◌};
ghost use Rattle.session.specs.Office as spec;

use session::{Office, Progress, Stage};

pub fn progress(office: Office) -> Progress
    ensures { result ≡ spec.progress office }
{
    match office.stage {
        Stage::Live if office.confirmed == office.issued => Progress::Settled,
        Stage::Unopened | Stage::Awaiting | Stage::Live => Progress::Waiting,
        Stage::Ended => Progress::Over,
    }
}
