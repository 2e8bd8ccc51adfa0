// What each end holds, in bytes. A number that is told twice, or beside others, is bound first: a format string names variables alone.
use crate::print;
use crate::print::Printed;
use session::{Cab, Office, Pair, Progress, Stage};
use settings::Settings;

// show
pub(crate) fn show(out: &mut String, ends: &Pair) -> Printed {
    show_box(out, &ends.cab)?;
    show_office(out, &ends.office)
}

fn settings(out: &mut String, held: Settings) -> Printed {
    print::named_bytes(out, " settings", &registers::block(held))
}

fn show_box(out: &mut String, cab: &Cab) -> Printed {
    let highest = cab.highest.0;
    if cab.active {
        let taken = cab.taken.0;
        write!(out, "box session {highest} highest {highest} taken {taken}")?;
    } else {
        write!(out, "box session none highest {highest}")?;
    }
    settings(out, cab.controller.settings())
}

// The office's word on its session.
pub(crate) fn progress(office: &Office) -> &'static str {
    match office::progress(*office) {
        Progress::Settled => "settled",
        Progress::Waiting => "waiting",
        Progress::Over => "over",
    }
}

fn show_office(out: &mut String, office: &Office) -> Printed {
    write!(out, "office {}", progress(office))?;
    if office.stage == Stage::Unopened {
        return out.push('\n');
    }
    write!(
        out,
        " session {} confirmed {} issued {}",
        office.session.0, office.confirmed.0, office.issued.0
    )?;
    if office.stage == Stage::Live {
        return settings(out, office.settings);
    }
    out.push('\n')
}
