// What each end holds, in words. A number that is told twice, or beside words, is bound first: a format string names variables alone.
use crate::print::Printed;
use crate::show;
use session::{Cab, Office, Pair, Stage};
use settings::{Calibration, Settings, StatusBytes, Switches};

// describe
pub(crate) fn describe(out: &mut String, ends: &Pair) -> Printed {
    describe_box(out, &ends.cab)?;
    describe_office(out, &ends.office)
}

fn describe_box(out: &mut String, cab: &Cab) -> Printed {
    let highest = cab.highest.0;
    if cab.active {
        let taken = cab.taken.0;
        let orders = if taken == 1 { "order" } else { "orders" };
        write!(out, "box session {highest}, {taken} {orders} taken")?;
    } else {
        write!(out, "box with no session open, highest {highest}")?;
    }
    settings(out, &cab.controller.settings())
}

fn describe_office(out: &mut String, office: &Office) -> Printed {
    match office.stage {
        Stage::Unopened => out.push_str("office never opened\n"),
        Stage::Awaiting => write!(out, "office session {}, opening\n", office.session.0),
        Stage::Live => {
            confirmed(out, office)?;
            settings(out, &office.settings)
        }
        Stage::Ended => {
            confirmed(out, office)?;
            out.push('\n')
        }
    }
}

fn confirmed(out: &mut String, office: &Office) -> Printed {
    let progress = show::progress(office);
    write!(
        out,
        "office session {}, {progress}, {} of {} orders confirmed",
        office.session.0, office.confirmed.0, office.issued.0
    )
}

// All the settings, and the end of the line.
fn settings(out: &mut String, held: &Settings) -> Printed {
    write!(out, ": level {}", held.backlight)?;
    switches(out, &held.switches)?;
    areas(out, held)?;
    calibration(out, &held.calibration)?;
    status(out, &held.status)
}

fn switches(out: &mut String, one: &Switches) -> Printed {
    let master = if one.master == 0 { "off" } else { "on" };
    let parked = if one.park == 0 {
        "not parked"
    } else {
        "parked"
    };
    write!(
        out,
        ", master {master}, {parked}, splash mode {}, drive strength {}",
        one.splash, one.strength
    )
}

// The registers of several numbers.
fn areas(out: &mut String, held: &Settings) -> Printed {
    write!(
        out,
        ", heater {} kHz at {} %",
        held.heater.khz, held.heater.duty
    )?;
    write!(
        out,
        ", bezel {} and {}",
        held.bezel.horizontal, held.bezel.vertical
    )?;
    write!(
        out,
        ", test pixels ({}, {}) to ({}, {})",
        held.pixels.x0, held.pixels.y0, held.pixels.x1, held.pixels.y1
    )
}

fn calibration(out: &mut String, c: &Calibration) -> Printed {
    let mode = if c.mode == 0 { "normal" } else { "calibration" };
    write!(
        out,
        ", {mode} mode, red level {}, green level {}, blue level {}",
        c.red, c.green, c.blue
    )?;
    write!(out, ", current limit {}, sensor gain {}", c.limit, c.gain)
}

fn status(out: &mut String, s: &StatusBytes) -> Printed {
    out.push_str(", status ")?;
    let mut none = true;
    for (set, name) in flags(s) {
        if set {
            if !none {
                out.push_str(", ")?;
            }
            out.push_str(name)?;
            none = false;
        }
    }
    out.push_str(if none { "none\n" } else { "\n" })
}

// The names of the status bits, and whether each is set.
fn flags(s: &StatusBytes) -> [(bool, &'static str); 9] {
    [
        (s.first & 0x08 != 0, "incomplete"),
        (s.first & 0x04 != 0, "not available"),
        (s.first & 0x01 != 0, "invalid command"),
        (s.second & 0x20 != 0, "out of range"),
        (s.fourth & 0x80 != 0, "escape seen"),
        (s.fourth & 0x40 != 0, "length"),
        (s.fourth & 0x20 != 0, "bytes ignored"),
        (s.fourth & 0x10 != 0, "checksum"),
        (others(s), "other bits"),
    ]
}

// Bits with no name: no controller sets one, but a WELCOME may bring it.
fn others(s: &StatusBytes) -> bool {
    s.first & 0xF2 != 0 || s.second & 0xDF != 0 || s.third != 0 || s.fourth & 0x0F != 0
}
