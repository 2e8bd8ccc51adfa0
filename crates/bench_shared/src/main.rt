// `bench` in a program that also works out an order without a controller, as the office of `simulate` does, so that the
// commands' code has a second caller. It is there to be measured: docs/COMPARISON.md.
#![tactic(auto)]

use bus::Controller;
use controller::exchange_all;
use frame::{Change, DATA_LIMIT};
use std::io;
use std::io::Read;

// As many bytes as one read may give.
const READ_LIMIT: usize = 4096;

// On standard error, the backlight after the bytes as an order's command byte and data.
fn tell(rt: &impl Eprint, controller: Controller, bytes: &[u8; READ_LIMIT]) -> io::Result<()> {
    let settings = controller.settings();
    let after = match Change::command(bytes[0], &bytes[1..=DATA_LIMIT]) {
        Ok(change) => order::apply(settings, change),
        Err(_) => settings,
    };
    eprintln!(rt; "{}", after.backlight)
}

// The input is fresh at each read, so the bytes told of at its end are zeros. A proved loop has to end, and an input need not: so it
// counts its turns, up to a number that no run uses up.
fn main(rt: HostRuntime) -> io::Result<()> {
    let mut controller = Controller::fresh();
    for _ in 0..u64::MAX {
        let mut input = [0u8; READ_LIMIT];
        let n = rt.stdin().read(&mut input)?;
        if n == 0 {
            return tell(&rt, controller, &input);
        }
        let mut output = [0u8; READ_LIMIT];
        controller = exchange_all(controller, &input[..n], &mut output);
        rt.stdout().write_all(&output[..n])?;
    }
    Ok(())
}
