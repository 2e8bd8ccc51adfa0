// A stand-in for the test bench: reads the host's bytes from standard input, and writes to standard output the byte
// that the controller sends for each, until the input ends.
#![tactic(auto)]

use bus::Controller;
use controller::exchange_all;
use std::io;
use std::io::Read;

// As many bytes as one read may give.
const READ_LIMIT: usize = 4096;

// The bytes of one read are answered at once, however few, since the host may wait for them. A proved loop has to end, and an
// input need not: so it counts its turns, up to a number that no run uses up.
fn main(rt: HostRuntime) -> io::Result<()> {
    let mut controller = Controller::fresh();
    for _ in 0..u64::MAX {
        let mut input = [0u8; READ_LIMIT];
        let n = rt.stdin().read(&mut input)?;
        if n == 0 {
            return Ok(());
        }
        let mut output = [0u8; READ_LIMIT];
        controller = exchange_all(controller, &input[..n], &mut output);
        rt.stdout().write_all(&output[..n])?;
    }
    Ok(())
}
