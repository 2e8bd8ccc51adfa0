// The exchange over a run of bytes. The controller is taken apart once: the two arrays are changed in place, the settings
// where a packet ends, and the rest goes from step to step by value.
ghost use Rattle.std.specs.Prelude.{◌≡◌, ◌++◌, length, drop};
ghost use Rattle.bus.specs.Bus as spec;
ghost use Rattle.bus.specs.Run.{run, outs, exchanged};

use crate::state::{BusState, Step};
use bus::{Controller, Exchanged};

// Exchanges the bytes of the input one after another, and puts those that the controller sends at the start of the output.
// A byte that finds no room for the one sent out is not exchanged.
#[tactic(auto, unfolding(bus::specs::Run::run, bus::specs::Run::outs))]
pub fn exchange_all(controller: Controller, input: &[u8], output: &mut [u8]) -> Controller
    ensures after { result ≡ run controller (exchanged input.now output.old) }
    ensures sent { output.new ≡ outs controller (exchanged input.now output.old) ++ drop (length input.now) output.old }
{
    let mut state = BusState::of(controller);
    let mut settings = controller.settings;
    let mut body = controller.packet.body;
    let mut bytes = controller.reply.bytes;
    // An index, since nothing is known yet of what a loop over `output.iter_mut().zip(input)` writes: tried, its goals stayed open.
    let n = input.len().min(output.len());
    for i in 0..n {
        output[i] = state.out(&bytes);
        let step = state.after(input[i], &mut body, &mut bytes);
        match step {
            Step::Next(next) => {
                state = next;
            }
            Step::Checksum(sum) => {
                let done = state.judged(sum, settings, &body);
                settings = done.settings;
                bytes = done.reply.bytes;
                state = state.ended(settings, done.reply);
            }
        }
    }
    state.assembled(settings, body, bytes)
}

// One exchange: the byte out is fixed before the byte in is looked at.
#[tactic(auto, unfolding(bus::specs::Run::run, bus::specs::Run::outs))]
pub fn exchange(controller: Controller, byte: u8) -> Exchanged
    ensures { result ≡ spec.exchange controller byte }
{
    let input = [byte];
    let mut output = [0];
    let after = exchange_all(controller, &input, &mut output);
    Exchanged {
        controller: after,
        out: output[0],
    }
}
