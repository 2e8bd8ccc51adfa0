// Any single call of demand 3's list, run at the code's own box and at one office. Its batches and runs of frames are in batch_calls.
#![tactic(auto)]

ghost use Rattle.std.specs.Prelude.{◌≡◌, length, Ok};
ghost use Rattle.session.specs.OneOffice.{pair_rules};
ghost use Rattle.calls.specs.View as view;

use frame::{Ask, OrderNumber, SessionId};
use outcome::Answered;
use session::{Cab, Office, Pair};

#[derive(Clone, Copy)]
pub enum Call {
    Restart(SessionId),
    BoxFrame,
    OpenSession(SessionId),
    Issue(Ask),
    Resend(OrderNumber),
    Reopen,
    OfficeFrame,
}

// What a call at the box gave, with the office beside it. Two functions, since each sets another field of the pair.
fn at_cab(ends: Pair, done: Answered<Cab>) -> Answered<Pair>
    ensures { result ≡ record { state = record ends { cab = done.state }; verdict = done.verdict; len = done.len } }
{
    done.with_state(Pair {
        cab: done.state,
        ..ends
    })
}

fn at_office(ends: Pair, done: Answered<Office>) -> Answered<Pair>
    ensures { result ≡ record { state = record ends { office = done.state }; verdict = done.verdict; len = done.len } }
{
    done.with_state(Pair {
        office: done.state,
        ..ends
    })
}

// With nothing written.
fn silent(state: Pair) -> Answered<Pair>
    ensures { result ≡ record { state = state; verdict = Ok tt; len = 0 } }
{
    Answered {
        state,
        verdict: Ok(()),
        len: 0,
    }
}

// The bytes are a frame in, or a command's data; other calls do not look at them. A restart and a frame to the office leave out as it is.
pub fn run(ends: Pair, call: Call, bytes: &[u8], out: &mut [u8]) -> Answered<Pair>
    ensures { view.Runs (pair_rules ends (view.call_of call bytes.now (length out.old))) result out.old out.new }
{
    match call {
        Call::Restart(session) => silent(Pair {
            cab: starting::restarted(session),
            ..ends
        }),
        Call::BoxFrame => at_cab(ends, cabbox::frame_in(ends.cab, bytes, out)),
        Call::OpenSession(session) => at_office(ends, sending::open(ends.office, session, out)),
        Call::Issue(ask) => at_office(ends, issuing::issue(ends.office, ask, bytes, out)),
        Call::Resend(number) => at_office(ends, sending::resend(ends.office, number, out)),
        Call::Reopen => at_office(ends, sending::reopen(ends.office, out)),
        Call::OfficeFrame => match receiving::frame_in(ends.office, bytes) {
            Ok(office) => silent(Pair { office, ..ends }),
            Err(refusal) => Answered::refused(ends, refusal),
        },
    }
}
