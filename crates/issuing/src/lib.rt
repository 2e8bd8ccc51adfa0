// At the office: issuing the next order.
#![tactic(auto)]

ghost use Rattle.std.specs.Prelude.{◌≡◌, length, IfOk};
ghost use Rattle.std.proofs.Math.Option.{map};
ghost use Rattle.base.specs.Refusal.{plain};
ghost use Rattle.base.specs.Writes.{answer};
ghost use Rattle.frame.specs.View.{asked, asked_as, change_made, change_of, refusal_of};
ghost use Rattle.session.specs.Office as spec;
ghost use Rattle.session.specs.Limits.{order_limit};
ghost use Rattle.outcome.specs.Turn.{Gives};
ghost use Rattle.issuing.specs.View as view;

use base::Refusal;
use frame::{Ask, Change, Frame, OrderNumber};
use link::FRAME_LIMIT;
use outcome::Answered;
use session::{ORDER_LIMIT, Office, Order, Stage, WINDOW_LIMIT};
use starting::is_live;

// The change asked for, unless it has more data than an ORDER can carry.
fn change(ask: Ask, bytes: &[u8]) -> Result<Change, Refusal>
    ensures { answer result ≡ change_made (asked_as ask bytes.now) }
{
    match ask {
        Ask::Command(command) => Change::command(command, bytes),
        Ask::Raise(step) => Ok(Change::raise(step)),
        Ask::Lower(step) => Ok(Change::lower(step)),
    }
}

// No call returns an office with more confirmed than issued, but nothing keeps a caller from making one.
#[tactic(auto, using(base::proofs::Tests::tests))]
fn count_refusal(issued: u16, confirmed: u16) -> Result<(), Refusal>
    ensures { refusal_of result ≡ map plain (view.count_refusal issued confirmed) }
{
    if issued == ORDER_LIMIT {
        return Err(Refusal::OrderNumbersExhausted);
    }
    if WINDOW_LIMIT <= issued.saturating_sub(confirmed) as usize {
        return Err(Refusal::WindowFull);
    }
    Ok(())
}

// The change of the next order, or why none is issued.
#[tactic(auto, using(base::proofs::Tests::tests), unfolding(session::specs::Office::issue_refusal))]
fn next_change(office: Office, ask: Ask, bytes: &[u8], room: usize) -> Result<Change, Refusal>
    ensures refusal { refusal_of result ≡ map plain (spec.issue_refusal office (asked_as ask bytes.now) room) }
    ensures change { IfOk result (λ change. change ≡ change_of (asked_as ask bytes.now)) }
{
    if !is_live(office.stage) {
        return Err(Refusal::OfficeNotOpen);
    }
    // Sending has the same test of the room: one function for both would have to be public in office.
    if room < FRAME_LIMIT {
        return Err(Refusal::OutputTooShort);
    }
    let change = change(ask, bytes)?;
    count_refusal(office.issued.0, office.confirmed.0)?;
    Ok(change)
}

// Order n stands at place (n - 1) mod WINDOW_LIMIT of the window.
fn with_order(office: Office, change: Change) -> Office
    requires { (office.issued.0 ≡ order_limit → ⊥) × (change ≡ change_of (asked change)) }
    ensures { result ≡ spec.with_order office (asked change) }
{
    let number = OrderNumber(office.issued.0 + 1);
    let mut window = office.window;
    window[office.issued.0 as usize % WINDOW_LIMIT] = Order { number, change };
    Office {
        stage: Stage::Live,
        settings: order::apply(office.settings, change),
        issued: number,
        window,
        ..office
    }
}

// Issues the next order. The bytes are a command's data, and are not looked at for a raise or a lower.
pub fn issue(office: Office, ask: Ask, bytes: &[u8], out: &mut [u8]) -> Answered<Office>
    ensures { Gives (spec.issue office (asked_as ask bytes.now) (length out.old)) result out.old out.new }
{
    match next_change(office, ask, bytes, out.len()) {
        Ok(change) => {
            let after = with_order(office, change);
            office::send(
                after,
                Frame::order(after.session, after.issued, change),
                out,
            )
        }
        Err(refusal) => Answered::refused(office, refusal),
    }
}
