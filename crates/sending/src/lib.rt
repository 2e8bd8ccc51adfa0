// At the office: opening a session, and sending again, each as the same frame.
#![tactic(auto)]

ghost use Rattle.std.specs.Prelude.{◌≡◌, length, cond, ltb};
ghost use Rattle.std.proofs.Math.Option.{some, none};
ghost use Rattle.base.specs.Refusal.{plain};
ghost use Rattle.frame.specs.View.{meaning, refusal_of};
ghost use Rattle.link.specs.View.{frame_limit};
ghost use Rattle.session.specs.Office as spec;
ghost use Rattle.outcome.specs.Turn.{Gives};
ghost use Rattle.sending.specs.View as view;

use base::Refusal;
use frame::{Frame, OrderNumber, SessionId};
use link::FRAME_LIMIT;
use outcome::Answered;
use session::{Office, Stage, WINDOW_LIMIT};
use starting::{is_awaiting, is_live, never_opened};

// Whether an output has room for any frame.
fn room_refusal(room: usize) -> Result<(), Refusal>
    ensures { refusal_of result ≡ cond (ltb room frame_limit) (some (plain 1)) none }
{
    if room < FRAME_LIMIT {
        return Err(Refusal::OutputTooShort);
    }
    Ok(())
}

// Of any office: it is there for the contract alone.
#[tactic(auto, using(base::proofs::Tests::tests), unfolding(session::specs::Office::open_session))]
fn open_refusal(office: Office, session: SessionId, room: usize) -> Result<(), Refusal>
    ensures { refusal_of result ≡ (spec.open_session office session.0 room).refusal }
{
    if session == SessionId(0) {
        return Err(Refusal::WrongSession);
    }
    room_refusal(room)
}

fn awaiting(session: SessionId) -> Office
    ensures { result ≡ view.awaiting session.0 }
{
    Office {
        stage: Stage::Awaiting,
        session,
        ..never_opened()
    }
}

// Starts anew with a session and writes its OPEN.
pub fn open(office: Office, session: SessionId, out: &mut [u8]) -> Answered<Office>
    ensures { Gives (spec.open_session office session.0 (length out.old)) result out.old out.new }
{
    if let Err(refusal) = open_refusal(office, session, out.len()) {
        return Answered::refused(office, refusal);
    }
    office::send(awaiting(session), Frame::opening(session), out)
}

#[tactic(auto, using(base::proofs::Tests::tests), unfolding(session::specs::Office::reopen))]
fn reopen_refusal(office: Office, room: usize) -> Result<(), Refusal>
    ensures { refusal_of result ≡ (spec.reopen office room).refusal }
{
    if !is_awaiting(office.stage) {
        return Err(Refusal::NothingToResend);
    }
    room_refusal(room)
}

// Sends OPEN again.
pub fn reopen(office: Office, out: &mut [u8]) -> Answered<Office>
    ensures { Gives (spec.reopen office (length out.old)) result out.old out.new }
{
    if let Err(refusal) = reopen_refusal(office, out.len()) {
        return Answered::refused(office, refusal);
    }
    office::send(office, Frame::opening(office.session), out)
}

#[tactic(auto, using(base::proofs::Tests::tests), unfolding(session::specs::Office::resend))]
fn resend_refusal(office: Office, number: OrderNumber, room: usize) -> Result<(), Refusal>
    ensures { refusal_of result ≡ (spec.resend office number.0 room).refusal }
{
    if !is_live(office.stage) {
        return Err(Refusal::OfficeNotOpen);
    }
    if number <= office.confirmed || office.issued < number {
        return Err(Refusal::NothingToResend);
    }
    room_refusal(room)
}

// Order n stands at place (n - 1) mod WINDOW_LIMIT of the window.
fn kept_order(office: Office, number: OrderNumber) -> Frame
    ensures { meaning result ≡ some (view.kept_order office number.0) }
{
    let place = number.0.saturating_sub(1) as usize % WINDOW_LIMIT;
    Frame::order(office.session, number, office.window[place].change)
}

// Sends an unanswered order again.
pub fn resend(office: Office, number: OrderNumber, out: &mut [u8]) -> Answered<Office>
    ensures { Gives (spec.resend office number.0 (length out.old)) result out.old out.new }
{
    if let Err(refusal) = resend_refusal(office, number, out.len()) {
        return Answered::refused(office, refusal);
    }
    office::send(office, kept_order(office, number), out)
}
