// Frames from the box, at the office.
#![tactic(auto)]

ghost use Rattle.std.specs.Prelude.{◌≡◌, ◌||◌, eqb};
ghost use Rattle.frame.specs.View.{meaning};
ghost use Rattle.session.specs.Office as spec;
ghost use Rattle.receiving.specs.View as view;

use base::{Fault, FrameFault, Refusal};
use frame::{Frame, Kind, OrderNumber, SessionId};
use judging::End;
use session::{Office, Stage};
use settings::Settings;
use starting::{is_awaiting, is_live};

// WELCOME of its session counts only while opening: one that comes late or twice would undo what was issued since.
#[tactic(auto, unfolding(session::specs::Office::welcomed))]
fn welcomed(office: Office, session: SessionId, settings: Settings) -> Office
    ensures { result ≡ spec.welcomed office session.0 settings }
{
    if !is_awaiting(office.stage) || session != office.session {
        return office;
    }
    Office {
        stage: Stage::Live,
        settings,
        issued: OrderNumber(0),
        confirmed: OrderNumber(0),
        ..office
    }
}

// A late ACK with a smaller count is no news, and none can count orders that were not issued.
fn counted(office: Office, count: OrderNumber) -> Office
    ensures { result ≡ view.counted office count.0 }
{
    if count <= office.confirmed || office.issued < count {
        return office;
    }
    Office {
        confirmed: count,
        ..office
    }
}

#[tactic(auto, using(crate::proofs::Turns::acknowledged_counts))]
fn acknowledged(office: Office, session: SessionId, count: OrderNumber) -> Office
    ensures { result ≡ spec.acknowledged office session.0 count.0 }
{
    if !is_live(office.stage) || session != office.session {
        return office;
    }
    counted(office, count)
}

// The refusals after which the box takes no more orders of the session, by number, since a REFUSE carries any byte.
fn is_ending(refusal: u8) -> bool
    ensures { result ≡ (eqb refusal 5 || eqb refusal 6) }
{
    matches!(refusal, 5 | 6)
}

fn in_session(stage: Stage) -> bool
    ensures { result ≡ (spec.is_awaiting stage || spec.is_live stage) }
{
    is_awaiting(stage) || is_live(stage)
}

#[tactic(auto, unfolding(session::specs::Office::ended))]
fn ended(office: Office, session: SessionId, refusal: u8) -> Office
    ensures { result ≡ spec.ended office session.0 refusal }
{
    if in_session(office.stage) && session == office.session && is_ending(refusal) {
        return Office {
            stage: Stage::Ended,
            ..office
        };
    }
    office
}

// What is no frame for the office is found out before; here too it is answered. One Ok behind the match, since an Ok in each arm would copy the office in each.
#[tactic(auto, unfolding(session::specs::Office::received))]
fn received(office: Office, frame: Frame) -> Result<Office, Refusal>
    ensures { view.Takes (view.received office (meaning frame)) office result }
{
    let after = match frame.kind {
        Kind::Welcome => welcomed(office, frame.session, frame.settings),
        Kind::Ack => acknowledged(office, frame.session, frame.number),
        Kind::Refuse(refusal) => ended(office, frame.session, refusal),
        Kind::Malformed | Kind::Opening | Kind::Order => {
            return Err(Refusal::Frame(Fault {
                kind: FrameFault::OtherEnd,
                offset: 0,
            }));
        }
    };
    Ok(after)
}

// Takes a frame from the box. A refusal leaves the office as it was.
pub fn frame_in(office: Office, bytes: &[u8]) -> Result<Office, Refusal>
    ensures { view.Takes (spec.frame_in office bytes.now) office result }
{
    received(office, decoding::decode(End::Office, bytes)?)
}
