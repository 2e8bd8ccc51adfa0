// The cab box: it holds the controller, and takes each order of the open session once and in its turn.
#![tactic(auto)]

mod obey;

ghost use Rattle.std.specs.Prelude.{◌≡◌, cond, eqb, length};
ghost use Rattle.base.specs.Lent.{overwritten};
ghost use Rattle.base.specs.Refusal.{told, fault_of};
ghost use Rattle.frame.specs.View.{asked, meaning};
ghost use Rattle.judging.specs.View.{fault_found, frame_found};
ghost use Rattle.link.specs.View.{encoding_of};
ghost use Rattle.outcome.specs.Turn.{Gives, refuses, faulted_by};
ghost use Rattle.session.specs.Box as spec;
ghost use Rattle.cabbox.specs.View as view;

use base::{Fault, FrameFault, Refusal};
use frame::{Change, Frame, Kind, OrderNumber, SessionId};
use judging::End;
use link::FRAME_LIMIT;
use obey::obey;
use outcome::Answered;
use session::Cab;

// What a frame in gives, before the answer is written: beside a refusal the frame is a REFUSE.
#[derive(Clone, Copy)]
struct Turn {
    cab: Cab,
    verdict: Result<(), Refusal>,
    frame: Frame,
}

fn accepted(cab: Cab, frame: Frame) -> Turn
    ensures { result ≡ view.accepted cab frame }
{
    Turn {
        cab,
        verdict: Ok(()),
        frame,
    }
}

fn refused(cab: Cab, session: SessionId, refusal: Refusal) -> Turn
    ensures { view.turn result ≡ refuses cab session.0 (told refusal) }
{
    Turn {
        cab,
        verdict: Err(refusal),
        frame: Frame::refuse(session, refusal.number()),
    }
}

fn welcomed(cab: Cab) -> Turn
    ensures { view.turn result ≡ spec.welcomed cab }
{
    accepted(cab, Frame::welcome(cab.highest, cab.controller.settings()))
}

fn acknowledged(cab: Cab) -> Turn
    ensures { view.turn result ≡ spec.acknowledged cab }
{
    accepted(cab, Frame::ack(cab.highest, cab.taken))
}

fn with_session(cab: Cab, session: SessionId) -> Cab
    ensures { result ≡ spec.with_session cab session.0 }
{
    Cab {
        highest: session,
        active: true,
        taken: OrderNumber(0),
        ..cab
    }
}

// To OPEN of the open session.
fn reminded(cab: Cab) -> Turn
    ensures { view.turn result ≡ cond (eqb cab.taken.0 0) (spec.welcomed cab) (spec.acknowledged cab) }
{
    if cab.taken == OrderNumber(0) {
        return welcomed(cab);
    }
    acknowledged(cab)
}

#[tactic(auto, unfolding(session::specs::Box::opened_again))]
fn opened_again(cab: Cab, session: SessionId) -> Turn
    ensures { view.turn result ≡ spec.opened_again cab session.0 }
{
    if cab.active && session == cab.highest {
        return reminded(cab);
    }
    refused(cab, session, Refusal::WrongSession)
}

#[tactic(auto, unfolding(session::specs::Box::opened))]
fn opened(cab: Cab, session: SessionId) -> Turn
    ensures { view.turn result ≡ spec.opened cab session.0 }
{
    if cab.highest < session {
        return welcomed(with_session(cab, session));
    }
    opened_again(cab, session)
}

fn with_order(cab: Cab, number: OrderNumber, change: Change) -> Cab
    ensures { result ≡ spec.with_order cab number.0 (asked change) }
{
    Cab {
        controller: obey(cab.controller, change),
        taken: number,
        ..cab
    }
}

// An order of the open session.
#[tactic(auto, unfolding(session::specs::Box::ordered_here))]
fn ordered_here(cab: Cab, number: OrderNumber, change: Change) -> Turn
    ensures { view.turn result ≡ spec.ordered_here cab number.0 (asked change) }
{
    if number <= cab.taken {
        return acknowledged(cab);
    }
    if number.0 - cab.taken.0 == 1 {
        return acknowledged(with_order(cab, number, change));
    }
    refused(cab, cab.highest, Refusal::OrderTooFarAhead)
}

#[tactic(auto, unfolding(session::specs::Box::ordered))]
fn ordered(cab: Cab, session: SessionId, number: OrderNumber, change: Change) -> Turn
    ensures { view.turn result ≡ spec.ordered cab session.0 number.0 (asked change) }
{
    if !cab.active {
        return refused(cab, session, Refusal::NoOpenSession);
    }
    if session != cab.highest {
        return refused(cab, session, Refusal::WrongSession);
    }
    ordered_here(cab, number, change)
}

// A frame's fault. Its session is not told.
fn faulted(cab: Cab, fault: Fault) -> Turn
    ensures { view.turn result ≡ faulted_by cab (fault_of fault) }
{
    refused(cab, SessionId(0), Refusal::Frame(fault))
}

// What is no frame for the box is found out before; here too it is answered.
#[tactic(auto, unfolding(session::specs::Box::received))]
fn received(cab: Cab, frame: Frame) -> Turn
    ensures { view.turn result ≡ view.received cab (meaning frame) }
{
    match frame.kind {
        Kind::Opening => opened(cab, frame.session),
        Kind::Order => ordered(cab, frame.session, frame.number, frame.change),
        Kind::Malformed | Kind::Welcome | Kind::Ack | Kind::Refuse(_) => faulted(
            cab,
            Fault {
                kind: FrameFault::OtherEnd,
                offset: 0,
            },
        ),
    }
}

fn judged(cab: Cab, read: Result<Frame, Fault>) -> Turn
    ensures { view.turn result ≡ view.judged cab (fault_found read) (meaning (frame_found read)) }
{
    match read {
        Ok(frame) => received(cab, frame),
        Err(fault) => faulted(cab, fault),
    }
}

// Writes a frame where there is room for any.
fn write(frame: Frame, out: &mut [u8; FRAME_LIMIT]) -> usize
    ensures length { result ≡ length (encoding_of (meaning frame)) }
    ensures output { out.new ≡ overwritten (encoding_of (meaning frame)) out.old }
{
    link::send(frame, out).unwrap_or(0)
}

fn answer(turn: Turn, out: &mut [u8; FRAME_LIMIT]) -> Answered<Cab>
    ensures { Gives (view.turn turn) result out.old out.new }
{
    Answered {
        state: turn.cab,
        verdict: turn.verdict,
        len: write(turn.frame, out),
    }
}

// Takes any bytes as a frame, and writes the answer at the start of out.
pub fn frame_in(cab: Cab, bytes: &[u8], out: &mut [u8]) -> Answered<Cab>
    ensures { Gives (spec.frame_in cab bytes.now (length out.old)) result out.old out.new }
{
    let Some(room) = out.first_chunk_mut::<FRAME_LIMIT>() else {
        return Answered::refused(cab, Refusal::OutputTooShort);
    };
    answer(judged(cab, decoding::decode(End::Box, bytes)), room)
}
