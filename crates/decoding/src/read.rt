// The frame that bytes are, read by position. Whether they are one is not asked here.
ghost use Rattle.std.specs.Prelude.{◌≡◌};
ghost use Rattle.std.proofs.Math.Option.{some};
ghost use Rattle.frame.specs.View.{change_of, frame_of};
ghost use Rattle.judging.specs.Decoding as spec;
ghost use Rattle.decoding.specs.Steps as steps;

use frame::{Change, Frame, OrderNumber, SessionId};
use link::tag;
use number::{byte, le16, le32, rest};
use registers::from_block;

fn session_in(bytes: &[u8]) -> SessionId
    ensures { result.0 ≡ spec.session_in bytes.now }
{
    SessionId(le32(rest(bytes, 3)))
}

fn number_in(bytes: &[u8]) -> OrderNumber
    ensures { result.0 ≡ spec.number_in bytes.now }
{
    OrderNumber(le16(rest(bytes, 7)))
}

// More data than an ORDER can carry are a fault, told before: the raise by 0 is no frame's.
#[tactic(auto, unfolding(judging::specs::Decoding::change_in))]
fn change_in(field: &[u8]) -> Change
    ensures { result ≡ change_of (steps.change_carried (spec.change_in field.now)) }
{
    match byte(field, 0) {
        tag::COMMAND => Change::command(byte(field, 3), rest(field, 4)).unwrap_or(Change::raise(0)),
        tag::RAISE => Change::raise(le16(rest(field, 3))),
        _ => Change::lower(le16(rest(field, 3))),
    }
}

#[tactic(auto, unfolding(judging::specs::Decoding::frame_in))]
pub(crate) fn frame_in(bytes: &[u8]) -> Frame
    ensures { result ≡ frame_of (some (steps.carried (spec.frame_in bytes.now))) }
{
    let session = session_in(bytes);
    match byte(bytes, 0) {
        tag::OPENING => Frame::opening(session),
        tag::WELCOME => Frame::welcome(session, from_block(rest(bytes, 10))),
        tag::ORDER => Frame::order(session, number_in(bytes), change_in(rest(bytes, 9))),
        tag::ACK => Frame::ack(session, number_in(bytes)),
        _ => Frame::refuse(session, byte(bytes, 7)),
    }
}
