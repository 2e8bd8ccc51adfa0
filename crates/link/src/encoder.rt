// Frames to bytes.
ghost use Rattle.std.specs.Prelude.{◌≡◌, ◌∷◌, [], ◌++◌, ◌+◌, ◌≤◌, length};
ghost use Rattle.number.specs.Number.{le16_bytes, le32_bytes};
ghost use Rattle.frame.specs.View.{asked, meaning};
ghost use Rattle.frame.specs.Frame as frames;
ghost use Rattle.link.specs.Encoding as spec;
ghost use Rattle.link.specs.View as view;

use crate::encoded::Encoded;
use crate::tag;
use base::{Written, put};
use frame::{Ask, Change, Frame, Kind, OrderNumber, SessionId};
use registers::block;
use settings::Settings;

// A session and an order's number or count.
fn numbered(session: SessionId, number: OrderNumber) -> [u8; 6]
    ensures { result ≡ le32_bytes session.0 ++ le16_bytes number.0 }
{
    let [a, b, c, d] = session.0.to_le_bytes();
    let [low, high] = number.0.to_le_bytes();
    [a, b, c, d, low, high]
}

// A session and a refusal.
fn refusing(session: SessionId, refusal: u8) -> [u8; 5]
    ensures { result ≡ le32_bytes session.0 ++ refusal ∷ [] }
{
    let [a, b, c, d] = session.0.to_le_bytes();
    [a, b, c, d, refusal]
}

#[tactic(auto, using(crate::proofs::Building::bytes_of_encoded), unfolding(crate::specs::Encoding::encode))]
fn welcome(session: SessionId, settings: Settings) -> Encoded
    ensures { result ≡ view.encoded (spec.encode (frames.welcome session.0 settings)) }
{
    let mut frame = Encoded::field(tag::WELCOME, &session.0.to_le_bytes());
    frame.append_field(tag::SETTINGS, &block(settings));
    frame
}

#[tactic(auto, using(crate::proofs::Building::bytes_of_encoded), unfolding(crate::specs::Encoding::encode))]
fn order(session: SessionId, number: OrderNumber, change: Change) -> Encoded
    ensures { result ≡ view.encoded (spec.encode (frames.order session.0 number.0 (asked change))) }
{
    let mut frame = Encoded::field(tag::ORDER, &numbered(session, number));
    append_change(change, &mut frame);
    frame
}

#[tactic(auto, using(crate::proofs::Building::bytes_of_encoded))]
fn append_change(change: Change, frame: &mut Encoded)
    requires built { frame.old ≡ view.encoded (view.bytes_of frame.old) }
    requires room { length (view.bytes_of frame.old) + 4 + frames.data_limit ≤ view.frame_limit }
    ensures { frame.new ≡ view.encoded (view.bytes_of frame.old ++ spec.change_field (asked change)) }
{
    match change.ask {
        Ask::Command(command) => {
            append_command(command, &change.body[..change.data_length()], frame)
        }
        Ask::Raise(step) => frame.append_field(tag::RAISE, &step.to_le_bytes()),
        Ask::Lower(step) => frame.append_field(tag::LOWER, &step.to_le_bytes()),
    }
}

#[tactic(auto, using(crate::proofs::Building::bytes_of_encoded))]
fn append_command(command: u8, bytes: &[u8], frame: &mut Encoded)
    requires built { frame.old ≡ view.encoded (view.bytes_of frame.old) }
    requires room { length (view.bytes_of frame.old) + 4 + frames.data_limit ≤ view.frame_limit }
    requires short { length bytes.now ≤ frames.data_limit }
    ensures { frame.new ≡ view.encoded (view.bytes_of frame.old ++ spec.change_field (frames.command command bytes.now)) }
{
    let [low, high] = (bytes.len() as u16 + 1).to_le_bytes();
    frame.append(&[tag::COMMAND, low, high, command]);
    frame.append(bytes);
}

// A frame as bytes; the malformed one has none.
#[tactic(auto, using(crate::proofs::Building::bytes_of_encoded, crate::proofs::FrameLaws::meaning_length), unfolding(crate::specs::Encoding::encode))]
pub fn encode(frame: Frame) -> Encoded
    ensures whole { result ≡ view.encoded (view.encoding_of (meaning frame)) }
    ensures bytes { view.bytes_of result ≡ view.encoding_of (meaning frame) }
    ensures short { result.len ≤ view.frame_limit }
{
    match frame.kind {
        Kind::Malformed => Encoded::empty(),
        Kind::Opening => Encoded::field(tag::OPENING, &frame.session.0.to_le_bytes()),
        Kind::Welcome => welcome(frame.session, frame.settings),
        Kind::Order => order(frame.session, frame.number, frame.change),
        Kind::Ack => Encoded::field(tag::ACK, &numbered(frame.session, frame.number)),
        Kind::Refuse(refusal) => Encoded::field(tag::REFUSE, &refusing(frame.session, refusal)),
    }
}

// Writes a frame at the start of out. A refusal leaves out as it was.
pub fn send(frame: Frame, out: &mut [u8]) -> Written
    ensures { view.Sends (view.encoding_of (meaning frame)) result out.old out.new }
{
    put(encode(frame).as_slice(), out)
}
