// The reply reader.
ghost use Rattle.std.specs.Prelude.{◌≡◌, ◌≤◌, length};
ghost use Rattle.base.specs.Writes.{answer};
ghost use Rattle.reply.specs.Reader.{reply, dummies as dummies_of, reserved as reserved_of};

use base::Refusal;
use packet::{Access, checksum};

// A reply found in bytes: its data are bytes[start..start + count], and it ends before bytes[end]. Places and no slice: nothing is copied, and the contract tells places.
#[derive(Clone, Copy)]
pub struct Reply {
    pub response: u8,
    pub start: usize,
    pub count: usize,
    pub end: usize,
}

// Reads the reply to a command that asked for a write or a read. Nothing is copied.
#[tactic(auto, using(crate::proofs::Replies::places))]
pub fn read_reply(asked: Access, bytes: &[u8]) -> Result<Reply, Refusal>
    ensures { answer result ≡ reply asked bytes.now }
{
    let at = dummies(bytes);
    let Some(&response) = bytes.get(at) else {
        return Err(Refusal::IncompleteReply);
    };
    if reserved(response) {
        return Err(Refusal::InvalidReply);
    }
    if asked == Access::Write || response != 0x01 {
        return Ok(Reply {
            response,
            start: at + 1,
            count: 0,
            end: at + 1,
        });
    }
    let Some(&length) = bytes.get(at + 1) else {
        return Err(Refusal::IncompleteReply);
    };
    let start = at + 2;
    let count = usize::from(length);
    let Some(&sum) = bytes.get(start + count) else {
        return Err(Refusal::IncompleteReply);
    };
    if sum != checksum(0x01, length, &bytes[start..start + count]) {
        return Err(Refusal::InvalidReply);
    }
    Ok(Reply {
        response: 0x01,
        start,
        count,
        end: start + count + 1,
    })
}

// How many dummies stand at the front.
fn dummies(bytes: &[u8]) -> usize
    ensures value { result ≡ dummies_of bytes.now }
    ensures within { result ≤ length bytes.now }
{
    bytes.iter().take_while(|byte| **byte == 0xFF).count()
}

fn reserved(response: u8) -> bool
    ensures { result ≡ reserved_of response }
{
    matches!(response, 0x00 | 0x06 | 0x09..=0xFE)
}
