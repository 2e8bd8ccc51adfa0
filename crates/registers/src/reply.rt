// A command's reply.
ghost use Rattle.std.specs.Prelude.{◌≡◌, ◌≤◌, length};
ghost use Rattle.packet.specs.Reply.{success as success_of};
ghost use Rattle.bus.specs.Commands as spec;
ghost use Rattle.registers.specs.Failure.{flag as flag_of, code as code_of};

use base::store;
use bus::{Performed, ReplyBytes, response};
use settings::{Flag, Settings};

// Why a command is not performed: each one's response.
#[derive(Clone, Copy)]
pub(crate) enum Failure {
    InvalidCommand = 0x03,
    NotAvailable = 0x04,
    WrongLength = 0x05,
    OutOfRange = 0x07,
}

impl Failure {
    fn flag(self) -> Flag
        ensures { result ≡ flag_of self }
    {
        match self {
            Failure::InvalidCommand => Flag::InvalidCommand,
            Failure::NotAvailable => Flag::NotAvailable,
            Failure::WrongLength => Flag::WrongLength,
            Failure::OutOfRange => Flag::OutOfRange,
        }
    }
}

// A reply with data behind its response and its length.
pub(crate) fn success(bytes: &[u8]) -> ReplyBytes
    requires { length bytes.now ≤ 8 }
    ensures { result ≡ spec.reply_of (success_of bytes.now) }
{
    let n = bytes.len();
    let count = n as u8;
    let mut out = [0x01, count, 0, 0, 0, 0, 0, 0, 0, 0, 0];
    store(bytes, &mut out, 2);
    out[n + 2] = packet::checksum(0x01, count, bytes);
    ReplyBytes {
        bytes: out,
        len: count + 3,
    }
}

// A command that is not performed gives settings and a reply too, so none gives a Result.
pub(crate) fn failed(settings: Settings, failure: Failure) -> Performed
    ensures { result ≡ spec.failed settings (flag_of failure) (code_of failure) }
{
    Performed {
        settings: settings.flagged(failure.flag()),
        reply: response(failure as u8),
    }
}
