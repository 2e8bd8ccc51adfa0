// What the controller on the bench sends: all of it, or the reply among it.
use crate::print::Printed;
use crate::{packets, print};
use packet::Access;

pub(crate) fn told(out: &mut String, reply: Option<Access>, sent: &[u8]) -> Printed {
    match reply {
        None => print::named_bytes(out, "bus", sent),
        Some(access) => packets::response(out, access, sent),
    }
}
