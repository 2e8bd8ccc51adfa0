// What is told on standard error.
use std::io;

pub(crate) fn usage(rt: &impl Eprint) -> io::Result<()> {
    eprintln!(rt;
        "usage: cab [N], where N is the highest session ever opened at the box, 0 to 4294967295; none means 0"
    )
}

// What of the input came to nothing, if anything did.
pub(crate) fn lost(rt: &impl Eprint, dropped: u32, refused: u64) -> io::Result<()> {
    if dropped == 0 && refused == 0 {
        return Ok(());
    }
    eprintln!(rt; "bytes dropped where a frame should begin: {dropped}, lengths refused: {refused}")
}
