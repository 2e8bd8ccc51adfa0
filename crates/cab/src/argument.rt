// What the program's argument tells.
use std::env::{Env, FillError};

// A longer argument is refused unread.
const ARGUMENT_LIMIT: usize = 4096;

// The first of the arguments is the program's name. They are taken as bytes, since one need not be text. Nothing where they are wrong.
pub(crate) fn highest(rt: &impl Env) -> Option<u32> {
    if is_there(rt, 2) {
        return None;
    }
    let mut argument = [0u8; ARGUMENT_LIMIT];
    match rt.arg(1, &mut argument) {
        Ok(n) => u32::try_from(text::decimal(&argument[..n]).ok()?).ok(),
        Err(FillError::NotPresent) => Some(0),
        Err(FillError::TooLong) => None,
    }
}

fn is_there(rt: &impl Env, i: usize) -> bool {
    let mut start = [0u8; 1];
    !matches!(rt.arg(i, &mut start), Err(FillError::NotPresent))
}
