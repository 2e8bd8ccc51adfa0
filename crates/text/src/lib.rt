// Lines of text: parts, words and numbers.
#![tactic(auto)]

mod digits;
mod hex;
mod place;
mod words;

pub use digits::{DecimalError, decimal};
pub use hex::hex_byte;
pub use place::{find, part};
pub use words::{after_word, skip_spaces, word};
