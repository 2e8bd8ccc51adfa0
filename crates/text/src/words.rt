// Words, which spaces set apart.
ghost use Rattle.std.specs.Prelude.{◌≡◌};
ghost use Rattle.text.specs.Text as spec;

use crate::place::before;
use number::rest;

// The bytes up to the first space, or all.
pub fn word(s: &[u8]) -> &[u8]
    ensures { result.now ≡ spec.word s.now }
{
    &s[..before(s, b' ')]
}

// What follows the first word and all spaces behind it.
pub fn after_word(s: &[u8]) -> &[u8]
    ensures { result.now ≡ spec.after_word s.now }
{
    skip_spaces(rest(s, before(s, b' ')))
}

pub fn skip_spaces(s: &[u8]) -> &[u8]
    ensures { result.now ≡ spec.skip_spaces s.now }
{
    rest(s, spaces(s))
}

// How many spaces stand at the front.
fn spaces(s: &[u8]) -> usize
    ensures { result ≡ spec.spaces s.now }
{
    s.iter().take_while(|byte| **byte == b' ').count()
}
