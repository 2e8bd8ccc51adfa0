// Places in a line, and what stands between two of them.
ghost use Rattle.std.specs.Prelude.{◌≡◌, ◌≤◌, length};
ghost use Rattle.text.specs.Text as spec;

use number::rest;

// s[from..to], or nothing where s has no such part.
pub fn part(s: &[u8], from: usize, to: usize) -> &[u8]
    ensures { result.now ≡ spec.part s.now from to }
{
    s.get(from..to).unwrap_or(&[])
}

// The first place from start on where the byte stands, or the end; start itself where that is past the end.
pub fn find(s: &[u8], start: usize, byte: u8) -> usize
    ensures { result ≡ spec.find s.now start byte }
{
    start + before(rest(s, start), byte)
}

// How many bytes stand before the first that is this one, or before the end.
pub(crate) fn before(s: &[u8], byte: u8) -> usize
    ensures count { result ≡ spec.before byte s.now }
    ensures within { result ≤ length s.now }
{
    s.iter().take_while(|b| **b != byte).count()
}
