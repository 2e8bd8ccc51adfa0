// Bytes in hexadecimal.
ghost use Rattle.std.specs.Prelude.{◌≡◌, ◌<◌, IfSome};
ghost use Rattle.text.specs.Text as spec;

// The byte that two hexadecimal digits write, in either case of letters.
pub fn hex_byte(s: &[u8]) -> Option<u8>
    ensures { result ≡ spec.hex_byte s.now }
{
    let [high, low] = s else {
        return None;
    };
    Some(16 * hex_digit(*high)? + hex_digit(*low)?)
}

fn hex_digit(byte: u8) -> Option<u8>
    ensures value { result ≡ spec.hex_digit byte }
    ensures small { IfSome result (λ digit. digit < 16) }
{
    match byte {
        b'0'..=b'9' => Some(byte - b'0'),
        b'A'..=b'F' => Some(byte - b'A' + 10),
        b'a'..=b'f' => Some(byte - b'a' + 10),
        _ => None,
    }
}
