// Decimal numbers.
ghost use Rattle.std.specs.Prelude.{◌≡◌};
ghost use Rattle.text.specs.Text as spec;

use thiserror::Error;

#[derive(Clone, Copy, Debug, PartialEq, Eq, Error)]
pub enum DecimalError {
    #[error("not a decimal number")]
    NotDigits,
    #[error("more than 64 bits")]
    TooLarge,
}

// The number that the digits of s write, where s is digits alone and one at least.
pub fn decimal(s: &[u8]) -> Result<u64, DecimalError>
    ensures { result ≡ spec.decimal s.now }
{
    if s.is_empty() || !all_digits(s) {
        return Err(DecimalError::NotDigits);
    }
    value(s)
}

fn all_digits(s: &[u8]) -> bool
    ensures { result ≡ spec.all_digits s.now }
{
    s.iter().all(|byte| byte.is_ascii_digit())
}

fn value(s: &[u8]) -> Result<u64, DecimalError>
    ensures { result ≡ spec.within_u64 (spec.value_from 0 s.now) }
{
    s.iter().try_fold(0u64, |n, byte| {
        let digit = u64::from(byte.saturating_sub(b'0'));
        n.checked_mul(10)
            .and_then(|tens| tens.checked_add(digit))
            .ok_or(DecimalError::TooLarge)
    })
}
