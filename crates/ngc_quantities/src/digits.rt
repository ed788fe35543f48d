//! The numbers that digits write.
ghost use Rattle.std.specs.Prelude.{◌≡◌, ◌<◌, ◌≤◌, ◌^◌, min, IfOk};
ghost use Rattle.std.specs.List.{list_all};
ghost use Rattle.std.specs.Char.{is_ascii_digit};
ghost use Rattle.ngc_quantities.specs.Numbers as spec;

use crate::fault::Cause;

// A number of digits is less than this.
const LIMIT: u64 = 1_000_000_000_000;

fn are_digits(text: &[u8]) -> bool
    ensures { result ≡ list_all is_ascii_digit text.now }
{
    text.iter().all(|byte| byte.is_ascii_digit())
}

// Returns the number that digits write, at most the limit.
#[tactic(auto, using(crate::proofs::Counts::valued))]
fn limited_value(digits: &[u8]) -> u64
    ensures value { result ≡ min (spec.digits_value digits.now) 1000000000000 }
    ensures bound { result ≤ 1000000000000 }
{
    let mut value: u64 = 0;
    for digit in digits {
        value = (10 * value + u64::from(digit.saturating_sub(b'0'))).min(LIMIT);
    }
    value
}

/// Returns the number that digits write, which is less than 10^12. No digits write 0.
#[tactic(auto, unfolding(crate::specs::Numbers::digits_in))]
pub(crate) fn digits_in(text: &[u8]) -> Result<u64, Cause>
    ensures value { result ≡ spec.digits_in text.now }
    ensures bound { IfOk result (λ n. n < 1000000000000) }
{
    if !are_digits(text) {
        return Err(Cause::NoNumber);
    }
    let value = limited_value(text);
    if value >= LIMIT {
        return Err(Cause::ManyDigits);
    }
    Ok(value)
}

/// Returns the number that digits write, of which there must be one at least.
pub(crate) fn some_digits_in(text: &[u8]) -> Result<u64, Cause>
    ensures value { result ≡ spec.some_digits_in text.now }
    ensures bound { IfOk result (λ n. n < 1000000000000) }
{
    if text.is_empty() {
        return Err(Cause::NoNumber);
    }
    digits_in(text)
}

/// Returns 10 to a power of at most 12.
pub(crate) fn power_of_ten(exponent: usize) -> u64
    requires { exponent ≤ 12 }
    ensures value { result ≡ 10 ^ exponent }
    ensures some { 0 < result }
    ensures bound { result ≤ 1000000000000 }
{
    match exponent {
        0 => 1,
        1 => 10,
        2 => 100,
        3 => 1_000,
        4 => 10_000,
        5 => 100_000,
        6 => 1_000_000,
        7 => 10_000_000,
        8 => 100_000_000,
        9 => 1_000_000_000,
        10 => 10_000_000_000,
        11 => 100_000_000_000,
        _ => 1_000_000_000_000,
    }
}
