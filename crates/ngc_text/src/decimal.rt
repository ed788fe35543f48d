ghost use Rattle.std.specs.Prelude.{◌≡◌, ◌≤◌, IfSome};
ghost use Rattle.std.specs.Option.{option_map};
ghost use Rattle.ngc_text.specs.Decimals.{decimal_in as decimal_said, limited, digits_size};
ghost use Rattle.ngc_text.specs.Decimals.{has_lead};

// A greater number is replaced with this one.
const GREATEST: u64 = 10_000_000_000;

// Returns whether there are digits, without leading zeros.
fn begins_number(digits: &[u8]) -> bool
    ensures { result ≡ has_lead digits.now }
{
    match digits {
        [] => false,
        [first, rest @ ..] => *first != b'0' || rest.is_empty(),
    }
}

// Returns the number that digits write, at most `GREATEST`.
fn digits_size(digits: &[u8]) -> Option<u64>
    ensures value { result ≡ digits_size digits.now }
    ensures bound { IfSome result (λ n. n ≤ 10000000000) }
{
    let mut size = 0;
    for byte in digits {
        if !byte.is_ascii_digit() {
            return None;
        }
        size = (10 * size + u64::from(byte.saturating_sub(b'0'))).min(GREATEST);
    }
    Some(size)
}

/// Returns the number that a text writes in decimal: digits only, without a sign and without
/// leading zeros.
///
/// For a number greater than 10,000,000,000 it returns 10,000,000,000.
pub fn decimal_in(text: &[u8]) -> Option<u64>
    ensures value { result ≡ option_map limited (decimal_said text.now) }
    ensures bound { IfSome result (λ n. n ≤ 10000000000) }
{
    if begins_number(text) {
        digits_size(text)
    } else {
        None
    }
}
