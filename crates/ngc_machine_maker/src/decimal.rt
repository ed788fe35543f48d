//! Numbers in options and settings.
ghost use Rattle.std.specs.Prelude.{◌≡◌, ◌+◌, ◌-◌, ◌*◌, ◌<◌, ◌≤◌, ◌^◌, min, length, take, drop};
ghost use Rattle.std.specs.Prelude.{IsTrue};
ghost use Rattle.std.specs.List.{list_all, prefix_len};
ghost use Rattle.std.specs.Char.{is_ascii_digit};
ghost use Rattle.ngc_machine_maker.specs.Decimals as spec;

use crate::figures::PerAxis;

// A number of at least 2^32 is refused.
const LIMIT: u64 = 4_294_967_296;

#[inline]
pub(crate) fn begins(byte: u8, text: &[u8]) -> bool
    ensures value { result ≡ spec.begins byte text.now }
    ensures some { IsTrue result → 0 < length text.now }
{
    match text {
        [first, ..] => *first == byte,
        [] => false,
    }
}

pub(crate) fn without_first(text: &[u8]) -> &[u8]
    ensures { result.now ≡ drop 1 text.now }
{
    match text {
        [_, rest @ ..] => rest,
        [] => text,
    }
}

#[tactic(auto, using(crate::proofs::Digits::counted))]
fn digit_count(text: &[u8]) -> usize
    ensures count { result ≡ prefix_len is_ascii_digit text.now }
    ensures within { result ≤ length text.now }
{
    text.iter().take_while(|b| b.is_ascii_digit()).count()
}

// Returns the digits before the point, and the rest.
pub(crate) fn split_whole(text: &[u8]) -> (&[u8], &[u8])
    ensures before { result.0.now ≡ spec.whole_digits text.now }
    ensures after { result.1.now ≡ spec.after_whole text.now }
{
    text.split_at(digit_count(text))
}

fn are_digits(text: &[u8]) -> bool
    ensures { result ≡ list_all is_ascii_digit text.now }
{
    text.iter().all(|b| b.is_ascii_digit())
}

pub(crate) fn is_number(text: &[u8], places: usize) -> bool
    ensures { result ≡ spec.is_number places text.now }
{
    let (whole, rest) = split_whole(text);
    let decimals = without_first(rest);
    (rest.is_empty() || begins(b'.', rest))
        && are_digits(decimals)
        && decimals.len() <= places
        && (!whole.is_empty() || !decimals.is_empty())
}

// Returns the number that digits write, at most the limit.
#[tactic(auto, using(crate::proofs::Digits::valued))]
fn limited_value(digits: &[u8]) -> u64
    ensures value { result ≡ min (spec.digits_value digits.now) 4294967296 }
    ensures bound { result ≤ 4294967296 }
{
    let mut value: u64 = 0;
    for digit in digits {
        value = (10 * value + u64::from(digit.saturating_sub(b'0'))).min(LIMIT);
    }
    value
}

fn power_of_ten(exponent: usize) -> u64
    requires { exponent ≤ 6 }
    ensures value { result ≡ 10 ^ exponent }
    ensures some { 1 ≤ result }
    ensures bound { result ≤ 1000000 }
{
    match exponent {
        0 => 1,
        1 => 10,
        2 => 100,
        3 => 1_000,
        4 => 10_000,
        5 => 100_000,
        _ => 1_000_000,
    }
}

// Returns the value of a number in units of which 10 ^ `places` make one, or a number above the
// limit.
#[tactic(auto, using(crate::proofs::Digits::limited_same, crate::proofs::Digits::limited_large))]
fn value_in(text: &[u8], places: usize) -> u64
    requires places { places ≤ 6 }
    ensures same { spec.value_in places text.now < 4294967296 →
        result ≡ spec.value_in places text.now }
    ensures large { 4294967296 ≤ spec.value_in places text.now → 4294967296 ≤ result }
{
    let (whole, rest) = split_whole(text);
    let decimals = without_first(rest);
    let missing = places.saturating_sub(decimals.len());
    limited_value(whole) * power_of_ten(places) + limited_value(decimals) * power_of_ten(missing)
}

/// Returns the number that a text writes, in units of which 10 ^ `places` make one, if it is less
/// than 2^32 of them.
#[tactic(auto, unfolding(crate::specs::Decimals::number_in))]
pub fn number_in(text: &[u8], places: usize) -> Option<u32>
    requires { places ≤ 6 }
    ensures { result ≡ spec.number_in places text.now }
{
    if !is_number(text, places) {
        return None;
    }
    let value = value_in(text, places);
    if value >= LIMIT {
        return None;
    }
    Some(value as u32)
}

fn is_no_comma(byte: u8) -> bool
    ensures { result ≡ spec.is_no_comma byte }
{
    byte != b','
}

#[tactic(auto, using(crate::proofs::Digits::counted))]
fn count_to_comma(text: &[u8]) -> usize
    ensures count { result ≡ prefix_len spec.is_no_comma text.now }
    ensures within { result ≤ length text.now }
{
    text.iter().take_while(|b| is_no_comma(**b)).count()
}

// Returns the texts before and after the first comma.
fn split_comma(text: &[u8]) -> (&[u8], &[u8])
    ensures before { result.0.now ≡ spec.before_comma text.now }
    ensures after { result.1.now ≡ spec.after_comma text.now }
{
    let (before, rest) = text.split_at(count_to_comma(text));
    (before, without_first(rest))
}

/// Returns the texts of X, Y and Z, which are separated by commas. Without a comma the texts after
/// it are empty.
pub fn split_three(text: &[u8]) -> (&[u8], &[u8], &[u8])
    ensures x { result.0.now ≡ (spec.three_texts text.now).x }
    ensures y { result.1.now ≡ (spec.three_texts text.now).y }
    ensures z { result.2.now ≡ (spec.three_texts text.now).z }
{
    let (x, rest) = split_comma(text);
    let (y, z) = split_comma(rest);
    (x, y, z)
}

/// Returns three numbers that are separated by commas, as `number_in` does.
pub(crate) fn numbers_in(text: &[u8], places: usize) -> Option<PerAxis<u32>>
    requires { places ≤ 6 }
    ensures { result ≡ spec.numbers_in places text.now }
{
    let (x, y, z) = split_three(text);
    match (
        number_in(x, places),
        number_in(y, places),
        number_in(z, places),
    ) {
        (Some(x), Some(y), Some(z)) => Some(PerAxis { x, y, z }),
        _ => None,
    }
}
