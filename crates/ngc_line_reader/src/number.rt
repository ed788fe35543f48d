ghost use Rattle.std.specs.Prelude.{◌≡◌, ℕ, ◌*◌, ◌+◌, ◌^◌, ◌≤◌, ◌<◌, List, ◌++◌, length, drop, min};
ghost use Rattle.std.specs.Prelude.{[], Ok, ℤ, IfErr, ◌≢◌, ◌-◌, pos, neg_ℤ, IsTrue, if◌then◌else◌};
ghost use Rattle.std.specs.List.{prefix_len};
ghost use Rattle.std.specs.Char.{is_ascii_digit};
ghost use Rattle.ngc_fixed_length.specs.Rounding.{nearest_size};
ghost use Rattle.ngc_fixed_length.specs.Limits.{MILLION, limited};
ghost use Rattle.ngc_line_reader.specs.Grammar.{IsDigits, digits_of};
ghost use Rattle.ngc_line_reader.specs.Numbers.{digits_value, signed, written_value};
ghost use Rattle.ngc_line_reader.specs.Scan.{Gives, digits_at, after_digits, begins as has_first};
ghost use Rattle.ngc_line_reader.specs.Scan.{is_known as is_known_byte};
ghost use Rattle.ngc_line_reader.specs.Scan.{begins_unknown as has_unknown_first};
ghost use Rattle.ngc_line_reader.specs.Scan.{refusal as refused, after_sign, decimals_at};
ghost use Rattle.ngc_line_reader.specs.Scan.{after_decimals, number_at as number_found};
ghost use Rattle.ngc_line_reader.specs.Scan.{◌>>=◌ as and_then, value_fits};

use crate::fault::{FaultKind, ItemRefusal};
use ngc_fixed_length::{NumberFault, Value};

/// Digits, and the number that they write, at most `UNITS`.
#[derive(Clone, Copy)]
pub struct Digits<'a> {
    pub bytes: &'a [u8],
    pub units: u64,
}

// More than any value: a number of this many units or more is too large.
const UNITS: u64 = 10_000_000_000;

// Returns the number of leading digits, and the number that they write, at most `UNITS`.
#[tactic(auto, using(crate::proofs::Digits::digits_counted))]
#[inline]
fn count_digits(s: &[u8]) -> (usize, u64)
    ensures count { result.0 ≡ prefix_len is_ascii_digit s.now }
    ensures within { result.0 ≤ length s.now }
    ensures units { result.1 ≡ min (digits_value (digits_at s.now)) 10000000000 }
{
    let mut units = 0;
    for (count, byte) in s.iter().enumerate() {
        if !byte.is_ascii_digit() {
            return (count, units);
        }
        units = (10 * units + u64::from(byte.saturating_sub(b'0'))).min(UNITS);
    }
    (s.len(), units)
}

// Returns the leading digits, and the rest.
#[inline]
pub(crate) fn split_digits(s: &[u8]) -> (Digits<'_>, &[u8])
    ensures front { result.0.bytes.now ≡ digits_at s.now }
    ensures units { result.0.units ≡ min (digits_value result.0.bytes.now) 10000000000 }
    ensures digits { IsDigits result.0.bytes.now }
    ensures rest { result.1.now ≡ after_digits s.now }
{
    let (count, units) = count_digits(s);
    let (bytes, rest) = s.split_at(count);
    (Digits { bytes, units }, rest)
}

fn is_known(byte: u8) -> bool
    ensures { result ≡ is_known_byte byte }
{
    matches!(byte, b'A'..=b'[' | b'-'..=b'9' | b'('..=b'+' | b'#' | b'%' | b';' | b'=' | b']')
}

fn begins_unknown(s: &[u8]) -> bool
    ensures { result ≡ has_unknown_first s.now }
{
    match s {
        [first, ..] => !is_known(*first),
        [] => false,
    }
}

// Returns why an item can't continue at `s`.
pub(crate) fn refusal(kind: FaultKind, s: &[u8]) -> ItemRefusal
    ensures value { result ≡ refused kind s.now }
    ensures not_long { kind ≢ FaultKind.LineTooLong →
        result ≢ ItemRefusal.OfItem FaultKind.LineTooLong }
{
    if begins_unknown(s) {
        ItemRefusal::AtByte(s.len())
    } else {
        ItemRefusal::OfItem(kind)
    }
}

#[inline]
pub(crate) fn begins(byte: u8, s: &[u8]) -> bool
    ensures first { result ≡ has_first byte s.now }
    ensures some { IsTrue result → 0 < length s.now }
{
    match s {
        [first, ..] => *first == byte,
        [] => false,
    }
}

// Returns the bytes after the first.
#[inline]
pub(crate) fn tail(s: &[u8]) -> &[u8]
    requires { 0 < length s.now }
    ensures { result.now ≡ drop 1 s.now }
{
    &s[1..]
}

#[inline]
fn split_sign(s: &[u8]) -> &[u8]
    ensures { result.now ≡ after_sign s.now }
{
    if begins(b'+', s) || begins(b'-', s) {
        tail(s)
    } else {
        s
    }
}

// Returns the digits after a point, and the rest.
#[inline]
fn split_decimals(s: &[u8]) -> (Digits<'_>, &[u8])
    ensures front { result.0.bytes.now ≡ digits_of (decimals_at s.now) }
    ensures units { result.0.units ≡ min (digits_value result.0.bytes.now) 10000000000 }
    ensures digits { IsDigits result.0.bytes.now }
    ensures rest { result.1.now ≡ after_decimals s.now }
{
    if begins(b'.', s) {
        split_digits(tail(s))
    } else {
        let none = Digits {
            bytes: &s[..0],
            units: 0,
        };
        (none, s)
    }
}

// Returns a value, if it is not too large, with the rest.
#[inline]
fn with_rest(value: Result<Value, NumberFault>, rest: &[u8]) -> Result<(Value, &[u8]), ItemRefusal>
    ensures reads { Gives (λ x. (x.0, x.1.now)) result
        (and_then {B = ℤ × List ℕ} (value_fits value) (λ z. Ok (z, rest.now))) }
    ensures not_long { IfErr result (λ e. e ≢ ItemRefusal.OfItem FaultKind.LineTooLong) }
{
    match value {
        Ok(value) => Ok((value, rest)),
        Err(_) => Err(ItemRefusal::OfItem(FaultKind::TooLarge)),
    }
}

// Returns a number's value, and the rest.
#[tactic(auto, unfolding(crate::specs::Scan::number_at))]
#[inline(always)]
pub(crate) fn number_at(s: &[u8]) -> Result<(Value, &[u8]), ItemRefusal>
    ensures reads { Gives (λ x. (x.0, x.1.now)) result (number_found s.now) }
    ensures not_long { IfErr result (λ e. e ≢ ItemRefusal.OfItem FaultKind.LineTooLong) }
{
    let (whole, after_whole) = split_digits(split_sign(s));
    if !whole.bytes.is_empty() && !begins(b'.', after_whole) {
        return with_rest(whole_value(begins(b'-', s), whole), after_whole);
    }
    let (decimals, rest) = split_decimals(after_whole);
    if whole.bytes.is_empty() && decimals.bytes.is_empty() {
        return Err(refusal(FaultKind::BadNumber, rest));
    }
    if begins(b'.', rest) {
        return Err(ItemRefusal::OfItem(FaultKind::BadNumber));
    }
    with_rest(value_of(begins(b'-', s), whole, decimals), rest)
}

// Returns the number of millionths that the last of `decimals` decimals counts.
#[inline]
fn last_place(decimals: usize) -> u64
    requires { decimals ≤ 6 }
    ensures { result ≡ 10 ^ (6 - decimals) }
{
    match decimals {
        0 => 1_000_000,
        1 => 100_000,
        2 => 10_000,
        3 => 1_000,
        4 => 100,
        5 => 10,
        _ => 1,
    }
}

// Returns the decimals in millionths, rounded.
#[inline]
fn millionths_of(decimals: Digits<'_>) -> u64
    requires digits { IsDigits decimals.bytes.now }
    requires units { decimals.units ≡ min (digits_value decimals.bytes.now) 10000000000 }
    ensures value { result ≡ nearest_size (digits_value decimals.entry.bytes.now * MILLION)
        (10 ^ length decimals.entry.bytes.now) }
    ensures bound { result ≤ 1000000 }
{
    if decimals.bytes.len() > 6 {
        // The seventh decimal decides the rounding.
        (count_digits(&decimals.bytes[..7]).1 + 5) / 10
    } else {
        decimals.units * last_place(decimals.bytes.len())
    }
}

#[inline]
fn signed_value(negative: bool, size: u64) -> Result<Value, NumberFault>
    requires { size < 2 ^ 62 }
    ensures { result ≡ limited (signed negative size) }
{
    if negative {
        Value::from_millionths(-i128::from(size))
    } else {
        Value::from_millionths(i128::from(size))
    }
}

// Returns a value without decimals.
#[inline]
fn whole_value(negative: bool, whole: Digits<'_>) -> Result<Value, NumberFault>
    requires { whole.units ≡ min (digits_value whole.bytes.now) 10000000000 }
    ensures { result ≡ limited (written_value negative whole.entry.bytes.now []) }
{
    signed_value(negative, whole.units * 1_000_000)
}

#[inline]
fn value_of(negative: bool, whole: Digits<'_>, decimals: Digits<'_>) -> Result<Value, NumberFault>
    requires units { whole.units ≡ min (digits_value whole.bytes.now) 10000000000 }
    requires digits { IsDigits decimals.bytes.now }
    requires decimal_units { decimals.units ≡ min (digits_value decimals.bytes.now) 10000000000 }
    ensures { result ≡ limited
        (written_value negative whole.entry.bytes.now decimals.entry.bytes.now) }
{
    let size = whole.units * 1_000_000 + millionths_of(decimals);
    signed_value(negative, size)
}
