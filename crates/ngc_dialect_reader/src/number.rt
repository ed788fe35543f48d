ghost use Rattle.std.specs.Prelude.{◌≡◌, ℕ, ◌*◌, ◌+◌, ◌^◌, ◌≤◌, ◌-◌, List, ◌++◌, length, drop, min, true, ◌==◌, ◌&&◌};
ghost use Rattle.std.specs.Prelude.{ℤ, pos, neg_ℤ, Ok, IfSome};
ghost use Rattle.std.specs.List.{prefix_len, fold};
ghost use Rattle.std.specs.Char.{is_ascii_digit};
ghost use Rattle.ngc_fixed_length.specs.Rounding.{nearest_size};
ghost use Rattle.ngc_line_reader.specs.Grammar.{IsDigits};
ghost use Rattle.ngc_line_reader.specs.Numbers.{digits_value};
ghost use Rattle.ngc_line_reader.specs.Scan.{Gives, digits_at, after_digits, begins as has_first};
ghost use Rattle.ngc_dialect_reader.specs.Number as spec;
ghost use Rattle.ngc_dialect_reader.specs.Item.{begins_number};

use crate::fault::{Cause, Refusal};
use crate::part::Literal;

/// Digits, and the number that they write, at most `UNITS`.
#[derive(Clone, Copy)]
struct Digits<'a> {
    bytes: &'a [u8],
    units: u64,
}

// Of more than this no number is made: the whole is too large, and of the decimals 13 count.
const UNITS: u64 = 100_000_000_000_000;

const ONE: u128 = 1_000_000_000_000;

const LIMIT: u128 = 1_000_000_000_000_000_000_000;

// The greatest size of a number that is read at once: 64 bits.
const MOST: u128 = 18_446_744_073_709_551_615;

#[inline]
pub(crate) fn refused(cause: Cause, s: &[u8]) -> Refusal
    ensures { result ≡ spec.refusal cause (length s.now) }
{
    Refusal {
        cause,
        left: s.len(),
    }
}

#[inline]
pub(crate) fn begins(byte: u8, s: &[u8]) -> bool
    ensures { result ≡ has_first byte s.now }
{
    match s {
        [first, ..] => *first == byte,
        [] => false,
    }
}

// Returns the bytes after the first.
#[inline]
pub(crate) fn tail(s: &[u8]) -> &[u8]
    ensures { result.now ≡ drop 1 s.now }
{
    match s {
        [_, rest @ ..] => rest,
        [] => s,
    }
}

// Returns the number of leading digits, and the number that they write, at most `UNITS`.
#[tactic(auto, using(crate::proofs::Digits::digits_counted))]
fn count_digits(s: &[u8]) -> (usize, u64)
    ensures count { result.0 ≡ prefix_len is_ascii_digit s.now }
    ensures within { result.0 ≤ length s.now }
    ensures units { result.1 ≡ min (digits_value (digits_at s.now)) 100000000000000 }
{
    let mut units = 0;
    for (count, byte) in s.iter().enumerate() {
        if !byte.is_ascii_digit() {
            return (count, units);
        }
        units = (10 * units + u64::from(byte.saturating_sub(b'0'))).min(UNITS);
    }
    (s.len(), units)
}

// Returns the leading digits, and the rest.
fn split_digits(s: &[u8]) -> (Digits<'_>, &[u8])
    ensures front { result.0.bytes.now ≡ digits_at s.now }
    ensures units { result.0.units ≡ min (digits_value result.0.bytes.now) 100000000000000 }
    ensures digits { IsDigits result.0.bytes.now }
    ensures rest { result.1.now ≡ after_digits s.now }
{
    let (count, units) = count_digits(s);
    let (bytes, rest) = s.split_at(count);
    (Digits { bytes, units }, rest)
}

fn unsigned(s: &[u8]) -> &[u8]
    ensures { result.now ≡ spec.unsigned s.now }
{
    if begins(b'+', s) || begins(b'-', s) {
        tail(s)
    } else {
        s
    }
}

// Returns the digits after a point, and the rest.
fn split_decimals(s: &[u8]) -> (Digits<'_>, &[u8])
    ensures front { result.0.bytes.now ≡ spec.decimals_in s.now }
    ensures units { result.0.units ≡ min (digits_value result.0.bytes.now) 100000000000000 }
    ensures digits { IsDigits result.0.bytes.now }
    ensures rest { result.1.now ≡ spec.after_decimals s.now }
{
    if begins(b'.', s) {
        split_digits(tail(s))
    } else {
        let none = Digits {
            bytes: &s[..0],
            units: 0,
        };
        (none, s)
    }
}

// Returns what the last of `decimals` decimals counts, in 10^-12.
fn last_place(decimals: usize) -> u64
    requires { decimals ≤ 12 }
    ensures { result ≡ 10 ^ (12 - decimals) }
{
    match decimals {
        0 => 1_000_000_000_000,
        1 => 100_000_000_000,
        2 => 10_000_000_000,
        3 => 1_000_000_000,
        4 => 100_000_000,
        5 => 10_000_000,
        6 => 1_000_000,
        7 => 100_000,
        8 => 10_000,
        9 => 1_000,
        10 => 100,
        11 => 10,
        _ => 1,
    }
}

// Returns the decimals in 10^-12, rounded.
#[inline(always)]
fn fraction_of(decimals: Digits<'_>) -> u64
    requires digits { IsDigits decimals.bytes.now }
    requires units { decimals.units ≡ min (digits_value decimals.bytes.now) 100000000000000 }
    ensures value { result ≡ nearest_size (digits_value decimals.entry.bytes.now * spec.ONE)
        (10 ^ length decimals.entry.bytes.now) }
    ensures bound { result ≤ 1000000000000 }
{
    if decimals.bytes.len() > 12 {
        // The thirteenth decimal decides the rounding.
        (count_digits(&decimals.bytes[..13]).1 + 5) / 10
    } else {
        decimals.units * last_place(decimals.bytes.len())
    }
}

fn limited(size: u128) -> Option<u128>
    ensures { result ≡ spec.limited size }
{
    if size <= LIMIT { Some(size) } else { None }
}

// Returns the size of a number in 10^-12, if it is not too large.
#[inline(always)]
fn size_of(whole: Digits<'_>, decimals: Digits<'_>) -> Option<u128>
    requires units { whole.units ≡ min (digits_value whole.bytes.now) 100000000000000 }
    requires digits { IsDigits decimals.bytes.now }
    requires decimal_units { decimals.units ≡ min (digits_value decimals.bytes.now) 100000000000000 }
    ensures { result ≡ spec.limited
        (spec.size_of whole.entry.bytes.now decimals.entry.bytes.now) }
{
    let size = u128::from(whole.units) * ONE + u128::from(fraction_of(decimals));
    limited(size)
}

fn signed(negative: bool, size: u128) -> i128
    requires { size ≤ spec.LIMIT }
    ensures { result ≡ spec.signed negative size }
{
    if negative {
        -(size as i128)
    } else {
        size as i128
    }
}

#[inline]
fn literal(negative: bool, size: u128, point: bool) -> Literal
    requires { size ≤ spec.LIMIT }
    ensures { result ≡ spec.literal negative size point }
{
    Literal {
        value: signed(negative, size),
        point,
    }
}

// Returns a number, and the rest.
#[inline(always)]
#[tactic(auto, unfolding(crate::specs::Number::number_at))]
pub(crate) fn number_at(s: &[u8]) -> Result<(Literal, &[u8]), Refusal>
    ensures { Gives (λ x. (x.0, x.1.now)) result (spec.number_at s.now) }
{
    let (whole, after_whole) = split_digits(unsigned(s));
    let (decimals, rest) = split_decimals(after_whole);
    if whole.bytes.is_empty() && decimals.bytes.is_empty() {
        return Err(refused(Cause::NumberWithoutDigits, s));
    }
    if begins(b'.', rest) {
        return Err(refused(Cause::SecondPoint, s));
    }
    let point = begins(b'.', after_whole);
    match size_of(whole, decimals) {
        Some(size) => Ok((
            Literal {
                value: signed(begins(b'-', s), size),
                point,
            },
            rest,
        )),
        None => Err(refused(Cause::NumberTooLarge, s)),
    }
}

// To a greater number no further digit is added at once.
const FEW: u64 = 100_000_000_000_000_000;

// Returns the number that `units` and the leading digits after it write, and the number of digits, or
// `None` for many digits.
#[inline(always)]
#[tactic(auto, using(crate::proofs::Digits::digits_counted))]
fn more_digits(units: u64, s: &[u8]) -> Option<(u64, usize)>
    ensures count { IfSome result (λ x. x.1 ≡ prefix_len is_ascii_digit s.now) }
    ensures within { IfSome result (λ x. x.1 ≤ length s.now) }
    ensures units { IfSome result
        (λ x. x.0 ≡ fold (λ n d. 10 * n + (d - 48)) units (digits_at s.now)) }
{
    let mut total = units;
    for (count, byte) in s.iter().enumerate() {
        if !byte.is_ascii_digit() {
            return Some((total, count));
        }
        if total > FEW {
            return None;
        }
        total = 10 * total + u64::from(byte.saturating_sub(b'0'));
    }
    Some((total, s.len()))
}

// Returns the same of the digits after a point, if there is one, and the rest.
#[inline(always)]
fn more_decimals(units: u64, s: &[u8]) -> Option<(u64, usize, &[u8])>
    ensures count { IfSome result (λ x. x.1 ≡ length (spec.decimals_in s.now)) }
    ensures units { IfSome result
        (λ x. x.0 ≡ fold (λ n d. 10 * n + (d - 48)) units (spec.decimals_in s.now)) }
    ensures rest { IfSome result (λ x. x.2.now ≡ spec.after_decimals s.now) }
{
    if !begins(b'.', s) {
        return Some((units, 0, s));
    }
    let (total, count) = more_digits(units, tail(s))?;
    let (_, rest) = tail(s).split_at(count);
    Some((total, count, rest))
}

// Returns whether a number has no digit, neither before nor after its point.
#[inline]
fn has_none(whole: usize, decimals: usize) -> bool
    ensures { result ≡ ((whole == 0) && (decimals == 0)) }
{
    whole == 0 && decimals == 0
}

// Returns a number's size in 10^-12, from what its digits write.
#[inline]
fn scaled(units: u64, decimals: usize) -> u128
    requires { decimals ≤ 12 }
    ensures { result ≡ units * 10 ^ (12 - decimals) }
{
    u128::from(units) * u128::from(last_place(decimals))
}

// Returns a number of few digits, and the rest, or `None` for any other text. Most numbers are among
// these: their digits need no bound, and no decimal is rounded.
#[inline(always)]
pub(crate) fn short_number(s: &[u8]) -> Option<(Literal, &[u8])>
    ensures { IfSome result
        (λ x. (spec.number_at s.now ≡ Ok (x.0, x.1.now)) × (begins_number s.now ≡ true)) }
{
    let digits = unsigned(s);
    let (whole, count) = more_digits(0, digits)?;
    let (_, after_whole) = digits.split_at(count);
    let (units, places, rest) = more_decimals(whole, after_whole)?;
    if has_none(count, places) || places > 12 || begins(b'.', rest) {
        return None;
    }
    let size = scaled(units, places);
    if size > MOST {
        return None;
    }
    let point = begins(b'.', after_whole);
    Some((literal(begins(b'-', s), size, point), rest))
}
