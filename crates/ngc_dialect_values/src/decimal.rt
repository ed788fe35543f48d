//! Numbers with up to 12 decimals, read and printed.

use ngc_dialect_numbers::Number;
use std::fmt;

// The decimals of a number.
const DECIMALS: usize = 12;

/// A number that is printed with 12 decimals.
#[derive(Clone, Copy)]
pub struct Decimal {
    number: Number,
}

impl Decimal {
    pub fn new(number: Number) -> Decimal {
        Decimal { number }
    }

    pub fn number(self) -> Number {
        self.number
    }
}

impl fmt::Display for Decimal {
    fn fmt<W: fmt::Write>(&self, f: &mut fmt::Formatter<W>) -> fmt::Result {
        let trillionths = self.number.trillionths();
        let size = trillionths.unsigned_abs();
        if trillionths < 0 {
            write!(f, "-")?;
        }
        let whole = size / 1_000_000_000_000;
        let decimals = size % 1_000_000_000_000;
        write!(f, "{whole}.{decimals:012}")
    }
}

// Returns a number with one digit more at its end; it stays within 128 bits.
fn pushed(size: u128, digit: u8) -> u128 {
    size.saturating_mul(10).saturating_add(u128::from(digit))
}

fn digit(byte: u8) -> Option<u8> {
    if byte.is_ascii_digit() {
        Some(byte - b'0')
    } else {
        None
    }
}

// Returns a number with digits more at its end, or `None` if a byte isn't a digit.
fn with_digits(size: u128, text: &str) -> Option<u128> {
    let mut size = size;
    for byte in text.as_bytes() {
        size = pushed(size, digit(*byte)?);
    }
    Some(size)
}

// Returns a number of units of 10^-12 for the digits in front of the point and after it.
fn units(whole: &str, decimals: &str) -> Option<u128> {
    if decimals.len() > DECIMALS {
        return None;
    }
    let mut size = with_digits(with_digits(0, whole)?, decimals)?;
    for _ in decimals.len()..DECIMALS {
        size = pushed(size, 0);
    }
    Some(size)
}

// Reads a number without a sign.
fn size(text: &str) -> Option<Number> {
    let (whole, decimals) = match text.split_once('.') {
        Some(parts) => parts,
        None => (text, ""),
    };
    let trillionths = i128::try_from(units(whole, decimals)?).ok()?;
    Number::from_trillionths(trillionths).ok()
}

/// Reads a number with a sign and up to 12 decimals, or returns `None`.
pub fn read_number(text: &str) -> Option<Number> {
    match text.strip_prefix('-') {
        Some(rest) => Some(size(rest)?.negated()),
        None => size(text),
    }
}
