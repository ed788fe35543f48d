//! Powers.
ghost use Rattle.std.specs.Prelude.{◌≡◌, ◌<◌, ◌≤◌, ◌^◌, ◌≢◌, pos, unsigned_abs};
ghost use Rattle.ngc_dialect_numbers.specs.Powers as spec;

use crate::fault::NoValue;
use crate::growth::{exponential, logarithm};
use crate::number::Number;
use crate::rounding::{ONE, is_within, rounded_product};

const UNIT: u128 = 1_000_000_000_000;

// The greatest product in range, 10^9, in units of 10^-24.
const GREATEST: u128 = 1_000_000_000_000_000_000_000_000_000_000_000;

// Returns the product of two sizes if it is a whole number of units, and in range.
fn exact_product(x: u128, y: u128) -> Option<u128>
    ensures { result ≡ spec.exact_product x y }
{
    if is_within(GREATEST, x, y) && x * y % UNIT == 0 {
        Some(x * y / UNIT)
    } else {
        None
    }
}

// Returns the product of a size that was exact so far.
fn next_power(power: Option<u128>, size: u128) -> Option<u128>
    ensures { result ≡ spec.next_power size power }
{
    match power {
        Some(power) => exact_product(power, size),
        None => None,
    }
}

// Returns a whole power if each product on the way to it is a whole number of units, and in range.
fn exact_power(size: u128, exponent: u32) -> Option<u128>
    ensures { result ≡ spec.exact_power size exponent }
{
    let mut power = Some(UNIT);
    for _ in 0..exponent {
        power = next_power(power, size);
    }
    power
}

// Returns a whole power of at most 30, or of any size, if it is exact.
fn short_power(size: u128, exponent: u128) -> Option<u128>
    ensures { result ≡ spec.short_power size exponent }
{
    if exponent <= 30 {
        exact_power(size, exponent as u32)
    } else {
        None
    }
}

// Returns e to a power in units of 10^-18, or to one that is far below or above the range.
fn power_from(power: Option<i128>, below: bool) -> Result<Number, NoValue>
    ensures { result ≡ spec.power_from power below }
{
    match power {
        Some(power) => exponential(power),
        None => {
            if below {
                Ok(Number::new(0))
            } else {
                Err(NoValue::OutOfRange)
            }
        }
    }
}

// Returns a power of a size above 0, by its logarithm.
fn by_logarithm(size: u128, exponent: i128) -> Result<Number, NoValue>
    requires some { 0 < size }
    requires limit { size ≤ 10 ^ 21 }
    ensures { result ≡ spec.by_logarithm size exponent }
{
    let logarithm = logarithm(size);
    power_from(
        rounded_product(logarithm, exponent),
        (logarithm < 0) != (exponent < 0),
    )
}

// Returns a power that is exact, or what 1 over it is.
fn exact(power: u128, inverse: bool) -> Result<Number, NoValue>
    requires { power ≤ 10 ^ 36 }
    ensures { result ≡ spec.exact power inverse }
{
    let power = Number::from_trillionths(power as i128)?;
    if inverse {
        Number::new(ONE).divided_by(power)
    } else {
        Ok(power)
    }
}

// Returns a power of a size above 0 with a whole exponent, in units.
fn whole_size(size: u128, exponent: i128) -> Result<Number, NoValue>
    requires some { 0 < size }
    requires limit { size ≤ 10 ^ 21 }
    ensures { result ≡ spec.whole_size size exponent }
{
    match short_power(size, exponent.unsigned_abs() / UNIT) {
        Some(power) => exact(power, exponent < 0),
        None => by_logarithm(size, exponent),
    }
}

fn with_sign(negative: bool, size: Result<Number, NoValue>) -> Result<Number, NoValue>
    ensures { result ≡ spec.with_sign negative size }
{
    match size {
        Ok(size) => Ok(if negative { size.negated() } else { size }),
        Err(reason) => Err(reason),
    }
}

// Returns a power of 0.
fn zero_power(exponent: i128) -> Result<Number, NoValue>
    ensures { result ≡ spec.zero_power exponent }
{
    if exponent < 0 {
        return Err(NoValue::ZeroBase);
    }
    Ok(Number::truth(exponent == 0))
}

// Returns whether a whole power is below 0.
fn is_power_negative(base: i128, exponent: i128) -> bool
    ensures { result ≡ spec.is_power_negative base exponent }
{
    base < 0 && exponent.unsigned_abs() / UNIT % 2 == 1
}

// Returns a whole power of a number other than 0.
fn whole_power(base: i128, exponent: i128) -> Result<Number, NoValue>
    requires some { base ≢ pos 0 }
    requires limit { unsigned_abs base ≤ 10 ^ 21 }
    ensures { result ≡ spec.whole_power base exponent }
{
    with_sign(
        is_power_negative(base, exponent),
        whole_size(base.unsigned_abs(), exponent),
    )
}

// Returns a power of a number other than 0.
fn power(base: i128, exponent: i128) -> Result<Number, NoValue>
    requires some { base ≢ pos 0 }
    requires limit { unsigned_abs base ≤ 10 ^ 21 }
    ensures { result ≡ spec.other_power base exponent }
{
    if exponent.unsigned_abs() % UNIT == 0 {
        return whole_power(base, exponent);
    }
    if base < 0 {
        return Err(NoValue::NegativeBase);
    }
    by_logarithm(base.unsigned_abs(), exponent)
}

impl Number {
    /// Returns a power. A whole power is exact if it and each power on the way to it is a whole number
    /// of units; then 1 over it is rounded to the nearest unit. Other powers are computed by
    /// logarithms; how near they are is only tested.
    ///
    /// 0 to the power 0 is 1. Returns `ZeroBase` for 0 to a power below 0, `NegativeBase` for a number
    /// below 0 to a power that isn't whole, or `OutOfRange`.
    pub fn power(self, exponent: Number) -> Result<Number, NoValue>
        ensures { result ≡ spec.power self exponent }
    {
        if self.trillionths() == 0 {
            zero_power(exponent.trillionths())
        } else {
            power(self.trillionths(), exponent.trillionths())
        }
    }
}
