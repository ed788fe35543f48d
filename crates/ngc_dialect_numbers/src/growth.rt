//! Powers of e, and natural logarithms.
ghost use Rattle.std.specs.Prelude.{◌≡◌, ◌+◌, ◌/◌, ◌<◌, ◌≤◌, ◌^◌, pos, ◌*ℤ◌, unsigned_abs};
ghost use Rattle.ngc_dialect_numbers.specs.Growth as spec;

use crate::arc::wide_ratio;
use crate::circle::WIDE;
use crate::fault::NoValue;
use crate::number::Number;
use crate::rounding::{rounded_size, signed};
use ngc_fixed_length::rounded_quotient;

// The natural logarithm of 2, in 10^-18.
const LN2: i128 = 693_147_180_559_945_309;

// Powers of e to more than this are over 10^9.
const GREATEST: i128 = 21_000_000_000_000_000_000;

// Powers of e to less than this are nearer to 0 than to 10^-12.
const LEAST: i128 = -29_000_000_000_000_000_000;

// Returns a term of the series of e^x, with the terms after it.
fn growth_term(factor: u128, x: u128, rest: u128) -> u128
    requires some { 0 < factor }
    requires factor { factor ≤ 19 }
    requires x { x ≤ 700000000000000000 }
    requires rest { rest ≤ 4000000000000000000 }
    ensures value { result ≡ spec.growth_term factor x rest }
    ensures bound { result ≤ 4000000000000000000 }
{
    WIDE + rest * x / (WIDE * factor)
}

// Returns e^x for x in 10^-18.
#[tactic(auto, unfolding(crate::specs::Growth::growth))]
fn growth(x: u128) -> u128
    requires { x ≤ 700000000000000000 }
    ensures value { result ≡ spec.growth x }
    ensures bound { result ≤ 4000000000000000000 }
{
    let sum = growth_term(19, x, WIDE);
    let sum = growth_term(18, x, sum);
    let sum = growth_term(17, x, sum);
    let sum = growth_term(16, x, sum);
    let sum = growth_term(15, x, sum);
    let sum = growth_term(14, x, sum);
    let sum = growth_term(13, x, sum);
    let sum = growth_term(12, x, sum);
    let sum = growth_term(11, x, sum);
    let sum = growth_term(10, x, sum);
    let sum = growth_term(9, x, sum);
    let sum = growth_term(8, x, sum);
    let sum = growth_term(7, x, sum);
    let sum = growth_term(6, x, sum);
    let sum = growth_term(5, x, sum);
    let sum = growth_term(4, x, sum);
    let sum = growth_term(3, x, sum);
    let sum = growth_term(2, x, sum);
    growth_term(1, x, sum)
}

fn power_of_two(exponent: u32) -> u128
    requires { exponent ≤ 45 }
    ensures value { result ≡ 2 ^ exponent }
    ensures some { 0 < result }
    ensures bound { result < 70368744177664 }
{
    2u128.pow(exponent)
}

// Returns a size in 10^-18, times a power of 2, in units.
fn doubled(doublings: i128, size: u128) -> u128
    requires size { size ≤ 4000000000000000000 }
    requires doublings { unsigned_abs doublings ≤ 45 }
    ensures value { result ≡ spec.doubled doublings size }
    ensures bound { result ≤ 10 ^ 37 }
{
    let scale = power_of_two(doublings.unsigned_abs() as u32);
    if doublings < 0 {
        rounded_size(size, 1_000_000 * scale)
    } else {
        rounded_size(size * scale, 1_000_000)
    }
}

/// Returns e to a power in 10^-18, or `OutOfRange`.
pub(crate) fn exponential(power: i128) -> Result<Number, NoValue>
    ensures { result ≡ spec.exponential power }
{
    if power > GREATEST {
        return Err(NoValue::OutOfRange);
    }
    if power < LEAST {
        return Ok(Number::new(0));
    }
    let size = growth(power.rem_euclid(LN2).unsigned_abs());
    Number::from_trillionths(doubled(power.div_euclid(LN2), size) as i128)
}

/// A number as a fraction times a power of 2.
#[derive(Clone, Copy)]
pub(crate) struct Scaled {
    pub(crate) top: u128,
    pub(crate) bottom: u128,
    pub(crate) doublings: i128,
}

// Doubles the bottom `count` times, which is by `factor`, unless it is then above the top.
#[tactic(auto, using(crate::proofs::Quotients::product_positive))]
fn raised(scaled: Scaled, factor: u128, count: i128) -> Scaled
    requires fits { spec.IsScaled scaled }
    requires factor { 0 < factor }
    requires limit { factor ≤ 4294967296 }
    requires count { unsigned_abs count ≤ 32 }
    requires doublings { unsigned_abs scaled.doublings ≤ 200 }
    ensures value { result ≡ spec.raised factor count scaled }
    ensures fits { spec.IsScaled result }
    ensures bound { unsigned_abs result.doublings ≤ unsigned_abs scaled.doublings + unsigned_abs count }
{
    let bottom = scaled.bottom * factor;
    if bottom <= scaled.top {
        Scaled {
            top: scaled.top,
            bottom,
            doublings: scaled.doublings + count,
        }
    } else {
        scaled
    }
}

// Doubles the top `count` times, which is by `factor`, unless it is then above the bottom.
fn lowered(scaled: Scaled, factor: u128, count: i128) -> Scaled
    requires fits { spec.IsScaled scaled }
    requires limit { factor ≤ 4294967296 }
    requires count { unsigned_abs count ≤ 32 }
    requires doublings { unsigned_abs scaled.doublings ≤ 200 }
    ensures value { result ≡ spec.lowered factor count scaled }
    ensures fits { spec.IsScaled result }
    ensures bound { unsigned_abs result.doublings ≤ unsigned_abs scaled.doublings + unsigned_abs count }
{
    let top = scaled.top * factor;
    if top <= scaled.bottom {
        Scaled {
            top,
            bottom: scaled.bottom,
            doublings: scaled.doublings - count,
        }
    } else {
        scaled
    }
}

// Returns a size above 1 with a fraction below 2.
#[tactic(auto, unfolding(crate::specs::Growth::halved))]
fn halved(size: u128) -> Scaled
    requires { size ≤ 10 ^ 21 }
    ensures value { result ≡ spec.halved size }
    ensures fits { spec.IsScaled result }
    ensures bound { unsigned_abs result.doublings ≤ 31 }
{
    let scaled = Scaled {
        top: size,
        bottom: 1_000_000_000_000,
        doublings: 0,
    };
    let scaled = raised(scaled, 65_536, 16);
    let scaled = raised(scaled, 256, 8);
    let scaled = raised(scaled, 16, 4);
    let scaled = raised(scaled, 4, 2);
    raised(scaled, 2, 1)
}

// Returns a size of which a fraction below 1 is above 1/2.
#[tactic(auto, unfolding(crate::specs::Growth::doubled_up))]
fn doubled_up(scaled: Scaled) -> Scaled
    requires fits { spec.IsScaled scaled }
    requires doublings { unsigned_abs scaled.doublings ≤ 31 }
    ensures value { result ≡ spec.doubled_up scaled }
    ensures fits { spec.IsScaled result }
    ensures bound { unsigned_abs result.doublings ≤ 94 }
{
    let scaled = lowered(scaled, 4_294_967_296, 32);
    let scaled = lowered(scaled, 65_536, 16);
    let scaled = lowered(scaled, 256, 8);
    let scaled = lowered(scaled, 16, 4);
    let scaled = lowered(scaled, 4, 2);
    lowered(scaled, 2, 1)
}

// Returns the same with a fraction from 3/4 to 3/2.
#[tactic(auto, unfolding(crate::specs::Growth::centred))]
fn centred(scaled: Scaled) -> Scaled
    requires fits { spec.IsScaled scaled }
    requires doublings { unsigned_abs scaled.doublings ≤ 94 }
    ensures value { result ≡ spec.centred scaled }
    ensures fits { spec.IsCentred result }
    ensures bound { unsigned_abs result.doublings ≤ 95 }
{
    if 3 * scaled.bottom <= 2 * scaled.top {
        Scaled {
            top: scaled.top,
            bottom: 2 * scaled.bottom,
            doublings: scaled.doublings + 1,
        }
    } else if 4 * scaled.top < 3 * scaled.bottom {
        Scaled {
            top: 2 * scaled.top,
            bottom: scaled.bottom,
            doublings: scaled.doublings - 1,
        }
    } else {
        scaled
    }
}

// Returns a term of the series of the logarithm, with the terms after it.
fn logarithm_term(odd: u128, square: u128, rest: u128) -> u128
    requires some { 0 < odd }
    requires square { square ≤ 1200000000000000000 }
    requires rest { rest ≤ 100000000000000000000 }
    ensures value { result ≡ spec.logarithm_term odd square rest }
    ensures bound { result ≤ rest + rest / 5 + 1000000000000000001 }
{
    WIDE / odd + rest * square / WIDE
}

fn logarithm_series(square: u128) -> u128
    requires { square ≤ 1200000000000000000 }
    ensures value { result ≡ spec.logarithm_series 13 1 square }
    ensures bound { result ≤ 100000000000000000000 }
{
    let sum = logarithm_term(25, square, 0);
    let sum = logarithm_term(23, square, sum);
    let sum = logarithm_term(21, square, sum);
    let sum = logarithm_term(19, square, sum);
    let sum = logarithm_term(17, square, sum);
    let sum = logarithm_term(15, square, sum);
    let sum = logarithm_term(13, square, sum);
    let sum = logarithm_term(11, square, sum);
    let sum = logarithm_term(9, square, sum);
    let sum = logarithm_term(7, square, sum);
    let sum = logarithm_term(5, square, sum);
    let sum = logarithm_term(3, square, sum);
    logarithm_term(1, square, sum)
}

// Returns twice the area tangent of a number in 10^-18.
#[tactic(auto, unfolding(crate::specs::Growth::ratio_logarithm))]
fn ratio_logarithm(ratio: u128) -> u128
    requires { ratio ≤ 1000000001000000000 }
    ensures value { result ≡ spec.ratio_logarithm ratio }
    ensures bound { result ≤ 300000000000000000000 }
{
    2 * (ratio * logarithm_series(ratio * ratio / WIDE) / WIDE)
}

// Returns the size of the logarithm of a fraction, in 10^-18.
fn fraction_logarithm(scaled: Scaled) -> u128
    requires { spec.IsCentred scaled }
    ensures value { result ≡ spec.fraction_logarithm scaled }
    ensures bound { result ≤ 300000000000000000000 }
{
    let distance = scaled.top.abs_diff(scaled.bottom);
    ratio_logarithm(wide_ratio(distance, scaled.top + scaled.bottom))
}

/// Returns the natural logarithm of a number of units above 0, in 10^-18.
#[tactic(auto, unfolding(crate::specs::Growth::logarithm))]
pub(crate) fn logarithm(size: u128) -> i128
    requires { size ≤ 10 ^ 21 }
    ensures value { result ≡ spec.logarithm size }
    ensures bound { unsigned_abs result ≤ 1000000000000000000000 }
{
    let scaled = centred(doubled_up(halved(size)));
    signed(scaled.top < scaled.bottom, fraction_logarithm(scaled)) + scaled.doublings * LN2
}

impl Number {
    /// Returns what EXP returns: e to this power, or `OutOfRange`. That it is within one unit, or
    /// 10^-15 of its size, is only tested.
    pub fn exp(self) -> Result<Number, NoValue>
        ensures { result ≡ spec.exponential (self *ℤ pos 1000000) }
    {
        exponential(self.trillionths() * 1_000_000)
    }

    /// Returns what LN returns: the natural logarithm. Returns `NotAboveZero` for 0 and below. That
    /// it is within one unit is only tested.
    pub fn ln(self) -> Result<Number, NoValue>
        ensures { result ≡ spec.natural_logarithm self }
    {
        if self.trillionths() <= 0 {
            return Err(NoValue::NotAboveZero);
        }
        let wide = logarithm(self.trillionths().unsigned_abs());
        Ok(Number::new(rounded_quotient(wide, 1_000_000)))
    }
}
