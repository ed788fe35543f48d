//! Arc tangents, arc sines and arc cosines, in degrees.
ghost use Rattle.std.specs.Prelude.{◌≡◌, ◌*◌, ◌/◌, ◌<◌, ◌≤◌, ◌^◌};
ghost use Rattle.ngc_dialect_numbers.specs.Arcs as spec;

use crate::circle::{PI, WIDE, narrow};
use crate::fault::NoValue;
use crate::number::Number;
use ngc_fixed_length::root_floor;

// The arc tangents of 0, 1/8 .. 1, in units of 10^-18 degrees.
const EIGHTHS: [u128; 9] = [
    0,
    7_125_016_348_901_797_562,
    14_036_243_467_926_478_583,
    20_556_045_219_583_464_308,
    26_565_051_177_077_989_352,
    32_005_383_208_083_495_561,
    36_869_897_645_844_021_297,
    41_185_925_165_709_645_805,
    45_000_000_000_000_000_000,
];

// 90 and 180 degrees, in units of 10^-18.
const RIGHT_ANGLE: u128 = 90_000_000_000_000_000_000;

const STRAIGHT: u128 = 180_000_000_000_000_000_000;

const BILLION: u128 = 1_000_000_000;

// Returns nine decimals of a fraction.
fn nine_decimals(top: u128, bottom: u128) -> u128
    requires below { top ≤ bottom }
    requires some { 0 < bottom }
    requires limit { bottom ≤ 10 ^ 23 }
    ensures value { result ≡ spec.nine_decimals top bottom }
    ensures bound { result ≤ 1000000000 }
{
    top * BILLION / bottom
}

/// Returns a fraction in units of 10^-18, rounded down: nine decimals, and nine more.
pub(crate) fn wide_ratio(top: u128, bottom: u128) -> u128
    requires below { top ≤ bottom }
    requires some { 0 < bottom }
    requires limit { bottom ≤ 10 ^ 23 }
    ensures value { result ≡ spec.wide_ratio top bottom }
    ensures bound { result ≤ 1000000001000000000 }
{
    let rest = top * BILLION % bottom;
    nine_decimals(top, bottom) * BILLION + nine_decimals(rest, bottom)
}

// Returns a term of the series of the arc tangent, with the terms after it.
fn term(odd: u128, square: u128, rest: u128) -> u128
    requires some { 0 < odd }
    requires square { square ≤ 1200000000000000000 }
    requires rest { rest ≤ 1000000000000000000 }
    ensures value { result ≡ spec.term odd square rest }
    ensures bound { result ≤ 1000000000000000000 }
{
    (WIDE / odd).saturating_sub(rest * square / WIDE)
}

fn series(square: u128) -> u128
    requires { square ≤ 1200000000000000000 }
    ensures value { result ≡ spec.series 10 1 square }
    ensures bound { result ≤ 1000000000000000000 }
{
    let sum = term(19, square, 0);
    let sum = term(17, square, sum);
    let sum = term(15, square, sum);
    let sum = term(13, square, sum);
    let sum = term(11, square, sum);
    let sum = term(9, square, sum);
    let sum = term(7, square, sum);
    let sum = term(5, square, sum);
    let sum = term(3, square, sum);
    term(1, square, sum)
}

// Returns the arc tangent in units of 10^-18 degrees, of a number in 10^-18.
#[tactic(auto, unfolding(crate::specs::Arcs::series_degrees))]
fn series_degrees(ratio: u128) -> u128
    requires { ratio ≤ 1000000001000000000 }
    ensures value { result ≡ spec.series_degrees ratio }
    ensures bound { result ≤ 70000000000000000000 }
{
    let radians = ratio * series(ratio * ratio / WIDE) / WIDE;
    radians * STRAIGHT / PI
}

// Returns the number of whole eighths of a fraction.
fn eighths_of(low: u128, high: u128) -> u128
    requires below { low ≤ high }
    requires some { 0 < high }
    requires limit { high ≤ 10 ^ 21 }
    ensures value { result ≡ 8 * low / high }
    ensures bound { result ≤ 8 }
{
    8 * low / high
}

// Returns the arc tangent of low / high, which is at most 1: that of a number of eighths, and that of
// the rest, by the theorem of addition.
fn low_arc(low: u128, high: u128) -> u128
    requires below { low ≤ high }
    requires some { 0 < high }
    requires limit { high ≤ 10 ^ 21 }
    ensures value { result ≡ spec.low_arc low high }
    ensures bound { result ≤ 115000000000000000000 }
{
    let eighths = eighths_of(low, high);
    let ratio = wide_ratio(8 * low % high, 8 * high + eighths * low);
    EIGHTHS[eighths as usize] + series_degrees(ratio)
}

// Returns the angle of a point in the first quarter.
fn quarter_arc(y: u128, x: u128) -> u128
    requires y { y ≤ 10 ^ 21 }
    requires x { x ≤ 10 ^ 21 }
    ensures value { result ≡ spec.quarter_arc y x }
    ensures bound { result ≤ 115000000000000000000 }
{
    if x < y {
        RIGHT_ANGLE.saturating_sub(low_arc(x, y))
    } else if x == 0 {
        0
    } else {
        low_arc(y, x)
    }
}

// Returns the angle of a point in units of 10^-12 degrees.
fn arc(y: i128, x: i128) -> Number
    requires y { spec.IsCoordinate y }
    requires x { spec.IsCoordinate x }
    ensures { result ≡ spec.arc y x }
{
    let quarter = quarter_arc(y.unsigned_abs(), x.unsigned_abs());
    let half = if x < 0 { STRAIGHT - quarter } else { quarter };
    Number::new(narrow(y < 0, half))
}

// Returns the root of 1 less the square of a number of at most 1, in units of 10^-18.
fn other_side(size: u128) -> u128
    requires { size ≤ 10 ^ 12 }
    ensures value { result ≡ spec.other_side size }
    ensures bound { result ≤ 10 ^ 19 }
{
    u128::from(root_floor((1_000_000_000_000_000_000_000_000 - size * size) * 1_000_000_000_000))
}

impl Number {
    /// Returns what ATAN returns: the angle of the point with these coordinates in degrees, from -180
    /// to 180. That of the origin is 0. That it is within one unit is only tested.
    pub fn arc_tangent(y: Number, x: Number) -> Number
        ensures { result ≡ spec.arc y x }
    {
        arc(y.trillionths(), x.trillionths())
    }

    /// Returns what ASIN returns: the arc sine in degrees, from -90 to 90. Returns `BeyondOne` for
    /// sizes above 1. That it is within one unit is only tested.
    pub fn arc_sine(self) -> Result<Number, NoValue>
        ensures { result ≡ spec.arc_sine self }
    {
        let size = self.trillionths().unsigned_abs();
        if size > 1_000_000_000_000 {
            return Err(NoValue::BeyondOne);
        }
        Ok(arc(self.trillionths() * 1_000_000, other_side(size) as i128))
    }

    /// Returns what ACOS returns: the arc cosine in degrees, from 0 to 180. Returns `BeyondOne` for
    /// sizes above 1. That it is within one unit is only tested.
    pub fn arc_cosine(self) -> Result<Number, NoValue>
        ensures { result ≡ spec.arc_cosine self }
    {
        let size = self.trillionths().unsigned_abs();
        if size > 1_000_000_000_000 {
            return Err(NoValue::BeyondOne);
        }
        Ok(arc(other_side(size) as i128, self.trillionths() * 1_000_000))
    }
}
