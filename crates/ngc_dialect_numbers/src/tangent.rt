//! Tangents.
ghost use Rattle.std.specs.Prelude.{◌≡◌, ◌<◌, ◌≤◌, ◌^◌};
ghost use Rattle.ngc_dialect_numbers.specs.Tangents as spec;

use crate::circle::{EIGHTH, PI, QUARTER, WIDE, low_cosine, low_ratio, radians};
use crate::fault::NoValue;
use crate::number::Number;
use crate::rounding::{rounded_size, signed};

// The units of an angle in half a turn.
const HALF_TURN: i128 = 180_000_000_000_000;

// Returns the tangent of an angle of at most 45 degrees, in units.
fn low_tangent(angle: u64) -> u128
    requires { angle ≤ 45000000000000 }
    ensures value { result ≡ spec.low_tangent angle }
    ensures bound { result ≤ 10 ^ 36 }
{
    let wide = radians(angle) * low_ratio(angle) / low_cosine(angle);
    rounded_size(wide, 1_000_000)
}

// Returns the cosine of an angle over its sine, times the angle, in 10^-18.
fn inverse_ratio(angle: u64) -> u128
    requires { angle ≤ 45000000000000 }
    ensures value { result ≡ spec.inverse_ratio angle }
    ensures bound { result ≤ 2000000000000000000 }
{
    low_cosine(angle) * WIDE / low_ratio(angle)
}

// Returns the tangent of what is left of a right angle after at most 45 degrees, in units. Its digits
// don't depend on its size: it is divided by the angle last.
fn high_tangent(left: u64) -> u128
    requires some { 0 < left }
    requires low { left ≤ 45000000000000 }
    ensures value { result ≡ spec.high_tangent left }
    ensures bound { result ≤ 10 ^ 36 }
{
    let over_pi = inverse_ratio(left) * 18_000_000_000_000_000_000 / PI;
    rounded_size(over_pi * 10_000_000, u128::from(left))
}

// Returns the tangent of an angle below a right angle.
fn quarter_tangent(angle: u64) -> u128
    requires { angle < 90000000000000 }
    ensures value { result ≡ spec.quarter_tangent angle }
    ensures bound { result ≤ 10 ^ 36 }
{
    if angle <= EIGHTH {
        low_tangent(angle)
    } else {
        high_tangent(QUARTER - angle)
    }
}

fn tangent(negative: bool, angle: u64) -> Result<Number, NoValue>
    requires { angle ≤ 90000000000000 }
    ensures { result ≡ spec.signed_tangent negative angle }
{
    if angle == QUARTER {
        return Err(NoValue::RightAngle);
    }
    Number::from_trillionths(signed(negative, quarter_tangent(angle)))
}

// Returns the tangent of an angle below half a turn.
fn half_tangent(angle: u64) -> Result<Number, NoValue>
    requires { angle < 180000000000000 }
    ensures { result ≡ spec.half_tangent angle }
{
    if angle <= QUARTER {
        tangent(false, angle)
    } else {
        tangent(true, 2 * QUARTER - angle)
    }
}

impl Number {
    /// Returns what TAN returns: the tangent of an angle in degrees. Returns `RightAngle` for a right
    /// angle, or `OutOfRange`. That it is within one unit, or 10^-15 of its size, is only tested.
    pub fn tan(self) -> Result<Number, NoValue>
        ensures { result ≡ spec.tangent self }
    {
        half_tangent(self.trillionths().rem_euclid(HALF_TURN).unsigned_abs() as u64)
    }
}
