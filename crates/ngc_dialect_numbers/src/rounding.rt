//! Products and quotients, rounded to the nearest whole number.
ghost use Rattle.std.specs.Prelude.{◌≡◌, ◌≢◌, ◌<◌, ◌≤◌, ◌^◌, ◌*ℤ◌, pos, unsigned_abs};
ghost use Rattle.ngc_fixed_length.specs.Rounding.{nearest, nearest_size};
ghost use Rattle.ngc_dialect_numbers.specs.Numbers as spec;

use ngc_fixed_length::rounded_quotient;

/// The units of a number in 1.
pub(crate) const ONE: i128 = 1_000_000_000_000;

// The greatest product that is rounded.
const GREATEST: u128 = 1_000_000_000_000_000_000_000_000_000_000_000_000;

/// Returns a number by its sign and its size.
pub(crate) fn signed(negative: bool, size: u128) -> i128
    requires { size ≤ 10 ^ 37 }
    ensures value { result ≡ spec.signed negative size }
    ensures size { unsigned_abs result ≡ size }
{
    let size = size as i128;
    if negative { -size } else { size }
}

/// Returns `x / y`, rounded to the nearest whole number, ties up.
pub(crate) fn rounded_size(x: u128, y: u128) -> u128
    requires divides { 0 < y }
    requires dividend { x ≤ 10 ^ 37 }
    requires divisor { y ≤ 10 ^ 37 }
    ensures value { result ≡ nearest_size x y }
    ensures bound { result ≤ 10 ^ 37 }
{
    (2 * x + y) / (2 * y)
}

/// Returns whether a product is at most a limit, without multiplying.
pub(crate) fn is_within(limit: u128, x: u128, y: u128) -> bool
    ensures { result ≡ spec.is_within limit x y }
{
    y == 0 || x <= limit / y
}

/// Returns the product of two numbers of units, rounded to the nearest unit with ties away from
/// zero. Returns `None` if the product is over 10^36 before that.
pub(crate) fn rounded_product(x: i128, y: i128) -> Option<i128>
    ensures { result ≡ spec.rounded_product x y }
{
    if is_within(GREATEST, x.unsigned_abs(), y.unsigned_abs()) {
        Some(rounded_quotient(x * y, ONE))
    } else {
        None
    }
}

/// Returns `x / y` in units, rounded to the nearest unit with ties away from zero.
pub(crate) fn rounded_ratio(x: i128, y: i128) -> i128
    requires divides { y ≢ pos 0 }
    requires dividend { unsigned_abs x ≤ 10 ^ 21 }
    requires divisor { unsigned_abs y ≤ 10 ^ 21 }
    ensures { result ≡ nearest (x *ℤ pos spec.ONE) y }
{
    let size = rounded_size(x.unsigned_abs() * 1_000_000_000_000, y.unsigned_abs());
    signed((x < 0) != (y < 0), size)
}
