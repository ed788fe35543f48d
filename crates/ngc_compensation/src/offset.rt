//! Vectors of a given length, and quotients, rounded to whole nanometres.
ghost use Rattle.std.specs.Prelude.{◌≡◌, ◌≢◌, ◌+◌, ◌*◌, ◌^◌, ◌<◌, ◌≤◌, pos, ◌+ℤ◌, ◌*ℤ◌, unsigned_abs};
ghost use Rattle.std.specs.Prelude.{IfSome};
ghost use Rattle.ngc_fixed_length.specs.Rounding.{nearest, nearest_size};
ghost use Rattle.ngc_fixed_length.specs.Signed.{is_within};
ghost use Rattle.ngc_compensation.specs.Sides.{norm as norm_of};
ghost use Rattle.ngc_compensation.specs.Offsets as spec;
ghost use Rattle.ngc_compensation.specs.Limits.{IsWithin};

use crate::vector::{length, norm, shifted};
use ngc_fixed_length::{Nm, Point2, root_floor};

/// The length of a unit vector.
pub(crate) const UNIT: u64 = 500_000_000;

/// The square of the length of a unit vector.
pub(crate) const UNIT_SQUARE: u128 = 250_000_000_000_000_000;

// Returns the whole number nearest to a part of `n`, which is at most `n`.
fn part_size(n: u64, x: u64, square: u128) -> u64
    requires n { n ≤ 500000000 }
    requires x { x ≤ 10000000000 }
    requires some { 0 < square }
    requires within { x * x ≤ square }
    ensures value { result ≡ spec.part_size n x square }
    ensures bound { result ≤ n }
{
    let twice = u128::from(2 * n * x);
    (root_floor(twice * twice / square) + 1) / 2
}

fn with_sign(x: Nm, size: u64) -> Nm
    requires { size ≤ 500000000 }
    ensures value { result ≡ spec.with_sign x size }
    ensures bound { unsigned_abs result ≤ size }
{
    if x.nanometres() < 0 {
        length(-i128::from(size))
    } else {
        length(i128::from(size))
    }
}

fn part(n: u64, x: Nm, square: u128) -> Nm
    requires n { n ≤ 500000000 }
    requires x { unsigned_abs x ≤ 10000000000 }
    requires some { 0 < square }
    requires within { unsigned_abs x * unsigned_abs x ≤ square }
    ensures value { result ≡ spec.part n x square }
    ensures bound { unsigned_abs result ≤ n }
{
    let size = part_size(n, x.nanometres().unsigned_abs(), square);
    with_sign(x, size)
}

/// Returns the vector of length `n` in a direction, each coordinate rounded to the nearest whole
/// number.
#[tactic(auto, unfolding(crate::specs::Offsets::scaled))]
pub(crate) fn scaled(n: u64, direction: &Point2) -> Point2
    requires n { n ≤ 500000000 }
    requires within { IsWithin 10000000000 direction.now }
    requires some { 0 < norm_of direction.now }
    ensures value { result ≡ spec.scaled n direction.now }
    ensures bound { IsWithin n result }
{
    let square = norm(direction);
    Point2 {
        u: part(n, direction.u, square),
        v: part(n, direction.v, square),
    }
}

/// Returns the place at the distance `radius` from a point in a direction.
pub(crate) fn beside(point: &Point2, radius: u64, direction: &Point2) -> Point2
    requires point { IsWithin 4000000000 point.now }
    requires radius { radius ≤ 100000000 }
    requires within { IsWithin 10000000000 direction.now }
    requires some { 0 < norm_of direction.now }
    ensures value { result ≡ spec.beside point.now radius direction.now }
    ensures bound { IsWithin 5000000000 result }
{
    shifted(point, &scaled(radius, direction))
}

/// Returns a coordinate of a vector times a whole number.
pub(crate) fn times(x: Nm, y: i128) -> i128
    requires x { unsigned_abs x ≤ 10000000000 }
    requires y { unsigned_abs y ≤ 1000000000000000000000 }
    ensures value { result ≡ x *ℤ y }
    ensures bound { unsigned_abs result ≤ 10 ^ 31 }
{
    i128::from(x.nanometres()) * y
}

// Returns the nearest whole number, ties up.
fn rounded_size(x: u128, y: u128) -> u128
    requires divides { 0 < y }
    requires dividend { x ≤ 10 ^ 38 }
    requires divisor { y ≤ 10 ^ 37 }
    ensures value { result ≡ nearest_size x y }
    ensures bound { result ≤ 10 ^ 38 }
{
    (2 * x + y) / (2 * y)
}

/// Returns `x / y`, rounded to the nearest whole number, ties away from zero.
pub(crate) fn quotient(x: i128, y: i128) -> i128
    requires divides { y ≢ pos 0 }
    requires dividend { unsigned_abs x ≤ 10 ^ 38 }
    requires divisor { unsigned_abs y ≤ 10 ^ 37 }
    ensures value { result ≡ nearest x y }
    ensures bound { unsigned_abs result ≤ 10 ^ 38 }
{
    let size = rounded_size(x.unsigned_abs(), y.unsigned_abs()) as i128;
    if (x < 0) == (y < 0) { size } else { -size }
}

fn is_within(limit: u128, x: i128) -> bool
    ensures { result ≡ is_within limit x }
{
    x.unsigned_abs() <= limit
}

/// Returns whether each coordinate is within a limit.
pub(crate) fn is_near(limit: u128, point: &Point2) -> bool
    ensures { result ≡ spec.is_near limit point.now }
{
    is_within(limit, i128::from(point.u.nanometres()))
        && is_within(limit, i128::from(point.v.nanometres()))
}

// Returns the point with two coordinates, if it is within 5 m.
#[tactic(auto, unfolding(crate::specs::Offsets::within_limit))]
fn within_limit(u: i128, v: i128) -> Option<Point2>
    ensures value { result ≡ spec.within_limit u v }
    ensures near { IfSome result (IsWithin 5000000000) }
{
    if u.unsigned_abs() > 5_000_000_000 {
        return None;
    }
    if v.unsigned_abs() > 5_000_000_000 {
        return None;
    }
    Some(Point2 {
        u: length(u),
        v: length(v),
    })
}

fn sum(x: Nm, y: i128) -> i128
    requires { unsigned_abs y ≤ 10 ^ 38 }
    ensures { result ≡ x +ℤ y }
{
    i128::from(x.nanometres()) + y
}

/// Returns the point at the distances `u` and `v` from another, if it is within 5 m.
pub(crate) fn reached(point: &Point2, u: i128, v: i128) -> Option<Point2>
    requires u { unsigned_abs u ≤ 10 ^ 38 }
    requires v { unsigned_abs v ≤ 10 ^ 38 }
    ensures value { result ≡ spec.reached point.now u v }
    ensures near { IfSome result (IsWithin 5000000000) }
{
    within_limit(sum(point.u, u), sum(point.v, v))
}
