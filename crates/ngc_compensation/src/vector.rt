//! Points and vectors of a plane. Points are within 5 m, vectors within 10 m.
ghost use Rattle.std.specs.Prelude.{◌≡◌, ◌*◌, ◌^◌, ◌≤◌, ◌+ℤ◌, ◌*ℤ◌, unsigned_abs};
ghost use Rattle.std.specs.Prelude.{ℤ, pos, ◌-ℤ◌};
ghost use Rattle.ngc_fixed_length.specs.Limits.{IsLength};
ghost use Rattle.ngc_fixed_length.specs.Places as places;
ghost use Rattle.ngc_compensation.specs.Sides as spec;
ghost use Rattle.ngc_compensation.specs.Limits.{IsWithin};

use crate::moves::Side;
use ngc_fixed_length::{Nm, Point2, Turn};

/// Returns a number of nanometres as a length.
pub(crate) fn length(nanometres: i128) -> Nm
    requires { IsLength nanometres }
    ensures { result ≡ nanometres }
{
    Nm::from_nanometres(nanometres).unwrap()
}

/// Returns the vector from one point to another.
pub(crate) fn from(start: &Point2, end: &Point2) -> Point2
    requires start { IsWithin 5000000000 start.now }
    requires end { IsWithin 5000000000 end.now }
    ensures value { result ≡ places.from start.now end.now }
    ensures bound { IsWithin 10000000000 result }
{
    Point2 {
        u: end.u.minus(start.u),
        v: end.v.minus(start.v),
    }
}

/// Returns the point at a vector from another.
pub(crate) fn shifted(point: &Point2, by: &Point2) -> Point2
    requires point { IsWithin 4000000000 point.now }
    requires by { IsWithin 100000000 by.now }
    ensures value { result ≡ places.shifted point.now by.now }
    ensures bound { IsWithin 5000000000 result }
{
    Point2 {
        u: point.u.plus(by.u),
        v: point.v.plus(by.v),
    }
}

/// Returns a vector turned to a side by a right angle.
pub(crate) fn turned(side: Side, vector: &Point2) -> Point2
    requires { IsWithin 10000000000 vector.now }
    ensures value { result ≡ spec.turned side vector.now }
    ensures bound { IsWithin 10000000000 result }
{
    match side {
        Side::Left => Point2 {
            u: Nm::zero().minus(vector.v),
            v: vector.u,
        },
        Side::Right => Point2 {
            u: vector.v,
            v: Nm::zero().minus(vector.u),
        },
    }
}

/// Returns a vector with the opposite direction.
pub(crate) fn backward(vector: &Point2) -> Point2
    requires { IsWithin 10000000000 vector.now }
    ensures value { result ≡ spec.backward vector.now }
    ensures bound { IsWithin 10000000000 result }
{
    Point2 {
        u: Nm::zero().minus(vector.u),
        v: Nm::zero().minus(vector.v),
    }
}

// Returns the product of two coordinates of vectors.
fn product(x: Nm, y: Nm) -> i128
    requires x { unsigned_abs x ≤ 10000000000 }
    requires y { unsigned_abs y ≤ 10000000000 }
    ensures value { result ≡ x *ℤ y }
    ensures bound { unsigned_abs result ≤ 10 ^ 20 }
{
    i128::from(x.nanometres()) * i128::from(y.nanometres())
}

/// Returns the dot product, which is above 0 if the angle between both is less than a right one.
pub(crate) fn dot(first: &Point2, second: &Point2) -> i128
    requires first { IsWithin 10000000000 first.now }
    requires second { IsWithin 10000000000 second.now }
    ensures value { result ≡ places.dot first.now second.now }
    ensures bound { unsigned_abs result ≤ 2 * 10 ^ 20 }
{
    product(first.u, second.u) + product(first.v, second.v)
}

/// Returns twice the area that two vectors span, above 0 if the first turns towards the second
/// counterclockwise.
pub(crate) fn cross(first: &Point2, second: &Point2) -> i128
    requires first { IsWithin 10000000000 first.now }
    requires second { IsWithin 10000000000 second.now }
    ensures value { result ≡ places.cross first.now second.now }
    ensures bound { unsigned_abs result ≤ 2 * 10 ^ 20 }
{
    product(first.u, second.v) - product(first.v, second.u)
}

/// Returns the square of a vector's length.
pub(crate) fn norm(vector: &Point2) -> u128
    requires { IsWithin 10000000000 vector.now }
    ensures value { result ≡ spec.norm vector.now }
    ensures bound { result ≤ 2 * 10 ^ 20 }
{
    dot(vector, vector).unsigned_abs()
}

/// Returns the square of the distance between two points.
pub(crate) fn apart(start: &Point2, end: &Point2) -> u128
    requires start { IsWithin 5000000000 start.now }
    requires end { IsWithin 5000000000 end.now }
    ensures value { result ≡ spec.apart start.now end.now }
    ensures bound { result ≤ 2 * 10 ^ 20 }
{
    norm(&from(start, end))
}

/// Returns the other side.
pub(crate) fn opposite(side: Side) -> Side
    ensures { result ≡ spec.opposite side }
{
    match side {
        Side::Left => Side::Right,
        Side::Right => Side::Left,
    }
}

/// Returns the side of an arc on which its centre is.
pub(crate) fn centre_side(turn: Turn) -> Side
    ensures { result ≡ spec.centre_side turn }
{
    match turn {
        Turn::Counterclockwise => Side::Left,
        Turn::Clockwise => Side::Right,
    }
}

/// Returns the turn about a point on a side.
pub(crate) fn turn_about(side: Side) -> Turn
    ensures { result ≡ spec.turn_about side }
{
    match side {
        Side::Left => Turn::Counterclockwise,
        Side::Right => Turn::Clockwise,
    }
}

/// Returns whether the tool is on an arc's inside.
pub(crate) fn is_inside(side: Side, turn: Turn) -> bool
    ensures { result ≡ spec.is_inside side turn }
{
    side == centre_side(turn)
}
