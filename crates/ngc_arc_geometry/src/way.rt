ghost use Rattle.std.specs.Prelude.{◌≡◌, ◌^◌, ◌*◌, ◌≤◌, ◌*ℤ◌, ◌&&◌, int_le, pos, unsigned_abs};

use ngc_fixed_length::{Nm, Point2};
use std::marker::Model;

/// A vector in a plane, or a point of it that may lie beyond the limit of lengths: at most 4*10^11
/// nm on each axis.
#[derive(Clone, Copy)]
pub(crate) struct Vector2 {
    u: i64,
    v: i64,
}

impl Model for Vector2 {
    ghost use Rattle.std.specs.Prelude.{◌≤◌, unsigned_abs};
    ghost use Rattle.ngc_fixed_length.specs.declared.points.Point2.{Point2};

    ghost Value = { Point2 };

    ghost view = { λ w. record { u = w.u; v = w.v } };

    ghost invariant = { λ w. (unsigned_abs w.u ≤ 400000000000) × (unsigned_abs w.v ≤ 400000000000) };

    ghost inverse = { λ p. record { u = p.u; v = p.v } };
}

/// Returns the product of two coordinates of vectors.
fn product(x: i64, y: i64) -> i128
    requires x { unsigned_abs x ≤ 400000000000 }
    requires y { unsigned_abs y ≤ 400000000000 }
    ensures value { result ≡ x *ℤ y }
    ensures bound { unsigned_abs result ≤ 16 * 10 ^ 22 }
{
    i128::from(x) * i128::from(y)
}

impl Vector2 {
    ghost use Rattle.ngc_fixed_length.specs.Places.{from, shifted, cross, dot};

    /// Returns the vector with these coordinates.
    pub(crate) fn new(u: i64, v: i64) -> Vector2
        requires u { unsigned_abs u ≤ 400000000000 }
        requires v { unsigned_abs v ≤ 400000000000 }
        ensures { result ≡ record { u = u; v = v } }
    {
        Vector2 { u, v }
    }

    /// Returns the vector from one point to another.
    pub(crate) fn between(start: &Point2, end: &Point2) -> Vector2
        ensures { result ≡ from start.now end.now }
    {
        Vector2 {
            u: end.u.nanometres() - start.u.nanometres(),
            v: end.v.nanometres() - start.v.nanometres(),
        }
    }

    /// Returns the vector from the plane's zero to a point.
    pub(crate) fn of(point: &Point2) -> Vector2
        ensures value { result ≡ point.now }
        ensures u { unsigned_abs result.u ≤ 100000000000 }
        ensures v { unsigned_abs result.v ≤ 100000000000 }
    {
        Vector2 {
            u: point.u.nanometres(),
            v: point.v.nanometres(),
        }
    }

    /// Returns the point at the distances `u` and `v` from another.
    pub(crate) fn offset(start: &Point2, u: Nm, v: Nm) -> Vector2
        ensures value { result ≡ shifted start.now (record { u = u; v = v }) }
        ensures u { unsigned_abs result.u ≤ 200000000000 }
        ensures v { unsigned_abs result.v ≤ 200000000000 }
    {
        Vector2 {
            u: start.u.nanometres() + u.nanometres(),
            v: start.v.nanometres() + v.nanometres(),
        }
    }

    /// Returns the point to which this vector leads from the plane's zero.
    pub(crate) fn point(&self) -> Point2
        requires u { unsigned_abs self.now.u ≤ 100000000000 }
        requires v { unsigned_abs self.now.v ≤ 100000000000 }
        ensures { result ≡ self.now }
    {
        Point2 {
            u: Nm::from_nanometres(i128::from(self.u)).unwrap(),
            v: Nm::from_nanometres(i128::from(self.v)).unwrap(),
        }
    }

    /// Returns the vector from this point to another.
    pub(crate) fn to(&self, end: &Point2) -> Vector2
        requires u { unsigned_abs self.now.u ≤ 200000000000 }
        requires v { unsigned_abs self.now.v ≤ 200000000000 }
        ensures { result ≡ from self.now end.now }
    {
        Vector2 {
            u: end.u.nanometres() - self.u,
            v: end.v.nanometres() - self.v,
        }
    }

    /// Returns the coordinate along u.
    pub(crate) fn u(&self) -> i64
        ensures value { result ≡ self.now.u }
        ensures bound { unsigned_abs result ≤ 400000000000 }
    {
        self.u
    }

    /// Returns the coordinate along v.
    pub(crate) fn v(&self) -> i64
        ensures value { result ≡ self.now.v }
        ensures bound { unsigned_abs result ≤ 400000000000 }
    {
        self.v
    }

    /// Returns the dot product of two vectors. It is above 0 if the angle between them is less than
    /// a right one.
    pub(crate) fn dot(&self, other: &Vector2) -> i128
        ensures value { result ≡ dot self.now other.now }
        ensures bound { unsigned_abs result ≤ 4 * 10 ^ 23 }
    {
        product(self.u, other.u) + product(self.v, other.v)
    }

    /// Returns twice the area that two vectors span. It is above 0 if the first turns towards the
    /// other counterclockwise.
    pub(crate) fn cross(&self, other: &Vector2) -> i128
        ensures value { result ≡ cross self.now other.now }
        ensures bound { unsigned_abs result ≤ 4 * 10 ^ 23 }
    {
        product(self.u, other.v) - product(self.v, other.u)
    }

    /// Returns whether both vectors point into the same closed quadrant.
    pub(crate) fn shares_quadrant(&self, other: &Vector2) -> bool
        ensures { result
            ≡ (int_le (pos 0) (self.now.u *ℤ other.now.u)
            && int_le (pos 0) (self.now.v *ℤ other.now.v)) }
    {
        0 <= product(self.u, other.u) && 0 <= product(self.v, other.v)
    }

    /// Returns the square of the vector's length.
    pub(crate) fn square(&self) -> u128
        ensures { result ≡ unsigned_abs (dot self.now self.now) }
    {
        self.dot(self).unsigned_abs()
    }
}
