//! Vectors from an arc's centre, in the plane of X and Y.
ghost use Rattle.std.specs.Prelude.{◌≡◌, ◌≤◌, ◌*ℤ◌, unsigned_abs};

use ngc_fixed_length::{Point2, Turn, root_floor};
use std::marker::Model;

/// A vector from an arc's centre, at most 2.4 m along each axis. No arc's radius is so great, with the
/// room for its chords.
#[derive(Clone, Copy)]
pub(crate) struct Spoke {
    u: i64,
    v: i64,
}

impl Model for Spoke {
    ghost use Rattle.std.specs.Prelude.{◌≤◌, unsigned_abs};
    ghost use Rattle.ngc_fixed_length.specs.declared.points.Point2.{Point2};

    ghost Value = { Point2 };

    ghost view = { λ s. record { u = s.u; v = s.v } };

    ghost invariant = { λ s. (unsigned_abs s.u ≤ 2400000000) × (unsigned_abs s.v ≤ 2400000000) };

    ghost inverse = { λ p. record { u = p.u; v = p.v } };
}

/// Returns the product of two coordinates.
fn product(x: i64, y: i64) -> i128
    requires x { unsigned_abs x ≤ 2400000000 }
    requires y { unsigned_abs y ≤ 2400000000 }
    ensures value { result ≡ x *ℤ y }
    ensures bound { unsigned_abs result ≤ 5760000000000000000 }
{
    i128::from(x) * i128::from(y)
}

/// Returns the square of a sum or a difference of coordinates.
fn squared(x: i64) -> i128
    requires { unsigned_abs x ≤ 4800000000 }
    ensures value { result ≡ x *ℤ x }
    ensures bound { unsigned_abs result ≤ 23040000000000000000 }
{
    i128::from(x) * i128::from(x)
}

/// Returns a number, or the nearest one that is at most 2.4 m.
fn limited(number: i128) -> i64
    ensures { unsigned_abs result ≤ 2400000000 }
{
    if number < -2_400_000_000 {
        -2_400_000_000
    } else if 2_400_000_000 < number {
        2_400_000_000
    } else {
        number as i64
    }
}

/// Returns a coordinate of a vector that is made longer or shorter, from one length to another.
fn scaled(coordinate: i64, length: u64, radius: u32) -> i64
    ensures { unsigned_abs result ≤ 2400000000 }
{
    if length == 0 {
        return 0;
    }
    let whole = i128::from(coordinate) * i128::from(radius);
    limited(whole.div_euclid(i128::from(length)))
}

impl Spoke {
    ghost use Rattle.std.specs.Prelude.{◌≡◌, ◌≤◌, unsigned_abs, IfSome, IsTrue};
    ghost use Rattle.ngc_fixed_length.specs.Places.{cross, dot, from};
    ghost use Rattle.ngc_stock.specs.Arcs.{opposite};
    ghost use Rattle.ngc_material.specs.Chords.{leads, length_squared};

    /// Returns the vector from an arc's centre to a point, or `None` if the point is too far.
    pub(crate) fn to(centre: &Point2, point: &Point2) -> Option<Spoke>
        ensures { IfSome result (λ s. s ≡ from centre.now point.now) }
    {
        let u = point.u.nanometres() - centre.u.nanometres();
        let v = point.v.nanometres() - centre.v.nanometres();
        if u.unsigned_abs() <= 2_400_000_000 && v.unsigned_abs() <= 2_400_000_000 {
            Some(Spoke { u, v })
        } else {
            None
        }
    }

    /// Returns the coordinate along X.
    pub(crate) fn x(&self) -> i64
        ensures value { result ≡ self.now.u }
        ensures bound { unsigned_abs result ≤ 2400000000 }
    {
        self.u
    }

    /// Returns the coordinate along Y.
    pub(crate) fn y(&self) -> i64
        ensures value { result ≡ self.now.v }
        ensures bound { unsigned_abs result ≤ 2400000000 }
    {
        self.v
    }

    /// Returns the vector in the opposite direction.
    pub(crate) fn opposite(&self) -> Spoke
        ensures { result ≡ opposite self.now }
    {
        Spoke {
            u: -self.u,
            v: -self.v,
        }
    }

    /// Returns whether two spokes are the same.
    pub(crate) fn is_at(&self, other: &Spoke) -> bool
        ensures { IsTrue result → self.now ≡ other.now }
    {
        self.u == other.u && self.v == other.v
    }

    pub(crate) fn cross(&self, other: &Spoke) -> i128
        ensures value { result ≡ cross self.now other.now }
        ensures bound { unsigned_abs result ≤ 11520000000000000000 }
    {
        product(self.u, other.v) - product(self.v, other.u)
    }

    pub(crate) fn dot(&self, other: &Spoke) -> i128
        ensures value { result ≡ dot self.now other.now }
        ensures bound { unsigned_abs result ≤ 11520000000000000000 }
    {
        product(self.u, other.u) + product(self.v, other.v)
    }

    /// Returns the square of the distance of two spokes' ends.
    pub(crate) fn squared_distance(&self, other: &Spoke) -> i128
        ensures value { result ≡ length_squared self.now other.now }
        ensures bound { unsigned_abs result ≤ 46080000000000000000 }
    {
        squared(other.u - self.u) + squared(other.v - self.v)
    }

    /// Returns whether a direction of turning leads from this spoke to another by at most half a turn.
    pub(crate) fn leads_to(&self, turn: Turn, other: &Spoke) -> bool
        ensures { result ≡ leads turn self.now other.now }
    {
        let area = self.cross(other);
        match turn {
            Turn::Counterclockwise => 0 <= area,
            Turn::Clockwise => 0 <= -area,
        }
    }

    /// Returns about the spoke of a length in a direction.
    fn towards(u: i64, v: i64, radius: u32) -> Spoke
        requires u { unsigned_abs u ≤ 4800000000 }
        requires v { unsigned_abs v ≤ 4800000000 }
    {
        let square = squared(u) + squared(v);
        let length = root_floor(square.unsigned_abs());
        Spoke {
            u: scaled(u, length, radius),
            v: scaled(v, length, radius),
        }
    }

    /// Returns about the spoke of a length that is half of the way from this one to another,
    /// counterclockwise, if that is at most half a turn.
    pub(crate) fn halfway(&self, other: &Spoke, radius: u32) -> Spoke {
        // The sum of the spokes, or where that is short a normal of their ends' line.
        if 0 < self.dot(other) {
            Spoke::towards(self.u + other.u, self.v + other.v, radius)
        } else {
            Spoke::towards(other.v - self.v, self.u - other.u, radius)
        }
    }
}
