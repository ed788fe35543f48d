//! The points of helices.
ghost use Rattle.std.specs.Prelude.{◌≡◌, ◌≤◌, ◌<◌, ◌+◌, ◌*◌, ◌^◌, ◌+ℤ◌, ◌-ℤ◌, ◌*ℤ◌, pos};
ghost use Rattle.std.specs.Prelude.{unsigned_abs};
ghost use Rattle.ngc_fixed_length.specs.Limits.{IsLength};
ghost use Rattle.ngc_fixed_length.specs.Places.{in_plane, from, shifted, dot, cross};
ghost use Rattle.ngc_fixed_length.specs.Rounding.{nearest};
ghost use Rattle.ngc_arc_geometry.specs.Chord as chord;
ghost use Rattle.ngc_arc_geometry.specs.Radii.{outer_radius};
ghost use Rattle.ngc_arc_geometry.specs.Sector.{turning};
ghost use Rattle.ngc_picture_shapes.specs.Helices.{between, half_turned, opposite, is_long};
ghost use Rattle.ngc_picture_shapes.specs.Helices.{middle_direction, size, along, point_between, halfway};
ghost use Rattle.ngc_picture_shapes.specs.Helices.{middle, halvings};
ghost use Rattle.ngc_picture_shapes.specs.Ways.{way_of, IsShort, IsReached};

use ngc_arc_geometry::{Arc, halfway, moved};
use ngc_fixed_length::{Nm, Point2, Point3, Turn, root_floor, rounded_quotient};

/// A direction in an arc's plane, as a vector from its centre in nanometres.
#[derive(Clone, Copy)]
pub(crate) struct Heading {
    pub u: i64,
    pub v: i64,
}

/// Returns the sum of two coordinates and the difference of two others.
fn sum_and_difference(one: i64, other: i64, more: i64, less: i64) -> i64
    requires one { unsigned_abs one ≤ 200000000000 }
    requires other { unsigned_abs other ≤ 200000000000 }
    requires more { unsigned_abs more ≤ 200000000000 }
    requires less { unsigned_abs less ≤ 200000000000 }
    ensures value { result ≡ (one +ℤ other) +ℤ (more -ℤ less) }
    ensures bound { unsigned_abs result ≤ 800000000000 }
{
    (one + other) + (more - less)
}

/// Returns the product of two coordinates.
fn product(x: i64, y: i64) -> i128
    requires x { unsigned_abs x ≤ 10 ^ 13 }
    requires y { unsigned_abs y ≤ 10 ^ 13 }
    ensures value { result ≡ x *ℤ y }
    ensures bound { unsigned_abs result ≤ 10 ^ 26 }
{
    i128::from(x) * i128::from(y)
}

/// Returns the square of the length of a vector with these coordinates.
fn square_of(u: i64, v: i64) -> u128
    requires u { unsigned_abs u ≤ 800000000000 }
    requires v { unsigned_abs v ≤ 800000000000 }
    ensures { result ≡ unsigned_abs ((u *ℤ u) +ℤ (v *ℤ v)) }
{
    (product(u, u) + product(v, v)).unsigned_abs()
}

/// Returns a coordinate times a radius.
fn times(coordinate: i64, radius: u64) -> i128
    requires coordinate { unsigned_abs coordinate ≤ 10 ^ 13 }
    requires radius { radius ≤ 10 ^ 13 }
    ensures value { result ≡ coordinate *ℤ pos radius }
    ensures bound { unsigned_abs result ≤ 10 ^ 26 }
{
    i128::from(coordinate) * i128::from(radius)
}

/// Returns a coordinate of a direction of this size, at a radius.
fn scaled(coordinate: i64, radius: u64, size: u64) -> i64
    requires some { 0 < size }
    requires within { unsigned_abs coordinate ≤ size }
    requires size { size ≤ 10 ^ 13 }
    requires radius { radius ≤ 2000020000 }
    ensures value { result ≡ nearest (coordinate *ℤ pos radius) (pos size) }
    ensures bound { unsigned_abs result ≤ 2000020000 }
{
    rounded_quotient(times(coordinate, radius), i128::from(size)) as i64
}

impl Heading {
    /// Returns the direction from one point of a plane to another.
    fn between_points(start: &Point2, end: &Point2) -> Heading
        ensures value { way_of result ≡ from start.now end.now }
        ensures short { IsShort result }
    {
        Heading {
            u: end.u.nanometres() - start.u.nanometres(),
            v: end.v.nanometres() - start.v.nanometres(),
        }
    }

    /// Returns the direction from an arc's centre to a point.
    fn to(arc: &Arc, point: &Point3) -> Heading
        ensures value { way_of result ≡ from arc.now.centre (in_plane arc.now.plane point.now) }
        ensures short { IsShort result }
    {
        Heading::between_points(&arc.centre(), &point.in_plane(arc.plane()))
    }

    /// Returns the direction halfway to another one counterclockwise.
    fn between(&self, other: &Heading) -> Heading
        requires one { IsShort self.now }
        requires other { IsShort other.now }
        ensures value { way_of result ≡ between (way_of self.now) (way_of other.now) }
        ensures reached { IsReached result }
    {
        Heading {
            u: sum_and_difference(self.u, other.u, other.v, self.v),
            v: sum_and_difference(self.v, other.v, self.u, other.u),
        }
    }

    /// Returns the direction halfway to another one, turning in the direction `turn`.
    fn half_turned(&self, turn: Turn, other: &Heading) -> Heading
        requires one { IsShort self.now }
        requires other { IsShort other.now }
        ensures value { way_of result ≡ half_turned turn (way_of self.now) (way_of other.now) }
        ensures reached { IsReached result }
    {
        match turn {
            Turn::Counterclockwise => self.between(other),
            Turn::Clockwise => other.between(self),
        }
    }

    fn opposite(&self) -> Heading
        requires { IsReached self.now }
        ensures value { way_of result ≡ opposite (way_of self.now) }
        ensures reached { IsReached result }
    {
        Heading {
            u: -self.u,
            v: -self.v,
        }
    }

    /// Returns twice the area that this one and another span, above 0 where the other is ahead
    /// counterclockwise.
    fn cross(&self, other: &Heading) -> i128
        requires one { IsShort self.now }
        requires other { IsShort other.now }
        ensures value { result ≡ cross (way_of self.now) (way_of other.now) }
        ensures bound { unsigned_abs result ≤ 2 * 10 ^ 26 }
    {
        product(self.u, other.v) - product(self.v, other.u)
    }

    /// Returns twice that area, above 0 where the other is ahead in the direction `turn`.
    fn area(&self, turn: Turn, other: &Heading) -> i128
        requires one { IsShort self.now }
        requires other { IsShort other.now }
        ensures { result ≡ turning turn (cross (way_of self.now) (way_of other.now)) }
    {
        match turn {
            Turn::Counterclockwise => self.cross(other),
            Turn::Clockwise => -self.cross(other),
        }
    }

    /// Returns the square of its length.
    fn square(&self) -> u128
        requires { IsReached self.now }
        ensures value { result ≡ unsigned_abs (dot (way_of self.now) (way_of self.now)) }
        ensures u { unsigned_abs self.now.u * unsigned_abs self.now.u ≤ result }
        ensures v { unsigned_abs self.now.v * unsigned_abs self.now.v ≤ result }
        ensures bound { result ≤ 2 * 10 ^ 24 }
    {
        square_of(self.u, self.v)
    }

    /// Returns its length, as a whole number above 0.
    fn size(&self) -> u64
        requires { IsReached self.now }
        ensures value { result ≡ size (way_of self.now) }
        ensures some { 0 < result }
        ensures u { unsigned_abs self.now.u ≤ result }
        ensures v { unsigned_abs self.now.v ≤ result }
        ensures bound { result ≤ 10 ^ 13 }
    {
        root_floor(self.square()).max(1)
    }

    /// Returns the point of an arc's outer circle that lies in this direction from its centre.
    fn on_circle(&self, arc: &Arc) -> Point2
        requires { IsReached self.now }
        ensures { result ≡ shifted arc.now.centre (along (outer_radius arc.now) (way_of self.now)) }
    {
        let centre = arc.centre();
        let radius = arc.outer_radius();
        let size = self.size();
        Point2 {
            u: moved(centre.u, scaled(self.u, radius, size)),
            v: moved(centre.v, scaled(self.v, radius, size)),
        }
    }
}

/// Returns whether an arc turns by more than half a turn.
fn is_long(arc: &Arc) -> bool
    ensures { result ≡ is_long arc.now }
{
    let first = Heading::to(arc, &arc.start());
    let last = Heading::to(arc, &arc.end());
    arc.is_full_circle() || first.area(arc.turn(), &last) < 0
}

/// Returns the direction halfway along an arc.
fn middle_direction(arc: &Arc) -> Heading
    ensures value { way_of result ≡ middle_direction arc.now }
    ensures reached { IsReached result }
{
    let first = Heading::to(arc, &arc.start());
    let last = Heading::to(arc, &arc.end());
    if is_long(arc) {
        last.half_turned(arc.turn(), &first).opposite()
    } else {
        first.half_turned(arc.turn(), &last)
    }
}

fn point_between(arc: &Arc, one: &Point3, other: &Point3, direction: &Heading) -> Point3
    requires { IsReached direction.now }
    ensures { result ≡ point_between arc.now one.now other.now (way_of direction.now) }
{
    let plane = arc.plane();
    let height = halfway(one.height(plane), other.height(plane));
    direction.on_circle(arc).at_height(plane, height)
}

/// Returns the point of an arc halfway from one point to another, which are at most half a turn
/// apart.
pub(crate) fn halfway_along(arc: &Arc, one: &Point3, other: &Point3) -> Point3
    ensures { result ≡ halfway arc.now one.now other.now }
{
    let direction = Heading::to(arc, one).half_turned(arc.turn(), &Heading::to(arc, other));
    point_between(arc, one, other, &direction)
}

/// Returns the point halfway along an arc.
pub(crate) fn middle(arc: &Arc) -> Point3
    ensures { result ≡ middle arc.now }
{
    point_between(arc, &arc.start(), &arc.end(), &middle_direction(arc))
}

/// Returns how many times each half of an arc of this radius is halved.
pub(crate) fn halvings(radius: u64) -> u32
    ensures { result ≡ halvings radius }
{
    if radius < 1_000_000 {
        3
    } else if radius < 10_000_000 {
        4
    } else {
        5
    }
}
