ghost use Rattle.std.specs.Prelude.{◌≡◌, ◌≤◌, ◌<◌, ◌*◌, ◌+◌, pos, ◌-ℤ◌, ◌*ℤ◌, unsigned_abs};
ghost use Rattle.ngc_arc_geometry.specs.Radii.{IsArc};
ghost use Rattle.ngc_step_kernel.specs.Round.{turned};
ghost use Rattle.ngc_step_kernel.specs.Spots.{IsSpot};
ghost use Rattle.ngc_step_kernel.specs.View.{way_between, view_of, way_from, squared, IsView};
ghost use Rattle.ngc_step_kernel.specs.View.{IsMoved};

use crate::round::Vector2;
use crate::spot::Spot;
use ngc_arc_geometry::Arc;
use ngc_fixed_length::{Point2, Turn, rounded_quotient};

/// An arc relative to its centre, so that it turns from u towards v: a clockwise one is mirrored.
/// It holds the position of the centre and the vectors from there to the start and the end, in
/// nanometres.
#[derive(Clone, Copy)]
pub(crate) struct View {
    pub centre: Vector2,
    pub start: Vector2,
    pub end: Vector2,
}

/// Returns a length along v in the direction of the arc: it is negated for a clockwise one.
fn turned(turn: Turn, v: i64) -> i64
    requires { unsigned_abs v ≤ 200000000000 }
    ensures value { result ≡ turned turn v }
    ensures bound { unsigned_abs result ≤ unsigned_abs v }
{
    match turn {
        Turn::Counterclockwise => v,
        Turn::Clockwise => -v,
    }
}

/// Returns the vector from one point to another, mirrored for a clockwise arc.
fn way_between(turn: Turn, from: &Point2, to: &Point2) -> Vector2
    ensures { result ≡ way_between turn from.now to.now }
{
    Vector2 {
        u: to.u.nanometres() - from.u.nanometres(),
        v: turned(turn, to.v.nanometres() - from.v.nanometres()),
    }
}

/// Returns a coordinate times a radius.
fn scaled(x: i64, radius: u64) -> i128
    requires x { unsigned_abs x ≤ 100000000000 }
    requires radius { radius ≤ 3000000000 }
    ensures value { result ≡ x *ℤ pos radius }
    ensures bound { unsigned_abs result ≤ unsigned_abs x * radius }
{
    i128::from(x) * i128::from(radius)
}

/// Returns the distance of a grid point from the centre along an axis.
fn from_centre(at: i32, step: u64, centre: i64) -> i64
    requires at { unsigned_abs at ≤ 200000000 }
    requires greatest { step ≤ 50000 }
    requires centre { unsigned_abs centre ≤ 93000000000 }
    ensures { result ≡ (at *ℤ pos step) -ℤ centre }
{
    scaled(i64::from(at), step) as i64 - centre
}

/// Returns, along an axis, the grid point nearest to the end of a vector from the centre that is
/// moved from its radius to another.
fn moved_place(centre: i64, way: i64, radius: u64, other: u64, step: u64) -> i32
    requires centre { unsigned_abs centre ≤ 93000000000 }
    requires way { unsigned_abs way ≤ radius }
    requires some { 0 < radius }
    requires radius { radius ≤ 2000020000 }
    requires other { other ≤ 2000020000 }
    requires least { 500 ≤ step }
    requires greatest { step ≤ 50000 }
    ensures near { IsMoved step radius other centre way result }
    ensures range { unsigned_abs result ≤ 200000000 }
{
    let place = scaled(centre, radius) + scaled(way, other);
    rounded_quotient(place, i128::from(radius * step)) as i32
}

impl View {
    /// Returns an arc relative to its centre.
    pub(crate) fn of(arc: &Arc) -> View
        ensures value { result ≡ view_of arc.now }
        ensures range { IsView result }
        ensures arc { IsArc arc.now }
    {
        let plane = arc.plane();
        let turn = arc.turn();
        let centre = arc.centre();
        let start = arc.start().in_plane(plane);
        let end = arc.end().in_plane(plane);
        View {
            centre: Vector2 {
                u: centre.u.nanometres(),
                v: turned(turn, centre.v.nanometres()),
            },
            start: way_between(turn, &centre, &start),
            end: way_between(turn, &centre, &end),
        }
    }

    /// Returns the joint: the grid point nearest to the start, moved along its ray from its radius
    /// to another.
    pub(crate) fn joint(&self, radius: u64, other: u64, step: u64) -> Spot
        requires view { IsView self.now }
        requires some { 0 < radius }
        requires start { squared self.now.start ≤ radius * radius }
        requires radius { radius ≤ 2000020000 }
        requires other { other ≤ 2000020000 }
        requires least { 500 ≤ step }
        requires greatest { step ≤ 50000 }
        ensures u { IsMoved step radius other self.now.centre.u self.now.start.u result.u }
        ensures v { IsMoved step radius other self.now.centre.v self.now.start.v result.v }
        ensures range { IsSpot result }
    {
        Spot {
            u: moved_place(self.centre.u, self.start.u, radius, other, step),
            v: moved_place(self.centre.v, self.start.v, radius, other, step),
        }
    }

    /// Returns the vector from the centre to a grid point.
    pub(crate) fn way_to(&self, at: &Spot, step: u64) -> Vector2
        requires view { IsView self.now }
        requires at { IsSpot at.now }
        requires greatest { step ≤ 50000 }
        ensures { result ≡ way_from step self.now.centre at.now }
    {
        Vector2 {
            u: from_centre(at.u, step, self.centre.u),
            v: from_centre(at.v, step, self.centre.v),
        }
    }
}
