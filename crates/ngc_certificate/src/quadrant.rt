//! Quadrants about the centre of an arc, in the order in which the arc passes through them.
ghost use Rattle.std.specs.Prelude.{◌≡◌, ◌≤◌, unsigned_abs};

use crate::limits::{Block, Span};
use ngc_arc_geometry::Arc;
use ngc_fixed_length::{Nm, Plane, Point2, Turn};

/// A point of a quadrant, as its distances from the centre along two axes; x falls and y rises
/// along the arc.
#[derive(Clone, Copy)]
pub(crate) struct Spot {
    pub(crate) x: u64,
    pub(crate) y: u64,
    ghost x_in_range: { x ≤ 200000000000 },
    ghost y_in_range: { y ≤ 200000000000 },
}

/// A closed quadrant about the centre of an arc.
#[derive(Clone, Copy)]
pub(crate) struct Quadrant {
    centre: Point2,
    /// Whether it is above the centre along u.
    above_in_u: bool,
    /// Whether it is above the centre along v.
    above_in_v: bool,
    /// Whether the arc enters it from the axis of u.
    from_u: bool,
}

/// A box in the coordinates of a quadrant: x and y are along the axes of spots, and coordinates
/// rise away from the centre.
#[derive(Clone, Copy)]
pub(crate) struct Sight {
    pub(crate) x: Span,
    pub(crate) y: Span,
    pub(crate) height: Span,
}

/// Returns how much a coordinate is above another.
fn rise(from: Nm, to: Nm) -> i64
    ensures { unsigned_abs result ≤ 200000000000 }
{
    to.nanometres() - from.nanometres()
}

/// Returns whether a distance along an axis doesn't lead to the other side of the centre.
fn is_on_side(above: bool, way: i64) -> bool {
    if above { way >= 0 } else { way <= 0 }
}

/// Returns the coordinate at a distance from another, if it is a length.
fn at_distance(from: Nm, above: bool, distance: u64) -> Option<Nm>
    requires { distance ≤ 200000000000 }
{
    let distance = i128::from(distance);
    let way = if above { distance } else { -distance };
    Nm::from_nanometres(i128::from(from.nanometres()) + way).ok()
}

impl Spot {
    /// Returns whether the turn round the centre from here to another spot of the quadrant leads
    /// forward.
    pub(crate) fn is_before(&self, other: &Spot) -> bool {
        let ahead = u128::from(self.x) * u128::from(other.y);
        let afterwards = u128::from(self.y) * u128::from(other.x);
        afterwards < ahead
    }
}

impl Quadrant {
    /// Returns the quadrant through which the arc passes from a point on. If the point is on an
    /// axis, it is the next one.
    pub(crate) fn ahead_of(arc: &Arc, point: &Point2) -> Quadrant {
        let centre = arc.centre();
        let u = rise(centre.u, point.u);
        let v = rise(centre.v, point.v);
        // A clockwise arc is mirrored.
        let mirrored = arc.turn() == Turn::Clockwise;
        let seen = if mirrored { -v } else { v };
        let (above_in_u, above, from_u) = if 0 < u && 0 <= seen {
            (true, true, true)
        } else if 0 < seen && u <= 0 {
            (false, true, false)
        } else if u < 0 && seen <= 0 {
            (false, false, true)
        } else {
            (true, false, false)
        };
        Quadrant {
            centre,
            above_in_u,
            above_in_v: above != mirrored,
            from_u,
        }
    }

    /// Returns a box in the quadrant's coordinates, for an arc in a plane.
    pub(crate) fn sight_of(&self, plane: Plane, block: &Block) -> Sight {
        let (u, v, height) = block.in_plane(plane);
        let (u, v) = (u.seen(self.above_in_u), v.seen(self.above_in_v));
        let (x, y) = if self.from_u { (u, v) } else { (v, u) };
        Sight { x, y, height }
    }

    /// Returns the centre's coordinates along x and y, in the quadrant's directions.
    pub(crate) fn centre_seen(&self) -> (i64, i64)
        ensures x { unsigned_abs result.0 ≤ 100000000000 }
        ensures y { unsigned_abs result.1 ≤ 100000000000 }
    {
        let (u, v) = (self.centre.u.nanometres(), self.centre.v.nanometres());
        let u = if self.above_in_u { u } else { -u };
        let v = if self.above_in_v { v } else { -v };
        if self.from_u { (u, v) } else { (v, u) }
    }

    /// Returns a point's spot, if it is in the quadrant.
    pub(crate) fn spot_of(&self, point: &Point2) -> Option<Spot> {
        let u = rise(self.centre.u, point.u);
        let v = rise(self.centre.v, point.v);
        if !is_on_side(self.above_in_u, u) || !is_on_side(self.above_in_v, v) {
            return None;
        }
        let (u, v) = (u.unsigned_abs(), v.unsigned_abs());
        let (x, y) = if self.from_u { (u, v) } else { (v, u) };
        Some(Spot { x, y })
    }

    /// Returns the point of a spot, if its coordinates are lengths.
    pub(crate) fn point_at(&self, spot: &Spot) -> Option<Point2> {
        let (u, v) = if self.from_u {
            (spot.x, spot.y)
        } else {
            (spot.y, spot.x)
        };
        Some(Point2 {
            u: at_distance(self.centre.u, self.above_in_u, u)?,
            v: at_distance(self.centre.v, self.above_in_v, v)?,
        })
    }
}
