ghost use Rattle.std.specs.Prelude.{◌≡◌, ◌+◌, ◌*◌, ◌^◌, ◌≤◌, min, max, unsigned_abs};
ghost use Rattle.ngc_fixed_length.specs.Roots.{whole_root};
ghost use Rattle.ngc_arc_geometry.specs.Radii.{squared_distance};

use crate::way::Vector2;
use ngc_fixed_length::{Point2, root_floor};

/// The squared distances of an arc's ends from its centre, in square nanometres.
#[derive(Clone, Copy)]
pub(crate) struct SquaredRadii {
    pub(crate) lesser: u128,
    pub(crate) greater: u128,
}

/// Returns the distance of a point from a centre, in nanometres, rounded down.
pub(crate) fn radius(centre: &Vector2, point: &Point2) -> u64
    requires u { unsigned_abs centre.now.u ≤ 200000000000 }
    requires v { unsigned_abs centre.now.v ≤ 200000000000 }
    ensures { result ≡ whole_root (squared_distance centre.now point.now) }
{
    let way = centre.to(point);
    root_floor(way.dot(&way).unsigned_abs())
}

impl SquaredRadii {
    ghost use Rattle.ngc_arc_geometry.specs.Radii.{roots_within};

    /// Returns the squared radii of an arc from start to end about the centre.
    pub(crate) fn about(centre: &Vector2, start: &Point2, end: &Point2) -> SquaredRadii
        requires u { unsigned_abs centre.now.u ≤ 200000000000 }
        requires v { unsigned_abs centre.now.v ≤ 200000000000 }
        ensures lesser { result.lesser ≡ min (squared_distance centre.now start.now)
            (squared_distance centre.now end.now) }
        ensures greater { result.greater ≡ max (squared_distance centre.now start.now)
            (squared_distance centre.now end.now) }
    {
        let at_start = centre.to(start).square();
        let at_end = centre.to(end).square();
        SquaredRadii {
            lesser: at_start.min(at_end),
            greater: at_start.max(at_end),
        }
    }

    /// Returns whether the radii differ by at most the tolerance, in nanometres. It compares only
    /// squares.
    pub(crate) fn are_within(&self, tolerance: u128) -> bool
        requires tolerance { tolerance ≤ 5080 }
        requires sum { self.now.lesser + self.now.greater ≤ 9 * 10 ^ 18 }
        ensures { result ≡ roots_within tolerance self.now.lesser self.now.greater }
    {
        let sum = self.lesser + self.greater;
        let square = tolerance * tolerance;
        sum <= square || (sum - square) * (sum - square) <= 4 * self.lesser * self.greater
    }
}
