ghost use Rattle.std.specs.Prelude.{◌≡◌, ◌-◌, ◌^◌, ◌≤◌, ◌≤ℤ◌, unsigned_abs};
ghost use Rattle.std.specs.Int.{int_min, int_max};
ghost use Rattle.ngc_fixed_length.specs.Length.{IsStep};

use crate::arc::Arc;
use crate::extent::{GridRange, PlaneAxis, Span};
use crate::lengths::moved;
use ngc_fixed_length::{GridBox, Nm, root_ceil, root_floor};

impl Arc {
    ghost use Rattle.ngc_arc_geometry.specs.Axes.{along};
    ghost use Rattle.ngc_arc_geometry.specs.Shape.{start_of};
    ghost use Rattle.ngc_arc_geometry.specs.Radii.{inner_radius, outer_radius};
    ghost use Rattle.ngc_arc_geometry.specs.Swept.{margin, least, greatest, other_points, low_at};
    ghost use Rattle.ngc_arc_geometry.specs.Swept.{high_at, start_height, end_height, swept_box};

    /// Returns the difference of the rounded radii at start and end, in nanometres.
    fn radius_difference(&self) -> u64
        ensures value { result ≡ outer_radius self.now - inner_radius self.now }
        ensures bound { result ≤ 2000020000 }
    {
        let radii = self.squared_radii();
        root_ceil(radii.greater) - root_floor(radii.lesser)
    }

    /// Returns how far the arc's box extends beyond its points in the plane: two steps and the
    /// difference of the radii.
    ///
    /// The step is from 500 to 50,000 nm.
    pub fn margin(&self, step: Nm) -> Nm
        requires { IsStep step }
        ensures value { result ≡ margin step self.now }
        ensures least { step ≤ℤ result }
        ensures bound { unsigned_abs result ≤ 2000120000 }
    {
        moved(step, step.nanometres() + self.radius_difference() as i64)
    }

    /// Returns the span of the coordinates of the ends and the quadrant points along an axis of the
    /// plane.
    fn span_along(&self, axis: PlaneAxis) -> Span
        ensures low { result.low ≡ least (along axis) (start_of self.now) (other_points self.now) }
        ensures high { result.high ≡ greatest (along axis) (start_of self.now)
            (other_points self.now) }
        ensures low_bound { unsigned_abs result.low ≤ 10 ^ 11 }
        ensures high_bound { unsigned_abs result.high ≤ 10 ^ 11 }
    {
        let start = axis.along(&self.start_in_plane());
        let end = axis.along(&self.end_in_plane());
        let extremes = self.extremes();
        Span {
            low: axis.least(start.min(end), extremes.as_slice()),
            high: axis.greatest(start.max(end), extremes.as_slice()),
        }
    }

    /// Returns the grid points along an axis of the plane.
    fn range_along(&self, axis: PlaneAxis, step: Nm) -> GridRange
        requires { IsStep step }
        ensures low { result.low ≡ low_at step self.now (along axis) }
        ensures high { result.high ≡ high_at step self.now (along axis) }
    {
        let span = self.span_along(axis);
        GridRange::around(step, &span, self.margin(step).nanometres())
    }

    /// Returns the grid points along the third axis.
    pub(crate) fn height_range(&self, step: Nm) -> GridRange
        requires { IsStep step }
        ensures low { result.low ≡ int_min (start_height step self.now) (end_height step self.now) }
        ensures high { result.high ≡ int_max (start_height step self.now)
            (end_height step self.now) }
    {
        let start = self.start().height(self.plane()).to_grid(step);
        let end = self.end().height(self.plane()).to_grid(step);
        GridRange {
            low: start.min(end),
            high: start.max(end),
        }
    }

    /// Returns the box of grid points that contains all of the arc. In the plane it is the box of
    /// its ends and quadrant points, grown by the margin; on the third axis it extends from the
    /// grid point of one end to that of the other.
    ///
    /// The step is from 500 to 50,000 nm.
    pub fn swept_box(&self, step: Nm) -> GridBox
        requires { IsStep step }
        ensures { result ≡ swept_box step self.now }
    {
        let u = self.range_along(PlaneAxis::U, step);
        let v = self.range_along(PlaneAxis::V, step);
        let w = self.height_range(step);
        GridRange::in_space(self.plane(), &u, &v, &w)
    }
}
