//! The box of an arc at a shift of the origin.
ghost use Rattle.std.specs.Prelude.{◌≡◌, ◌≤◌, ◌^◌, ◌+ℤ◌, ◌-ℤ◌, ◌*ℤ◌, unsigned_abs, fold, map, true};
ghost use Rattle.std.specs.Int.{int_min, int_max};
ghost use Rattle.ngc_fixed_length.specs.Boxes.{grid_above, grid_below};
ghost use Rattle.ngc_fixed_length.specs.Grid.{grid};
ghost use Rattle.ngc_fixed_length.specs.Length.{IsStep};
ghost use Rattle.ngc_arc_geometry.specs.Sector.{extremes};
ghost use Rattle.ngc_arc_geometry.specs.Swept.{grid_at as point_at};
ghost use Rattle.ngc_place.specs.Shifts.{SHIFT_LIMIT, AreShifts, IsShift};
ghost use Rattle.ngc_place.specs.Shifts.{shifted as point_shifted};
ghost use Rattle.ngc_place.specs.Inside.{SHIFTED_LIMIT};
ghost use Rattle.ngc_place.specs.Inside.{along, steps_along as steps_of_shift, step_height};
ghost use Rattle.ngc_place.specs.Inside.{least_of, greatest_of, margin_of, first_at, last_at};
ghost use Rattle.ngc_place.specs.Inside.{low_corner, high_corner, least_in, greatest_in};
ghost use Rattle.ngc_place.specs.Inside.{IsReach};

use crate::grid::{first_grid_point, last_grid_point};
use crate::spots::{shifted, to_grid};
use ngc_arc_geometry::Arc;
use ngc_fixed_length::{GridBox, Nm, Plane, Point2, Point3, StepPos, nanometres_at};

/// An axis of a plane.
#[derive(Clone, Copy)]
pub(crate) enum PlaneAxis {
    U,
    V,
}

impl PlaneAxis {
    /// Returns a point's coordinate along this axis, in nanometres.
    fn along(self, point: &Point2) -> i64
        ensures value { result ≡ along self point.now }
        ensures bound { unsigned_abs result ≤ 10 ^ 11 }
    {
        match self {
            PlaneAxis::U => point.u.nanometres(),
            PlaneAxis::V => point.v.nanometres(),
        }
    }

    /// Returns the least of a number and the points' coordinates.
    fn least(self, first: i64, points: &[Point2]) -> i64
        requires { unsigned_abs first ≤ 10 ^ 11 }
        ensures value { result ≡ fold int_min first (map (along self) points.now) }
        ensures bound { unsigned_abs result ≤ 10 ^ 11 }
    {
        let mut least = first;
        for point in points {
            least = least.min(self.along(point));
        }
        least
    }

    /// Returns the greatest of a number and the points' coordinates.
    fn greatest(self, first: i64, points: &[Point2]) -> i64
        requires { unsigned_abs first ≤ 10 ^ 11 }
        ensures value { result ≡ fold int_max first (map (along self) points.now) }
        ensures bound { unsigned_abs result ≤ 10 ^ 11 }
    {
        let mut greatest = first;
        for point in points {
            greatest = greatest.max(self.along(point));
        }
        greatest
    }

    /// Returns a shift along this axis of a plane, in steps.
    fn steps(self, plane: Plane, by: &StepPos) -> i32
        requires { IsShift by.now }
        ensures value { result ≡ steps_of_shift plane self by.now }
        ensures bound { unsigned_abs result ≤ SHIFT_LIMIT }
    {
        match self {
            PlaneAxis::U => match plane {
                Plane::XY => by.x,
                Plane::ZX => by.z,
                Plane::YZ => by.y,
            },
            PlaneAxis::V => match plane {
                Plane::XY => by.y,
                Plane::ZX => by.x,
                Plane::YZ => by.z,
            },
        }
    }
}

/// Returns the least coordinate of an arc's ends and quadrant points along an axis of its plane.
#[tactic(none)]
fn least_along(axis: PlaneAxis, arc: &Arc, quadrant_points: &[Point2]) -> i64
    requires { quadrant_points.now ≡ extremes arc.now }
    ensures value { result ≡ least_of axis arc.now }
    ensures bound { unsigned_abs result ≤ 10 ^ 11 }
{
    let start = axis.along(&arc.start().in_plane(arc.plane()));
    let end = axis.along(&arc.end().in_plane(arc.plane()));
    axis.least(start.min(end), quadrant_points)
}

/// Returns the greatest coordinate of an arc's ends and quadrant points along an axis of its plane.
#[tactic(none)]
fn greatest_along(axis: PlaneAxis, arc: &Arc, quadrant_points: &[Point2]) -> i64
    requires { quadrant_points.now ≡ extremes arc.now }
    ensures value { result ≡ greatest_of axis arc.now }
    ensures bound { unsigned_abs result ≤ 10 ^ 11 }
{
    let start = axis.along(&arc.start().in_plane(arc.plane()));
    let end = axis.along(&arc.end().in_plane(arc.plane()));
    axis.greatest(start.max(end), quadrant_points)
}

/// Returns an arc's margin, in nanometres.
#[tactic(none)]
fn margin(step: Nm, arc: &Arc) -> i64
    requires { IsStep step }
    ensures value { result ≡ margin_of step arc.now }
    ensures bound { unsigned_abs result ≤ 10 ^ 11 }
{
    arc.margin(step).nanometres()
}

/// What an arc reaches, in nanometres: the least and the greatest coordinate of its ends and quadrant
/// points along the axes of its plane, and its margin.
#[derive(Clone, Copy)]
pub(crate) struct Reach {
    least_u: i64,
    greatest_u: i64,
    least_v: i64,
    greatest_v: i64,
    margin: i64,
}

impl Reach {
    /// Returns what an arc reaches.
    #[tactic(none)]
    fn of(step: Nm, arc: &Arc) -> Reach
        requires { IsStep step }
        ensures { IsReach step arc.now result }
    {
        let extremes = arc.extremes();
        let points = extremes.as_slice();
        Reach {
            least_u: least_along(PlaneAxis::U, arc, points),
            greatest_u: greatest_along(PlaneAxis::U, arc, points),
            least_v: least_along(PlaneAxis::V, arc, points),
            greatest_v: greatest_along(PlaneAxis::V, arc, points),
            margin: margin(step, arc),
        }
    }

    /// Returns the least coordinate along an axis.
    fn least(&self, axis: PlaneAxis) -> i64
        ensures { result ≡ least_in axis self.now }
    {
        match axis {
            PlaneAxis::U => self.least_u,
            PlaneAxis::V => self.least_v,
        }
    }

    /// Returns the greatest coordinate along an axis.
    fn greatest(&self, axis: PlaneAxis) -> i64
        ensures { result ≡ greatest_in axis self.now }
    {
        match axis {
            PlaneAxis::U => self.greatest_u,
            PlaneAxis::V => self.greatest_v,
        }
    }
}

/// Returns a coordinate plus this number of steps.
fn plus_steps(step: Nm, coordinate: i64, steps: i32) -> i64
    requires step { IsStep step }
    requires coordinate { unsigned_abs coordinate ≤ 10 ^ 11 }
    requires steps { unsigned_abs steps ≤ SHIFT_LIMIT }
    ensures value { result ≡ coordinate +ℤ (steps *ℤ step) }
    ensures bound { unsigned_abs result ≤ SHIFTED_LIMIT }
{
    coordinate + nanometres_at(step, steps)
}

/// Returns the first grid point that isn't below a coordinate lowered by a margin, in steps.
fn first_within(step: Nm, coordinate: i64, margin: i64) -> i32
    requires step { IsStep step }
    requires coordinate { unsigned_abs coordinate ≤ SHIFTED_LIMIT }
    requires margin { unsigned_abs margin ≤ 10 ^ 11 }
    ensures { result ≡ grid_above step (coordinate -ℤ margin) }
{
    first_grid_point(step.nanometres(), coordinate - margin)
}

/// Returns the last grid point that isn't above a coordinate raised by a margin, in steps.
fn last_within(step: Nm, coordinate: i64, margin: i64) -> i32
    requires step { IsStep step }
    requires coordinate { unsigned_abs coordinate ≤ SHIFTED_LIMIT }
    requires margin { unsigned_abs margin ≤ 10 ^ 11 }
    ensures { result ≡ grid_below step (coordinate +ℤ margin) }
{
    last_grid_point(step.nanometres(), coordinate + margin)
}

/// Returns the first grid point of the box of a shifted arc along an axis of its plane, in steps.
fn first_along(step: Nm, by: &StepPos, axis: PlaneAxis, arc: &Arc, reach: &Reach) -> i32
    requires step { IsStep step }
    requires by { IsShift by.now }
    requires reach { IsReach step arc.now reach.now }
    ensures { result ≡ first_at step by.now axis arc.now }
{
    let least = plus_steps(step, reach.least(axis), axis.steps(arc.plane(), by));
    first_within(step, least, reach.margin)
}

/// Returns the last grid point of the box of a shifted arc along an axis of its plane, in steps.
fn last_along(step: Nm, by: &StepPos, axis: PlaneAxis, arc: &Arc, reach: &Reach) -> i32
    requires step { IsStep step }
    requires by { IsShift by.now }
    requires reach { IsReach step arc.now reach.now }
    ensures { result ≡ last_at step by.now axis arc.now }
{
    let greatest = plus_steps(step, reach.greatest(axis), axis.steps(arc.plane(), by));
    last_within(step, greatest, reach.margin)
}

/// Returns the coordinate of a grid point on the axis perpendicular to a plane.
fn grid_height(plane: Plane, point: &StepPos) -> i32
    ensures { result ≡ step_height plane point.now }
{
    match plane {
        Plane::XY => point.z,
        Plane::ZX => point.y,
        Plane::YZ => point.x,
    }
}

/// Returns the height of the grid point nearest to a shifted point, above a plane, in steps.
fn shifted_height(step: Nm, by: &StepPos, plane: Plane, point: &Point3) -> i32
    requires step { IsStep step }
    requires by { IsShift by.now }
    ensures { result ≡ step_height plane (grid step (point_shifted step by.now true point.now)) }
{
    grid_height(plane, &to_grid(step, &shifted(step, by, true, point)))
}

/// Returns the grid point with these coordinates along the axes of a plane and the third axis.
fn grid_at(plane: Plane, u: i32, v: i32, w: i32) -> StepPos
    ensures { result ≡ point_at plane u v w }
{
    let (x, y, z) = match plane {
        Plane::XY => (u, v, w),
        Plane::ZX => (v, w, u),
        Plane::YZ => (w, u, v),
    };
    StepPos { x, y, z }
}

/// Returns the lowest corner of the box of an arc that moves with the origin.
fn low_moved(step: Nm, by: &StepPos, arc: &Arc, reach: &Reach) -> StepPos
    requires step { IsStep step }
    requires by { IsShift by.now }
    requires reach { IsReach step arc.now reach.now }
    ensures { result ≡ low_corner step by.now true arc.now }
{
    let start = shifted_height(step, by, arc.plane(), &arc.start());
    let end = shifted_height(step, by, arc.plane(), &arc.end());
    let u = first_along(step, by, PlaneAxis::U, arc, reach);
    let v = first_along(step, by, PlaneAxis::V, arc, reach);
    grid_at(arc.plane(), u, v, start.min(end))
}

/// Returns the highest corner of the box of an arc that moves with the origin.
fn high_moved(step: Nm, by: &StepPos, arc: &Arc, reach: &Reach) -> StepPos
    requires step { IsStep step }
    requires by { IsShift by.now }
    requires reach { IsReach step arc.now reach.now }
    ensures { result ≡ high_corner step by.now true arc.now }
{
    let start = shifted_height(step, by, arc.plane(), &arc.start());
    let end = shifted_height(step, by, arc.plane(), &arc.end());
    let u = last_along(step, by, PlaneAxis::U, arc, reach);
    let v = last_along(step, by, PlaneAxis::V, arc, reach);
    grid_at(arc.plane(), u, v, start.max(end))
}

/// Returns the box of an arc that moves with the origin, from its lowest corner at the lowest shift
/// to its highest at the highest.
#[tactic(none)]
fn moved_box(step: Nm, shifts: &GridBox, arc: &Arc) -> GridBox
    requires step { IsStep step }
    requires shifts { AreShifts shifts.now }
    ensures low { result.low ≡ low_corner step shifts.now.low true arc.now }
    ensures high { result.high ≡ high_corner step shifts.now.high true arc.now }
{
    let reach = Reach::of(step, arc);
    GridBox {
        low: low_moved(step, &shifts.low, arc, &reach),
        high: high_moved(step, &shifts.high, arc, &reach),
    }
}

/// Returns the box of an arc that moves with the origin or not, from its lowest corner at the
/// lowest shift to its highest at the highest.
#[tactic(none)]
pub(crate) fn arc_box(step: Nm, shifts: &GridBox, moves: bool, arc: &Arc) -> GridBox
    requires step { IsStep step }
    requires shifts { AreShifts shifts.now }
    ensures low { result.low ≡ low_corner step shifts.now.low moves arc.now }
    ensures high { result.high ≡ high_corner step shifts.now.high moves arc.now }
{
    if moves {
        moved_box(step, shifts, arc)
    } else {
        arc.swept_box(step)
    }
}
