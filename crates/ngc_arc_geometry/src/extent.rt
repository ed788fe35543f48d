ghost use Rattle.std.specs.Prelude.{◌≡◌, ◌*◌, ◌^◌, ◌<◌, ◌≤◌, pos, ◌≤ℤ◌, ◌+ℤ◌, ◌*ℤ◌, ◌-ℤ◌};
ghost use Rattle.std.specs.Prelude.{unsigned_abs, fold, map, IsTrue};
ghost use Rattle.std.specs.Int.{int_min, int_max};
ghost use Rattle.ngc_fixed_length.specs.Boxes.{grid_above, grid_below, is_below};
ghost use Rattle.ngc_fixed_length.specs.Length.{IsStep};

use ngc_fixed_length::{GridBox, Nm, Plane, Point2, StepPos};

/// A span of coordinates from `low` to `high`, in nanometres.
#[derive(Clone, Copy)]
pub(crate) struct Span {
    pub(crate) low: i64,
    pub(crate) high: i64,
    ghost ordered: { low ≤ℤ high },
}

impl Span {
    /// Returns the span from the lesser of two coordinates to the greater.
    pub(crate) fn between(first: i64, second: i64) -> Span
        ensures low { result.low ≡ int_min first second }
        ensures high { result.high ≡ int_max first second }
    {
        Span {
            low: first.min(second),
            high: first.max(second),
        }
    }
}

/// The grid points from `low` to `high`, both included, in steps.
#[derive(Clone, Copy)]
pub(crate) struct GridRange {
    pub(crate) low: i32,
    pub(crate) high: i32,
    ghost ordered: { low ≤ℤ high },
}

impl GridRange {
    /// Returns the grid points between two numbers of nanometres that are at least two steps apart.
    pub(crate) fn inside(step: Nm, low: i64, high: i64) -> GridRange
        requires step { IsStep step }
        requires low { unsigned_abs low ≤ 11 * 10 ^ 10 }
        requires high { unsigned_abs high ≤ 11 * 10 ^ 10 }
        requires apart { (low +ℤ step +ℤ step) ≤ℤ high }
        ensures low { result.low ≡ grid_above step low }
        ensures high { result.high ≡ grid_below step high }
    {
        GridRange {
            low: first_grid_point(step, low),
            high: last_grid_point(step, high),
        }
    }
}

impl GridRange {
    ghost use Rattle.ngc_arc_geometry.specs.Swept.{grid_at};

    /// Returns the grid points of a span that is grown on both sides by a margin of at least a
    /// step.
    pub(crate) fn around(step: Nm, span: &Span, margin: i64) -> GridRange
        requires step { IsStep step }
        requires low { unsigned_abs span.now.low ≤ 10 ^ 11 }
        requires high { unsigned_abs span.now.high ≤ 10 ^ 11 }
        requires least { step ≤ℤ margin }
        requires greatest { unsigned_abs margin ≤ 2000120000 }
        ensures low { result.low ≡ grid_above step (span.now.low -ℤ margin) }
        ensures high { result.high ≡ grid_below step (span.now.high +ℤ margin) }
    {
        GridRange::inside(step, span.low - margin, span.high + margin)
    }

    /// Returns the box of three ranges: along the axes u and v of a plane, and along the third
    /// axis.
    pub(crate) fn in_space(plane: Plane, u: &GridRange, v: &GridRange, w: &GridRange) -> GridBox
        ensures low { result.low ≡ grid_at plane u.now.low v.now.low w.now.low }
        ensures high { result.high ≡ grid_at plane u.now.high v.now.high w.now.high }
        ensures ordered { IsTrue (is_below result.low result.high) }
    {
        let (x, y, z) = match plane {
            Plane::XY => (u, v, w),
            Plane::ZX => (v, w, u),
            Plane::YZ => (w, u, v),
        };
        GridBox {
            low: StepPos {
                x: x.low,
                y: y.low,
                z: z.low,
            },
            high: StepPos {
                x: x.high,
                y: y.high,
                z: z.high,
            },
        }
    }
}

/// An axis of a plane.
#[derive(Clone, Copy)]
pub(crate) enum PlaneAxis {
    U,
    V,
}

impl PlaneAxis {
    ghost use Rattle.ngc_arc_geometry.specs.Axes.{along};

    /// Returns a point's coordinate along this axis, in nanometres.
    pub(crate) fn along(self, point: &Point2) -> i64
        ensures value { result ≡ along self point.now }
        ensures bound { unsigned_abs result ≤ 10 ^ 11 }
    {
        match self {
            PlaneAxis::U => point.u.nanometres(),
            PlaneAxis::V => point.v.nanometres(),
        }
    }

    /// Returns the least of `first` and the points' coordinates.
    pub(crate) fn least(self, first: i64, points: &[Point2]) -> i64
        requires { unsigned_abs first ≤ 10 ^ 11 }
        ensures value { result ≡ fold int_min first (map (along self) points.now) }
        ensures bound { unsigned_abs result ≤ 10 ^ 11 }
        ensures below { result ≤ℤ first }
    {
        let mut least = first;
        for point in points {
            least = least.min(self.along(point));
        }
        least
    }

    /// Returns the greatest of `first` and the points' coordinates.
    pub(crate) fn greatest(self, first: i64, points: &[Point2]) -> i64
        requires { unsigned_abs first ≤ 10 ^ 11 }
        ensures value { result ≡ fold int_max first (map (along self) points.now) }
        ensures bound { unsigned_abs result ≤ 10 ^ 11 }
        ensures above { first ≤ℤ result }
    {
        let mut greatest = first;
        for point in points {
            greatest = greatest.max(self.along(point));
        }
        greatest
    }
}

/// Returns the first grid point that is not below a number of nanometres, in steps.
fn first_grid_point(step: Nm, nanometres: i64) -> i32
    requires step { IsStep step }
    requires bound { unsigned_abs nanometres ≤ 11 * 10 ^ 10 }
    ensures value { result ≡ grid_above step nanometres }
    ensures near { ((result *ℤ step) -ℤ nanometres) ≤ℤ step }
{
    -(-nanometres).div_euclid(step.nanometres()) as i32
}

/// Returns the last grid point that is not above a number of nanometres, in steps.
fn last_grid_point(step: Nm, nanometres: i64) -> i32
    requires step { IsStep step }
    requires bound { unsigned_abs nanometres ≤ 11 * 10 ^ 10 }
    ensures value { result ≡ grid_below step nanometres }
    ensures near { (nanometres -ℤ (result *ℤ step)) ≤ℤ step }
{
    nanometres.div_euclid(step.nanometres()) as i32
}
