//! The limits of a piece of an arc: travel limits and fixtures, in the coordinates of a quadrant
//! about its centre.
ghost use Rattle.std.specs.Prelude.{◌≤◌, unsigned_abs};
ghost use Rattle.ngc_fixed_length.specs.Length.{IsStep};

use ngc_fixed_length::{GridBox, Nm, Plane, Point3, nanometres_at};
use ngc_machine_files::{Fixture, Part};

/// A span of coordinates, in nanometres.
#[derive(Clone, Copy)]
pub(crate) struct Span {
    pub(crate) low: i64,
    pub(crate) high: i64,
    ghost low_in_range: { unsigned_abs low ≤ 200000000000000 },
    ghost high_in_range: { unsigned_abs high ≤ 200000000000000 },
}

/// A box, in nanometres.
#[derive(Clone, Copy)]
pub(crate) struct Block {
    pub(crate) x: Span,
    pub(crate) y: Span,
    pub(crate) z: Span,
}

impl Span {
    /// Returns the span between two coordinates in steps.
    fn of_steps(step: Nm, low: i32, high: i32) -> Span
        requires { IsStep step }
    {
        Span {
            low: nanometres_at(step, low),
            high: nanometres_at(step, high),
        }
    }

    /// Returns the span between two lengths, extended by `below` and `above`.
    fn around(low: Nm, high: Nm, below: i64, above: i64) -> Span
        requires below { unsigned_abs below ≤ 600000000000 }
        requires above { unsigned_abs above ≤ 600000000000 }
    {
        Span {
            low: low.nanometres() - below,
            high: high.nanometres() + above,
        }
    }

    /// Returns the same span along an axis that points the other way.
    fn mirrored(&self) -> Span {
        Span {
            low: -self.high,
            high: -self.low,
        }
    }

    /// Returns the span, mirrored unless `upright`.
    pub(crate) fn seen(&self, upright: bool) -> Span {
        if upright { *self } else { self.mirrored() }
    }

    /// Returns whether two spans have more than an end in common.
    pub(crate) fn overlaps(&self, other: &Span) -> bool {
        self.low < other.high && other.low < self.high
    }
}

impl Block {
    /// Returns the block between two corners.
    pub(crate) fn between(low: &Point3, high: &Point3) -> Block {
        Block {
            x: Span::around(low.x, high.x, 0, 0),
            y: Span::around(low.y, high.y, 0, 0),
            z: Span::around(low.z, high.z, 0, 0),
        }
    }

    /// Returns the block of a box of grid points.
    pub(crate) fn of_grid(step: Nm, bounds: &GridBox) -> Block
        requires { IsStep step }
    {
        Block {
            x: Span::of_steps(step, bounds.low.x, bounds.high.x),
            y: Span::of_steps(step, bounds.low.y, bounds.high.y),
            z: Span::of_steps(step, bounds.low.z, bounds.high.z),
        }
    }

    /// Returns the block in which the spindle nose may not be, because a part of its tool would
    /// meet a fixture. The part's foot is at the height `foot` above that point.
    pub(crate) fn kept_from(fixture: &Fixture, part: &Part, foot: i64) -> Block
        requires { unsigned_abs foot ≤ 500000000000 }
    {
        let Fixture { low, high, .. } = fixture;
        let radius = part.radius.nanometres();
        let top = foot + part.length.nanometres();
        Block {
            x: Span::around(low.x, high.x, radius, radius),
            y: Span::around(low.y, high.y, radius, radius),
            z: Span::around(low.z, high.z, top, -foot),
        }
    }

    /// Returns the spans along the axes of a plane, and along the third one.
    pub(crate) fn in_plane(&self, plane: Plane) -> (Span, Span, Span) {
        match plane {
            Plane::XY => (self.x, self.y, self.z),
            Plane::ZX => (self.z, self.x, self.y),
            Plane::YZ => (self.y, self.z, self.x),
        }
    }
}
