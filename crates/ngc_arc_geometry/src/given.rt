ghost use Rattle.std.specs.Prelude.{◌≡◌, ◌≤◌, unsigned_abs};
ghost use Rattle.ngc_arc_geometry.specs.Tolerance.{tolerance as tolerance_in};

use crate::way::Vector2;
use ngc_fixed_length::{Nm, Plane, Point2, Point3, Turn, Units};

/// The lengths of the I, J and K words that belong to the plane, along its axes u and v.
#[derive(Clone, Copy)]
pub struct Offsets {
    pub u: Option<Nm>,
    pub v: Option<Nm>,
}

/// The input that both formats of an arc share: plane, direction of turning, ends, and whether the
/// line has an axis word of the plane.
#[derive(Clone, Copy)]
pub struct Ends {
    pub plane: Plane,
    pub turn: Turn,
    pub start: Point3,
    pub end: Point3,
    pub has_axis_word: bool,
}

/// Returns the greatest difference of the radii at start and end, in nanometres.
pub(crate) fn tolerance(units: Units) -> u128
    ensures value { result ≡ tolerance_in units }
    ensures bound { result ≤ 5080 }
{
    match units {
        Units::Millimetres => 2000,
        Units::Inches => 5080,
    }
}

impl Ends {
    ghost use Rattle.ngc_arc_geometry.specs.Centre.{start_in, end_in};

    /// Returns the start in the plane.
    pub(crate) fn start_in_plane(&self) -> Point2
        ensures { result ≡ start_in self.now }
    {
        self.start.in_plane(self.plane)
    }

    /// Returns the end in the plane.
    pub(crate) fn end_in_plane(&self) -> Point2
        ensures { result ≡ end_in self.now }
    {
        self.end.in_plane(self.plane)
    }
}

impl Offsets {
    ghost use Rattle.ngc_fixed_length.specs.Places.{shifted};
    ghost use Rattle.ngc_arc_geometry.specs.Centre.{offset_point};

    /// Returns the centre of an arc with this start; a missing offset is 0.
    pub(crate) fn centre(&self, start: &Point2) -> Vector2
        ensures value { result ≡ shifted start.now (offset_point self.now) }
        ensures u { unsigned_abs result.u ≤ 200000000000 }
        ensures v { unsigned_abs result.v ≤ 200000000000 }
    {
        Vector2::offset(
            start,
            self.u.unwrap_or(Nm::zero()),
            self.v.unwrap_or(Nm::zero()),
        )
    }
}
