ghost use Rattle.std.specs.Prelude.{◌≡◌, ◌*◌, ◌^◌, ◌<◌, ◌≤◌, unsigned_abs};

use crate::fault::ArcFault;
use crate::given::{Ends, Offsets, tolerance};
use crate::radii::{SquaredRadii, radius};
use crate::way::Vector2;
use ngc_fixed_length::{Nm, Plane, Point2, Point3, Turn, Units, root_ceil, root_floor};
use std::marker::Model;

/// The square of the greatest radius, 2*10^9 nm.
const SQUARE_LIMIT: u128 = 4_000_000_000_000_000_000;

/// An arc in a plane about its centre. It is a helix if its ends differ in height.
///
/// The radii at start and end are above 0 and nearly equal. They are at most 2*10^9 nm, apart from
/// the rounding of the centre.
#[derive(Clone, Copy, PartialEq, Eq)]
pub struct Arc {
    plane: Plane,
    turn: Turn,
    start: Point3,
    end: Point3,
    centre: Point2,
}

impl Model for Arc {
    ghost use Rattle.ngc_arc_geometry.specs.Shape.{ArcShape};

    ghost Value = { ArcShape };

    ghost use Rattle.ngc_arc_geometry.specs.Radii.{IsArc};
    ghost use Rattle.ngc_arc_geometry.specs.Inside.{shape_of};

    ghost view = { shape_of };

    ghost invariant = { λ a. IsArc (shape_of a) };

    ghost inverse = { λ s. record {
      plane = s.plane;
      turn = s.turn;
      start = s.start;
      end = s.end;
      centre = s.centre;
    } };
}

impl Arc {
    ghost use Rattle.ngc_arc_geometry.specs.Shape.{IsNear};
    ghost use Rattle.ngc_arc_geometry.specs.Radii.{lo, hi, inner_radius, outer_radius};
    ghost use Rattle.ngc_arc_geometry.specs.Radii.{with_equal_radii, HasRadiiInRange, IsArc};
    ghost use Rattle.ngc_arc_geometry.specs.Centre.{IsEnds, arc_about, centre_format};
    ghost use Rattle.ngc_arc_geometry.specs.Centre.{radius_format};

    /// Returns the arc in centre format: I, J and K are the vector from its start to its centre
    /// (NISTIR 6556, 3.5.3.2). It is a full circle if its end lies in the direction of its start,
    /// as seen from the centre. Both ends lie within 90 metres of zero on each axis.
    ///
    /// Of several faults it returns the first in this order: 241 without an axis word of the plane,
    /// 242 without an offset, 246 for a radius of 0 or over 2*10^9 nm, 243 for radii that differ by
    /// more than 2,000 nm, or 5,080 nm in inches.
    pub fn centre_format(units: Units, ends: &Ends, offsets: &Offsets) -> Result<Arc, ArcFault>
        requires { IsEnds ends.now }
        ensures { result ≡ centre_format units ends.now offsets.now }
    {
        if !ends.has_axis_word {
            return Err(ArcFault::NoAxisWord);
        }
        if offsets.u.is_none() && offsets.v.is_none() {
            return Err(ArcFault::NoOffset);
        }
        let centre = offsets.centre(&ends.start_in_plane());
        let radii = SquaredRadii::about(&centre, &ends.start_in_plane(), &ends.end_in_plane());
        if radii.greater > SQUARE_LIMIT {
            return Err(ArcFault::RadiusOutOfRange);
        }
        Arc::with_equal_radii(ends, centre.point(), tolerance(units))
    }

    /// Returns the arc in radius format (NISTIR 6556, 3.5.3.1). It turns through at most half a
    /// circle if the radius is above 0, and through more if the radius is below 0, apart from the
    /// rounding of the centre to a nanometre. Both ends lie within 90 metres of zero on each axis.
    ///
    /// Of several faults it returns the first in this order: 241 without an axis word of the plane,
    /// 245 if the end equals the start in the plane, 246 for a radius of 0 or over 2*10^9 nm, 244
    /// if the radius is shorter than half the distance from start to end by more than 2,000 nm, or
    /// 5,080 nm in inches, 246 if the centre is rounded onto an end, 243.
    pub fn radius_format(units: Units, ends: &Ends, radius: Nm) -> Result<Arc, ArcFault>
        requires { IsEnds ends.now }
        ensures { result ≡ radius_format units ends.now radius }
    {
        if !ends.has_axis_word {
            return Err(ArcFault::NoAxisWord);
        }
        if ends.chord().square() == 0 {
            return Err(ArcFault::EndIsStart);
        }
        let size = u128::from(radius.nanometres().unsigned_abs());
        if size == 0 {
            return Err(ArcFault::RadiusOutOfRange);
        }
        if size * size > SQUARE_LIMIT {
            return Err(ArcFault::RadiusOutOfRange);
        }
        let centre = ends.radius_centre(radius, tolerance(units))?;
        Arc::with_equal_radii(ends, centre, tolerance(units))
    }

    /// Returns the arc about a centre, if its radii are above 0 and differ by at most the
    /// tolerance.
    fn with_equal_radii(ends: &Ends, centre: Point2, tolerance: u128) -> Result<Arc, ArcFault>
        requires ends { IsEnds ends.now }
        requires tolerance { tolerance ≤ 5080 }
        requires radii { HasRadiiInRange (arc_about ends.now centre) }
        ensures { result ≡ with_equal_radii tolerance (arc_about ends.now centre) }
    {
        let middle = Vector2::of(&centre);
        let start = ends.start_in_plane();
        let end = ends.end_in_plane();
        let radii = SquaredRadii::about(&middle, &start, &end);
        if radii.lesser == 0 {
            return Err(ArcFault::RadiusOutOfRange);
        }
        if !radii.are_within(tolerance) {
            return Err(ArcFault::RadiiDiffer {
                at_start: radius(&middle, &start),
                at_end: radius(&middle, &end),
            });
        }
        Ok(Arc {
            plane: ends.plane,
            turn: ends.turn,
            start: ends.start,
            end: ends.end,
            centre,
        })
    }

    /// Returns the plane in which the arc lies.
    pub fn plane(&self) -> Plane
        ensures { result ≡ self.now.plane }
    {
        self.plane
    }

    /// Returns the direction of turning, as seen from the positive end of the third axis.
    pub fn turn(&self) -> Turn
        ensures { result ≡ self.now.turn }
    {
        self.turn
    }

    /// Returns the start point.
    pub fn start(&self) -> Point3
        ensures value { result ≡ self.now.start }
        ensures near { IsNear result }
    {
        self.start
    }

    /// Returns the end point.
    pub fn end(&self) -> Point3
        ensures value { result ≡ self.now.end }
        ensures near { IsNear result }
    {
        self.end
    }

    /// Returns the centre in the plane, at most 93 metres from zero on each axis.
    pub fn centre(&self) -> Point2
        ensures value { result ≡ self.now.centre }
        ensures u { unsigned_abs result.u ≤ 93 * 10 ^ 9 }
        ensures v { unsigned_abs result.v ≤ 93 * 10 ^ 9 }
        ensures arc { IsArc self.now }
    {
        self.centre
    }

    /// Returns the squared distances of the ends from the centre.
    pub(crate) fn squared_radii(&self) -> SquaredRadii
        ensures lesser { result.lesser ≡ lo self.now }
        ensures greater { result.greater ≡ hi self.now }
        ensures some { 0 < result.lesser }
        ensures bound { result.greater ≤ 2000020000 * 2000020000 }
    {
        let Arc {
            plane,
            start,
            end,
            centre,
            ..
        } = self;
        SquaredRadii::about(
            &Vector2::of(centre),
            &start.in_plane(*plane),
            &end.in_plane(*plane),
        )
    }

    /// Returns the lesser of the radii at start and end, rounded down to a nanometre.
    pub fn inner_radius(&self) -> u64
        ensures value { result ≡ inner_radius self.now }
        ensures bound { result ≤ 2000020000 }
    {
        root_floor(self.squared_radii().lesser)
    }

    /// Returns the greater of the radii at start and end, rounded up to a nanometre. It is at most
    /// 2,000,020,000 nm.
    pub fn outer_radius(&self) -> u64
        ensures value { result ≡ outer_radius self.now }
        ensures bound { result ≤ 2000020000 }
    {
        root_ceil(self.squared_radii().greater)
    }
}
