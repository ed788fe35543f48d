ghost use Rattle.std.specs.Prelude.{◌≡◌, ◌*◌, ◌^◌, ◌<◌, ◌≤◌, unsigned_abs, IfOk};

use crate::chord::{aside, side, signed_aside};
use crate::fault::ArcFault;
use crate::given::Ends;
use crate::lengths::{halfway, moved};
use crate::way::Vector2;
use ngc_fixed_length::{Nm, Point2};

impl Ends {
    ghost use Rattle.ngc_fixed_length.specs.Places.{shifted};
    ghost use Rattle.ngc_arc_geometry.specs.Chord.{side as side_of};
    ghost use Rattle.ngc_arc_geometry.specs.Aside.{IsAside};
    ghost use Rattle.ngc_arc_geometry.specs.Radii.{HasRadiiInRange};
    ghost use Rattle.ngc_arc_geometry.specs.Centre.{IsEnds, arc_about, chord, chord_square, middle};
    ghost use Rattle.ngc_arc_geometry.specs.Centre.{aside_point, radius_centre};

    /// Returns the vector from start to end in the plane.
    pub(crate) fn chord(&self) -> Vector2
        ensures { result ≡ chord self.now }
    {
        Vector2::between(&self.start_in_plane(), &self.end_in_plane())
    }

    /// Returns the middle of the chord, rounded down on each axis.
    fn middle(&self) -> Point2
        ensures { result ≡ middle self.now }
    {
        let start = self.start_in_plane();
        let end = self.end_in_plane();
        Point2 {
            u: halfway(start.u, end.u),
            v: halfway(start.v, end.v),
        }
    }

    /// Returns the vector from the chord's middle to the centre. `square` is the square of the
    /// radius. A circle of this radius about an end must reach the middle.
    fn offset_from_middle(&self, square: u128, is_long: bool) -> Vector2
        requires chord { 0 < chord_square self.now }
        requires reached { chord_square self.now ≤ 4 * square }
        requires limit { square ≤ 4 * 10 ^ 18 }
        ensures value { result ≡ aside_point (side_of self.now.turn is_long) square
            (chord_square self.now) (chord self.now) }
        ensures short { IsAside (chord self.now) square result }
    {
        let chord = self.chord();
        let square_of_chord = chord.square();
        let side = side(self.turn, is_long);
        let u = signed_aside(side, chord.v(), aside(square, square_of_chord, chord.v()));
        let v = signed_aside(side, chord.u(), aside(square, square_of_chord, chord.u()));
        Vector2::new(-u, v)
    }

    /// Returns the centre beside the chord's middle.
    fn centre_aside(&self, square: u128, is_long: bool) -> Point2
        requires ends { IsEnds self.now }
        requires chord { 0 < chord_square self.now }
        requires reached { chord_square self.now ≤ 4 * square }
        requires limit { square ≤ 4 * 10 ^ 18 }
        ensures value { result ≡ shifted (middle self.now)
            (aside_point (side_of self.now.turn is_long) square (chord_square self.now)
            (chord self.now)) }
        ensures radii { HasRadiiInRange (arc_about self.now result) }
    {
        let middle = self.middle();
        let offset = self.offset_from_middle(square, is_long);
        Point2 {
            u: moved(middle.u, offset.u()),
            v: moved(middle.v, offset.v()),
        }
    }

    /// Returns the centre in radius format, or fault 244.
    pub(crate) fn radius_centre(&self, radius: Nm, tolerance: u128) -> Result<Point2, ArcFault>
        requires ends { IsEnds self.now }
        requires chord { 0 < chord_square self.now }
        requires limit { unsigned_abs radius * unsigned_abs radius ≤ 4 * 10 ^ 18 }
        requires tolerance { tolerance ≤ 5080 }
        ensures value { result ≡ radius_centre tolerance self.now radius }
        ensures radii { IfOk result (λ centre. HasRadiiInRange (arc_about self.now centre)) }
    {
        let size = u128::from(radius.nanometres().unsigned_abs());
        let square = self.chord().square();
        let reach = size + tolerance;
        if square <= 4 * (size * size) {
            Ok(self.centre_aside(size * size, radius.nanometres() < 0))
        } else if square <= 4 * reach * reach {
            Ok(self.middle())
        } else {
            Err(ArcFault::RadiusTooSmall)
        }
    }
}
