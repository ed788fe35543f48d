ghost use Rattle.std.specs.Prelude.{◌≡◌, ◌≤◌, pos, unsigned_abs};
ghost use Rattle.ngc_arc_geometry.specs.Sector.{turning, first_met};

use crate::arc::Arc;
use crate::lengths::moved;
use crate::way::Vector2;
use arrayvec::ArrayVec;
use ngc_fixed_length::{Point2, Turn};

/// Returns a coordinate along v, mirrored for a clockwise arc, so that every arc turns
/// counterclockwise.
fn turning(turn: Turn, v: i64) -> i64
    requires { unsigned_abs v ≤ 400000000000 }
    ensures { result ≡ turning turn v }
{
    match turn {
        Turn::Counterclockwise => v,
        Turn::Clockwise => -v,
    }
}

/// Returns the index of the first half axis that a direction meets. The four are counted
/// counterclockwise from u on.
fn first_met(u: i64, v: i64) -> usize
    ensures value { result ≡ first_met u v }
    ensures bound { result ≤ 3 }
{
    if 0 < v && 0 <= u {
        1
    } else if u < 0 && 0 <= v {
        2
    } else if v < 0 && u <= 0 {
        3
    } else {
        0
    }
}

impl Arc {
    ghost use Rattle.ngc_arc_geometry.specs.Shape.{start_of, end_of};
    ghost use Rattle.ngc_arc_geometry.specs.CutArc.{is_end};
    ghost use Rattle.ngc_arc_geometry.specs.Sector.{turn_from, is_ahead, same_direction, is_full};
    ghost use Rattle.ngc_arc_geometry.specs.Sector.{in_sector};

    /// Returns the start, in the plane's coordinates.
    pub(crate) fn start_in_plane(&self) -> Point2
        ensures { result ≡ start_of self.now }
    {
        self.start().in_plane(self.plane())
    }

    /// Returns the end, in the plane's coordinates.
    pub(crate) fn end_in_plane(&self) -> Point2
        ensures { result ≡ end_of self.now }
    {
        self.end().in_plane(self.plane())
    }

    /// Returns whether a point of the plane is the end.
    pub fn ends_at(&self, point: &Point2) -> bool
        ensures { result ≡ is_end self.now point.now }
    {
        let end = self.end_in_plane();
        point.u.nanometres() == end.u.nanometres() && point.v.nanometres() == end.v.nanometres()
    }

    /// Returns twice the area that two points span about the centre. It is above 0 if the arc's
    /// direction leads from the first to the second.
    pub(crate) fn turn_from(&self, first: &Point2, second: &Point2) -> i128
        ensures { result ≡ turn_from self.now first.now second.now }
    {
        let centre = self.centre();
        let area = Vector2::between(&centre, first).cross(&Vector2::between(&centre, second));
        match self.turn() {
            Turn::Counterclockwise => area,
            Turn::Clockwise => -area,
        }
    }

    /// Returns whether the second point is ahead of the first by at most half a turn, or in its
    /// direction.
    fn is_ahead(&self, first: &Point2, second: &Point2) -> bool
        ensures { result ≡ is_ahead self.now first.now second.now }
    {
        self.turn_from(first, second) >= 0
    }

    /// Returns whether two points lie in the same direction from the centre.
    fn same_direction(&self, first: &Point2, second: &Point2) -> bool
        ensures { result ≡ same_direction self.now first.now second.now }
    {
        let centre = self.centre();
        let product = Vector2::between(&centre, first).dot(&Vector2::between(&centre, second));
        self.turn_from(first, second) == 0 && product > 0
    }

    /// Returns whether the arc is a full circle: its end lies in the direction of its start from
    /// the centre.
    pub fn is_full_circle(&self) -> bool
        ensures { result ≡ is_full self.now }
    {
        self.same_direction(&self.start_in_plane(), &self.end_in_plane())
    }

    /// Returns whether a point of the plane lies in the arc's sector: from start to end in its
    /// direction of turning, both included.
    pub fn in_sector(&self, point: Point2) -> bool
        ensures { result ≡ in_sector self.now point }
    {
        if self.is_full_circle() {
            return true;
        }
        let start = self.start_in_plane();
        let end = self.end_in_plane();
        if self.is_ahead(&start, &end) {
            self.is_ahead(&start, &point) && self.is_ahead(&point, &end)
        } else {
            self.is_ahead(&start, &point) || self.is_ahead(&point, &end)
        }
    }
}

impl Arc {
    ghost use Rattle.ngc_arc_geometry.specs.Sector.{quadrant_points, first_quadrant};
    ghost use Rattle.ngc_arc_geometry.specs.Sector.{quadrants_in_turn, extremes};
    ghost use Rattle.ngc_arc_geometry.specs.Radii.{outer_radius};

    /// Returns the points at the outer radius on the plane's half axes, from u on in the direction
    /// of turning.
    fn quadrant_points(&self) -> [Point2; 4]
        ensures { result ≡ quadrant_points self.now.turn self.now.centre
            (pos (outer_radius self.now)) }
    {
        let centre = self.centre();
        let radius = self.outer_radius() as i64;
        let east = Point2 {
            u: moved(centre.u, radius),
            v: centre.v,
        };
        let north = Point2 {
            u: centre.u,
            v: moved(centre.v, radius),
        };
        let west = Point2 {
            u: moved(centre.u, -radius),
            v: centre.v,
        };
        let south = Point2 {
            u: centre.u,
            v: moved(centre.v, -radius),
        };
        match self.turn() {
            Turn::Counterclockwise => [east, north, west, south],
            Turn::Clockwise => [east, south, west, north],
        }
    }

    /// Returns the number of quadrant points before the first one that the arc meets.
    fn first_quadrant(&self) -> usize
        ensures value { result ≡ first_quadrant self.now }
        ensures bound { result ≤ 3 }
    {
        let start = Vector2::between(&self.centre(), &self.start_in_plane());
        first_met(start.u(), turning(self.turn(), start.v()))
    }

    /// Returns the quadrant points in the arc's order, from the first that it meets.
    fn quadrants_in_turn(&self) -> [Point2; 4]
        ensures { result ≡ quadrants_in_turn self.now }
    {
        let [first, second, third, fourth] = self.quadrant_points();
        match self.first_quadrant() {
            0 => [first, second, third, fourth],
            1 => [second, third, fourth, first],
            2 => [third, fourth, first, second],
            _ => [fourth, first, second, third],
        }
    }

    /// Returns the quadrant points at the outer radius that lie in the sector, in the arc's order
    /// from its start on.
    pub fn extremes(&self) -> ArrayVec<Point2, 4>
        ensures { result.items ≡ extremes self.now }
    {
        let points = self.quadrants_in_turn();
        let mut extremes = ArrayVec::new();
        for point in &points {
            if self.in_sector(*point) {
                extremes.push(*point);
            }
        }
        extremes
    }
}
