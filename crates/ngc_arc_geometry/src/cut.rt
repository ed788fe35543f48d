ghost use Rattle.std.specs.Prelude.{◌≡◌, ◌≤◌, ◌≤ℤ◌, pos, ◌+ℤ◌, ◌-ℤ◌, int_lt, unsigned_abs, IsTrue};
ghost use Rattle.std.specs.Int.{int_min, int_max};
ghost use Rattle.ngc_fixed_length.specs.Boxes.{grid_above, grid_below, is_below};
ghost use Rattle.ngc_fixed_length.specs.Length.{IsStep};
ghost use Rattle.ngc_arc_geometry.specs.Axes.{along};
ghost use Rattle.ngc_arc_geometry.specs.CutArc.{share_quadrant, is_in_band, turns_on, passes_start};
ghost use Rattle.ngc_arc_geometry.specs.CutArc.{is_inner_cut, cut_follows, is_large, cut_box};
ghost use Rattle.ngc_arc_geometry.specs.Swept.{margin};

use crate::arc::Arc;
use crate::extent::{GridRange, PlaneAxis, Span};
use crate::way::Vector2;
use ngc_fixed_length::{GridBox, Nm, Point2};
use std::marker::Model;

/// An arc on a grid, with the values that all pieces of a cut share.
#[derive(Drop)]
pub struct GridArc {
    arc: Arc,
    step: Nm,
    inner: u64,
    outer: u64,
    margin: Nm,
    heights: GridRange,
}

impl Model for GridArc {
    ghost use Rattle.ngc_arc_geometry.specs.GridArcs.{ArcOnGrid};

    ghost Value = { ArcOnGrid };

    ghost use Rattle.ngc_arc_geometry.specs.GridArcs.{arc_on_grid, IsArcOnGrid};

    ghost view = { arc_on_grid };

    ghost invariant = { IsArcOnGrid };
}

impl GridArc {
    /// Returns the arc on a grid whose step is from 500 to 50,000 nm.
    pub fn new(arc: Arc, step: Nm) -> GridArc
        requires { IsStep step }
        ensures { result ≡ record { arc = arc; step = step } }
    {
        GridArc {
            arc,
            step,
            inner: arc.inner_radius(),
            outer: arc.outer_radius(),
            margin: arc.margin(step),
            heights: arc.height_range(step),
        }
    }

    /// Returns whether a point of the plane is at most a step nearer to the centre than the inner
    /// radius, and at most a step farther than the outer one.
    fn is_in_band(&self, point: &Point2) -> bool
        ensures { result ≡ is_in_band self.now.arc (unsigned_abs self.now.step) point.now }
    {
        let step = self.step.nanometres().unsigned_abs();
        let inner = u128::from(self.inner.saturating_sub(step));
        let outer = u128::from(self.outer) + u128::from(step);
        let square = Vector2::between(&self.arc.centre(), point).square();
        inner * inner <= square && square <= outer * outer
    }

    /// Returns whether the turn from one point to another is above 0 and stays within one closed
    /// quadrant, so is at most a quarter.
    fn turns_on(&self, from: &Point2, to: &Point2) -> bool
        ensures { result ≡ turns_on self.now.arc from.now to.now }
    {
        let centre = self.arc.centre();
        let (first, second) = (
            Vector2::between(&centre, from),
            Vector2::between(&centre, to),
        );
        first.shares_quadrant(&second) && 0 < self.arc.turn_from(from, to)
    }

    /// Returns whether the start's direction lies on the short turn between the two points: after
    /// `from`, and at `to` or before it.
    fn passes_start(&self, from: &Point2, to: &Point2) -> bool
        ensures { result ≡ passes_start self.now.arc from.now to.now }
    {
        let start = self.arc.start_in_plane();
        0 < self.arc.turn_from(from, &start) && 0 <= self.arc.turn_from(&start, to)
    }

    fn is_inner_cut(&self, from: &Point2, to: &Point2) -> bool
        ensures { result ≡ is_inner_cut self.now.step self.now.arc from.now to.now }
    {
        self.is_in_band(to) && self.arc.in_sector(*to) && !self.passes_start(from, to)
    }

    /// Returns whether a piece of an arc that is cut into several may lead from one point to
    /// another. It must turn in the arc's direction within a closed quadrant about the centre. The
    /// last piece must end at the arc's end. Any other piece must end in the sector, within a step
    /// of the radii, and must not pass the start's direction again.
    pub fn cut_follows(&self, last: bool, from: &Point2, to: &Point2) -> bool
        ensures { result ≡ cut_follows self.now.step self.now.arc last from.now to.now }
    {
        self.turns_on(from, to)
            && (if last {
                self.arc.ends_at(to)
            } else {
                self.is_inner_cut(from, to)
            })
    }

    /// Returns whether the inner radius is at least eight steps. If it is less, each piece needs
    /// the box of the whole arc.
    pub fn is_large(&self) -> bool
        ensures { result ≡ is_large self.now.step self.now.arc }
    {
        8 * self.step.nanometres().unsigned_abs() <= self.inner
    }

    /// Returns how far a piece's box extends beyond its points, in nanometres.
    fn margin(&self) -> i64
        ensures value { result ≡ margin self.now.step self.now.arc }
        ensures least { self.now.step ≤ℤ result }
        ensures bound { unsigned_abs result ≤ 2000120000 }
    {
        self.margin.nanometres()
    }

    /// Returns the grid points along an axis of the plane between two points, with the margin on
    /// both sides.
    fn range_between(&self, axis: PlaneAxis, from: &Point2, to: &Point2) -> GridRange
        ensures low { result.low ≡ grid_above self.now.step
            (int_min (along axis from.now) (along axis to.now)
            -ℤ margin self.now.step self.now.arc) }
        ensures high { result.high ≡ grid_below self.now.step
            (int_max (along axis from.now) (along axis to.now)
            +ℤ margin self.now.step self.now.arc) }
    {
        let span = Span::between(axis.along(from), axis.along(to));
        GridRange::around(self.step, &span, self.margin())
    }

    /// Returns the box of a piece from one point of the plane to another. In the plane it is the
    /// box of both points, grown by the margin; on the third axis it extends from the grid point of
    /// one end to that of the other.
    pub fn cut_box(&self, from: &Point2, to: &Point2) -> GridBox
        ensures value { result ≡ cut_box self.now.step self.now.arc from.now to.now }
        ensures ordered { IsTrue (is_below result.low result.high) }
    {
        let u = self.range_between(PlaneAxis::U, from, to);
        let v = self.range_between(PlaneAxis::V, from, to);
        GridRange::in_space(self.arc.plane(), &u, &v, &self.heights)
    }
}
