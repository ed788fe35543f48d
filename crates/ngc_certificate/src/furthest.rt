//! Finds how far a piece of an arc may go.
ghost use Rattle.std.specs.Prelude.{◌+◌, ◌≤◌, unsigned_abs};
ghost use Rattle.ngc_fixed_length.specs.Length.{IsStep};

use crate::limits::Block;
use crate::quadrant::{Quadrant, Sight, Spot};
use ngc_arc_geometry::{Arc, GridArc};
use ngc_collision::{first_met, is_in_travel};
use ngc_fixed_length::{Nm, Plane, Point2, root_ceil, root_floor};
use ngc_machine_files::{Fixture, Machine, Part, Tool};
use std::alloc::Allocator;

/// A distance along an axis that exceeds all others, in nanometres.
const FAR: i64 = 1_000_000_000_000_000;

/// The distances from the centre between which cuts may be, and how far the boxes of pieces extend
/// beyond their cuts.
#[derive(Clone, Copy)]
pub(crate) struct Band {
    pub(crate) inner: u64,
    pub(crate) outer: u64,
    margin: u64,
    ghost inner_in_range: { inner ≤ 200000000000 },
    ghost outer_in_range: { outer ≤ 200000000000 },
    ghost margin_in_range: { margin ≤ 200000000000 },
}

impl Band {
    /// Returns the band from a step below the inner radius to a step above the outer one. The
    /// margin is two steps and the difference of the radii.
    pub(crate) fn of(arc: &Arc, step: u64) -> Band
        requires { step ≤ 50000 }
    {
        let (inner, outer) = (arc.inner_radius(), arc.outer_radius());
        Band {
            inner: inner.saturating_sub(step),
            outer: outer + step,
            margin: 2 * step + outer.saturating_sub(inner),
        }
    }

    /// Returns the least y of the band at x, or the limit if that is less.
    fn low_at(&self, x: u64, limit: u64) -> u64
        requires x { x ≤ 200000000000 }
        requires limit { limit ≤ 200000000000 }
        ensures { result ≤ limit }
    {
        root_ceil(square(self.inner).saturating_sub(square(x))).min(limit)
    }

    /// Returns the greatest y of the band at x, or the limit if that is less.
    fn high_at(&self, x: u64, limit: u64) -> u64
        requires x { x ≤ 200000000000 }
        requires limit { limit ≤ 200000000000 }
        ensures { result ≤ limit }
    {
        root_floor(square(self.outer).saturating_sub(square(x))).min(limit)
    }
}

/// Returns the first coordinate after the greatest multiple of the step below a coordinate. The
/// sides of boxes are multiples of the step, so the side for a coordinate from there on isn't below
/// `coordinate`.
fn after_multiple_below(step: Nm, coordinate: i64) -> i64
    requires step { IsStep step }
    requires coordinate { unsigned_abs coordinate ≤ 200000000000000 }
    ensures { unsigned_abs result ≤ 200000000100001 }
{
    let step = step.nanometres();
    coordinate + (-coordinate).rem_euclid(step) - step + 1
}

/// Returns the foot of the part on top of this one.
fn top_of(part: &Part, foot: i64) -> i64
    requires { unsigned_abs foot ≤ 500000000000 }
    ensures { unsigned_abs result ≤ unsigned_abs foot + 100000000000 }
{
    foot + part.length.nanometres()
}

fn square(x: u64) -> u128
    requires { x ≤ 2000000000000000 }
    ensures { result ≤ 4000000000000000000000000000000 }
{
    u128::from(x) * u128::from(x)
}

/// A limit for pieces: a piece is not allowed if its end is both nearer along x than `x` and
/// farther along y than `y`.
#[derive(Clone, Copy)]
struct Limit {
    x: i64,
    y: i64,
    ghost x_in_range: { unsigned_abs x ≤ 1000000000000000 },
    ghost y_in_range: { unsigned_abs y ≤ 1000000000000000 },
}

impl Limit {
    /// Returns the square of the least x that the inside of a band may reach, from a spot on and
    /// before a stop.
    fn nearest(&self, band: &Band, from: &Spot, stop: &Spot) -> u128
        ensures { result ≤ 4000000000000000000000000000000 }
    {
        if self.x <= 0 || stop.y as i64 <= self.y {
            return 0;
        }
        let nearest = square(self.x.unsigned_abs());
        if self.y < from.y as i64 {
            return nearest;
        }
        nearest.min(square(band.inner).saturating_sub(square(self.y.unsigned_abs())))
    }

    /// Returns the greatest y that a piece may reach at x.
    fn highest(&self, x: u64) -> i64
        requires { x ≤ 200000000000 }
    {
        if (x as i64) < self.x { self.y } else { FAR }
    }
}

/// The begin of a piece of an arc, in a quadrant.
#[derive(Drop)]
pub(crate) struct Begin<'a, A: Allocator> {
    pub(crate) machine: &'a Machine<A>,
    pub(crate) tool: &'a Option<Tool>,
    pub(crate) arc: &'a GridArc,
    pub(crate) plane: Plane,
    pub(crate) band: Band,
    pub(crate) quadrant: Quadrant,
    pub(crate) point: Point2,
    pub(crate) spot: Spot,
    /// The box of a piece that ends where it begins.
    pub(crate) least: Sight,
}

impl<A: Allocator> Begin<'_, A> {
    /// Returns whether the piece from here to a spot is within travel and clear of all fixtures.
    fn clears_to(&self, spot: &Spot) -> bool {
        match self.quadrant.point_at(spot) {
            Some(point) => {
                let bounds = self.arc.cut_box(&self.point, &point);
                is_in_travel(self.machine, &bounds)
                    && first_met(self.machine, *self.tool, &bounds).is_none()
            }
            None => false,
        }
    }

    /// Returns the least x at which a piece's box doesn't extend below a coordinate.
    fn least_x(&self, bound: i64) -> i64
        requires { unsigned_abs bound ≤ 200000000000000 }
        ensures { unsigned_abs result ≤ 1000000000000000 }
    {
        let side = after_multiple_below(self.machine.step, bound);
        side - self.quadrant.centre_seen().0 + self.band.margin as i64
    }

    /// Returns the greatest y at which a piece's box doesn't extend above a coordinate.
    fn greatest_y(&self, bound: i64) -> i64
        requires { unsigned_abs bound ≤ 200000000000000 }
        ensures { unsigned_abs result ≤ 1000000000000000 }
    {
        let side = -after_multiple_below(self.machine.step, -bound);
        side - self.quadrant.centre_seen().1 - self.band.margin as i64
    }

    /// Returns the limits of pieces from here at the travel limits.
    fn travel_limits(&self) -> [Limit; 2] {
        let travel = Block::between(&self.machine.low, &self.machine.high);
        let travel = self.quadrant.sight_of(self.plane, &travel);
        let before = Limit {
            x: self.least_x(travel.x.low),
            y: -1,
        };
        let beyond = Limit {
            x: FAR,
            y: self.greatest_y(travel.y.high),
        };
        [before, beyond]
    }

    /// Returns the limit of pieces from here for a block in which the spindle nose may not be,
    /// or `None` if the block limits none.
    fn limit_at(&self, block: &Block) -> Option<Limit> {
        let kept_from = self.quadrant.sight_of(self.plane, block);
        if self.least.x.high <= kept_from.x.low
            || kept_from.y.high <= self.least.y.low
            || !self.least.height.overlaps(&kept_from.height)
        {
            return None;
        }
        Some(Limit {
            x: self.least_x(kept_from.x.high),
            y: self.greatest_y(kept_from.y.low),
        })
    }

    /// Returns the limits of pieces from here at a fixture, for each part of the tool.
    fn limits_at(&self, fixture: &Fixture) -> [Option<Limit>; 4] {
        let mut limits = [None; 4];
        let Some(tool) = self.tool else {
            limits[0] = self.limit_at(&Block::between(&fixture.low, &fixture.high));
            return limits;
        };
        let mut foot = tool.bottom.nanometres();
        for (i, part) in tool.parts.as_slice().iter().enumerate() {
            limits[i] = self.limit_at(&Block::kept_from(fixture, part, foot));
            foot = top_of(part, foot);
        }
        limits
    }

    /// Returns the square of the least x that the inside of the band may reach past a fixture,
    /// before a stop.
    fn nearest_past(&self, fixture: &Fixture, stop: &Spot) -> u128
        ensures { result ≤ 4000000000000000000000000000000 }
    {
        let mut least = 0;
        for limit in self.limits_at(fixture).iter().flatten() {
            least = least.max(limit.nearest(&self.band, &self.spot, stop));
        }
        least
    }

    /// Returns the least x that it may reach past all of them.
    fn nearest_inside(&self, stop: &Spot) -> u64
        ensures { result ≤ 200000000000 }
    {
        let [before, beyond] = self.travel_limits();
        // A piece must not end in the direction of a stop on the axis.
        let mut least = square(stop.x.max(1))
            .max(before.nearest(&self.band, &self.spot, stop))
            .max(beyond.nearest(&self.band, &self.spot, stop));
        for fixture in &self.machine.fixtures {
            least = least.max(self.nearest_past(fixture, stop));
        }
        root_ceil(least).min(self.spot.x)
    }

    /// Returns the greatest y that the straight line up at x may reach beside a fixture.
    fn highest_beside(&self, fixture: &Fixture, x: u64) -> i64
        requires { x ≤ 200000000000 }
    {
        let mut highest = FAR;
        for limit in self.limits_at(fixture).iter().flatten() {
            highest = highest.min(limit.highest(x));
        }
        highest
    }

    /// Returns the greatest y that it may reach, at most `most`.
    fn highest_above(&self, x: u64, most: u64) -> u64
        requires x { x ≤ 200000000000 }
        requires most { most ≤ 200000000000 }
        ensures { result ≤ most }
    {
        let [before, beyond] = self.travel_limits();
        let mut highest = before.highest(x).min(beyond.highest(x));
        for fixture in &self.machine.fixtures {
            highest = highest.min(self.highest_beside(fixture, x));
        }
        highest.clamp(0, most as i64) as u64
    }

    /// Returns the furthest point towards a stop to which a piece from here may go, or `None` if it
    /// can't leave its begin.
    ///
    /// The boxes of pieces from here grow as x falls and as y rises. A fixture inside the arc keeps
    /// x above some limit, one outside keeps y below one. So the search follows the inside of the
    /// band, and then goes straight up, to the corner of both limits, or to the rim of the band if
    /// that is earlier.
    pub(crate) fn furthest(&self, stop: &Spot) -> Option<Point2> {
        if self.clears_to(stop) {
            return self.quadrant.point_at(stop);
        }
        let x = self.nearest_inside(stop);
        let lowest = self.band.low_at(x, stop.y).max(self.spot.y);
        let highest = self.highest_above(x, self.band.high_at(x, stop.y));
        let spot = Spot {
            x,
            y: highest.max(lowest),
        };
        if self.spot.is_before(&spot) && spot.is_before(stop) {
            self.quadrant.point_at(&spot)
        } else {
            None
        }
    }
}
