ghost use Rattle.std.specs.Prelude.{◌≡◌, ◌≤◌, ◌+◌, ◌*◌, ◌/◌, min, max, nat_lt, pos, ◌-ℤ◌, ◌*ℤ◌};
ghost use Rattle.std.specs.Prelude.{int_lt};
ghost use Rattle.ngc_circle_walk.specs.Quadrants.{quadrants_to};
ghost use Rattle.ngc_circle_walk.specs.Wheel.{square, is_before, IsSmall};
ghost use Rattle.ngc_step_kernel.specs.About.{IsAbout};
ghost use Rattle.ngc_arc_geometry.specs.Radii.{IsArc};
ghost use Rattle.ngc_arc_geometry.specs.Shape.{ArcShape};
ghost use Rattle.ngc_step_kernel.specs.Course.{IsPlan, course_at};
ghost use Rattle.ngc_step_kernel.specs.PlaneCourse.{laid, FollowsInPlane};
ghost use Rattle.ngc_step_kernel.specs.Entered.{is_steep, IsEntered};
ghost use Rattle.ngc_step_kernel.specs.Spots.{IsSpot, straight_moves};
ghost use Rattle.ngc_step_kernel.specs.View.{squared, place_of, way_from, quadrants_left, view_of};
ghost use Rattle.ngc_step_kernel.specs.View.{IsView, IsNearestSpot};
ghost use Rattle.ngc_step_kernel.specs.Ways.{IsWay};

use crate::plan::Plan;
use crate::roots::Roots;
use crate::round::{Vector2, entering, limit_of};
use crate::spot::{PlaneMove, Spot};
use crate::view::View;
use ngc_circle_walk::{Quadrant, Spoke, Wheel};

/// The point at which a wheel begins: on the grid, and about the centre.
#[derive(Clone, Copy)]
struct Entry {
    spot: Spot,
    spoke: Spoke,
}

/// Returns whether a vector is nearer to the half axes beside a quadrant than to those along it.
fn is_steep(way: &Vector2, quadrant: Quadrant) -> bool
    ensures { result ≡ is_steep quadrant way.now }
{
    let u = way.u.unsigned_abs();
    let v = way.v.unsigned_abs();
    match quadrant {
        Quadrant::First | Quadrant::Third => u < v,
        Quadrant::Second | Quadrant::Fourth => v < u,
    }
}

impl Entry {
    /// Returns the joint, or the point a move after it if the joint is before the start's
    /// direction.
    fn of(view: &View, joint: Spot, step: u64, radius: u64, limit: u64) -> Entry
        requires view { IsView view.now }
        requires joint { IsSpot joint }
        requires near { 12 * squared (way_from step view.now.centre joint)
            ≤ 12 * (radius * radius) + 17 * (radius * step) + 6 * (step * step) }
        requires radius { radius ≤ 2000020000 }
        requires least { 500 ≤ step }
        requires greatest { step ≤ 50000 }
        ensures about { IsAbout step (place_of view.now.centre) result.spot result.spoke }
        ensures entered { IsEntered step limit view.now.start
            (way_from step view.now.centre joint) result.spoke }
        ensures beside { straight_moves joint result.spot ≤ 1 }
        ensures near { square result.spoke.x result.spoke.y
            ≤ (radius + 2 * step) * (radius + 2 * step) }
    {
        let way = view.way_to(&joint, step);
        let first = way.spoke();
        if view.start.cross(&way) < 0 {
            let roll = entering(first, is_steep(&view.start, first.quadrant), step, limit);
            Entry {
                spot: joint.moved(PlaneMove::of(roll, first.quadrant)),
                spoke: first.rolled(roll, step),
            }
        } else {
            Entry {
                spot: joint,
                spoke: first,
            }
        }
    }
}

/// Returns the number of quadrants from a wheel's first point to the end, or `None` if the end's
/// direction is reached before the wheel moves. `quadrants` is that number without whole turns, and the
/// arc is short if it is less than half a turn.
fn quadrants_counted(quadrants: u32, is_short: bool, is_before: bool) -> Option<u32>
    ensures { result ≡ quadrants_left quadrants is_short is_before }
{
    match quadrants {
        0 if !is_short => Some(4),
        0 if !is_before => None,
        3 if is_short => None,
        quadrants => Some(quadrants),
    }
}

/// Returns the same number for a view, by the wheel's first point and the end.
fn quadrants_left(view: &View, first: &Spoke, end: &Spoke) -> Option<u32>
    requires start { IsWay view.now.start }
    requires end { IsWay view.now.end }
    requires first { IsSmall first.now }
    requires last { IsSmall end.now }
    ensures { result ≡ quadrants_left (quadrants_to first.now.quadrant end.now.quadrant)
        (int_lt (pos 0)
        ((view.now.start.u *ℤ view.now.end.v) -ℤ (view.now.start.v *ℤ view.now.end.u)))
        (is_before first.now end.now) }
{
    let is_short = 0 < view.start.cross(&view.end);
    let is_before = first.is_before(end);
    let quadrants = first.quadrant.quadrants_to(end.quadrant);
    quadrants_counted(quadrants, is_short, is_before)
}

/// Returns whether the lesser radius is below one and a half steps.
fn is_tiny(view: &View, step: u64) -> bool
    requires start { IsWay view.now.start }
    requires end { IsWay view.now.end }
    requires greatest { step ≤ 50000 }
    ensures { result ≡ nat_lt (4 * min (squared view.now.start) (squared view.now.end))
        (9 * (step * step)) }
{
    let lesser = view.start.square().min(view.end.square());
    4 * lesser < 9 * u128::from(step * step)
}

/// Returns the radius of the circle on which a wheel moves: the end's radius, or two and a quarter
/// steps if that is more.
fn circle_of(radius: u64, step: u64) -> u64
    requires radius { radius ≤ 2000020000 }
    requires short { step ≤ 50000 }
    ensures value { result ≡ max radius (9 * step / 4 + 1) }
    ensures bound { result ≤ 2000020000 }
{
    radius.max(9 * step / 4 + 1)
}

impl Plan {
    /// Plans the path from an arc's start to its end, round its centre. A tiny arc is straight. Any
    /// other passes the joint, the entry and a wheel; the wheel is left out if the end's direction
    /// is reached before it.
    ///
    /// It computes two roots, or none.
    pub(crate) fn around<W: Wheel + Drop>(
        view: &View,
        start: Spot,
        end: Spot,
        step: u64,
        roots: &mut Roots,
    ) -> Plan
        requires view { IsView view.now }
        requires start { IsSpot start }
        requires end { IsSpot end }
        requires start_at { IsNearestSpot step view.now.centre view.now.start start }
        requires end_at { IsNearestSpot step view.now.centre view.now.end end }
        requires least { 500 ≤ step }
        requires greatest { step ≤ 50000 }
        requires roots { roots.old.taken ≤ 14 }
        ensures plan { IsPlan result }
        ensures start { result.start ≡ start }
        ensures end { result.end ≡ end }
        ensures roots { roots.new.taken ≤ roots.old.taken + 2 }
        ensures follows { (a : ArcShape) → view.now ≡ view_of a → IsArc a →
            FollowsInPlane a step result.moves (λ j. laid step a.turn (course_at result j)) }
    {
        if is_tiny(view, step) {
            return Plan::straight(start, end, step);
        }
        let radius = roots.ceil(view.start.square());
        let other = roots.ceil(view.end.square());
        let circle = circle_of(other, step);
        let joint = view.joint(radius, circle, step);
        let limit = limit_of(circle, step);
        let entry = Entry::of(view, joint, step, circle, limit);
        let last = view.end.spoke();
        match quadrants_left(view, &entry.spoke, &last) {
            None => Plan::through_joint(start, joint, end, step),
            Some(quadrants) => Plan::round::<W>(
                start,
                joint,
                entry.spot,
                end,
                entry.spoke,
                &last,
                quadrants,
                step,
                limit,
            ),
        }
    }
}
