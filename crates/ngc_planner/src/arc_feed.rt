ghost use Rattle.std.specs.Prelude.{◌≡◌, ◌≤◌, ◌<◌, ◌*◌, ◌^◌, ◌*ℤ◌, unsigned_abs};
ghost use Rattle.ngc_arc_geometry.specs.Radii.{IsArc};
ghost use Rattle.ngc_fixed_length.specs.Grid.{distance};
ghost use Rattle.ngc_fixed_length.specs.Length.{IsStep};
ghost use Rattle.ngc_fixed_length.specs.Limits.{MILLION};
ghost use Rattle.ngc_machine_files.specs.Machine.{file_of};
ghost use Rattle.ngc_commands.specs.declared.movement.Way.TheVariants as ways;
ghost use Rattle.ngc_planner.specs.ArcFeed.{axis_distance, place_cap, rise, sloped_length};
ghost use Rattle.ngc_planner.specs.ArcFeed.{length_along, helix_length, sloped_cap, feed_cap_at};
ghost use Rattle.ngc_planner.specs.ArcFeed.{arc_cap_at, way_cap_at, cap_at, target_on};
ghost use Rattle.ngc_planner.specs.ArcFeed.{is_feed_by_place, place_turn, turn_radius, arc_turn_at};
ghost use Rattle.ngc_planner.specs.ArcFeed.{way_turn_at, turn_at};
ghost use Rattle.ngc_planner.specs.ArcFeed.{is_minute_feed, has_minute_feed, is_arc, is_by_place};
ghost use Rattle.ngc_planner.specs.Bounds.{IsMotion, turn_rate};
ghost use Rattle.ngc_planner.specs.Caps.{STEPS_LIMIT};

use crate::bounds::{aimed_at, diagonal_rate, is_turn_by_place, turn_rate};
use crate::caps::{cap_of, squared_distance};
use crate::headings::is_level;
use ngc_arc_geometry::Arc;
use ngc_commands::{Action, Feed, Pace, Way};
use ngc_fixed_length::{Nm, Plane, StepPos, nanometres_at, root_ceil};
use ngc_machine_files::{ArcFeed, Machine};
use std::alloc::Allocator;

/// Returns the distance from a coordinate to a number of steps, in nanometres.
fn distance(coordinate: Nm, steps: i32, step: Nm) -> u64
    requires { IsStep step }
    ensures value { result ≡ distance coordinate (steps *ℤ step) }
{
    nanometres_at(step, steps).abs_diff(coordinate.nanometres())
}

/// Returns the distance of a grid point from an arc's centre, along the axis of the plane on which
/// it is greater, in nanometres.
fn axis_distance(step: Nm, arc: &Arc, position: &StepPos) -> u64
    requires { IsStep step }
    ensures value { result ≡ axis_distance step arc.now position.now }
    ensures arc { IsArc arc.now }
{
    let (u, v) = match arc.plane() {
        Plane::XY => (position.x, position.y),
        Plane::ZX => (position.z, position.x),
        Plane::YZ => (position.y, position.z),
    };
    let centre = arc.centre();
    distance(centre.u, u, step).max(distance(centre.v, v, step))
}

/// Returns the cap at a place of an arc of a radius, at a feed in nanometres per minute. The place
/// is `axis_distance` nanometres from the centre along one axis.
fn place_cap(ticks_per_second: u32, step: u64, radius: u64, axis_distance: u64, feed: u64) -> u128
    requires ticks { 1 ≤ ticks_per_second }
    requires step_least { 1 ≤ step }
    requires step_greatest { step ≤ 50000 }
    requires radius_least { 1 ≤ radius }
    requires radius_greatest { radius ≤ 2000020000 }
    ensures value { result ≡ place_cap ticks_per_second step radius axis_distance feed }
    ensures bound { result < 2 ^ 79 }
{
    let out = axis_distance.saturating_sub(step).min(radius);
    u128::from(feed) * 1_000_000 * u128::from(out)
        / (60 * u128::from(ticks_per_second) * u128::from(step) * u128::from(radius))
}

/// Returns the length of `n` steps in nanometres.
fn flat_length(n: u64, step: Nm) -> u64
    requires steps { n ≤ STEPS_LIMIT }
    requires step { IsStep step }
    ensures value { result ≡ n * unsigned_abs step }
    ensures bound { result ≤ 5 * 10 ^ 13 }
{
    n * step.nanometres().unsigned_abs()
}

/// Returns the length of a line that is `flat` nanometres long in the plane of an arc and rises as
/// much as the arc, rounded up to whole nanometres.
fn sloped_length(flat: u64, arc: &Arc) -> u64
    requires { flat ≤ 5 * 10 ^ 13 }
    ensures { result ≡ sloped_length flat (rise arc.now) }
{
    let plane = arc.plane();
    let flat = u128::from(flat);
    let rise = squared_distance(arc.start().height(plane), arc.end().height(plane));
    root_ceil(flat * flat + rise)
}

fn length_along(way: &Way, n: u64, step: Nm) -> u64
    requires steps { n ≤ STEPS_LIMIT }
    requires step { IsStep step }
    ensures { result ≡ length_along step way.now n }
{
    match way {
        Way::Line { .. } => 0,
        Way::Arc(arc) => {
            if is_level(arc) {
                0
            } else {
                sloped_length(flat_length(n, step), arc)
            }
        }
    }
}

/// Returns the length of a line that goes one step along an axis for each path step of a helix, and
/// has the height of the helix: in nanometres, rounded up. `n` is the number of path steps, at most
/// 10^9. For an action that is no helix it returns 0. It computes a whole root.
pub fn helix_length(action: &Action, n: u64, step: Nm) -> u64
    requires steps { n ≤ STEPS_LIMIT }
    requires step { IsStep step }
    ensures { result ≡ helix_length step action.now n }
{
    match action {
        Action::Move(motion) => length_along(&motion.way, n, step),
        _ => 0,
    }
}

/// Returns the cap of a plane, reduced by the share that the height of a helix takes.
fn sloped_cap(flat: u64, length: u64, cap: u128) -> u128
    requires flat { flat ≤ 5 * 10 ^ 13 }
    requires some { 1 ≤ length }
    requires least { flat ≤ length }
    requires cap { cap < 2 ^ 79 }
    ensures value { result ≡ sloped_cap flat length cap }
    ensures bound { result < 2 ^ 115 }
{
    cap * u128::from(flat) / u128::from(length)
}

/// Returns the cap at a place of an arc of `n` path steps, at a feed per minute, and otherwise 0.
fn feed_cap_at<A: Allocator>(
    arc: &Arc,
    n: u64,
    length: u64,
    feed: &Feed,
    position: &StepPos,
    machine: &Machine<A>,
) -> u128
    requires steps { n ≤ STEPS_LIMIT }
    requires length { length ≡ length_along machine.now.step (ways.Arc arc.now) n }
    ensures value { result ≡ feed_cap_at (file_of machine.now) arc.now n feed.now position.now }
    ensures bound { result < 2 ^ 115 }
{
    match feed {
        Feed::PerMinute(feed) => {
            let cap = place_cap(
                machine.ticks_per_second,
                machine.step.nanometres().unsigned_abs(),
                arc.outer_radius(),
                axis_distance(machine.step, arc, position),
                *feed,
            );
            if is_level(arc) {
                cap
            } else {
                sloped_cap(flat_length(n, machine.step), length, cap)
            }
        }
        Feed::Inverse(_) => 0,
    }
}

fn arc_cap_at<A: Allocator>(
    arc: &Arc,
    n: u64,
    length: u64,
    pace: &Pace,
    position: &StepPos,
    machine: &Machine<A>,
) -> u128
    requires steps { n ≤ STEPS_LIMIT }
    requires length { length ≡ length_along machine.now.step (ways.Arc arc.now) n }
    ensures value { result ≡ arc_cap_at (file_of machine.now) arc.now n pace.now position.now }
    ensures bound { result < 2 ^ 115 }
{
    match pace {
        Pace::Rapid => 0,
        Pace::Feed(feed) => feed_cap_at(arc, n, length, feed, position, machine),
    }
}

fn way_cap_at<A: Allocator>(
    way: &Way,
    n: u64,
    length: u64,
    pace: &Pace,
    position: &StepPos,
    machine: &Machine<A>,
) -> u128
    requires steps { n ≤ STEPS_LIMIT }
    requires length { length ≡ length_along machine.now.step way.now n }
    ensures value { result ≡ way_cap_at (file_of machine.now) way.now n pace.now position.now }
    ensures bound { result < 2 ^ 115 }
{
    match way {
        Way::Line { .. } => 0,
        Way::Arc(arc) => arc_cap_at(arc, n, length, pace, position, machine),
    }
}

fn is_feed_by_place(arc_feed: &ArcFeed) -> bool
    ensures { result ≡ is_feed_by_place arc_feed.now }
{
    match arc_feed {
        ArcFeed::Off => false,
        ArcFeed::Feed | ArcFeed::FeedAndTurn => true,
    }
}

/// Returns the cap of an action of `n` path steps at a place, or 0 if it doesn't depend on the
/// place.
fn cap_at<A: Allocator>(
    action: &Action,
    n: u64,
    length: u64,
    position: &StepPos,
    machine: &Machine<A>,
) -> u128
    requires steps { n ≤ STEPS_LIMIT }
    requires length { length ≡ helix_length machine.now.step action.now n }
    ensures value { result ≡ cap_at (file_of machine.now) action.now n position.now }
    ensures bound { result < 2 ^ 115 }
{
    match action {
        Action::Move(motion) => {
            if is_feed_by_place(&machine.arc_feed) {
                way_cap_at(&motion.way, n, length, &motion.pace, position, machine)
            } else {
                0
            }
        }
        _ => 0,
    }
}

/// Returns the part of the greatest rate on an arc of a radius that its turn allows at a place. The
/// place is `axis_distance` nanometres from the centre along one axis.
fn place_turn(rate: u64, step: u64, radius: u64, axis_distance: u64) -> u64
    requires { 1 ≤ radius }
    ensures { result ≡ place_turn rate step radius axis_distance }
{
    let inside = axis_distance.saturating_sub(step).min(radius);
    (u128::from(rate) * u128::from(inside) / u128::from(radius)) as u64
}

/// Returns the greatest target that the turn allows at a place of an arc. `rate` is the greatest
/// rate on the arc.
fn arc_turn_at<A: Allocator>(arc: &Arc, rate: u64, position: &StepPos, machine: &Machine<A>) -> u64
    requires { rate ≡ turn_rate (file_of machine.now) (ways.Arc arc.now) }
    ensures { result ≡ arc_turn_at (file_of machine.now) arc.now position.now }
{
    let step = machine.step.nanometres().unsigned_abs();
    let radius = arc.outer_radius().max(step);
    let out = axis_distance(machine.step, arc, position);
    diagonal_rate(rate).max(place_turn(rate, step, radius, out))
}

fn way_turn_at<A: Allocator>(way: &Way, position: &StepPos, machine: &Machine<A>) -> u64
    ensures { result ≡ way_turn_at (file_of machine.now) way.now position.now }
{
    let rate = turn_rate(way, machine);
    match way {
        Way::Line { .. } => rate,
        Way::Arc(arc) => {
            if is_turn_by_place(&machine.arc_feed) {
                arc_turn_at(arc, rate, position, machine)
            } else {
                rate
            }
        }
    }
}

/// Returns the greatest target that the turn allows at a place of a motion, and 1,000,000 for any
/// other action.
fn turn_at<A: Allocator>(action: &Action, position: &StepPos, machine: &Machine<A>) -> u64
    ensures { result ≡ turn_at (file_of machine.now) action.now position.now }
{
    match action {
        Action::Move(motion) => way_turn_at(&motion.way, position, machine),
        _ => 1_000_000,
    }
}

/// Returns the target rate of a tick on a motion of `n` path steps, at most 10^9, at a grid point
/// of its path, under an override in percent. It is that of `target_at`, or more on an arc if the
/// machine runs arcs at their feed or their turn. `length` is that of `helix_length`, which is the
/// same at each place.
pub fn target_on<A: Allocator>(
    action: &Action,
    n: u64,
    length: u64,
    percent: u8,
    position: &StepPos,
    machine: &Machine<A>,
) -> u64
    requires steps { n ≤ STEPS_LIMIT }
    requires length { length ≡ helix_length machine.now.step action.now n }
    ensures value { result ≡ target_on (file_of machine.now) action.now n percent position.now }
    ensures least { IsMotion action.now → 1 ≤ percent → 1 ≤ result }
    ensures greatest { result ≤ MILLION }
{
    let cap = cap_of(action, n, machine).max(cap_at(action, n, length, position, machine));
    let turn = turn_at(action, position, machine);
    aimed_at(action, n, cap, turn, percent, machine)
}

fn is_minute_feed(feed: &Feed) -> bool
    ensures { result ≡ is_minute_feed feed.now }
{
    match feed {
        Feed::PerMinute(_) => true,
        Feed::Inverse(_) => false,
    }
}

fn has_minute_feed(pace: &Pace) -> bool
    ensures { result ≡ has_minute_feed pace.now }
{
    match pace {
        Pace::Rapid => false,
        Pace::Feed(feed) => is_minute_feed(feed),
    }
}

fn is_arc(way: &Way) -> bool
    ensures { result ≡ is_arc way.now }
{
    matches!(way, Way::Arc(_))
}

/// Returns whether the target of `target_on` depends on the grid point: on an arc or a helix at a
/// feed per minute, if the machine runs arcs at their feed, and on any arc or helix, if it runs them
/// at their turn.
pub fn is_by_place<A: Allocator>(action: &Action, machine: &Machine<A>) -> bool
    ensures { result ≡ is_by_place (file_of machine.now) action.now }
{
    match action {
        Action::Move(motion) => {
            let arc_feed = &machine.arc_feed;
            is_arc(&motion.way)
                && (is_turn_by_place(arc_feed)
                    || (is_feed_by_place(arc_feed) && has_minute_feed(&motion.pace)))
        }
        _ => false,
    }
}
