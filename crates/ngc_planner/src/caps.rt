ghost use Rattle.std.specs.Prelude.{◌≡◌, ◌+◌, ◌*◌, ◌/◌, ◌^◌, ◌≤◌, ◌<◌, unsigned_abs};
ghost use Rattle.ngc_fixed_length.specs.Grid.{distance};
ghost use Rattle.ngc_machine_files.specs.Machine.{file_of};
ghost use Rattle.ngc_fixed_length.specs.Limits.{MILLION};
ghost use Rattle.ngc_planner.specs.Caps.{STEPS_LIMIT, length_between, crosswise};
ghost use Rattle.ngc_planner.specs.Caps.{inverse_cap, line_cap, arc_cap, feed_cap, cap_of};
ghost use Rattle.ngc_planner.specs.Caps.{KeepsFeed};

use ngc_arc_geometry::Arc;
use ngc_commands::{Action, Feed, Pace, Way};
use ngc_fixed_length::{Nm, Point3, root_ceil};
use ngc_machine_files::Machine;
use std::alloc::Allocator;

/// Returns the square of the distance between two coordinates.
pub(crate) fn squared_distance(start: Nm, end: Nm) -> u128
    ensures value { result ≡ distance start end * distance start end }
    ensures bound { result ≤ 4 * 10 ^ 22 }
{
    let distance = u128::from(end.nanometres().abs_diff(start.nanometres()));
    distance * distance
}

/// Returns the length of a line, rounded up to whole nanometres.
fn length_between(start: &Point3, end: &Point3) -> u64
    ensures value { result ≡ length_between start.now end.now }
    ensures bound { result ≤ 10 ^ 12 }
{
    let x = squared_distance(start.x, end.x);
    let y = squared_distance(start.y, end.y);
    let z = squared_distance(start.z, end.z);
    root_ceil(x + y + z)
}

/// Returns the assumed length of a path step along an arc, in thousandths of a step: a little more
/// than the diagonal of a square, or of a cube on a helix.
fn crosswise(arc: &Arc) -> u64
    ensures value { result ≡ crosswise arc.now }
    ensures least { 1 ≤ result }
    ensures greatest { result ≤ 1733 }
{
    let plane = arc.plane();
    if arc.start().height(plane) == arc.end().height(plane) {
        1415
    } else {
        1733
    }
}

/// Returns the cap of `n` path steps in inverse time. `feed` is in millionths of a motion per
/// minute.
fn inverse_cap(ticks_per_second: u32, n: u64, feed: u64) -> u128
    requires ticks { 1 ≤ ticks_per_second }
    requires steps { n ≤ STEPS_LIMIT }
    ensures value { result ≡ inverse_cap ticks_per_second n feed }
    ensures bound { result < 2 ^ 115 }
{
    u128::from(n) * u128::from(feed) / (60 * u128::from(ticks_per_second))
}

/// Returns the cap of `n` path steps on a line of `length` nanometres.
fn line_cap(ticks_per_second: u32, n: u64, length: u64, feed: &Feed) -> u128
    requires ticks { 1 ≤ ticks_per_second }
    requires steps { n ≤ STEPS_LIMIT }
    requires length { length ≤ 10 ^ 12 }
    ensures value { result ≡ line_cap ticks_per_second n length feed.now }
    ensures bound { result < 2 ^ 115 }
{
    match feed {
        Feed::PerMinute(feed) => {
            if length == 0 {
                0
            } else {
                u128::from(n) * u128::from(*feed) * 1_000_000
                    / (u128::from(length) * 60 * u128::from(ticks_per_second))
            }
        }
        Feed::Inverse(feed) => inverse_cap(ticks_per_second, n, *feed),
    }
}

/// Returns the cap of `n` path steps on an arc, for steps of `step` nanometres.
fn arc_cap(ticks_per_second: u32, n: u64, step: u64, crosswise: u64, feed: &Feed) -> u128
    requires ticks { 1 ≤ ticks_per_second }
    requires steps { n ≤ STEPS_LIMIT }
    requires step_least { 1 ≤ step }
    requires step_greatest { step ≤ 50000 }
    requires crosswise_least { 1 ≤ crosswise }
    requires crosswise_greatest { crosswise ≤ 1733 }
    ensures value { result ≡ arc_cap ticks_per_second n step crosswise feed.now }
    ensures bound { result < 2 ^ 115 }
{
    match feed {
        Feed::PerMinute(feed) => {
            u128::from(*feed) * 1_000_000_000
                / (60 * u128::from(ticks_per_second) * u128::from(step) * u128::from(crosswise))
        }
        Feed::Inverse(feed) => inverse_cap(ticks_per_second, n, *feed),
    }
}

/// Returns the cap of `n` path steps on a path at a feed.
fn feed_cap<A: Allocator>(way: &Way, n: u64, feed: &Feed, machine: &Machine<A>) -> u128
    requires { n ≤ STEPS_LIMIT }
    ensures value { result ≡ feed_cap way.now n feed.now (file_of machine.now) }
    ensures bound { result < 2 ^ 115 }
{
    match way {
        Way::Line { start, end } => {
            let length = length_between(start, end);
            line_cap(machine.ticks_per_second, n, length, feed)
        }
        Way::Arc(arc) => {
            let step = machine.step.nanometres().unsigned_abs();
            arc_cap(machine.ticks_per_second, n, step, crosswise(arc), feed)
        }
    }
}

/// Returns the feed cap of a motion of `n` path steps, at most 10^9, in millionths of a path step
/// per tick. At a rapid pace it is the greatest rate, and otherwise what the feed allows, at least
/// 1. It is 0 for an action that is no motion.
pub fn cap_of<A: Allocator>(action: &Action, n: u64, machine: &Machine<A>) -> u128
    requires { n ≤ STEPS_LIMIT }
    ensures value { result ≡ cap_of action.now n (file_of machine.now) }
    ensures slow { KeepsFeed (file_of machine.now) action.now n result }
    ensures bound { result < 2 ^ 115 }
{
    match action {
        Action::Move(motion) => match &motion.pace {
            Pace::Rapid => u128::from(machine.max_rate),
            Pace::Feed(feed) => feed_cap(&motion.way, n, feed, machine).max(1),
        },
        _ => 0,
    }
}
