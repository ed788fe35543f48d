ghost use Rattle.std.specs.Prelude.{◌≡◌, ◌≤◌, ◌<◌, ◌^◌};
ghost use Rattle.ngc_machine_files.specs.Machine.{file_of};
ghost use Rattle.ngc_planner.specs.Components.{axes_bound};
ghost use Rattle.ngc_fixed_length.specs.Limits.{MILLION};
ghost use Rattle.ngc_planner.specs.Caps.{STEPS_LIMIT};
ghost use Rattle.ngc_planner.specs.Bounds.{IsMotion, arc_rate, turn_rate, turn_bound};
ghost use Rattle.ngc_planner.specs.Bounds.{greatest_rate, bound_of, overridden, aimed_at, target_at};
ghost use Rattle.ngc_planner.specs.Bounds.{is_turn_by_place, diagonal_rate, steady_turn_on, steady_turn};

use crate::caps::cap_of;
use crate::components::axes_rate;
use crate::turns::arc_turn;
use ngc_arc_geometry::Arc;
use ngc_commands::{Action, Way};
use ngc_fixed_length::root_floor;
use ngc_machine_files::{ArcFeed, Machine};
use std::alloc::Allocator;

/// Returns the greatest rate on an arc, for steps of `step` nanometres.
fn arc_rate(arc: &Arc, turn: u64, step: u64) -> u64
    requires turn { turn ≤ 10 ^ 12 }
    requires step_least { 1 ≤ step }
    requires step_greatest { step ≤ 50000 }
    ensures { result ≡ arc_rate turn step arc.now }
{
    let radius = arc.inner_radius().max(step);
    root_floor(u128::from(turn) * u128::from(radius) / u128::from(step))
}

/// Returns the greatest rate that the turn allows on an arc. On a line it returns
/// 1,000,000, which no rate exceeds.
pub fn turn_rate<A: Allocator>(way: &Way, machine: &Machine<A>) -> u64
    ensures { result ≡ turn_rate (file_of machine.now) way.now }
{
    match way {
        Way::Line { .. } => 1_000_000,
        Way::Arc(arc) => {
            let turn = arc_turn(arc, machine);
            arc_rate(arc, turn, machine.step.nanometres().unsigned_abs())
        }
    }
}

/// Returns the same for a motion, and 1,000,000 for any other action.
fn turn_bound<A: Allocator>(action: &Action, machine: &Machine<A>) -> u64
    ensures { result ≡ turn_bound (file_of machine.now) action.now }
{
    match action {
        Action::Move(motion) => turn_rate(&motion.way, machine),
        _ => 1_000_000,
    }
}

/// Returns the greatest rate that the axes allow on a motion of `n` path steps, and 1,000,000 for any
/// other action.
fn axes_bound<A: Allocator>(action: &Action, n: u64, machine: &Machine<A>) -> u32
    ensures { result ≡ axes_bound (file_of machine.now) action.now n }
{
    match action {
        Action::Move(motion) => axes_rate(&motion.way, n, machine),
        _ => 1_000_000,
    }
}

/// Returns the machine's greatest rate on the axes that a motion of `n` path steps may move.
fn greatest_rate<A: Allocator>(action: &Action, n: u64, machine: &Machine<A>) -> u32
    ensures value { result ≡ greatest_rate (file_of machine.now) action.now n }
    ensures greatest { result ≤ MILLION }
{
    machine.max_rate.min(axes_bound(action, n, machine))
}

/// Returns the greatest rate of any tick on a motion of `n` path steps, at most 10^9. It is the
/// least of the machine's greatest rate, the rate that the axes allow, twice the feed
/// cap, and the rate that the turn on an arc allows. It is 0 for an action that is no motion.
pub fn bound_of<A: Allocator>(action: &Action, n: u64, machine: &Machine<A>) -> u64
    requires { n ≤ STEPS_LIMIT }
    ensures value { result ≡ bound_of (file_of machine.now) action.now n }
    ensures least { IsMotion action.now → 1 ≤ result }
    ensures greatest { result ≤ MILLION }
{
    let twice = 2 * cap_of(action, n, machine);
    let greatest = u128::from(greatest_rate(action, n, machine)).min(twice) as u64;
    greatest.min(turn_bound(action, machine))
}

/// Returns a cap under an override in percent.
fn overridden(cap: u128, percent: u8) -> u128
    requires { cap < 2 ^ 115 }
    ensures { result ≡ overridden cap percent }
{
    if percent == 0 {
        0
    } else {
        (cap * u128::from(percent) / 100).max(1)
    }
}

/// Returns whether the machine's turn holds at each place of an arc.
pub(crate) fn is_turn_by_place(arc_feed: &ArcFeed) -> bool
    ensures { result ≡ is_turn_by_place arc_feed.now }
{
    match arc_feed {
        ArcFeed::Off | ArcFeed::Feed => false,
        ArcFeed::FeedAndTurn => true,
    }
}

/// Returns the part of the greatest rate on an arc that its turn allows where the arc runs
/// diagonally.
pub(crate) fn diagonal_rate(rate: u64) -> u64
    ensures { result ≡ diagonal_rate rate }
{
    (u128::from(rate) * 1_000 / 1_415).max(1) as u64
}

fn steady_turn_on<A: Allocator>(way: &Way, machine: &Machine<A>) -> u64
    ensures { result ≡ steady_turn_on (file_of machine.now) way.now }
{
    let rate = turn_rate(way, machine);
    match way {
        Way::Line { .. } => rate,
        Way::Arc(_) => {
            if is_turn_by_place(&machine.arc_feed) {
                diagonal_rate(rate)
            } else {
                rate
            }
        }
    }
}

/// Returns the greatest target that the turn allows at every place of a motion, and 1,000,000 for
/// any other action.
fn steady_turn<A: Allocator>(action: &Action, machine: &Machine<A>) -> u64
    ensures { result ≡ steady_turn (file_of machine.now) action.now }
{
    match action {
        Action::Move(motion) => steady_turn_on(&motion.way, machine),
        _ => 1_000_000,
    }
}

/// Returns the target rate of a tick on a motion of `n` path steps, from a cap, the greatest target
/// that its turn allows, and an override in percent.
pub(crate) fn aimed_at<A: Allocator>(
    action: &Action,
    n: u64,
    cap: u128,
    turn: u64,
    percent: u8,
    machine: &Machine<A>,
) -> u64
    requires { cap < 2 ^ 115 }
    ensures value { result ≡ aimed_at (file_of machine.now) action.now n cap turn percent }
    ensures greatest { result ≤ MILLION }
{
    let wanted = overridden(cap, percent);
    let greatest = wanted.min(u128::from(greatest_rate(action, n, machine))) as u64;
    greatest.min(turn)
}

/// Returns the target rate of a tick on a motion of `n` path steps, at most 10^9, under an override
/// in percent.
pub fn target_at<A: Allocator>(action: &Action, n: u64, percent: u8, machine: &Machine<A>) -> u64
    requires { n ≤ STEPS_LIMIT }
    ensures value { result ≡ target_at (file_of machine.now) action.now n percent }
    ensures least { IsMotion action.now → 1 ≤ percent → 1 ≤ result }
    ensures greatest { result ≤ MILLION }
{
    let turn = steady_turn(action, machine);
    aimed_at(
        action,
        n,
        cap_of(action, n, machine),
        turn,
        percent,
        machine,
    )
}
