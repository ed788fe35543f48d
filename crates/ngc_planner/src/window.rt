//! What a motion adds to the window of a joint, and the rates that a change of heading allows.
ghost use Rattle.std.specs.Prelude.{◌≡◌, ◌*◌, ◌^◌, ◌≤◌, ◌<◌, false, min};
ghost use Rattle.ngc_fixed_length.specs.Limits.{MILLION};
ghost use Rattle.ngc_machine_files.specs.Machine.{file_of};
ghost use Rattle.ngc_machine_files.specs.Ranges.{AreArcBounds};
ghost use Rattle.ngc_planner.specs.Window.{line_steps, way_at_greatest, way_round};
ghost use Rattle.ngc_planner.specs.Window.{turn_way, way_of, is_still, passing_heading, way_on};
ghost use Rattle.ngc_planner.specs.Headings.{AreDifferences};
ghost use Rattle.ngc_planner.specs.Joints.{may_head, heading_rate, axes_may_head, axes_heading_rate};
ghost use Rattle.ngc_planner.specs.Turns.{axis_turns};

use crate::displacement::{AxisDifferences, Displacement};
use crate::headings::{end_heading, turned_on};
use crate::turns::{arc_turn, axis_turns};
use ngc_arc_geometry::Arc;
use ngc_commands::{Action, Way};
use ngc_fixed_length::Point3;
use ngc_machine_files::{AxisTurns, Machine};
use std::alloc::Allocator;

/// Returns whether a rate may change its heading by `difference` millionths over `way` millionths of
/// a path step.
fn may_head(jump: u32, turn: u64, difference: u64, way: u64, rate: u64) -> bool
    requires jump { jump ≤ MILLION }
    requires turn { turn ≤ 10 ^ 12 }
    requires difference { difference ≤ 2000000 }
    requires way { way ≤ 409600000000000000 }
    requires rate { rate ≤ MILLION }
    ensures { result ≡ may_head jump turn difference way rate }
{
    let wanted = u128::from(rate * rate) * u128::from(difference);
    let jumped = 1_000_000 * (u128::from(jump) * u128::from(rate));
    wanted <= jumped + u128::from(turn) * u128::from(way)
}

/// Returns a lower rate than one that is too high, by a step of Newton's method. It is at least the
/// greatest rate that may change its heading so: the curve of what a rate takes up is convex.
fn nearer(rate: u64, jump: u32, turn: u64, difference: u64, way: u64) -> u64
    requires jump { jump ≤ MILLION }
    requires turn { turn ≤ 10 ^ 12 }
    requires difference { difference ≤ 2000000 }
    requires way { way ≤ 409600000000000000 }
    requires rate { rate ≤ MILLION }
    requires over { may_head jump turn difference way rate ≡ false }
    ensures less { result < rate }
    ensures above { heading_rate jump turn difference way ≤ result }
{
    let jumped = 1_000_000 * u64::from(jump);
    let allowed = u128::from(turn) * u128::from(way);
    let beyond = rate * rate * difference - jumped * rate - allowed as u64;
    let slope = 2 * (rate * difference) - jumped;
    rate - (beyond / slope).max(1)
}

/// Returns a rate, lowered to one that may change its heading by `difference` millionths over `way`
/// millionths of a path step.
fn lowered(rate: u64, jump: u32, turn: u64, difference: u64, way: u64) -> u64
    requires jump { jump ≤ MILLION }
    requires turn { turn ≤ 10 ^ 12 }
    requires difference { difference ≤ 2000000 }
    requires way { way ≤ 409600000000000000 }
    requires rate { rate ≤ MILLION }
    ensures value { result ≡ min rate (heading_rate jump turn difference way) }
    ensures greatest { result ≤ MILLION }
{
    let mut lowered = rate;
    while !may_head(jump, turn, difference, way, lowered) {
        lowered = nearer(lowered, jump, turn, difference, way);
    }
    lowered
}

/// Returns whether a rate may change its heading by these millionths on each axis over `way`
/// millionths of a path step.
fn each_may_head(
    jump: u32,
    turns: AxisTurns,
    differences: AxisDifferences,
    way: u64,
    rate: u64,
) -> bool
    requires jump { jump ≤ MILLION }
    requires turns { AreArcBounds turns }
    requires differences { AreDifferences differences }
    requires way { way ≤ 409600000000000000 }
    requires rate { rate ≤ MILLION }
    ensures { result ≡ axes_may_head jump turns differences way rate }
{
    may_head(jump, turns.x, differences.x, way, rate)
        && may_head(jump, turns.y, differences.y, way, rate)
        && may_head(jump, turns.z, differences.z, way, rate)
}

/// Returns the same for a machine. Where all axes have the same turn, only the greatest difference
/// counts.
pub(crate) fn axes_may_head<A: Allocator>(
    machine: &Machine<A>,
    differences: AxisDifferences,
    way: u64,
    rate: u64,
) -> bool
    requires differences { AreDifferences differences }
    requires way { way ≤ 409600000000000000 }
    requires rate { rate ≤ MILLION }
    ensures { result ≡
        axes_may_head machine.now.jump (axis_turns (file_of machine.now)) differences way rate }
{
    match &machine.own {
        None => may_head(
            machine.jump,
            machine.turn,
            differences.greatest(),
            way,
            rate,
        ),
        Some(_) => each_may_head(machine.jump, axis_turns(machine), differences, way, rate),
    }
}

/// Returns a rate, lowered to one that may change its heading by these millionths on each axis over
/// `way` millionths of a path step.
fn each_lowered(
    rate: u64,
    jump: u32,
    turns: AxisTurns,
    differences: AxisDifferences,
    way: u64,
) -> u64
    requires rate { rate ≤ MILLION }
    requires jump { jump ≤ MILLION }
    requires turns { AreArcBounds turns }
    requires differences { AreDifferences differences }
    requires way { way ≤ 409600000000000000 }
    ensures value { result ≡ min rate (axes_heading_rate jump turns differences way) }
    ensures greatest { result ≤ MILLION }
{
    let rate = lowered(rate, jump, turns.x, differences.x, way);
    let rate = lowered(rate, jump, turns.y, differences.y, way);
    lowered(rate, jump, turns.z, differences.z, way)
}

/// Returns the same for a machine. Where all axes have the same turn, only the greatest difference
/// counts.
pub(crate) fn axes_lowered<A: Allocator>(
    rate: u64,
    machine: &Machine<A>,
    differences: AxisDifferences,
    way: u64,
) -> u64
    requires rate { rate ≤ MILLION }
    requires differences { AreDifferences differences }
    requires way { way ≤ 409600000000000000 }
    ensures value { result ≡ min rate
        (axes_heading_rate machine.now.jump (axis_turns (file_of machine.now)) differences way) }
    ensures greatest { result ≤ MILLION }
{
    match &machine.own {
        None => lowered(
            rate,
            machine.jump,
            machine.turn,
            differences.greatest(),
            way,
        ),
        Some(_) => each_lowered(rate, machine.jump, axis_turns(machine), differences, way),
    }
}

/// Returns the path steps of a line. An arc between the same points has no fewer.
fn line_steps<A: Allocator>(start: &Point3, end: &Point3, machine: &Machine<A>) -> u64
    ensures value { result ≡ line_steps (file_of machine.now) start.now end.now }
    ensures bound { result ≤ 400000000 }
{
    let from = start.to_grid(machine.step);
    let to = end.to_grid(machine.step);
    u64::from(from.greatest_distance(&to))
}

/// Returns the distance over which an arc's turn allows a turn by `turned` millionths at the machine's
/// greatest rate, in millionths of a path step, rounded up.
fn way_at_greatest<A: Allocator>(machine: &Machine<A>, arc: &Arc, turned: u64) -> u64
    requires { turned ≤ 2000000 }
    ensures { result ≡ way_at_greatest (file_of machine.now) arc.now turned }
{
    let rate = u64::from(machine.max_rate);
    (turned * (rate * rate)).div_ceil(arc_turn(arc, machine))
}

/// Returns the same at the greatest rate that the turn allows on the arc.
fn way_round<A: Allocator>(machine: &Machine<A>, arc: &Arc, turned: u64) -> u64
    requires { turned ≤ 2000000 }
    ensures value { result ≡ way_round (file_of machine.now) arc.now turned }
    ensures bound { result ≤ 400000000000000 }
{
    let step = machine.step.nanometres().unsigned_abs();
    (turned * arc.inner_radius().max(step)).div_ceil(step)
}

/// Returns the distance that an arc's own turn needs, in millionths of a path step.
fn turn_way<A: Allocator>(machine: &Machine<A>, arc: &Arc) -> u64
    ensures value { result ≡ turn_way (file_of machine.now) arc.now }
    ensures bound { result ≤ 400000000000000 }
{
    let turned = turned_on(arc);
    way_round(machine, arc, turned).min(way_at_greatest(machine, arc, turned))
}

/// Returns the distance that a motion counts, in millionths of a path step.
pub(crate) fn way_of<A: Allocator>(way: &Way, machine: &Machine<A>) -> u64
    ensures value { result ≡ way_of (file_of machine.now) way.now }
    ensures bound { result ≤ 400000000000000 }
{
    match way {
        Way::Line { start, end } => line_steps(start, end, machine) * 1_000_000,
        Way::Arc(arc) => {
            let steps = line_steps(&arc.start(), &arc.end(), machine);
            (steps * 1_000_000).max(turn_way(machine, arc))
        }
    }
}

/// Returns whether a path is a line without path steps.
fn is_still<A: Allocator>(way: &Way, machine: &Machine<A>) -> bool
    ensures { result ≡ is_still (file_of machine.now) way.now }
{
    match way {
        Way::Line { start, end } => line_steps(start, end, machine) == 0,
        Way::Arc(_) => false,
    }
}

/// Returns the heading of an action at its end, if it is a motion with path steps that doesn't stop
/// there.
pub(crate) fn passing_heading<A: Allocator>(
    action: &Action,
    machine: &Machine<A>,
) -> Option<Displacement>
    ensures { result ≡ passing_heading (file_of machine.now) action.now }
{
    match action {
        Action::Move(motion) => {
            if motion.stop || is_still(&motion.way, machine) {
                None
            } else {
                end_heading(&motion.way)
            }
        }
        _ => None,
    }
}

/// Returns the distance that an action counts, in millionths of a path step: 0 if it is no motion.
pub(crate) fn way_on<A: Allocator>(action: &Action, machine: &Machine<A>) -> u64
    ensures value { result ≡ way_on (file_of machine.now) action.now }
    ensures bound { result ≤ 400000000000000 }
{
    match action {
        Action::Move(motion) => way_of(&motion.way, machine),
        _ => 0,
    }
}
