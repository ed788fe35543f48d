//! How far an interval of shifts can grow for programs to fit.
ghost use Rattle.std.specs.Prelude.{◌≡◌, ◌<◌, ◌≤◌, false, IsTrue, MatchOption};
ghost use Rattle.ngc_machine_files.specs.Machine.{file_of};
ghost use Rattle.ngc_commands.specs.Reached.{after};
ghost use Rattle.ngc_place.specs.Longest.{IsGrowth, hold_over};
ghost use Rattle.ngc_place.specs.Inside.{steps_left as left_on};
ghost use Rattle.ngc_place.specs.Growth.{clear_after, holds_after, IsLast, IsTurn};

use crate::fits::{Moving, action_is_clear, mark_at, reached_moves};
use crate::growing::Growing;
use crate::programs::Program;
use ngc_certificate::place_fault;
use ngc_commands::{Action, Reached};
use ngc_machine_files::Machine;
use std::alloc::Allocator;

/// The next action of a program, and what is reached before it.
#[derive(Clone, Copy)]
struct Next<'a> {
    reached: &'a Reached,
    moving: Moving,
    action: &'a Action,
}

/// Returns whether an action is clear when the interval is this number of steps longer.
#[tactic(none)]
fn is_clear_after<A: Allocator>(
    machine: &Machine<A>,
    growing: &Growing,
    next: &Next,
    steps: u32,
    cuts: u16,
) -> bool
    requires steps { steps ≤ left_on growing.now.side growing.now.interval }
    requires cuts { 1 ≤ cuts }
    ensures { result ≡ clear_after (file_of machine.now) cuts growing.now next.now.reached.now
        next.now.moving next.now.action.now steps }
{
    let shifts = growing.shifts(steps);
    action_is_clear(
        machine,
        next.reached,
        &shifts,
        next.moving,
        next.action,
        cuts,
    )
}

/// Returns the greatest number of steps below `over` by which the interval can grow for an action
/// to be clear, which it is with `clear` and not with `over`.
fn steps_between<A: Allocator>(
    machine: &Machine<A>,
    growing: &Growing,
    next: &Next,
    clear: u32,
    over: u32,
    cuts: u16,
) -> u32
    requires steps { over ≤ left_on growing.now.side growing.now.interval }
    requires cuts { 1 ≤ cuts }
    requires order { clear < over }
    requires clear { IsTrue (clear_after (file_of machine.now) cuts growing.now
        next.now.reached.now next.now.moving next.now.action.now clear) }
    requires over { clear_after (file_of machine.now) cuts growing.now next.now.reached.now
        next.now.moving next.now.action.now over ≡ false }
    ensures { IsTurn (clear_after (file_of machine.now) cuts growing.now next.now.reached.now
        next.now.moving next.now.action.now) over result }
{
    let mut steps = clear;
    let mut beyond = over;
    while beyond - steps > 1 {
        let middle = steps + (beyond - steps) / 2;
        if is_clear_after(machine, growing, next, middle, cuts) {
            steps = middle;
        } else {
            beyond = middle;
        }
    }
    steps
}

/// Returns the greatest number of steps, at most `bound`, by which the interval can grow for an
/// action to be clear. Returns `None` if it isn't clear over the interval itself.
fn action_growth<A: Allocator>(
    machine: &Machine<A>,
    growing: &Growing,
    next: &Next,
    bound: u32,
    cuts: u16,
) -> Option<u32>
    requires steps { bound ≤ left_on growing.now.side growing.now.interval }
    requires cuts { 1 ≤ cuts }
    ensures { MatchOption result
        (clear_after (file_of machine.now) cuts growing.now next.now.reached.now next.now.moving
        next.now.action.now 0 ≡ false)
        (IsLast (clear_after (file_of machine.now) cuts growing.now next.now.reached.now
        next.now.moving next.now.action.now) bound) }
{
    if is_clear_after(machine, growing, next, bound, cuts) {
        return Some(bound);
    }
    if !is_clear_after(machine, growing, next, 0, cuts) {
        return None;
    }
    // most actions let the interval grow almost as far as those before them
    let mut over = bound;
    let mut span = 1;
    while span < over {
        let fewer = over - span;
        if is_clear_after(machine, growing, next, fewer, cuts) {
            return Some(steps_between(machine, growing, next, fewer, over, cuts));
        }
        over = fewer;
        span *= 2;
    }
    Some(steps_between(machine, growing, next, 0, over, cuts))
}

/// Goes on after an action.
fn advance(reached: &mut Reached, action: &Action)
    ensures { reached.new ≡ after reached.old action.now }
{
    match action {
        Action::Move(motion) => reached.place = motion.way.end(),
        Action::Mount(tool) => reached.tool = *tool,
        _ => {}
    }
}

/// Returns the greatest number of steps, at most `bound`, by which the interval can grow for a
/// program to fit. Returns `None` if it doesn't fit over the interval itself.
fn program_growth<A: Allocator>(
    machine: &Machine<A>,
    growing: &Growing,
    program: &Program,
    bound: u32,
    cuts: u16,
) -> Option<u32>
    requires steps { bound ≤ left_on growing.now.side growing.now.interval }
    requires cuts { 1 ≤ cuts }
    ensures { MatchOption result
        (holds_after (file_of machine.now) cuts growing.now program.now 0 ≡ false)
        (IsLast (holds_after (file_of machine.now) cuts growing.now program.now) bound) }
{
    if place_fault(machine, None, &machine.start.to_grid(machine.step)).is_some() {
        return None;
    }
    let mut steps = bound;
    let mut reached = Reached::at_start(machine);
    let mut moves = false;
    for (index, command) in program.commands.iter().enumerate() {
        let end = match mark_at(program.moving, index) {
            Some(end) => end,
            None => return None,
        };
        let moving = Moving { start: moves, end };
        let next = Next {
            reached: &reached,
            moving,
            action: &command.action,
        };
        steps = match action_growth(machine, growing, &next, steps, cuts) {
            Some(fewer) => fewer,
            None => return None,
        };
        moves = reached_moves(moving, &command.action);
        advance(&mut reached, &command.action);
    }
    Some(steps)
}

/// Returns the greatest number of steps by which an interval can grow on one side for programs to
/// fit. Returns `None` if they don't fit over the interval itself.
///
/// Each action is judged once over the longest interval that the actions before it allow, and again
/// over shorter ones only if it isn't clear there.
pub(crate) fn growth<A: Allocator>(
    machine: &Machine<A>,
    programs: &[Program],
    growing: &Growing,
    cuts: u16,
) -> Option<u32>
    requires { 1 ≤ cuts }
    ensures { MatchOption result
        (hold_over (file_of machine.now) cuts growing.now.axis programs.now
        growing.now.interval ≡ false)
        (IsGrowth (file_of machine.now) cuts growing.now.axis programs.now growing.now.side
        growing.now.interval) }
{
    let mut steps = growing.interval.steps_left(growing.side);
    for program in programs {
        steps = match program_growth(machine, growing, program, steps, cuts) {
            Some(fewer) => fewer,
            None => return None,
        };
    }
    Some(steps)
}
