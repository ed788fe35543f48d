//! Which commands of a program move with its origin.
ghost use Rattle.std.specs.Prelude.{◌≡◌, ◌≢◌, ◌≤◌, List, Bool, true, false, IfOk, MatchOption};
ghost use Rattle.std.specs.Prelude.{unsigned_abs, ◌+ℤ◌, ◌*ℤ◌};
ghost use Rattle.ngc_fixed_length.specs.Length.{IsStep};
ghost use Rattle.ngc_fixed_length.specs.Places.{shifted as moved_in_plane, in_plane};
ghost use Rattle.ngc_collision.specs.Body.{nanometres_of};
ghost use Rattle.ngc_collision.specs.Inside.{place_of};
ghost use Rattle.ngc_place.specs.Shifts.{SHIFT_LIMIT, IsShift, arc_shifted, way_shifted};
ghost use Rattle.ngc_place.specs.Shifts.{action_shifted};
ghost use Rattle.ngc_commands.specs.declared.command.Action.TheVariants.{Move};
ghost use Rattle.ngc_place.specs.Marks.{AreMarks};

use crate::alike::{mounts, same_arc, sets_coolant, sets_spindle};
use crate::fits::{Moving, reached_moves};
use crate::programs::Program;
use crate::spots::{moved, shifted};
use ngc_arc_geometry::Arc;
use ngc_collision::Place;
use ngc_commands::{Action, Command, Motion, Way};
use ngc_fixed_length::{Nm, Plane, Point2, Point3, StepPos};
use std::alloc::{AllocError, Allocator};

/// Returns whether a place is at a point.
fn is_at(place: &Place, point: &Point3) -> bool
    ensures yes { result ≡ true → place_of place.now ≡ point.now }
    ensures no { result ≡ false → place_of place.now ≢ point.now }
{
    place.x == point.x.nanometres()
        && place.y == point.y.nanometres()
        && place.z == point.z.nanometres()
}

/// Returns whether a coordinate is another one plus this number of steps.
fn is_moved(step: Nm, by: i32, coordinate: Nm, other: Nm) -> bool
    requires step { IsStep step }
    requires by { unsigned_abs by ≤ SHIFT_LIMIT }
    ensures yes { result ≡ true → coordinate +ℤ (by *ℤ step) ≡ other }
    ensures no { result ≡ false → coordinate +ℤ (by *ℤ step) ≢ other }
{
    moved(step, by, coordinate) == other.nanometres()
}

/// Returns whether a point of a plane is another one shifted with the origin.
fn is_centre_moved(step: Nm, by: &StepPos, plane: Plane, centre: &Point2, other: &Point2) -> bool
    requires step { IsStep step }
    requires by { IsShift by.now }
    ensures yes { result ≡ true →
        moved_in_plane centre.now (in_plane plane (nanometres_of step by.now)) ≡ other.now }
    ensures no { result ≡ false →
        moved_in_plane centre.now (in_plane plane (nanometres_of step by.now)) ≢ other.now }
{
    let (u, v) = match plane {
        Plane::XY => (by.x, by.y),
        Plane::ZX => (by.z, by.x),
        Plane::YZ => (by.y, by.z),
    };
    is_moved(step, u, centre.u, other.u) && is_moved(step, v, centre.v, other.v)
}

/// Returns whether an arc is another one shifted with the origin as a whole.
fn is_arc_moved(step: Nm, by: &StepPos, arc: &Arc, other: &Arc) -> bool
    requires step { IsStep step }
    requires by { IsShift by.now }
    ensures yes { result ≡ true → arc_shifted step by.now true arc.now ≡ other.now }
    ensures no { result ≡ false → arc_shifted step by.now true arc.now ≢ other.now }
{
    arc.plane() == other.plane()
        && arc.turn() == other.turn()
        && is_at(&shifted(step, by, true, &arc.start()), &other.start())
        && is_at(&shifted(step, by, true, &arc.end()), &other.end())
        && is_centre_moved(step, by, arc.plane(), &arc.centre(), &other.centre())
}

/// Returns whether an arc is another one that moves with the origin or not.
fn is_arc_shifted(step: Nm, by: &StepPos, moves: bool, arc: &Arc, other: &Arc) -> bool
    requires step { IsStep step }
    requires by { IsShift by.now }
    ensures yes { result ≡ true → arc_shifted step by.now moves arc.now ≡ other.now }
    ensures no { result ≡ false → arc_shifted step by.now moves arc.now ≢ other.now }
{
    if moves {
        is_arc_moved(step, by, arc, other)
    } else {
        same_arc(arc, other)
    }
}

/// Returns whether a path is another one whose start and end move with the origin or not.
fn is_way_shifted(step: Nm, by: &StepPos, moving: Moving, way: &Way, other: &Way) -> bool
    requires step { IsStep step }
    requires by { IsShift by.now }
    ensures yes { result ≡ true →
        way_shifted step by.now moving.start moving.end way.now ≡ other.now }
    ensures no { result ≡ false →
        way_shifted step by.now moving.start moving.end way.now ≢ other.now }
{
    match (way, other) {
        (Way::Line { start, end }, Way::Line { start: s, end: e }) => {
            is_at(&shifted(step, by, moving.start, start), s)
                && is_at(&shifted(step, by, moving.end, end), e)
        }
        (Way::Arc(arc), Way::Arc(other)) => is_arc_shifted(step, by, moving.end, arc, other),
        _ => false,
    }
}

/// Returns whether a motion is another action, whose start and end move with the origin or not.
fn is_motion_shifted(
    step: Nm,
    by: &StepPos,
    moving: Moving,
    motion: &Motion,
    other: &Action,
) -> bool
    requires step { IsStep step }
    requires by { IsShift by.now }
    ensures yes { result ≡ true →
        action_shifted step by.now moving.start moving.end (Move motion.now) ≡ other.now }
    ensures no { result ≡ false →
        action_shifted step by.now moving.start moving.end (Move motion.now) ≢ other.now }
{
    match other {
        Action::Move(other) => {
            motion.pace == other.pace
                && motion.stop == other.stop
                && is_way_shifted(step, by, moving, &motion.way, &other.way)
        }
        _ => false,
    }
}

/// Returns whether an action is another one whose start and end move with the origin or not.
fn is_action_shifted(
    step: Nm,
    by: &StepPos,
    moving: Moving,
    action: &Action,
    other: &Action,
) -> bool
    requires step { IsStep step }
    requires by { IsShift by.now }
    ensures yes { result ≡ true →
        action_shifted step by.now moving.start moving.end action.now ≡ other.now }
    ensures no { result ≡ false →
        action_shifted step by.now moving.start moving.end action.now ≢ other.now }
{
    match action {
        Action::Move(motion) => is_motion_shifted(step, by, moving, motion, other),
        Action::Mount(tool) => mounts(tool, other),
        Action::Spindle(state) => sets_spindle(state, other),
        Action::Coolant(state) => sets_coolant(state, other),
        Action::Dwell(time) => match other {
            Action::Dwell(same) => time == same,
            _ => false,
        },
        Action::Override(on) => match other {
            Action::Override(same) => on == same,
            _ => false,
        },
        Action::Stop => matches!(other, Action::Stop),
        Action::OptionalStop => matches!(other, Action::OptionalStop),
        Action::End => matches!(other, Action::End),
    }
}

/// Returns whether the end of an action moves with the origin, where another action is this one
/// with the origin shifted. Returns `None` if it isn't.
fn mark_of(step: Nm, by: &StepPos, start: bool, action: &Action, other: &Action) -> Option<bool>
    requires step { IsStep step }
    requires by { IsShift by.now }
    ensures { MatchOption result
        ((end : Bool) → action_shifted step by.now start end action.now ≢ other.now)
        (λ end. action_shifted step by.now start end action.now ≡ other.now) }
{
    let stays = Moving { start, end: false };
    if is_action_shifted(step, by, stays, action, other) {
        return Some(false);
    }
    let moves = Moving { start, end: true };
    if is_action_shifted(step, by, moves, action, other) {
        return Some(true);
    }
    None
}

/// Returns a mark for each command of a program: whether the end of the motion moves with the
/// origin. `others` are the commands of the program with the origin shifted by `by`, as they are
/// executed.
///
/// Returns `None` if no marks explain `others` (*AreMarks*). The marks are shown for this shift
/// alone. Shifts are whole steps, at most 4,000,000 along each axis. It fails if memory is refused.
pub fn marks<A: Allocator>(
    alloc: A,
    step: Nm,
    by: &StepPos,
    commands: &[Command],
    others: &[Command],
) -> Result<Option<Vec<bool, A>>, AllocError>
    requires step { IsStep step }
    requires by { IsShift by.now }
    ensures { IfOk result (λ found. MatchOption found
        ((marks : List Bool) → ¬ AreMarks step by.now commands.now others.now marks)
        (λ marks. AreMarks step by.now commands.now others.now marks.items)) }
{
    let mut marks = Vec::with_capacity(alloc, commands.len())?;
    if commands.len() != others.len() {
        return Ok(None);
    }
    let mut start = false;
    for (index, command) in commands.iter().enumerate() {
        let other = &others[index];
        let end = match mark_of(step, by, start, &command.action, &other.action) {
            Some(end) => end,
            None => return Ok(None),
        };
        marks.push(end)?;
        start = reached_moves(Moving { start, end }, &command.action);
    }
    Ok(Some(marks))
}

/// Returns whether commands are those of a program with the origin shifted by `by`, where the marks
/// of the program state which commands move (*AreMarks*).
pub fn are_shifted(step: Nm, by: &StepPos, program: &Program, others: &[Command]) -> bool
    requires step { IsStep step }
    requires by { IsShift by.now }
    ensures yes { result ≡ true →
        AreMarks step by.now program.now.commands.now others.now program.now.moving.now }
    ensures no { result ≡ false →
        ¬ AreMarks step by.now program.now.commands.now others.now program.now.moving.now }
{
    let (commands, marks) = (program.commands, program.moving);
    if commands.len() != others.len() {
        return false;
    }
    if commands.len() != marks.len() {
        return false;
    }
    let mut start = false;
    for (index, command) in commands.iter().enumerate() {
        let other = &others[index];
        let moving = Moving {
            start,
            end: marks[index],
        };
        if !is_action_shifted(step, by, moving, &command.action, &other.action) {
            return false;
        }
        start = reached_moves(moving, &command.action);
    }
    true
}
