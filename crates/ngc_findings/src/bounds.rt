//! The extent of a program.
ghost use Rattle.std.specs.Prelude.{◌≡◌, ◌<◌, ◌∷◌, ◌+ℤ◌, ◌-ℤ◌, [], fold, length, map, pos};
ghost use Rattle.ngc_certificate_text.specs.Certificate.{entry_at};
ghost use Rattle.std.specs.Int.{int_min, int_max};
ghost use Rattle.ngc_commands.specs.Movement.{ways_of};
ghost use Rattle.ngc_fixed_length.specs.Length.{IsStep};
ghost use Rattle.ngc_machine_files.specs.Machine.{file_of};
ghost use Rattle.ngc_fixed_length.specs.Boxes.{common_box, lesser_corner, greater_corner};
ghost use Rattle.ngc_findings.specs.Extents.{boxes_of, joint_box, reach, extent, extent_in_travel};
ghost use Rattle.ngc_findings.specs.Extents.{fit_extent};
ghost use Rattle.ngc_findings.specs.Extents.{next_corner, previous_corner, shrunk, cut_reach};
ghost use Rattle.ngc_findings.specs.Extents.{reach_in_pieces};

use crate::travel::travel_box;
use ngc_arc_geometry::{Arc, GridArc};
use ngc_certificate_text::MotionList;
use ngc_commands::{Action, Command, Way};
use ngc_fixed_length::{GridBox, Nm, StepPos};
use ngc_machine_files::Machine;
use std::alloc::Allocator;

pub(crate) fn joint_box(one: &GridBox, other: &GridBox) -> GridBox
    ensures { result ≡ joint_box one.now other.now }
{
    GridBox {
        low: one.low.lesser(&other.low),
        high: one.high.greater(&other.high),
    }
}

/// Returns the box in which every path of a motion lies. The step is 500 to 50,000 nm.
pub fn reach(step: Nm, way: &Way) -> GridBox
    requires { IsStep step }
    ensures { result ≡ reach step way.now }
{
    match way {
        Way::Line { start, end } => GridBox::between(&start.to_grid(step), &end.to_grid(step)),
        Way::Arc(arc) => arc.swept_box(step),
    }
}

/// Returns the lesser of `low` plus 1 and `other`.
fn lesser_next(low: i32, other: i32) -> i32
    ensures { result ≡ int_min (low +ℤ pos 1) other }
{
    if low < other { low + 1 } else { other }
}

/// Returns the greater of `high` minus 1 and `other`.
fn greater_previous(high: i32, other: i32) -> i32
    ensures { result ≡ int_max (high -ℤ pos 1) other }
{
    if other < high { high - 1 } else { other }
}

fn lesser_corner(low: &StepPos, other: &StepPos) -> StepPos
    ensures { result ≡ lesser_corner (next_corner low.now) other.now }
{
    StepPos {
        x: lesser_next(low.x, other.x),
        y: lesser_next(low.y, other.y),
        z: lesser_next(low.z, other.z),
    }
}

fn greater_corner(high: &StepPos, other: &StepPos) -> StepPos
    ensures { result ≡ greater_corner (previous_corner high.now) other.now }
{
    StepPos {
        x: greater_previous(high.x, other.x),
        y: greater_previous(high.y, other.y),
        z: greater_previous(high.z, other.z),
    }
}

fn joint_with_shrunk(bounds: &GridBox, other: &GridBox) -> GridBox
    ensures { result ≡ joint_box (shrunk bounds.now) other.now }
{
    GridBox {
        low: lesser_corner(&bounds.low, &other.low),
        high: greater_corner(&bounds.high, &other.high),
    }
}

fn cut_reach(arc: &Arc, step: Nm) -> GridBox
    requires { IsStep step }
    ensures { result ≡ cut_reach step arc.now }
{
    let pieces = GridArc::new(*arc, step);
    let start = arc.start().in_plane(arc.plane());
    let end = arc.end().in_plane(arc.plane());
    let ends = joint_box(&pieces.cut_box(&start, &start), &pieces.cut_box(&end, &end));
    joint_with_shrunk(&arc.swept_box(step), &ends)
}

/// Returns the box of all pieces of a motion, if a large arc is cut a step inside at each quadrant
/// point. The step is 500 to 50,000 nm.
///
/// The box is a step smaller than `reach` on a side where a large arc passes a quadrant point.
pub(crate) fn reach_in_pieces(step: Nm, way: &Way) -> GridBox
    requires { IsStep step }
    ensures { result ≡ reach_in_pieces step way.now }
{
    match way {
        Way::Line { .. } => reach(step, way),
        Way::Arc(arc) => {
            if GridArc::new(*arc, step).is_large() {
                cut_reach(arc, step)
            } else {
                arc.swept_box(step)
            }
        }
    }
}

fn with_action(step: Nm, bounds: GridBox, action: &Action) -> GridBox
    requires { IsStep step }
    ensures { result ≡ fold joint_box bounds (map (reach step) (ways_of (action.now ∷ []))) }
{
    match action {
        Action::Move(motion) => joint_box(&bounds, &reach(step, &motion.way)),
        _ => bounds,
    }
}

/// Returns the least box of grid points that holds the start point and the box of each motion.
pub fn extent<A: Allocator>(machine: &Machine<A>, commands: &[Command]) -> GridBox
    ensures { result ≡ extent (file_of machine.now) commands.now }
{
    let mut bounds = GridBox::only(machine.start.to_grid(machine.step));
    for command in commands {
        bounds = with_action(machine.step, bounds, &command.action);
    }
    bounds
}

fn common_box(one: &GridBox, other: &GridBox) -> GridBox
    ensures { result ≡ common_box one.now other.now }
{
    GridBox {
        low: one.low.greater(&other.low),
        high: one.high.lesser(&other.high),
    }
}

/// Returns the part of the extent that lies within the travel limits. It contains each position of
/// a program that fits.
pub fn extent_in_travel<A: Allocator>(machine: &Machine<A>, commands: &[Command]) -> GridBox
    ensures { result ≡ extent_in_travel (file_of machine.now) commands.now }
{
    common_box(&extent(machine, commands), &travel_box(machine))
}

// Returns the least box that holds a box and those of the pieces of motion `i`.
fn with_pieces<M: MotionList>(bounds: GridBox, motions: &M, i: usize) -> GridBox
    requires { i < length (M.entries motions.now) }
    ensures { result ≡ fold joint_box bounds (boxes_of (entry_at (M.entries motions.now) i)) }
{
    let mut joint = bounds;
    for k in 0..motions.piece_count(i) {
        joint = joint_box(&joint, &motions.piece(i, k).bounds);
    }
    joint
}

/// Returns the least box of grid points that holds the start point and the box of each piece of the
/// motions.
///
/// If the motions are those of a certificate, each position of the program lies in this box. It is
/// smaller than `extent` if an arc is cut.
pub fn fit_extent<A: Allocator, M: MotionList>(machine: &Machine<A>, motions: &M) -> GridBox
    ensures { result ≡ fit_extent (file_of machine.now) (M.entries motions.now) }
{
    let mut bounds = GridBox::only(machine.start.to_grid(machine.step));
    for i in 0..motions.count() {
        bounds = with_pieces(bounds, motions, i);
    }
    bounds
}
