//! Whether a program fits the machine at each shift of its origin within a box of shifts.
ghost use Rattle.std.specs.Prelude.{◌≡◌, ◌+◌, ◌≤◌, ◌&&◌};
ghost use Rattle.std.specs.List.{slice_get};
ghost use Rattle.ngc_machine_files.specs.Machine.{file_of};
ghost use Rattle.ngc_collision.specs.Inside.{place_of};
ghost use Rattle.ngc_place.specs.Shifts.{AreShifts, end_moves as moves_after};
ghost use Rattle.ngc_place.specs.Shifts.{shifted as point_shifted, way_shifted};
ghost use Rattle.ngc_place.specs.Holds.{pieces_clear, way_clear, keeps_shape, place_clear};
ghost use Rattle.ngc_place.specs.Holds.{action_clear, holds as holds_over};
ghost use Rattle.ngc_place.specs.Inside.{box_clear, piece_clear, line_clear, arc_clear};

use crate::round::arc_box;
use crate::spots::{shifted, to_grid};
use crate::straight::{Cuts, Straight};
use ngc_arc_geometry::Arc;
use ngc_certificate::{most_pieces, place_fault};
use ngc_collision::{first_met, is_in_travel};
use ngc_commands::{Action, Command, Reached, Way};
use ngc_fixed_length::{GridBox, Point3};
use ngc_machine_files::{Machine, Tool};
use std::alloc::Allocator;

/// The numbers of pieces in which a line is tried, up to the greatest number allowed.
const POWERS_OF_TWO: [u16; 16] = [
    1, 2, 4, 8, 16, 32, 64, 128, 256, 512, 1024, 2048, 4096, 8192, 16384, 32768,
];

/// Returns whether all points of a box lie in the travel, and the tool meets no fixture there.
#[tactic(none)]
fn box_is_clear<A: Allocator>(machine: &Machine<A>, tool: &Option<Tool>, bounds: &GridBox) -> bool
    ensures { result ≡ box_clear (file_of machine.now) tool.now bounds.now }
{
    if !is_in_travel(machine, bounds) {
        return false;
    }
    first_met(machine, *tool, bounds).is_none()
}

/// Returns whether piece `k` of `count` of a line is clear, from the box of the piece at the lowest
/// shift to that at the highest.
fn piece_is_clear<A: Allocator>(
    machine: &Machine<A>,
    tool: &Option<Tool>,
    lowest: &Straight,
    highest: &Straight,
    k: u32,
    count: u32,
) -> bool
    requires limit { count ≤ 65535 }
    requires k { k + 1 ≤ count }
    ensures { result ≡ piece_clear (file_of machine.now) tool.now (place_of lowest.now.start)
        (place_of lowest.now.end) (place_of highest.now.start) (place_of highest.now.end)
        count k }
{
    let cuts = Cuts::of_piece(k, count);
    let low = lowest.low(machine.step, &cuts);
    let high = highest.high(machine.step, &cuts);
    box_is_clear(machine, tool, &GridBox { low, high })
}

/// Returns whether each of the pieces of a line in `count` is clear.
fn pieces_are_clear<A: Allocator>(
    machine: &Machine<A>,
    tool: &Option<Tool>,
    lowest: &Straight,
    highest: &Straight,
    count: u32,
) -> bool
    requires { count ≤ 65535 }
    ensures { result ≡ pieces_clear (file_of machine.now) tool.now (place_of lowest.now.start)
        (place_of lowest.now.end) (place_of highest.now.start) (place_of highest.now.end)
        count 0 count }
{
    for k in 0..count {
        if !piece_is_clear(machine, tool, lowest, highest, k, count) {
            return false;
        }
    }
    true
}

/// Returns whether a line is clear in one of the numbers of pieces that are tried.
fn line_is_clear<A: Allocator>(
    machine: &Machine<A>,
    tool: &Option<Tool>,
    lowest: &Straight,
    highest: &Straight,
    cuts: u16,
) -> bool
    ensures { result ≡ line_clear (file_of machine.now) cuts tool.now
        (place_of lowest.now.start) (place_of lowest.now.end)
        (place_of highest.now.start) (place_of highest.now.end) }
{
    for count in POWERS_OF_TWO {
        if count >= cuts {
            continue;
        }
        if pieces_are_clear(machine, tool, lowest, highest, u32::from(count)) {
            return true;
        }
    }
    pieces_are_clear(machine, tool, lowest, highest, u32::from(cuts))
}

/// Returns whether an arc that moves with the origin or not is clear undivided, over a box of
/// shifts.
fn arc_is_clear<A: Allocator>(
    machine: &Machine<A>,
    tool: &Option<Tool>,
    shifts: &GridBox,
    moves: bool,
    arc: &Arc,
) -> bool
    requires { AreShifts shifts.now }
    ensures { result ≡ arc_clear (file_of machine.now) tool.now shifts.now moves arc.now }
{
    box_is_clear(machine, tool, &arc_box(machine.step, shifts, moves, arc))
}

/// Whether the start and the end of a path move with the origin.
#[derive(Clone, Copy)]
pub(crate) struct Moving {
    pub(crate) start: bool,
    pub(crate) end: bool,
}

/// Returns whether a path keeps its shape and is clear, over a box of shifts.
fn way_is_clear<A: Allocator>(
    machine: &Machine<A>,
    tool: &Option<Tool>,
    shifts: &GridBox,
    moving: Moving,
    way: &Way,
    cuts: u16,
) -> bool
    requires { AreShifts shifts.now }
    ensures { result ≡ (keeps_shape moving.start moving.end way.now
        && way_clear (file_of machine.now) cuts tool.now
        (way_shifted machine.now.step shifts.now.low moving.start moving.end way.now)
        (way_shifted machine.now.step shifts.now.high moving.start moving.end way.now)) }
{
    let step = machine.step;
    match way {
        Way::Line { start, end } => {
            let lowest = Straight::new(step, &shifts.low, moving.start, moving.end, start, end);
            let highest = Straight::new(step, &shifts.high, moving.start, moving.end, start, end);
            line_is_clear(machine, tool, &lowest, &highest, cuts)
        }
        Way::Arc(arc) => {
            if moving.start != moving.end {
                return false;
            }
            arc_is_clear(machine, tool, shifts, moving.end, arc)
        }
    }
}

/// Returns whether a tool that is mounted at a point meets no fixture there, over a box of shifts.
fn place_is_clear<A: Allocator>(
    machine: &Machine<A>,
    tool: &Option<Tool>,
    shifts: &GridBox,
    moves: bool,
    place: &Point3,
) -> bool
    requires { AreShifts shifts.now }
    ensures { result ≡ place_clear (file_of machine.now) tool.now
        (point_shifted machine.now.step shifts.now.low moves place.now)
        (point_shifted machine.now.step shifts.now.high moves place.now) }
{
    let step = machine.step;
    let low = to_grid(step, &shifted(step, &shifts.low, moves, place));
    let high = to_grid(step, &shifted(step, &shifts.high, moves, place));
    first_met(machine, *tool, &GridBox { low, high }).is_none()
}

/// Returns whether an action is clear over a box of shifts.
pub(crate) fn action_is_clear<A: Allocator>(
    machine: &Machine<A>,
    reached: &Reached,
    shifts: &GridBox,
    moving: Moving,
    action: &Action,
    cuts: u16,
) -> bool
    requires shifts { AreShifts shifts.now }
    requires cuts { 1 ≤ cuts }
    ensures { result ≡ action_clear (file_of machine.now) cuts shifts.now reached.now moving.start
        moving.end action.now }
{
    match action {
        Action::Move(motion) => {
            let cuts = most_pieces(machine, cuts, &motion.pace);
            way_is_clear(machine, &reached.tool, shifts, moving, &motion.way, cuts)
        }
        Action::Mount(tool) => place_is_clear(machine, tool, shifts, moving.start, &reached.place),
        _ => true,
    }
}

/// Returns whether the point that is reached moves with the origin, after an action.
pub(crate) fn reached_moves(moving: Moving, action: &Action) -> bool
    ensures { result ≡ moves_after moving.start moving.end action.now }
{
    match action {
        Action::Move(_) => moving.end,
        _ => moving.start,
    }
}

/// Returns the mark with this index, if there is one.
pub(crate) fn mark_at(moving: &[bool], index: usize) -> Option<bool>
    ensures { result ≡ slice_get moving.now index }
{
    moving.get(index).copied()
}

/// Returns whether a program fits the machine at each shift of its origin within a box of shifts.
///
/// `moving` has a mark for each command: whether the end of the motion moves with the origin. It
/// doesn't where the machine fixes it, as for G28, G30 and G53. A motion starts where the one
/// before it ends, and the first at the machine's start, which doesn't move. The result is false if
/// a mark is missing, or if one end of an arc moves and the other doesn't. Shifts are whole steps,
/// at most 4,000,000 along each axis.
///
/// Lines are tried in 1, 2, 4 and so on pieces below `cuts`, and then in `cuts`, which is at least
/// 1; arcs are undivided, and so are traverses if the control may take any way to their end. If the result is true, motions are made of the shifted commands with
/// these `cuts` at each shift of the box, by the law `holds_is_made`. No memory is allocated.
pub fn holds<A: Allocator>(
    machine: &Machine<A>,
    commands: &[Command],
    moving: &[bool],
    shifts: &GridBox,
    cuts: u16,
) -> bool
    requires shifts { AreShifts shifts.now }
    requires cuts { 1 ≤ cuts }
    ensures { result ≡ holds_over (file_of machine.now) cuts shifts.now moving.now commands.now }
{
    if place_fault(machine, None, &machine.start.to_grid(machine.step)).is_some() {
        return false;
    }
    let mut reached = Reached::at_start(machine);
    let mut moves = false;
    for (index, command) in commands.iter().enumerate() {
        let end = match mark_at(moving, index) {
            Some(end) => end,
            None => return false,
        };
        let ends = Moving { start: moves, end };
        if !action_is_clear(machine, &reached, shifts, ends, &command.action, cuts) {
            return false;
        }
        moves = reached_moves(ends, &command.action);
        reached = reached.after(&command.action);
    }
    true
}
