//! How sharply each axis may turn.
ghost use Rattle.std.specs.Prelude.{◌≡◌, ◌^◌, ◌≤◌};
ghost use Rattle.ngc_machine_files.specs.Machine.{file_of};
ghost use Rattle.ngc_machine_files.specs.Ranges.{AreArcBounds};
ghost use Rattle.ngc_planner.specs.Turns.{axis_turns, plane_turn, arc_turn};

use ngc_arc_geometry::Arc;
use ngc_fixed_length::Plane;
use ngc_machine_files::{AxisTurns, Machine};
use std::alloc::Allocator;

/// Returns the turn of each axis: the machine's, or on a machine with limits of each axis the axis'
/// own, if that is less.
pub(crate) fn axis_turns<A: Allocator>(machine: &Machine<A>) -> AxisTurns
    ensures value { result ≡ axis_turns (file_of machine.now) }
    ensures bounds { AreArcBounds result }
{
    let turn = machine.turn;
    match &machine.own {
        None => AxisTurns {
            x: turn,
            y: turn,
            z: turn,
        },
        Some(limits) => AxisTurns {
            x: turn.min(limits.turns.x),
            y: turn.min(limits.turns.y),
            z: turn.min(limits.turns.z),
        },
    }
}

/// Returns the lesser turn of the two axes of a plane.
fn plane_turn(plane: Plane, turns: &AxisTurns) -> u64
    ensures { result ≡ plane_turn plane turns.now }
{
    match plane {
        Plane::XY => turns.x.min(turns.y),
        Plane::ZX => turns.z.min(turns.x),
        Plane::YZ => turns.y.min(turns.z),
    }
}

/// Returns the turn on an arc, 1 to 10^12: the lesser of its plane's two axes.
pub(crate) fn arc_turn<A: Allocator>(arc: &Arc, machine: &Machine<A>) -> u64
    ensures value { result ≡ arc_turn (file_of machine.now) arc.now }
    ensures least { 1 ≤ result }
    ensures greatest { result ≤ 10 ^ 12 }
{
    plane_turn(arc.plane(), &axis_turns(machine))
}
