//! The margins to the travel limits.
ghost use Rattle.std.specs.Prelude.{◌≡◌, ◌≤◌, ◌-ℤ◌, ◌*ℤ◌, unsigned_abs};
ghost use Rattle.ngc_fixed_length.specs.Boxes.{grid_above, grid_below};
ghost use Rattle.ngc_fixed_length.specs.Length.{IsStep};
ghost use Rattle.ngc_machine_files.specs.Machine.{file_of};
ghost use Rattle.ngc_findings.specs.Extents.{travel_box};
ghost use Rattle.ngc_findings.specs.Rooms.{axis_space};

use ngc_fixed_length::{GridBox, Nm, StepPos, nanometres_at};
use ngc_machine_files::Machine;
use std::alloc::Allocator;

/// The margins between a box and the travel limits along an axis, in nanometres. If the box leaves
/// the travel, a margin is below zero by that distance.
#[derive(Clone, Copy)]
pub struct AxisSpace {
    pub below: i64,
    pub above: i64,
}

/// The margins along each axis. Travel limits needn't lie on the grid, so a margin isn't always a
/// whole number of steps.
#[derive(Clone, Copy)]
pub struct Room {
    pub x: AxisSpace,
    pub y: AxisSpace,
    pub z: AxisSpace,
}

// Returns the first grid point that isn't below a coordinate, in steps.
fn first_grid_point(step: Nm, coordinate: Nm) -> i32
    requires { IsStep step }
    ensures { result ≡ grid_above step coordinate }
{
    -(-coordinate.nanometres()).div_euclid(step.nanometres()) as i32
}

// Returns the last grid point that isn't above a coordinate, in steps.
fn last_grid_point(step: Nm, coordinate: Nm) -> i32
    requires { IsStep step }
    ensures { result ≡ grid_below step coordinate }
{
    coordinate.nanometres().div_euclid(step.nanometres()) as i32
}

/// Returns the box of the grid points within the travel limits.
pub(crate) fn travel_box<A: Allocator>(machine: &Machine<A>) -> GridBox
    ensures { result ≡ travel_box (file_of machine.now) }
{
    GridBox {
        low: StepPos {
            x: first_grid_point(machine.step, machine.low.x),
            y: first_grid_point(machine.step, machine.low.y),
            z: first_grid_point(machine.step, machine.low.z),
        },
        high: StepPos {
            x: last_grid_point(machine.step, machine.high.x),
            y: last_grid_point(machine.step, machine.high.y),
            z: last_grid_point(machine.step, machine.high.z),
        },
    }
}

fn space_below(step: Nm, low: i32, least: Nm) -> i64
    requires { IsStep step }
    ensures { result ≡ (low *ℤ step) -ℤ least }
{
    nanometres_at(step, low) - least.nanometres()
}

fn space_above(step: Nm, high: i32, greatest: Nm) -> i64
    requires { IsStep step }
    ensures { result ≡ greatest -ℤ (high *ℤ step) }
{
    greatest.nanometres() - nanometres_at(step, high)
}

fn axis_space(step: Nm, low: i32, high: i32, least: Nm, greatest: Nm) -> AxisSpace
    requires { IsStep step }
    ensures { result ≡ axis_space step low high least greatest }
{
    AxisSpace {
        below: space_below(step, low, least),
        above: space_above(step, high, greatest),
    }
}

impl AxisSpace {
    ghost use Rattle.ngc_findings.specs.Rooms.{is_inside_on};

    /// Returns whether the box stays within the travel on both sides of the axis.
    pub fn is_inside(&self) -> bool
        ensures { result ≡ is_inside_on self.now }
    {
        0 <= self.below && 0 <= self.above
    }
}

impl Room {
    ghost use Rattle.ngc_findings.specs.Rooms.{room, is_inside};

    /// Returns the margins between a box of grid points and a machine's travel limits.
    pub fn about<A: Allocator>(machine: &Machine<A>, bounds: &GridBox) -> Room
        ensures { result ≡ room (file_of machine.now) bounds.now }
    {
        let (low, high) = (&bounds.low, &bounds.high);
        Room {
            x: axis_space(machine.step, low.x, high.x, machine.low.x, machine.high.x),
            y: axis_space(machine.step, low.y, high.y, machine.low.y, machine.high.y),
            z: axis_space(machine.step, low.z, high.z, machine.low.z, machine.high.z),
        }
    }

    /// Returns whether the box stays within the travel.
    pub fn is_inside(&self) -> bool
        ensures { result ≡ is_inside self.now }
    {
        self.x.is_inside() && self.y.is_inside() && self.z.is_inside()
    }
}
