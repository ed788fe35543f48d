ghost use Rattle.std.specs.Prelude.{◌≡◌, ◌≤◌, min};
ghost use Rattle.ngc_fixed_length.specs.Length.{IsStep};
ghost use Rattle.ngc_fixed_length.specs.Limits.{MILLION};
ghost use Rattle.ngc_machine_files.specs.Machine.{file_of};
ghost use Rattle.ngc_planner.specs.Axes.{least_rate};
ghost use Rattle.ngc_planner.specs.Components.{steps_between, third_rate, third_steps, plane_axes};
ghost use Rattle.ngc_planner.specs.Components.{by_component, least_component, component_rate};
ghost use Rattle.ngc_planner.specs.Components.{axes_rate, axes_change};
ghost use Rattle.ngc_planner.specs.Components.{change_along, change_of};

use crate::axes::{Axes, axes_of, least_rate};
use ngc_commands::{Action, Way};
use ngc_fixed_length::{Nm, Plane, StepPos};
use ngc_machine_files::{AxisLimits, AxisRates, Machine};
use std::alloc::Allocator;

/// The grid steps by which two grid points differ on each axis.
#[derive(Clone, Copy)]
pub struct AxisSteps {
    pub x: u32,
    pub y: u32,
    pub z: u32,
}

fn steps_between(start: &StepPos, end: &StepPos) -> AxisSteps
    ensures { result ≡ steps_between start.now end.now }
{
    AxisSteps {
        x: start.x.abs_diff(end.x),
        y: start.y.abs_diff(end.y),
        z: start.z.abs_diff(end.z),
    }
}

fn plane_axes(plane: Plane) -> Axes
    ensures { result ≡ plane_axes plane }
{
    let none = Axes {
        x: false,
        y: false,
        z: false,
    };
    none.with_plane(plane)
}

/// Returns the rate of the axis that isn't in a plane.
fn third_rate(plane: Plane, rates: &AxisRates) -> u32
    ensures { result ≡ third_rate plane rates.now }
{
    match plane {
        Plane::XY => rates.z,
        Plane::ZX => rates.y,
        Plane::YZ => rates.x,
    }
}

/// Returns the steps of the axis that isn't in a plane.
fn third_steps(plane: Plane, steps: AxisSteps) -> u32
    ensures { result ≡ third_steps plane steps }
{
    match plane {
        Plane::XY => steps.z,
        Plane::ZX => steps.y,
        Plane::YZ => steps.x,
    }
}

/// Returns the greatest rate, up to 1,000,000, at which an axis keeps a limit that moves by `steps`
/// grid steps in `n` path steps.
fn by_component(limit: u32, n: u64, steps: u32) -> u32
    ensures { result ≡ by_component limit n steps }
{
    if steps == 0 {
        return 1_000_000;
    }
    let most = u128::from(limit) * u128::from(n.max(u64::from(steps)));
    (most / u128::from(steps)).min(1_000_000) as u32
}

fn least_component(limits: &AxisRates, n: u64, steps: AxisSteps) -> u32
    ensures { result ≡ least_component limits.now n steps }
{
    let x = by_component(limits.x, n, steps.x);
    let y = by_component(limits.y, n, steps.y);
    let z = by_component(limits.z, n, steps.z);
    x.min(y.min(z))
}

/// Returns the greatest rate on an arc at which the axes of its plane keep their limits, and the
/// third axis by the arc's height.
fn arc_component(limits: &AxisRates, n: u64, plane: Plane, steps: AxisSteps) -> u32
    ensures { result ≡ min (least_rate limits.now (plane_axes plane))
        (by_component (third_rate plane limits.now) n (third_steps plane steps)) }
{
    let third = by_component(third_rate(plane, limits), n, third_steps(plane, steps));
    least_rate(limits, plane_axes(plane)).min(third)
}

/// Returns the greatest rate, up to 1,000,000, at which each axis keeps its limit on a path of `n`
/// path steps.
fn component_rate(limits: &AxisRates, step: Nm, way: &Way, n: u64) -> u32
    requires { IsStep step }
    ensures { result ≡ component_rate limits.now step way.now n }
{
    match way {
        Way::Line { start, end } => {
            let steps = steps_between(&start.to_grid(step), &end.to_grid(step));
            least_component(limits, n, steps)
        }
        Way::Arc(arc) => {
            let steps = steps_between(&arc.start().to_grid(step), &arc.end().to_grid(step));
            arc_component(limits, n, arc.plane(), steps)
        }
    }
}

/// Returns the greatest rate that the axes allow on a path of `n` path steps, at most 1,000,000. On
/// a machine with limits of each axis each axis has its share of the rate. On any other machine it
/// is the least rate of the axes that the motion may move, and 1,000,000 if it moves none.
pub(crate) fn axes_rate<A: Allocator>(way: &Way, n: u64, machine: &Machine<A>) -> u32
    ensures { result ≡ axes_rate (file_of machine.now) way.now n }
{
    match &machine.own {
        None => least_rate(&machine.axis_rates, axes_of(way, machine.step)),
        Some(_) => component_rate(&machine.axis_rates, machine.step, way, n),
    }
}

/// Returns the greatest change that the axes allow on a path of `n` path steps, at most 1,000,000.
fn axes_change(changes: &AxisRates, step: Nm, way: &Way, n: u64) -> u32
    requires { IsStep step }
    ensures { result ≡ axes_change changes.now step way.now n }
{
    match way {
        Way::Line { start, end } => {
            let steps = steps_between(&start.to_grid(step), &end.to_grid(step));
            least_component(changes, n, steps)
        }
        Way::Arc(_) => least_rate(changes, axes_of(way, step)),
    }
}

fn change_along<A: Allocator>(way: &Way, n: u64, machine: &Machine<A>) -> u32
    ensures { result ≡ change_along machine.now.own machine.now.change machine.now.step way.now n }
{
    match &machine.own {
        None => machine.change,
        Some(limits) => {
            let axes = axes_change(&limits.changes, machine.step, way, n);
            machine.change.min(axes)
        }
    }
}

/// Returns the greatest change of the rate per tick on a motion of `n` path steps, 1 to 1,000,000. It
/// is the machine's change, or less on a machine with limits of each axis: on a line each axis has
/// its share of the change, and on an arc each axis that it moves has the whole.
pub fn change_of<A: Allocator>(action: &Action, n: u64, machine: &Machine<A>) -> u32
    ensures value { result ≡ change_of (file_of machine.now) action.now n }
    ensures least { 1 ≤ result }
    ensures greatest { result ≤ MILLION }
{
    match action {
        Action::Move(motion) => change_along(&motion.way, n, machine),
        _ => machine.change,
    }
}
