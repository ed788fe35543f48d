//! What looks wrong in a machine file or in a tool table.
ghost use Rattle.std.specs.Prelude.{◌≡◌, ◌||◌};
ghost use Rattle.std.specs.List.{list_all};
ghost use Rattle.ngc_machine_files.specs.Machine.{file_of};
ghost use Rattle.ngc_setup_sheet.specs.Warnings.{is_odd_speed, is_odd_acceleration, is_shorter};
ghost use Rattle.ngc_setup_sheet.specs.Warnings.{is_slow_on_arcs, is_thin, is_short_tool};
ghost use Rattle.ngc_setup_sheet.specs.Warnings.{is_odd_offset, is_unset, are_unset};

use crate::reach::top_of;
use ngc_fixed_length::Nm;
use ngc_machine_files::{Fixture, Machine, Tool};
use ngc_machine_speeds::{axis_changes, gain, pull, speed};
use std::alloc::Allocator;

pub(crate) fn is_odd_speed<A: Allocator>(machine: &Machine<A>) -> bool
    ensures { result ≡ is_odd_speed (file_of machine.now) }
{
    let greatest = speed(machine, machine.max_rate);
    greatest < 100_000_000_000 || 1_000_000_000_000_000 < greatest
}

/// Returns whether the acceleration of an axis isn't from 1 to 20,000 mm/s^2.
pub(crate) fn is_odd_acceleration<A: Allocator>(machine: &Machine<A>) -> bool
    ensures { result ≡ is_odd_acceleration (file_of machine.now) }
{
    let changes = axis_changes(machine);
    let least = changes.x.min(changes.y).min(changes.z);
    let greatest = changes.x.max(changes.y).max(changes.z);
    gain(machine, u64::from(least)) < 1_000_000_000_000
        || 20_000_000_000_000_000 < gain(machine, u64::from(greatest))
}

/// Returns whether the greatest acceleration towards the centres of arcs is less than 1 mm/s^2.
pub(crate) fn is_slow_on_arcs<A: Allocator>(machine: &Machine<A>) -> bool
    ensures { result ≡ is_slow_on_arcs (file_of machine.now) }
{
    pull(machine) < 1_000_000_000_000_000_000
}

/// Returns whether two coordinates are less than `least` nanometres apart.
pub(crate) fn is_shorter(least: i64, low: Nm, high: Nm) -> bool
    ensures { result ≡ is_shorter least low high }
{
    high.nanometres() - low.nanometres() < least
}

pub(crate) fn is_thin(fixture: &Fixture) -> bool
    ensures { result ≡ is_thin fixture.now }
{
    is_shorter(100_000, fixture.low.x, fixture.high.x)
        || is_shorter(100_000, fixture.low.y, fixture.high.y)
        || is_shorter(100_000, fixture.low.z, fixture.high.z)
}

pub(crate) fn is_short_tool(tool: &Tool) -> bool
    ensures { result ≡ is_short_tool tool.now }
{
    top_of(Nm::zero(), &tool.parts) < 1_000_000
}

pub(crate) fn is_odd_offset(tool: &Tool) -> bool
    ensures { result ≡ is_odd_offset tool.now }
{
    let long = top_of(Nm::zero(), &tool.parts);
    let offset = tool.offset.nanometres();
    2 * long < offset || 2 * offset < long
}

fn is_unset(tool: &Tool) -> bool
    ensures { result ≡ is_unset tool.now }
{
    tool.offset.nanometres() == 0 && is_odd_offset(tool)
}

fn all_unset(tools: &[Tool]) -> bool
    ensures { result ≡ list_all is_unset tools.now }
{
    tools.iter().all(|tool| is_unset(tool))
}

/// Returns whether a table has at least two tools, and none has an offset.
pub(crate) fn are_unset(tools: &[Tool]) -> bool
    ensures { result ≡ are_unset tools.now }
{
    1 < tools.len() && all_unset(tools)
}
