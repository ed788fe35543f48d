//! The reach of the tools of a table.
ghost use Rattle.std.specs.Prelude.{◌≡◌, ◌≤◌, ◌+◌, ◌+ℤ◌, ◌-ℤ◌, ◌||◌, unsigned_abs};
ghost use Rattle.std.specs.Int.{int_min, int_max};
ghost use Rattle.ngc_machine_files.specs.Machine.{file_of};
ghost use Rattle.ngc_setup_sheet.specs.Reaches.{IsReach, top_of, widest, with_tool};
ghost use Rattle.ngc_setup_sheet.specs.Reaches.{reach_of, is_beyond, is_out_of_reach, is_outside};
ghost use Rattle.ngc_setup_sheet.specs.Reaches.{is_outside_travel};

use ngc_fixed_length::{Nm, Point3};
use ngc_machine_files::{Fixture, Machine, Part, Parts, Tool};
use std::alloc::Allocator;

/// The extent of the bodies of tools from the spindle nose, in nanometres: to each side, down,
/// and up.
#[derive(Clone, Copy)]
pub(crate) struct Reach {
    pub radius: i64,
    pub bottom: i64,
    pub top: i64,
}

fn lesser(a: i64, b: i64) -> i64
    requires left { unsigned_abs a ≤ 1000000000000 }
    requires right { unsigned_abs b ≤ 1000000000000 }
    ensures value { result ≡ int_min a b }
    ensures bound { unsigned_abs result ≤ 1000000000000 }
{
    a.min(b)
}

fn greater(a: i64, b: i64) -> i64
    requires left { unsigned_abs a ≤ 1000000000000 }
    requires right { unsigned_abs b ≤ 1000000000000 }
    ensures value { result ≡ int_max a b }
    ensures bound { unsigned_abs result ≤ 1000000000000 }
{
    a.max(b)
}

/// Returns the height at which a part ends that begins at the height `foot`.
pub(crate) fn end_of(foot: i64, part: &Part) -> i64
    requires { unsigned_abs foot ≤ 1000000000000 }
    ensures value { result ≡ foot +ℤ part.now.length }
    ensures bound { unsigned_abs result ≤ unsigned_abs foot + 100000000000 }
{
    foot + part.length.nanometres()
}

/// Returns the height at which a stack of parts ends that begins at the height `foot`.
pub(crate) fn top_of(foot: Nm, parts: &Parts) -> i64
    ensures value { result ≡ top_of foot parts.now }
    ensures bound { unsigned_abs result ≤ 500000000000 }
{
    let mut top = foot.nanometres();
    for part in parts.as_slice() {
        top = end_of(top, part);
    }
    top
}

fn widest(radius: i64, parts: &Parts) -> i64
    requires { unsigned_abs radius ≤ 1000000000000 }
    ensures value { result ≡ widest radius parts.now }
    ensures bound { unsigned_abs result ≤ 1000000000000 }
{
    let mut most = radius;
    for part in parts.as_slice() {
        most = greater(most, part.radius.nanometres());
    }
    most
}

impl Reach {
    fn with_tool(&self, tool: &Tool) -> Reach
        requires { IsReach self.now }
        ensures value { result ≡ with_tool self.now tool.now }
        ensures bound { IsReach result }
    {
        Reach {
            radius: widest(self.radius, &tool.parts),
            bottom: lesser(self.bottom, tool.bottom.nanometres()),
            top: greater(self.top, top_of(tool.bottom, &tool.parts)),
        }
    }

    /// Returns the reach of all of these tools and of the spindle nose itself.
    pub(crate) fn of(tools: &[Tool]) -> Reach
        ensures value { result ≡ reach_of tools.now }
        ensures bound { IsReach result }
    {
        let mut reach = Reach {
            radius: 0,
            bottom: 0,
            top: 0,
        };
        for tool in tools {
            reach = reach.with_tool(tool);
        }
        reach
    }
}

fn lowered(place: Nm, by: i64) -> i64
    requires { unsigned_abs by ≤ 1000000000000 }
    ensures { result ≡ place -ℤ by }
{
    place.nanometres() - by
}

fn raised(place: Nm, by: i64) -> i64
    requires { unsigned_abs by ≤ 1000000000000 }
    ensures { result ≡ place +ℤ by }
{
    place.nanometres() + by
}

fn is_beyond(low: i64, high: i64, other_low: Nm, other_high: Nm) -> bool
    ensures { result ≡ is_beyond low high other_low other_high }
{
    high <= other_low.nanometres() || other_high.nanometres() <= low
}

fn is_beside(low: Nm, high: Nm, reach: &Reach, other_low: Nm, other_high: Nm) -> bool
    requires { IsReach reach.now }
    ensures { result ≡ is_beyond (low -ℤ reach.now.radius)
        (high +ℤ reach.now.radius) other_low other_high }
{
    is_beyond(
        lowered(low, reach.radius),
        raised(high, reach.radius),
        other_low,
        other_high,
    )
}

fn is_above_or_below(low: Nm, high: Nm, reach: &Reach, other_low: Nm, other_high: Nm) -> bool
    requires { IsReach reach.now }
    ensures { result ≡ is_beyond (low +ℤ reach.now.bottom)
        (high +ℤ reach.now.top) other_low other_high }
{
    is_beyond(
        raised(low, reach.bottom),
        raised(high, reach.top),
        other_low,
        other_high,
    )
}

/// Returns whether a fixture is out of reach for all tools, at any position within the travel.
pub(crate) fn is_out_of_reach<A: Allocator>(
    machine: &Machine<A>,
    reach: &Reach,
    fixture: &Fixture,
) -> bool
    requires { IsReach reach.now }
    ensures { result ≡ is_out_of_reach (file_of machine.now) reach.now fixture.now }
{
    let Fixture { low, high, .. } = *fixture;
    is_beside(machine.low.x, machine.high.x, reach, low.x, high.x)
        || is_beside(machine.low.y, machine.high.y, reach, low.y, high.y)
        || is_above_or_below(machine.low.z, machine.high.z, reach, low.z, high.z)
}

fn is_outside(low: i64, high: Nm, place: Nm) -> bool
    ensures { result ≡ is_outside low high place }
{
    place.nanometres() < low || high.nanometres() < place.nanometres()
}

fn is_outside_sideways(low: Nm, high: Nm, place: Nm) -> bool
    ensures { result ≡ is_outside low high place }
{
    is_outside(low.nanometres(), high, place)
}

fn is_outside_in_height(low: Nm, high: Nm, reach: &Reach, place: Nm) -> bool
    requires { IsReach reach.now }
    ensures { result ≡ is_outside (low +ℤ reach.now.bottom) high place }
{
    is_outside(raised(low, reach.bottom), high, place)
}

/// Returns whether no tool's tip reaches a point, at any position within the travel.
pub(crate) fn is_outside_travel<A: Allocator>(
    machine: &Machine<A>,
    reach: &Reach,
    point: &Point3,
) -> bool
    requires { IsReach reach.now }
    ensures { result ≡ is_outside_travel (file_of machine.now) reach.now point.now }
{
    is_outside_sideways(machine.low.x, machine.high.x, point.x)
        || is_outside_sideways(machine.low.y, machine.high.y, point.y)
        || is_outside_in_height(machine.low.z, machine.high.z, reach, point.z)
}
