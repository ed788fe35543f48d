//! The mistakes with tools in a program.
ghost use Rattle.std.specs.Prelude.{◌≡◌, ◌+◌, ◌≤◌, ◌<◌, ◌+ℤ◌, ◌-ℤ◌};
ghost use Rattle.ngc_machine_files.specs.Machine.{file_of};
ghost use Rattle.ngc_tool_warnings.specs.Slips.{bare_change, count_of, counted, drop_to, drop_with};
ghost use Rattle.ngc_tool_warnings.specs.Slips.{is_free, is_longer, low_change, moves, moves_on};
ghost use Rattle.ngc_tool_warnings.specs.Slips.{slip_in, slips_of};

use crate::between::{Between, is_upright};
use crate::slip::{Found, Kind, Slip, Slips};
use ngc_commands::{Action, Command, Pace, Way};
use ngc_fixed_length::Nm;
use ngc_machine_files::{Machine, Tool};
use std::alloc::Allocator;

fn sum(a: Nm, b: Nm) -> i64
    ensures { result ≡ a +ℤ b }
{
    a.nanometres() + b.nanometres()
}

fn difference(a: Nm, b: Nm) -> i64
    ensures { result ≡ a -ℤ b }
{
    a.nanometres() - b.nanometres()
}

fn is_longer(old: &Tool, new: &Tool) -> bool
    ensures { result ≡ is_longer old.now new.now }
{
    new.bottom.nanometres() < old.bottom.nanometres()
}

// Returns the mistake of a change at a height.
fn low_change(start: Nm, z: Nm, old: &Option<Tool>, new: &Option<Tool>) -> Option<Slip>
    ensures { result ≡ low_change start z old.now new.now }
{
    match (old, new) {
        (Some(old), Some(new)) if z.nanometres() < start.nanometres() && is_longer(old, new) => {
            Some(Slip::LowChange {
                from: sum(z, old.bottom),
                to: sum(z, new.bottom),
            })
        }
        _ => None,
    }
}

// Returns whether the program fed to this height where the axes are.
fn is_free(fed: Option<Nm>, z: Nm) -> bool
    ensures { result ≡ is_free fed z }
{
    match fed {
        Some(deepest) => deepest.nanometres() <= z.nanometres(),
        None => false,
    }
}

fn drop_to(began: Option<Nm>, fed: Option<Nm>, z: Nm) -> Option<Slip>
    ensures { result ≡ drop_to began fed z }
{
    match began {
        Some(height) if z.nanometres() < height.nanometres() && !is_free(fed, z) => {
            Some(Slip::Drop {
                below: difference(height, z),
            })
        }
        _ => None,
    }
}

fn drop_with(before: &Between, way: &Way, pace: &Pace) -> Option<Slip>
    ensures { result ≡ drop_with before.now way.now pace.now }
{
    let end = way.end().z;
    match pace {
        Pace::Rapid if is_upright(way) && end.nanometres() < before.reached.place.z.nanometres() =>
            { drop_to(before.began, before.fed, end) }
        _ => None,
    }
}

// Returns whether an action is a motion; `None` if it is neither a motion nor a stop nor a change.
fn moves(action: &Action) -> Option<bool>
    ensures { result ≡ moves action.now }
{
    match action {
        Action::Move(_) => Some(true),
        Action::Stop | Action::OptionalStop | Action::Mount(_) => Some(false),
        _ => None,
    }
}

// Returns whether the program moves before it stops, changes the tool again or ends.
fn moves_on(commands: &[Command]) -> bool
    ensures { result ≡ moves_on commands.now }
{
    for command in commands {
        if let Some(moves) = moves(&command.action) {
            return moves;
        }
    }
    false
}

fn bare_change(changer: bool, before: &Between, later: &[Command]) -> Option<Slip>
    ensures { result ≡ bare_change changer before.now later.now }
{
    if !changer && before.has_moved && !before.has_stopped && moves_on(later) {
        Some(Slip::BareChange)
    } else {
        None
    }
}

fn slip_in<A: Allocator>(
    kind: Kind,
    machine: &Machine<A>,
    before: &Between,
    action: &Action,
    later: &[Command],
) -> Option<Slip>
    ensures { result ≡ slip_in kind (file_of machine.now) before.now action.now later.now }
{
    let reached = &before.reached;
    match (kind, action) {
        (Kind::LowChange, Action::Mount(tool)) => {
            low_change(machine.start.z, reached.place.z, &reached.tool, tool)
        }
        (Kind::Drop, Action::Move(motion)) => drop_with(before, &motion.way, &motion.pace),
        (Kind::BareChange, Action::Mount(_)) => bare_change(machine.changer, before, later),
        _ => None,
    }
}

fn counted(found: Option<Slips>, line: u32, slip: Option<Slip>) -> Option<Slips>
    requires { count_of found < usize.MAX }
    ensures value { result ≡ counted found line slip }
    ensures few { count_of result ≤ count_of found + 1 }
{
    match (found, slip) {
        (found, None) => found,
        (None, Some(slip)) => Some(Slips {
            first: Found { line, slip },
            count: 1,
        }),
        (Some(slips), Some(_)) => Some(Slips {
            count: slips.count + 1,
            ..slips
        }),
    }
}

/// Returns the mistakes of a kind in a program's commands, or `None` if it has none.
pub fn slips_of<A: Allocator>(
    kind: Kind,
    machine: &Machine<A>,
    commands: &[Command],
) -> Option<Slips>
    ensures { result ≡ slips_of kind (file_of machine.now) commands.now }
{
    let mut found = None;
    let mut before = Between::at_start(machine);
    let mut left = commands;
    while let Some((command, later)) = left.split_first() {
        let slip = slip_in(kind, machine, &before, &command.action, later);
        found = counted(found, command.line, slip);
        before = before.after(&command.action);
        left = later;
    }
    found
}
