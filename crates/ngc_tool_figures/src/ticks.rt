//! The time with a tool.
ghost use Rattle.std.specs.Prelude.{◌≡◌};
ghost use Rattle.ngc_tool_figures.specs.Ticks.{parts_after, ticks_after, ticks_of, with_part};

use crate::moment::Moment;
use ngc_commands::{Action, Command};

// Returns the ticks so far and those of the first part, if the tool is mounted in it.
fn with_part(ticks: u128, mounted: bool, parts: &[u128]) -> u128
    ensures { result ≡ with_part ticks mounted parts.now }
{
    match parts.split_first() {
        Some((part, _)) if mounted => ticks.saturating_add(*part),
        _ => ticks,
    }
}

fn ticks_after(ticks: u128, mounted: bool, parts: &[u128], action: &Action) -> u128
    ensures { result ≡ ticks_after ticks mounted parts.now action.now }
{
    match action {
        Action::Mount(_) => with_part(ticks, mounted, parts),
        _ => ticks,
    }
}

// Returns the parts that are left after an action.
fn parts_after<'a>(parts: &'a [u128], action: &Action) -> &'a [u128]
    ensures { result.now ≡ parts_after parts.now action.now }
{
    match (action, parts.split_first()) {
        (Action::Mount(_), Some((_, later))) => later,
        _ => parts,
    }
}

/// Returns the ticks of the parts of a run in which the tool with this number is mounted, or in
/// which none is. The first part ends with the first tool change, and each later one with the next
/// or with the program. The sum stays at 2^128 - 1, which no run reaches.
pub fn ticks_of(number: Option<u32>, commands: &[Command], parts: &[u128]) -> u128
    ensures { result ≡ ticks_of number commands.now parts.now }
{
    let mut ticks = 0;
    let mut left = parts;
    let mut moment = Moment::at_start(number);
    for command in commands {
        ticks = ticks_after(ticks, moment.is_mounted, left, &command.action);
        left = parts_after(left, &command.action);
        moment = moment.after(number, &command.action);
    }
    with_part(ticks, moment.is_mounted, left)
}
