//! Whether any feed of a program may cut the block of material.
ghost use Rattle.std.specs.Prelude.{◌≡◌};
ghost use Rattle.ngc_machine_files.specs.Machine.{file_of};
ghost use Rattle.ngc_machine_files.specs.Ranges.{IsStock};
ghost use Rattle.ngc_stock_report.specs.Uncut as spec;

use crate::placed::{origin_at, sum};
use ngc_cells::Grid;
use ngc_commands::{Action, Command, Motion, Pace, Reached};
use ngc_machine_files::{Machine, StockBox, Tool};
use ngc_material::find_below;
use ngc_report::Form;
use ngc_stock::Stock;
use std::alloc::Allocator;

fn is_feed(action: &Action) -> bool
    ensures { result ≡ spec.is_feed action.now }
{
    match action {
        Action::Move(
            Motion {
                pace: Pace::Feed(_),
                ..
            },
        ) => true,
        _ => false,
    }
}

// Returns whether a program has feeds.
fn has_feed(commands: &[Command]) -> bool
    ensures { result ≡ spec.has_feed commands.now }
{
    for command in commands {
        if is_feed(&command.action) {
            return true;
        }
    }
    false
}

// Returns whether an action is no feed without a tool.
fn is_known(tool: &Option<Tool>, action: &Action) -> bool
    ensures { result ≡ spec.is_known tool.now action.now }
{
    match tool {
        Some(_) => true,
        None => !is_feed(action),
    }
}

// Returns whether each feed has a tool, from a state.
fn are_known(start: &Reached, commands: &[Command]) -> bool
    ensures { result ≡ spec.are_known start.now commands.now }
{
    let mut reached = *start;
    for command in commands {
        if !is_known(&reached.tool, &command.action) {
            return false;
        }
        reached = reached.after(&command.action);
    }
    true
}

// Returns the cells of a block with their bottom at its top.
fn from_top<A: Allocator>(machine: &Machine<A>, block: &StockBox, grid: &Grid) -> Stock
    requires { IsStock block.now }
    ensures { result ≡ spec.from_top (file_of machine.now) block.now grid.now }
{
    let origin = origin_at(machine, block.system);
    Stock {
        grid: *grid,
        bottom: sum(origin.z, block.high.z),
        height: 0,
    }
}

// Returns whether no tip goes below the top of a block on a feed, while the tool is over the block.
fn is_above<A: Allocator>(
    machine: &Machine<A>,
    block: &StockBox,
    grid: &Grid,
    start: &Reached,
    commands: &[Command],
) -> bool
    requires { IsStock block.now }
    ensures { result ≡ spec.is_above (file_of machine.now) block.now grid.now start.now commands.now }
{
    let stock = from_top(machine, block, grid);
    find_below(&stock, start, commands).is_none()
}

fn is_uncut<A: Allocator>(
    machine: &Machine<A>,
    block: &StockBox,
    grid: &Grid,
    commands: &[Command],
) -> bool
    requires { IsStock block.now }
    ensures { result ≡ spec.is_uncut (file_of machine.now) block.now grid.now commands.now }
{
    let start = Reached::at_start(machine);
    has_feed(commands)
        && are_known(&start, commands)
        && is_above(machine, block, grid, &start, commands)
}

#[tactic(auto, unfolding(crate::specs::Uncut::uncut_words, crate::specs::Uncut::uncut_fact))]
fn uncut_line(form: Form) -> &'static [u8]
    ensures { result.now ≡ spec.uncut_line form }
{
    match form {
        Form::Words => b"warning: no feed cuts the block of material.\n",
        Form::Json => b",\n{\"fact\":\"warning\",\"text\":\"no feed cuts the block of material\"}",
    }
}

fn block_text<A: Allocator>(
    form: Form,
    machine: &Machine<A>,
    block: &StockBox,
    grid: &Grid,
    commands: &[Command],
) -> &'static [u8]
    requires { IsStock block.now }
    ensures { result.now ≡ spec.block_text form (file_of machine.now) block.now grid.now commands.now }
{
    if is_uncut(machine, block, grid, commands) {
        uncut_line(form)
    } else {
        b""
    }
}

/// Returns the warning that no feed cuts a machine's block of material, which has these cells, or nothing.
/// It is there if `commands` has feeds, each with a tool, and on none of them the tip goes below the block's
/// top while the tool is over the cells, or at most its radius beside them.
pub(crate) fn uncut_text<A: Allocator>(
    form: Form,
    machine: &Machine<A>,
    grid: &Grid,
    commands: &[Command],
) -> &'static [u8]
    ensures { result.now ≡ spec.uncut_text form (file_of machine.now) (file_of machine.now).stock grid.now commands.now }
{
    match &machine.stock {
        Some(block) => block_text(form, machine, block, grid, commands),
        None => b"",
    }
}
