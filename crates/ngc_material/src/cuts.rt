//! The deepest feed of each tool.
ghost use Rattle.std.specs.Prelude.{◌≡◌, ◌<◌, length, IfSome, IsTrue, OnOk};
ghost use Rattle.std.specs.List.{position};
ghost use Rattle.ngc_stock.specs.Cuts.{deeper_cut, is_with, with_cut, with_depth};
ghost use Rattle.ngc_stock.specs.Changes.{tool_number};
ghost use Rattle.ngc_material.specs.Cuts.{IsCutNext};
ghost use Rattle.ngc_material.specs.Heights.{is_action_reached};

use crate::change::tool_number;
use crate::material::Material;
use crate::mounted::Mounted;
use ngc_commands::Command;
use ngc_stock::Cut;
use std::alloc::{AllocError, Allocator};

// Returns the deeper of two cuts, of equal ones the first.
fn deeper(one: Cut, other: Cut) -> Cut
    ensures { result ≡ deeper_cut one other }
{
    if one.depth < other.depth { other } else { one }
}

fn is_with(tool: u32, cut: &Cut) -> bool
    ensures { result ≡ is_with tool cut.now }
{
    cut.tool == tool
}

// Returns where the cut of a tool is in a list.
fn position_of(cuts: &[Cut], tool: u32) -> Option<usize>
    ensures value { result ≡ position (is_with tool) cuts.now }
    ensures within { IfSome result (λ i. i < length cuts.now) }
{
    cuts.iter().position(|cut| is_with(tool, cut))
}

fn add_cut<A: Allocator>(cuts: &mut Vec<Cut, A>, cut: &Cut) -> Result<(), AllocError>
    ensures { OnOk result (cuts.new.items ≡ with_cut cuts.old.items cut.now) }
{
    match position_of(cuts.as_slice(), cut.tool) {
        Some(i) => {
            cuts[i] = deeper(cuts[i], *cut);
            Ok(())
        }
        None => match cuts.push(*cut) {
            Ok(()) => Ok(()),
            Err(_) => Err(AllocError),
        },
    }
}

fn add_depth<A: Allocator>(cuts: &mut Vec<Cut, A>, cut: &Cut) -> Result<(), AllocError>
    ensures { OnOk result (cuts.new.items ≡ with_depth cut.now.tool cut.now.command cut.now.line cut.now.depth cuts.old.items) }
{
    if cut.depth == 0 {
        return Ok(());
    }
    add_cut(cuts, cut)
}

/// Adds the depth of a command with its index and the mounted tool, if it is a straight feed, to the
/// deepest of each tool. The material is that before the command.
pub(crate) fn measure<A: Allocator>(
    material: &Material<A>,
    cuts: &mut Vec<Cut, A>,
    mounted: &Mounted<A>,
    index: usize,
    command: &Command,
) -> Result<(), AllocError>
    requires { IsTrue (is_action_reached command.now.action) }
    ensures { OnOk result (IsCutNext material.now.stock mounted.now.discs.items mounted.now.reached.tool index command.now
        material.now.heights.items cuts.old.items cuts.new.items) }
{
    let tool = &mounted.reached.tool;
    let depth = material.depth(tool, mounted.discs.as_slice(), &command.action);
    let cut = Cut {
        command: index,
        line: command.line,
        tool: tool_number(tool),
        depth,
    };
    add_depth(cuts, &cut)
}
