//! A walk over the commands of a program.
ghost use Rattle.std.specs.Prelude.{◌≡◌, ◌↔◌, [], IfOk, IfErr, OnOk, IsTrue};
ghost use Rattle.ngc_cells.specs.Grids.{IsGrid};
ghost use Rattle.ngc_stock.specs.Walk.{uncut};
ghost use Rattle.ngc_material.specs.Cuts.{AreCuts};
ghost use Rattle.ngc_material.specs.Heights.{AreHeights, are_reached, is_action_reached};
ghost use Rattle.ngc_material.specs.Remains.{AreLeft};
ghost use Rattle.ngc_material.specs.Walks.{AreFound, IsFollowed, IsTested, with_feeds};

use crate::change::tool_number;
use crate::cuts::measure;
use crate::material::Material;
use crate::mounted::Mounted;
use crate::reach::are_reached;
use crate::touch::{PartTouch, Touch};
use ngc_commands::{Command, Reached};
use ngc_file_figures::ToolLimits;
use ngc_stock::{Cut, Stock};
use std::alloc::{AllocError, Allocator};

/// A straight motion that may touch material.
#[derive(Clone, Copy)]
pub struct Found {
    /// The index of its command.
    pub command: usize,
    /// The number of the line in the file, from 1.
    pub line: u32,
    /// The number of the mounted tool.
    pub tool: u32,
    /// The part of the tool, counted from 0, the lowest.
    pub part: usize,
    pub touch: Touch,
}

/// The straight motions of a program that may touch material, in order, its deepest feeds, and the heights that it
/// leaves.
#[derive(Drop)]
pub struct Touches<A: Allocator> {
    /// Traverses, with any part of a tool.
    pub traverses: Vec<Found, A>,
    /// Feeds, with a part above the cutter.
    pub feeds: Vec<Found, A>,
    /// The deepest straight feed of each tool.
    pub cuts: Vec<Cut, A>,
    /// The height of each cell at the end, in nanometres from the stock's bottom.
    pub heights: Vec<u32, A>,
}

/// Why a walk isn't made.
#[derive(Clone, Copy, PartialEq, Eq)]
pub enum WalkFault {
    /// Memory was refused.
    Memory,
    /// The end of a motion is more than two metres from the machine's zero, in the plane.
    Far,
}

// Follows a command with its index and the mounted tool. If it is a traverse that may touch material, it
// is added to those.
fn follow<A: Allocator>(
    material: &mut Material<A>,
    traverses: &mut Vec<Found, A>,
    mounted: &Mounted<A>,
    index: usize,
    command: &Command,
) -> Result<(), AllocError>
    requires { IsTrue (is_action_reached command.now.action) }
    ensures stock { OnOk result (material.new.stock ≡ material.old.stock) }
    ensures found { OnOk result (IsFollowed material.old.stock mounted.now.discs.items mounted.now.reached.tool index command.now
        material.old.heights.items material.new.heights.items traverses.old.items traverses.new.items) }
{
    let tool = &mounted.reached.tool;
    let discs = mounted.discs.as_slice();
    if let Some(PartTouch { part, touch }) = material.follow(tool, discs, &command.action) {
        traverses.push(Found {
            command: index,
            line: command.line,
            tool: tool_number(tool),
            part,
            touch,
        })?;
    }
    Ok(())
}

// Tests a command with its index and the mounted tool in the material that it leaves. If it is a feed that
// may touch it, it is added to those.
fn test<A: Allocator>(
    material: &Material<A>,
    feeds: &mut Vec<Found, A>,
    mounted: &Mounted<A>,
    index: usize,
    command: &Command,
) -> Result<(), AllocError>
    requires { IsTrue (is_action_reached command.now.action) }
    ensures { OnOk result (IsTested material.now.stock mounted.now.reached.tool index command.now
        material.now.heights.items feeds.old.items feeds.new.items) }
{
    let tool = &mounted.reached.tool;
    if let Some(PartTouch { part, touch }) = material.test(tool, &command.action) {
        feeds.push(Found {
            command: index,
            line: command.line,
            tool: tool_number(tool),
            part,
            touch,
        })?;
    }
    Ok(())
}

/// Returns the straight motions of a program that may touch material: `commands` are the program's
/// commands at a setting of block delete, from a state with the material uncut. A cutter is the discs of
/// the shape that `table` says of its tool, or a flat one. A traverse is tested with each disc and each part
/// above the cutter; if it is found, it then counts as a feed. A feed is tested with the parts above the
/// cutter in the material that it leaves, also along an arc in the plane of X and Y; another arc isn't tested.
/// Motions without a tool are left out. Of each tool the deepest straight feed is returned too, in the material before it,
/// and the height of each cell after the last command.
///
/// It fails if memory is refused, or if the end of a motion is far from the machine's zero.
pub fn find_touches<A: Allocator + Copy>(
    alloc: A,
    stock: &Stock,
    table: &[ToolLimits],
    start: &Reached,
    commands: &[Command],
) -> Result<Touches<A>, WalkFault>
    requires { IsGrid stock.now.grid }
    ensures found { IfOk result (λ v. AreFound stock.now table.now start.now (uncut stock.now) 0 commands.now v.traverses.items v.feeds.items) }
    ensures cuts { IfOk result (λ v. AreCuts stock.now table.now start.now (uncut stock.now) 0 commands.now v.traverses.items [] v.cuts.items) }
    ensures left { IfOk result (λ v. AreLeft stock.now table.now start.now (uncut stock.now) (with_feeds 0 commands.now v.traverses.items) v.heights.items) }
    ensures heights { IfOk result (λ v. AreHeights stock.now v.heights.items) }
    ensures near { IfOk result (λ v. IsTrue (are_reached commands.now)) }
    ensures far { IfErr result (λ e. (e ≡ WalkFault.Far) ↔ ¬ (IsTrue (are_reached commands.now))) }
{
    if !are_reached(commands) {
        return Err(WalkFault::Far);
    }
    match walk(alloc, stock, table, start, commands) {
        Ok(touches) => Ok(touches),
        Err(_) => Err(WalkFault::Memory),
    }
}

// Walks over commands whose motions end near the machine's zero. It fails if memory is refused.
fn walk<A: Allocator + Copy>(
    alloc: A,
    stock: &Stock,
    table: &[ToolLimits],
    start: &Reached,
    commands: &[Command],
) -> Result<Touches<A>, AllocError>
    requires grid { IsGrid stock.now.grid }
    requires near { IsTrue (are_reached commands.now) }
    ensures found { IfOk result (λ v. AreFound stock.now table.now start.now (uncut stock.now) 0 commands.now v.traverses.items v.feeds.items) }
    ensures cuts { IfOk result (λ v. AreCuts stock.now table.now start.now (uncut stock.now) 0 commands.now v.traverses.items [] v.cuts.items) }
    ensures left { IfOk result (λ v. AreLeft stock.now table.now start.now (uncut stock.now) (with_feeds 0 commands.now v.traverses.items) v.heights.items) }
    ensures heights { IfOk result (λ v. AreHeights stock.now v.heights.items) }
{
    let mut material = Material::new(alloc, stock)?;
    let mut mounted = Mounted::new(alloc, table, start)?;
    let mut traverses = Vec::new(alloc);
    let mut feeds = Vec::new(alloc);
    let mut cuts = Vec::new(alloc);
    let mut left = commands;
    while let Some((command, later)) = left.split_first() {
        let index = commands.len() - left.len();
        measure(&material, &mut cuts, &mounted, index, command)?;
        follow(&mut material, &mut traverses, &mounted, index, command)?;
        test(&material, &mut feeds, &mounted, index, command)?;
        mounted.advance(alloc, table, &command.action)?;
        left = later;
    }
    Ok(Touches {
        traverses,
        feeds,
        cuts,
        heights: material.into_heights(),
    })
}
