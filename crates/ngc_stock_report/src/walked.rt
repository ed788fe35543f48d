//! A walk over a program's commands, through the material of its machine.
ghost use Rattle.std.specs.Prelude.{◌<◌, IfOk};
ghost use Rattle.ngc_machine_files.specs.Machine.{file_of};
ghost use Rattle.ngc_cells.specs.Grids.{IsGrid};
ghost use Rattle.ngc_material.specs.Heights.{AreHeights};
ghost use Rattle.ngc_stock_report.specs.Walked.{IsWalked};

use crate::grids::is_grid;
use crate::placed::stock_in;
use ngc_commands::{Command, Reached};
use ngc_file_figures::ToolLimits;
use ngc_machine_files::Machine;
use ngc_material::{Touches, WalkFault, find_touches};
use ngc_stock::Stock;
use ngc_sure_contacts::{FoundTraverse, find_contacts};
use std::alloc::{AllocError, Allocator};
use std::marker::Model;

/// The material of a machine, the straight traverses and feeds of a program that may touch it, where traverses
/// surely go through it, the deepest feeds, and the heights that the program leaves.
#[derive(Drop)]
pub struct Walk<A: Allocator> {
    pub(crate) stock: Stock,
    pub(crate) touches: Touches<A>,
    /// The traverses of `touches` once more, with where they surely go through material.
    pub(crate) traverses: Vec<FoundTraverse, A>,
    ghost holds: { IsGrid stock.grid },
    ghost some: { (0 < stock.grid.columns) × (0 < stock.grid.rows) },
    ghost cells: { AreHeights stock touches.heights.items },
}

impl<A: Allocator> Model for Walk<A> {
    ghost use Rattle.ngc_stock_report.specs.Walked.{WalkData};

    ghost Value = { WalkData };

    ghost view = { λ w. record { stock = w.stock; found = w.touches.traverses.items; feeds = w.touches.feeds.items; cuts = w.touches.cuts.items; heights = w.touches.heights.items; traverses = w.traverses.items } };

    ghost invariant = { λ w. Unit {0} };
}

/// Returns the straight traverses of a program that may touch the material of its machine, and the
/// straight feeds whose shank or holder may, where a traverse surely goes through it, the deepest straight feed
/// of each tool, and the heights at the end: `commands` are its commands at a setting of block delete, and the material is divided into at most `most` cells.
/// It returns `None` if the machine has no block of material, or if some of it, or the end of a motion,
/// is more than two metres from the machine's zero. It does so too if the cells are more than 4,000,000,
/// which they aren't where `most` isn't. `table` says what shapes the cutters of the tools have; a tool that it
/// doesn't know has a flat one.
///
/// It fails if memory is refused.
pub fn find_walk<A: Allocator + Copy, B: Allocator>(
    alloc: A,
    most: u32,
    table: &[ToolLimits],
    machine: &Machine<B>,
    commands: &[Command],
) -> Result<Option<Walk<A>>, AllocError>
    ensures { IfOk result (IsWalked most table.now (file_of machine.now) commands.now) }
{
    let Some(stock) = stock_in(most, machine) else {
        return Ok(None);
    };
    if !is_grid(&stock.grid) {
        return Ok(None);
    }
    let start = Reached::at_start(machine);
    match find_touches(alloc, &stock, table, &start, commands) {
        Ok(touches) => {
            let found = touches.traverses.as_slice();
            let traverses = find_contacts(alloc, &stock, table, &start, commands, found)?;
            Ok(Some(Walk {
                stock,
                touches,
                traverses,
            }))
        }
        Err(WalkFault::Far) => Ok(None),
        Err(WalkFault::Memory) => Err(AllocError),
    }
}
