//! The cells of a map near which motions may touch material.
ghost use Rattle.std.specs.Prelude.{◌≡◌, ◌==◌, ◌*◌, ◌≤◌, ◌∷◌, [], IfOk, length, map, replicate};
ghost use Rattle.ngc_cells.specs.Grids.{IsGrid};
ghost use Rattle.ngc_cells.specs.Stretches.{RADIUS_LIMIT};
ghost use Rattle.ngc_stock_report.specs.Levels.{AreLevels};
ghost use Rattle.ngc_stock_report.specs.Marks.{AreMarks, mark_radius};

use crate::grids::is_near;
use crate::walked::Walk;
use ngc_cells::{Grid, Stretch, lower};
use ngc_material::Found;
use std::alloc::{AllocError, Allocator};

fn mark_radius(grid: &Grid) -> u32
    ensures value { result ≡ mark_radius grid.now }
    ensures bound { result ≤ RADIUS_LIMIT }
{
    1_000_000_000.min(5 * u64::from(grid.half)) as u32
}

// Lowers the cells near the place of a motion to 0.
fn mark(grid: &Grid, levels: &mut [u32], found: &Found)
    requires grid { IsGrid grid.now }
    requires count { length levels.old ≡ grid.now.columns * grid.now.rows }
    ensures { AreLevels grid.now (found.now ∷ []) levels.old levels.new }
{
    let place = found.touch.place;
    if !is_near(&place) {
        return;
    }
    let stretch = Stretch {
        start: place,
        end: place,
        parts: 1,
        part: 0,
    };
    lower(grid, levels, &stretch, mark_radius(grid), 0);
}

// The same of some motions.
fn mark_all(grid: &Grid, levels: &mut [u32], found: &[Found])
    requires grid { IsGrid grid.now }
    requires count { length levels.old ≡ grid.now.columns * grid.now.rows }
    ensures { AreLevels grid.now found.now levels.old levels.new }
{
    for one in found {
        mark(grid, levels, one);
    }
}

fn are_zero<A: Allocator>(alloc: A, levels: &[u32]) -> Result<Vec<bool, A>, AllocError>
    ensures { IfOk result (λ v. v.items ≡ map (λ n. n == 0) levels.now) }
{
    levels.iter().map(|level| *level == 0).collect(alloc)
}

// Returns the level of cells that aren't marked, for each cell.
fn ones<A: Allocator>(alloc: A, grid: &Grid) -> Result<Vec<u32, A>, AllocError>
    requires { IsGrid grid.now }
    ensures { IfOk result (λ v. v.items ≡ replicate (grid.now.columns * grid.now.rows) 1) }
{
    let count = grid.columns as usize * grid.rows as usize;
    let levels = vec![in alloc; 1u32; count]?;
    Ok(levels)
}

// Marks cells, first for the traverses of a walk and then for its feeds.
fn marks_in<A: Allocator>(
    alloc: A,
    levels: &mut [u32],
    walk: &Walk<A>,
) -> Result<Vec<bool, A>, AllocError>
    requires { levels.old ≡ replicate (walk.now.stock.grid.columns * walk.now.stock.grid.rows) 1 }
    ensures { IfOk result (λ v. AreMarks walk.now v.items) }
{
    let grid = &walk.stock.grid;
    mark_all(grid, levels, walk.touches.traverses.as_slice());
    mark_all(grid, levels, walk.touches.feeds.as_slice());
    are_zero(alloc, levels)
}

/// Returns for each cell whether it is marked: its centre is at most two and a half cells, and at most a metre,
/// from a place where a traverse or a feed of the walk may touch material.
///
/// It fails if memory is refused.
pub fn find_marks<A: Allocator + Copy>(alloc: A, walk: &Walk<A>) -> Result<Vec<bool, A>, AllocError>
    ensures { IfOk result (λ v. AreMarks walk.now v.items) }
{
    let mut levels = ones(alloc, &walk.stock.grid)?;
    marks_in(alloc, levels.as_mut_slice(), walk)
}
