//! Which cells a walk can hold.
ghost use Rattle.std.specs.Prelude.{◌↔◌, ◌*◌, ◌<◌, ◌≤◌, ◌≤ℤ◌, ◌+ℤ◌, pos, unsigned_abs, IsTrue};
ghost use Rattle.ngc_cells.specs.Grids.{IsGrid, CELL_LIMIT};
ghost use Rattle.ngc_cells.specs.Stretches.{REACH, IsSpot};

use ngc_cells::{Grid, Spot};

/// Two metres, in nanometres.
const REACH: u64 = 2_000_000_000;

const CELL_LIMIT: u64 = 4_000_000;

/// Returns whether a place is within two metres of the machine's zero.
pub(crate) fn is_near(place: &Spot) -> bool
    ensures { IsTrue result ↔ IsSpot place.now }
{
    place.x.unsigned_abs() <= REACH && place.y.unsigned_abs() <= REACH
}

// Returns whether the last of some cells along an axis ends within two metres.
fn ends_near(corner: i64, half: u32, count: u32) -> bool
    requires { unsigned_abs corner ≤ REACH }
    ensures { IsTrue result ↔ ((corner +ℤ pos (2 * count * half)) ≤ℤ pos REACH) }
{
    let width = 2 * u128::from(count) * u128::from(half);
    width <= u128::from(corner.abs_diff(REACH as i64))
}

fn are_few(grid: &Grid) -> bool
    ensures { IsTrue result ↔ (grid.now.columns * grid.now.rows ≤ CELL_LIMIT) }
{
    u64::from(grid.columns) * u64::from(grid.rows) <= CELL_LIMIT
}

fn is_small(grid: &Grid) -> bool
    ensures { IsTrue result ↔ ((0 < grid.now.half) × (grid.now.half ≤ REACH)
        × (grid.now.columns * grid.now.rows ≤ CELL_LIMIT)) }
{
    0 < grid.half && u64::from(grid.half) <= REACH && are_few(grid)
}

/// Returns whether cells are few enough, and within two metres of the machine's zero.
pub(crate) fn is_grid(grid: &Grid) -> bool
    ensures { IsTrue result ↔ IsGrid grid.now }
{
    if !is_small(grid) || !is_near(&grid.corner) {
        return false;
    }
    if !ends_near(grid.corner.x, grid.half, grid.columns) {
        return false;
    }
    ends_near(grid.corner.y, grid.half, grid.rows)
}
