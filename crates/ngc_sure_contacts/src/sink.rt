//! How the cells of a map are lowered.
ghost use Rattle.std.specs.Prelude.{◌≡◌, ℕ, ◌*◌, ◌<◌, length, slice_index};
ghost use Rattle.ngc_cells.specs.Stretches.{IsStretch};
ghost use Rattle.ngc_cells.specs.Grids.{IsGrid};
ghost use Rattle.ngc_sure_contacts.specs.Maps.{AreSunk};

use ngc_cells::{Grid, Stretch, lower};

/// Lowers all cells to 0, so that the map says nothing.
pub(crate) fn clear(heights: &mut [u32])
    ensures count { length heights.new ≡ length heights.old }
    ensures zero { (k : ℕ) → k < length heights.old → slice_index heights.new k ≡ 0 }
{
    for k in 0..heights.len() {
        heights[k] = 0;
    }
}

/// Lowers the cells whose centres are at most `radius` from a stretch, to a level at most. No cell is
/// raised. If the radius is more than a metre, all cells are lowered to 0.
#[tactic(auto, using(crate::proofs::Sinking::sunk_of, crate::proofs::Sinking::sunk_cleared))]
pub(crate) fn sink(grid: &Grid, heights: &mut [u32], stretch: &Stretch, radius: u64, level: u32)
    requires grid { IsGrid grid.now }
    requires count { length heights.old ≡ grid.now.columns * grid.now.rows }
    requires stretch { IsStretch stretch.now }
    ensures { AreSunk grid.now stretch.now radius level heights.old heights.new }
{
    if radius <= 1_000_000_000 {
        lower(grid, heights, stretch, radius as u32, level);
    } else {
        clear(heights);
    }
}
