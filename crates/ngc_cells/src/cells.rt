ghost use Rattle.std.specs.Prelude.{◌≡◌, ℕ, ℤ, ◌+◌, ◌*◌, ◌<◌, ◌≤◌, ◌⊎◌, min, length, slice_index, IfOk, IfSome, IfNone, replicate};
ghost use Rattle.ngc_cells.specs.Stretches.{RADIUS_LIMIT, IsNear, IsStretch, spot};
ghost use Rattle.ngc_cells.specs.Grids.{IsGrid, middle_of, AreLowered, AreBelow, IsPeak, IsFoundIn};

use crate::band::{near_span, reach_span, width};
use crate::grid::{Grid, Indices, indices_in, middle_of};
use crate::stretch::Stretch;

/// A cell and its height, in nanometres.
#[derive(Clone, Copy)]
pub struct Peak {
    pub cell: usize,
    pub height: u32,
}

/// Lowers the cells from `first` to the one before `end` to a level at most.
fn lower_cells(heights: &mut [u32], first: usize, end: usize, level: u32)
    requires { end ≤ length heights.old }
    ensures inside { (k : ℕ) → first ≤ k → k < end
        → slice_index heights.new k ≡ min (slice_index heights.old k) level }
    ensures before { (k : ℕ) → k < first → slice_index heights.new k ≡ slice_index heights.old k }
    ensures after { (k : ℕ) → end ≤ k → slice_index heights.new k ≡ slice_index heights.old k }
{
    for k in first..end {
        heights[k] = heights[k].min(level);
    }
}

/// Returns the rows that may have a point which is at most `radius` from a stretch.
fn near_rows(grid: &Grid, stretch: &Stretch, radius: u32) -> Indices
    requires grid { IsGrid grid.now }
    requires stretch { IsStretch stretch.now }
    ensures first { result.first ≤ grid.now.rows }
    ensures within { result.end ≤ grid.now.rows }
    ensures far { (row : ℕ) → row < grid.now.rows → ¬ ((result.first ≤ row) × (row < result.end))
        → (x : ℤ) → ¬ (IsNear stretch.now radius (spot x (middle_of grid.now.corner.y grid.now.half row))) }
{
    let span = reach_span(stretch, radius);
    indices_in(grid.corner.y, grid.half, grid.rows, &span)
}

/// Lowers the cells whose centres are at most `radius` from a stretch to a level at most. Any other
/// cell keeps its height.
pub fn lower(grid: &Grid, heights: &mut [u32], stretch: &Stretch, radius: u32, level: u32)
    requires grid { IsGrid grid.now }
    requires count { length heights.old ≡ grid.now.columns * grid.now.rows }
    requires stretch { IsStretch stretch.now }
    requires radius { radius ≤ RADIUS_LIMIT }
    ensures { AreLowered grid.now stretch.now radius level heights.old heights.new }
{
    let width = width(stretch, radius);
    let rows = near_rows(grid, stretch, radius);
    for row in rows.first..rows.end {
        let y = middle_of(grid.corner.y, grid.half, row);
        let span = near_span(stretch, radius, width, y);
        let indices = indices_in(grid.corner.x, grid.half, grid.columns, &span);
        let begin = row as usize * grid.columns as usize;
        lower_cells(
            heights,
            begin + indices.first as usize,
            begin + indices.end as usize,
            level,
        );
    }
}

/// Returns the highest of the cells from `first` to the one before `end`, or `peak` if none of them
/// is higher.
fn peak_in(heights: &[u32], first: usize, end: usize, peak: Peak) -> Peak
    requires { end ≤ length heights.now }
    ensures most { (k : ℕ) → first ≤ k → k < end → slice_index heights.now k ≤ result.height }
    ensures least { peak.height ≤ result.height }
    ensures same { result.height ≤ peak.height → result ≡ peak }
    ensures found { peak.height < result.height → IsFoundIn heights.now first end result }
{
    let mut best = peak;
    for k in first..end {
        if best.height < heights[k] {
            best = Peak {
                cell: k,
                height: heights[k],
            };
        }
    }
    best
}

/// Returns a highest one of the cells whose centres are at most `radius` from a stretch and whose
/// height is above a level, or `None` if there is none.
pub fn highest_above(
    grid: &Grid,
    heights: &[u32],
    stretch: &Stretch,
    radius: u32,
    level: u32,
) -> Option<Peak>
    requires grid { IsGrid grid.now }
    requires count { length heights.now ≡ grid.now.columns * grid.now.rows }
    requires stretch { IsStretch stretch.now }
    requires radius { radius ≤ RADIUS_LIMIT }
    ensures none { IfNone result (AreBelow grid.now stretch.now radius level heights.now) }
    ensures some { IfSome result (IsPeak grid.now stretch.now radius level heights.now) }
{
    let width = width(stretch, radius);
    let mut peak = Peak {
        cell: 0,
        height: level,
    };
    let rows = near_rows(grid, stretch, radius);
    for row in rows.first..rows.end {
        let y = middle_of(grid.corner.y, grid.half, row);
        let span = near_span(stretch, radius, width, y);
        let indices = indices_in(grid.corner.x, grid.half, grid.columns, &span);
        let begin = row as usize * grid.columns as usize;
        peak = peak_in(
            heights,
            begin + indices.first as usize,
            begin + indices.end as usize,
            peak,
        );
    }
    if level < peak.height {
        Some(peak)
    } else {
        None
    }
}
