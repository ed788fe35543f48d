//! The cells that cover a block of material.
ghost use Rattle.std.specs.Prelude.{◌≡◌, ◌<◌, ◌≤◌};
ghost use Rattle.ngc_stock_report.specs.Placed.{side, cells_along, is_covered, half_of, IsLeast};

use ngc_fixed_length::Nm;
use ngc_machine_files::StockBox;

/// The number of cells of a block of material, unless another one is requested.
pub const USUAL_CELLS: u32 = 250_000;

/// The greatest width of a cell, in hundredths of a millimetre: as wide as any block of material.
const WIDEST: u32 = 200_000;

/// Returns the distance of two coordinates.
pub(crate) fn side(low: Nm, high: Nm) -> u64
    ensures { result ≡ side low high }
{
    high.nanometres().abs_diff(low.nanometres())
}

/// Returns the number of cells, each twice `half` wide, that cover a length.
pub(crate) fn cells_along(half: u32, length: u64) -> u64
    requires { 0 < half }
    ensures value { result ≡ cells_along half length }
    ensures bound { result ≤ length }
{
    length.div_ceil(2 * u64::from(half))
}

/// Returns whether at most `most` cells cover a block of material.
fn is_covered(most: u32, half: u32, block: &StockBox) -> bool
    requires { 0 < half }
    ensures { result ≡ is_covered most half block.now }
{
    let columns = cells_along(half, side(block.low.x, block.high.x));
    let rows = cells_along(half, side(block.low.y, block.high.y));
    u128::from(columns) * u128::from(rows) <= u128::from(most)
}

/// Returns half the width of a cell.
pub(crate) fn half_of(number: u32) -> u32
    requires { number ≤ 200000 }
    ensures { result ≡ half_of number }
{
    5_000 * number
}

/// Returns the least width of cells, in hundredths of a millimetre, at which at most `most` cover a
/// block of material: at most two metres.
pub(crate) fn least_width(most: u32, block: &StockBox) -> u32
    ensures { IsLeast most block.now result }
{
    for number in 1..WIDEST {
        if is_covered(most, half_of(number), block) {
            return number;
        }
    }
    WIDEST
}
