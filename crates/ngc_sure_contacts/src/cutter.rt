ghost use Rattle.std.specs.Prelude.{◌≡◌, ◌≤◌, ◌+◌, pos, unsigned_abs, ◌+ℤ◌};
ghost use Rattle.std.specs.Int.{int_min};
ghost use Rattle.ngc_fixed_length.specs.Limits.{LENGTH_LIMIT};
ghost use Rattle.ngc_cells.specs.Stretches.{REACH, RADIUS_LIMIT};
ghost use Rattle.ngc_stock.specs.Stocks.{kappa, lowest_part, radius, level_of};

use ngc_cells::Grid;
use ngc_fixed_length::{Nm, root_ceil};
use ngc_machine_files::Tool;
use ngc_stock::{Cylinder, Stock};

/// Returns the radius of a cylinder, at most a metre.
pub(crate) fn radius(cylinder: &Cylinder) -> u32
    ensures value { result ≡ radius cylinder.now }
    ensures bound { result ≤ RADIUS_LIMIT }
{
    1_000_000_000.min(cylinder.radius) as u32
}

/// Returns the lowest part of a tool, which is its cutter.
pub(crate) fn lowest_part(tool: &Tool) -> Cylinder
    ensures { result ≡ lowest_part tool.now }
{
    let part = tool.parts.as_slice()[0];
    Cylinder {
        bottom: tool.bottom,
        radius: part.radius.nanometres().unsigned_abs(),
    }
}

fn length(nanometres: i128) -> Nm
    requires { unsigned_abs nanometres ≤ LENGTH_LIMIT }
    ensures { result ≡ nanometres }
{
    Nm::from_nanometres(nanometres).unwrap()
}

/// Returns the height that is so far above a foot, but at most 100 m.
pub(crate) fn foot_over(foot: Nm, up: u64) -> Nm
    ensures { result ≡ int_min (pos LENGTH_LIMIT) (foot +ℤ pos up) }
{
    let higher = i128::from(foot.nanometres()) + i128::from(up);
    length(100_000_000_000.min(higher))
}

/// Returns half the diagonal of a cell, rounded up.
fn kappa(grid: &Grid) -> u64
    requires { grid.now.half ≤ REACH }
    ensures value { result ≡ kappa grid.now }
    ensures bound { result ≤ 4000000000 }
{
    let half = u128::from(grid.half);
    root_ceil(2 * (half * half))
}

/// Returns the distance of a cylinder's axis at which the cylinder may be over some point of a cell, measured
/// from the cell's centre.
pub(crate) fn reach(grid: &Grid, cylinder: &Cylinder) -> u64
    requires { grid.now.half ≤ REACH }
    ensures value { result ≡ radius cylinder.now + kappa grid.now }
    ensures bound { result ≤ 5000000000 }
{
    u64::from(radius(cylinder)) + kappa(grid)
}

/// Returns a height of the machine as one above a stock's bottom, from there to its top.
pub(crate) fn level_of(stock: &Stock, height: i64) -> u32
    ensures { result ≡ level_of stock.now height }
{
    if height <= stock.bottom {
        return 0;
    }
    let above = height.abs_diff(stock.bottom);
    if above < u64::from(stock.height) {
        above as u32
    } else {
        stock.height
    }
}
