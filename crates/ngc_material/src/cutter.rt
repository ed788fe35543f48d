ghost use Rattle.std.specs.Prelude.{◌≡◌, ◌≤◌, ◌<◌, nat_lt, length, pos, unsigned_abs, ◌+ℤ◌};
ghost use Rattle.std.specs.Int.{int_min};
ghost use Rattle.ngc_fixed_length.specs.Limits.{LENGTH_LIMIT};
ghost use Rattle.ngc_cells.specs.Stretches.{REACH, RADIUS_LIMIT};
ghost use Rattle.ngc_stock.specs.Stocks.{above, first_part, kappa, sigma, lowest_part, margin, radius, reduction, level_of};

use ngc_cells::Grid;
use ngc_fixed_length::{Nm, root_ceil};
use ngc_machine_files::{Parts, Tool};
use ngc_stock::{Cylinder, Stock};

/// Returns the radius of a cylinder, at most a metre.
pub(crate) fn radius(cylinder: &Cylinder) -> u32
    ensures value { result ≡ radius cylinder.now }
    ensures bound { result ≤ RADIUS_LIMIT }
{
    1_000_000_000.min(cylinder.radius) as u32
}

/// Returns the lowest part of a tool, which is its cutter.
pub(crate) fn lowest_part(tool: &Tool) -> Cylinder
    ensures { result ≡ lowest_part tool.now }
{
    let part = tool.parts.as_slice()[0];
    Cylinder {
        bottom: tool.bottom,
        radius: part.radius.nanometres().unsigned_abs(),
    }
}

fn length(nanometres: i128) -> Nm
    requires { unsigned_abs nanometres ≤ LENGTH_LIMIT }
    ensures { result ≡ nanometres }
{
    Nm::from_nanometres(nanometres).unwrap()
}

/// Returns the height that is so far above the tip of a tool, but at most 100 m.
pub(crate) fn foot(tool: &Tool, up: u64) -> Nm
    ensures { result ≡ int_min (pos LENGTH_LIMIT) (tool.now.bottom +ℤ pos up) }
{
    let foot = i128::from(tool.bottom.nanometres()) + i128::from(up);
    length(100_000_000_000.min(foot))
}

// Returns the height of the foot of the part above a tool's lowest one.
fn foot_above(tool: &Tool) -> Nm
    ensures { result ≡ int_min (pos LENGTH_LIMIT)
        (tool.now.bottom +ℤ pos (unsigned_abs (first_part tool.now.parts).length)) }
{
    let part = tool.parts.as_slice()[0];
    foot(tool, part.length.nanometres().unsigned_abs())
}

/// Returns a tool without its lowest part, or the same tool if it has one part.
pub(crate) fn above(tool: &Tool) -> Tool
    ensures { 1 < length tool.now.parts → result ≡ above tool.now }
{
    let parts = tool.parts.as_slice();
    match Parts::of(&parts[1..]) {
        Some(parts) => Tool {
            number: tool.number,
            offset: tool.offset,
            bottom: foot_above(tool),
            parts,
            name: tool.name,
        },
        None => *tool,
    }
}

/// Returns half the diagonal of a cell, rounded up.
pub(crate) fn kappa(grid: &Grid) -> u64
    requires { grid.now.half ≤ REACH }
    ensures value { result ≡ kappa grid.now }
    ensures bound { result ≤ 4000000000 }
{
    let half = u128::from(grid.half);
    root_ceil(2 * (half * half))
}

/// Returns the room for the chords of arcs.
pub(crate) fn sigma(grid: &Grid) -> u64
    ensures value { result ≡ sigma grid.now }
    ensures bound { result ≤ 300000000 }
{
    u64::from(grid.half) / 16 + 2
}

/// Returns a height of the machine as one above a stock's bottom, from there to its top.
pub(crate) fn level_of(stock: &Stock, height: i64) -> u32
    ensures { result ≡ level_of stock.now height }
{
    if height <= stock.bottom {
        return 0;
    }
    let above = height.abs_diff(stock.bottom);
    if above < u64::from(stock.height) {
        above as u32
    } else {
        stock.height
    }
}

/// Returns how much smaller than a cylinder of a tool the one is that is tested.
pub(crate) fn reduction(grid: &Grid) -> u64
    requires { grid.now.half ≤ REACH }
    ensures value { result ≡ reduction grid.now }
    ensures bound { result ≤ 4300000000 }
{
    kappa(grid) + sigma(grid)
}

/// Returns how much smaller than a cylinder of a tool the one is of which a walk says that it meets nothing
/// in the traverses that aren't found, in nanometres.
pub fn margin(grid: &Grid) -> u64
    requires { grid.now.half ≤ REACH }
    ensures value { result ≡ margin grid.now }
    ensures bound { result ≤ 8300000000 }
{
    kappa(grid) + reduction(grid)
}

/// Returns whether a tool's cutter is so thin that its traverses aren't tested.
pub fn is_thin(grid: &Grid, tool: &Tool) -> bool
    requires { grid.now.half ≤ REACH }
    ensures { result ≡ nat_lt (radius (lowest_part tool.now)) (reduction grid.now) }
{
    u64::from(radius(&lowest_part(tool))) < reduction(grid)
}
