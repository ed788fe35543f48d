//! The block of material in the machine.
ghost use Rattle.std.specs.Prelude.{◌≡◌, ◌<◌, ◌≤◌, ◌+ℤ◌, unsigned_abs, Some, None, IfNone, IfSome};
ghost use Rattle.ngc_fixed_length.specs.Places.{zero_point};
ghost use Rattle.ngc_cells.specs.Stretches.{spot};
ghost use Rattle.ngc_machine_files.specs.Machine.{file_of};
ghost use Rattle.ngc_machine_files.specs.Ranges.{IsSized, IsStock, PLACE_LIMIT};
ghost use Rattle.ngc_stock_report.specs.Placed.{origin_at, placed, IsPlaced};

use crate::cells::{cells_along, half_of, least_width, side};
use ngc_cells::{Grid, Spot};
use ngc_fixed_length::{Nm, Point3};
use ngc_machine_files::{Machine, StockBox};
use ngc_stock::Stock;
use std::alloc::Allocator;

fn zero_point() -> Point3
    ensures { result ≡ zero_point }
{
    let zero = Nm::zero();
    Point3 {
        x: zero,
        y: zero,
        z: zero,
    }
}

/// Returns the origin of a coordinate system, 1 to 9, and the machine's zero for any other number.
pub(crate) fn origin_at<A: Allocator>(machine: &Machine<A>, system: u32) -> Point3
    ensures value { result ≡ origin_at (file_of machine.now) system }
    ensures sized { IsSized PLACE_LIMIT result }
{
    if system == 0 {
        return zero_point();
    }
    match machine.origins.get(system as usize - 1) {
        Some(origin) => *origin,
        None => zero_point(),
    }
}

/// Returns a coordinate in the machine, of one in a coordinate system with this origin.
pub(crate) fn sum(origin: Nm, low: Nm) -> i64
    requires origin { unsigned_abs origin ≤ 4000000000 }
    requires low { unsigned_abs low ≤ 1000000000 }
    ensures { result ≡ origin +ℤ low }
{
    origin.nanometres() + low.nanometres()
}

fn corner(origin: &Point3, block: &StockBox) -> Spot
    requires origin { IsSized PLACE_LIMIT origin.now }
    requires block { IsStock block.now }
    ensures { result ≡ spot (origin.now.x +ℤ block.now.low.x) (origin.now.y +ℤ block.now.low.y) }
{
    Spot {
        x: sum(origin.x, block.low.x),
        y: sum(origin.y, block.low.y),
    }
}

/// Returns a block of material in the machine: with the origin of its coordinate system, and the half
/// width of its cells.
fn placed(origin: &Point3, block: &StockBox, half: u32) -> Stock
    requires origin { IsSized PLACE_LIMIT origin.now }
    requires block { IsStock block.now }
    requires half { 0 < half }
    ensures { result ≡ placed origin.now block.now half }
{
    let grid = Grid {
        corner: corner(origin, block),
        half,
        columns: cells_along(half, side(block.low.x, block.high.x)) as u32,
        rows: cells_along(half, side(block.low.y, block.high.y)) as u32,
    };
    Stock {
        grid,
        bottom: sum(origin.z, block.low.z),
        height: side(block.low.z, block.high.z) as u32,
    }
}

fn placed_in<A: Allocator>(most: u32, machine: &Machine<A>, block: &StockBox) -> Stock
    requires { IsStock block.now }
    ensures placed { (file_of machine.now).stock ≡ Some block.now → IsPlaced most (file_of machine.now) result }
    ensures cells { (0 < result.grid.columns) × (0 < result.grid.rows) }
{
    let origin = origin_at(machine, block.system);
    let number = least_width(most, block);
    placed(&origin, block, half_of(number))
}

/// Returns a machine's block of material, in the machine, in at most `most` cells, or `None` if the
/// machine has none.
pub(crate) fn stock_in<A: Allocator>(most: u32, machine: &Machine<A>) -> Option<Stock>
    ensures none { IfNone result ((file_of machine.now).stock ≡ None) }
    ensures some { IfSome result (IsPlaced most (file_of machine.now)) }
    ensures cells { IfSome result (λ s. (0 < s.grid.columns) × (0 < s.grid.rows)) }
{
    match &machine.stock {
        Some(block) => Some(placed_in(most, machine, block)),
        None => None,
    }
}
