//! Tool changes below the top of a stock.
ghost use Rattle.std.specs.Prelude.{◌≡◌, pos, ◌+ℤ◌, ◌-ℤ◌, Some};
ghost use Rattle.ngc_stock.specs.Stocks.{natural_of};
ghost use Rattle.ngc_stock.specs.Changes.{is_beside, is_over, depth_at, tool_number, change_with, change_from, change_at};

use crate::cutter::{lowest_part, radius};
use crate::line::flat;
use ngc_commands::{Action, Command, Reached};
use ngc_fixed_length::{Nm, Point3};
use ngc_machine_files::Tool;
use ngc_stock::{Change, Stock};

/// Returns whether a place is at most `radius` from a row of cells, along an axis.
fn is_beside(corner: i64, half: u32, count: u32, radius: u32, place: &Nm) -> bool
    ensures { result ≡ is_beside corner half count radius place.now }
{
    let place = place.nanometres();
    if place < corner {
        return place.abs_diff(corner) <= u64::from(radius);
    }
    let width = 2 * u128::from(count) * u128::from(half);
    u128::from(place.abs_diff(corner)) <= width + u128::from(radius)
}

/// Returns whether a tool is over the cells of a stock, or at most its radius beside them.
fn is_over(stock: &Stock, tool: &Tool, place: &Point3) -> bool
    ensures { result ≡ is_over stock.now tool.now place.now }
{
    let (grid, radius) = (stock.grid, radius(&lowest_part(tool)));
    is_beside(grid.corner.x, grid.half, grid.columns, radius, &place.x)
        && is_beside(grid.corner.y, grid.half, grid.rows, radius, &place.y)
}

/// Returns how far a tool's tip is below the top of a stock, or 0.
fn tip_depth(stock: &Stock, tool: &Tool, place: &Point3) -> u64
    ensures { result ≡ natural_of ((stock.now.bottom +ℤ pos stock.now.height) -ℤ (place.now.z +ℤ tool.now.bottom)) }
{
    let tip = place.z.nanometres() + tool.bottom.nanometres();
    let (height, apart) = (u64::from(stock.height), tip.abs_diff(stock.bottom));
    if tip < stock.bottom {
        height + apart
    } else {
        height.saturating_sub(apart)
    }
}

fn tool_depth(stock: &Stock, tool: &Tool, place: &Point3) -> u64
    ensures { result ≡ depth_at stock.now (Some tool.now) place.now }
{
    if is_over(stock, tool, place) {
        tip_depth(stock, tool, place)
    } else {
        0
    }
}

fn depth_at(stock: &Stock, tool: &Option<Tool>, place: &Point3) -> u64
    ensures { result ≡ depth_at stock.now tool.now place.now }
{
    match tool {
        Some(tool) => tool_depth(stock, tool, place),
        None => 0,
    }
}

/// Returns the number of a tool, or 0.
pub(crate) fn tool_number(tool: &Option<Tool>) -> u32
    ensures { result ≡ tool_number tool.now }
{
    match tool {
        Some(tool) => tool.number,
        None => 0,
    }
}

// Returns a change at which a tool is this deep, if it is.
fn change_with(
    index: usize,
    line: u32,
    place: &Point3,
    tool: &Option<Tool>,
    depth: u64,
) -> Option<Change>
    ensures { result ≡ change_with index line place.now tool.now depth }
{
    if depth == 0 {
        return None;
    }
    Some(Change {
        command: index,
        line,
        tool: tool_number(tool),
        place: flat(place),
        depth,
    })
}

fn change_from(
    stock: &Stock,
    index: usize,
    line: u32,
    reached: &Reached,
    next: &Option<Tool>,
) -> Option<Change>
    ensures { result ≡ change_from stock.now index line reached.now.place reached.now.tool next.now }
{
    let place = &reached.place;
    let before = depth_at(stock, &reached.tool, place);
    let later = depth_at(stock, next, place);
    if before < later {
        change_with(index, line, place, next, later)
    } else {
        change_with(index, line, place, &reached.tool, before)
    }
}

/// Returns a command's tool change, if the tip of the tool before or after it is below the top of a
/// stock and over it, or at most the tool's radius beside it. `reached` is the state before the command,
/// and `index` the command's.
pub fn change_at(
    stock: &Stock,
    reached: &Reached,
    index: usize,
    command: &Command,
) -> Option<Change>
    ensures { result ≡ change_at stock.now reached.now index command.now }
{
    match &command.action {
        Action::Mount(next) => change_from(stock, index, command.line, reached, next),
        _ => None,
    }
}
