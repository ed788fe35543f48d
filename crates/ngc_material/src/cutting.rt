//! How a feed lowers the cells of a stock.
ghost use Rattle.std.specs.Prelude.{◌≡◌, ◌≤◌, ◌<◌, ◌+ℤ◌, IsTrue};
ghost use Rattle.ngc_stock.specs.Stocks.{level_of, highest_tip, pieces};
ghost use Rattle.ngc_stock.specs.Walk.{AreCut, AreDiscsCut};
ghost use Rattle.ngc_material.specs.Heights.{AreHeights, AreWithin, is_reached};

use crate::cutter::{kappa, level_of, radius};
use crate::line::Line;
use ngc_cells::lower;
use ngc_stock::{Cylinder, Stock};

// Returns the level of the foot at the higher end of a piece.
fn piece_level(stock: &Stock, cylinder: &Cylinder, line: &Line, part: u32) -> u32
    requires { part < 1000 }
    ensures { result ≡ level_of stock.now (highest_tip cylinder.now line.now.start line.now.end part) }
{
    level_of(stock, line.highest_tip(cylinder, part))
}

// Returns the level of the foot at the end of a line.
fn end_level(stock: &Stock, cylinder: &Cylinder, line: &Line) -> u32
    ensures { result ≡ level_of stock.now (line.now.end.z +ℤ cylinder.now.bottom) }
{
    level_of(stock, line.last_tip(cylinder))
}

// Lowers the cells that a disc of a feed's cutter covers.
fn cut(stock: &Stock, heights: &mut [u32], cylinder: &Cylinder, line: &Line)
    requires heights { AreHeights stock.now heights.old }
    requires start { IsTrue (is_reached line.now.start) }
    requires end { IsTrue (is_reached line.now.end) }
    ensures { AreCut stock.now cylinder.now line.now.start line.now.end heights.old heights.new }
{
    let kappa = kappa(&stock.grid);
    let whole = radius(cylinder);
    if u64::from(whole) < kappa {
        return;
    }
    let radius = whole - kappa as u32;
    for part in 0..line.pieces() {
        let level = piece_level(stock, cylinder, line, part);
        lower(&stock.grid, heights, &line.piece(part), radius, level);
    }
    // A level feed, or one that climbs, is as low in its last piece.
    let level = end_level(stock, cylinder, line);
    if level < piece_level(stock, cylinder, line, line.pieces() - 1) {
        lower(&stock.grid, heights, &line.end_point(), radius, level);
    }
}

/// Lowers the cells that a disc of a feed's cutter covers, if its foot is somewhere below the stock's top.
pub(crate) fn cut_disc(stock: &Stock, heights: &mut [u32], disc: &Cylinder, line: &Line)
    requires heights { AreHeights stock.now heights.old }
    requires within { AreWithin stock.now heights.old }
    requires start { IsTrue (is_reached line.now.start) }
    requires end { IsTrue (is_reached line.now.end) }
    ensures { AreCut stock.now disc.now line.now.start line.now.end heights.old heights.new }
{
    // In a shallow feed the wide discs of a ball or a vee are mostly above the stock, and would take long.
    if level_of(stock, line.lower_tip(disc)) < stock.height {
        cut(stock, heights, disc, line);
    }
}

/// Lowers the cells that the discs of a feed's cutter cover, one disc after another.
pub(crate) fn cut_discs(stock: &Stock, heights: &mut [u32], discs: &[Cylinder], line: &Line)
    requires heights { AreHeights stock.now heights.old }
    requires within { AreWithin stock.now heights.old }
    requires start { IsTrue (is_reached line.now.start) }
    requires end { IsTrue (is_reached line.now.end) }
    ensures { AreDiscsCut stock.now discs.now line.now.start line.now.end heights.old heights.new }
{
    for disc in discs {
        cut_disc(stock, heights, disc, line);
    }
}
