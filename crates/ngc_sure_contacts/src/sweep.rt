//! How a motion lowers the cells of a map.
ghost use Rattle.std.specs.Prelude.{◌≡◌, ◌≤◌, ◌<◌, ◌+◌, ◌↔◌, IsTrue, unsigned_abs};
ghost use Rattle.ngc_fixed_length.specs.declared.modes.Plane.{Plane};
ghost use Rattle.ngc_cells.specs.Stretches.{IsSpot};
ghost use Rattle.ngc_stock.specs.Cuts.{lower_tip};
ghost use Rattle.ngc_stock.specs.Stocks.{IsCutBy, level_of, lowest_tip};
ghost use Rattle.ngc_material.specs.Heights.{AreHeights, is_reached, is_way_reached};
ghost use Rattle.ngc_sure_contacts.specs.Maps.{AreSwept};
ghost use Rattle.ngc_sure_contacts.specs.Swept.{IsSweptAlong, IsSweptByArc, IsSweptOn, IsSweptByAny};

use crate::cutter::{level_of, reach};
use crate::line::Line;
use crate::sink::{clear, sink};
use ngc_arc_geometry::Arc;
use ngc_cells::{Spot, Stretch};
use ngc_commands::Way;
use ngc_fixed_length::Plane;
use ngc_stock::{Cylinder, Stock};

// Returns the level of the foot at the lower end of a piece.
fn piece_level(stock: &Stock, cylinder: &Cylinder, line: &Line, part: u32) -> u32
    requires { part < 1000 }
    ensures { result ≡ level_of stock.now (lowest_tip cylinder.now line.now.start line.now.end part) }
{
    level_of(stock, line.lowest_tip(cylinder, part))
}

// Returns the level of the foot at the lower end of a line.
fn line_level(stock: &Stock, cylinder: &Cylinder, line: &Line) -> u32
    ensures { result ≡ level_of stock.now (lower_tip cylinder.now line.now.start line.now.end) }
{
    level_of(stock, line.lower_tip(cylinder))
}

// Lowers the cells that a cylinder may be over at some point of a piece to the lowest height of its foot
// there, for each piece of a line.
fn sweep_pieces(stock: &Stock, heights: &mut [u32], cylinder: &Cylinder, line: &Line)
    requires heights { AreHeights stock.now heights.old }
    requires start { IsTrue (is_reached line.now.start) }
    requires end { IsTrue (is_reached line.now.end) }
    ensures { AreSwept stock.now (IsCutBy cylinder.now line.now.start line.now.end) heights.old heights.new }
{
    let radius = reach(&stock.grid, cylinder);
    for part in 0..line.pieces() {
        let level = piece_level(stock, cylinder, line, part);
        sink(&stock.grid, heights, &line.piece(part), radius, level);
    }
}

fn sweep_line(stock: &Stock, heights: &mut [u32], cylinder: &Cylinder, line: &Line)
    requires heights { AreHeights stock.now heights.old }
    requires start { IsTrue (is_reached line.now.start) }
    requires end { IsTrue (is_reached line.now.end) }
    ensures { AreSwept stock.now (IsCutBy cylinder.now line.now.start line.now.end) heights.old heights.new }
{
    // Holders are wide, and mostly above the stock: their cells would take long.
    if line_level(stock, cylinder, line) < stock.height {
        sweep_pieces(stock, heights, cylinder, line);
    }
}

fn is_near(spot: &Spot) -> bool
    ensures { IsTrue result ↔ IsSpot spot.now }
{
    spot.x.unsigned_abs() <= 2_000_000_000 && spot.y.unsigned_abs() <= 2_000_000_000
}

// Lowers the cells that a cylinder may be over within the outer radius of an arc.
fn sweep_round(stock: &Stock, heights: &mut [u32], cylinder: &Cylinder, arc: &Arc)
    requires heights { AreHeights stock.now heights.old }
    ensures { AreSwept stock.now (IsSweptAlong cylinder.now arc.now) heights.old heights.new }
{
    let line = Line {
        start: arc.start(),
        end: arc.end(),
    };
    let level = line_level(stock, cylinder, &line);
    if stock.height <= level {
        return;
    }
    let centre = arc.centre();
    let spot = Spot {
        x: centre.u.nanometres(),
        y: centre.v.nanometres(),
    };
    if !is_near(&spot) {
        clear(heights);
        return;
    }
    let stretch = Stretch {
        start: spot,
        end: spot,
        parts: 1,
        part: 0,
    };
    let radius = reach(&stock.grid, cylinder) + arc.outer_radius();
    sink(&stock.grid, heights, &stretch, radius, level);
}

#[tactic(auto, using(crate::proofs::Sinking::swept_cleared))]
fn sweep_arc(stock: &Stock, heights: &mut [u32], cylinder: &Cylinder, arc: &Arc)
    requires heights { AreHeights stock.now heights.old }
    ensures { AreSwept stock.now (IsSweptByArc cylinder.now arc.now) heights.old heights.new }
{
    match arc.plane() {
        Plane::XY => sweep_round(stock, heights, cylinder, arc),
        _ => clear(heights),
    }
}

fn sweep_way(stock: &Stock, heights: &mut [u32], cylinder: &Cylinder, way: &Way)
    requires heights { AreHeights stock.now heights.old }
    requires near { IsTrue (is_way_reached way.now) }
    ensures { AreSwept stock.now (IsSweptOn cylinder.now way.now) heights.old heights.new }
{
    match way {
        Way::Line { start, end } => {
            let (start, end) = (*start, *end);
            sweep_line(stock, heights, cylinder, &Line { start, end });
        }
        Way::Arc(arc) => sweep_arc(stock, heights, cylinder, arc),
    }
}

/// Lowers the cells in which the cylinders of a tool may sweep material in a motion, so that what is lower
/// than its cell isn't swept.
pub(crate) fn sweep(stock: &Stock, heights: &mut [u32], body: &[Cylinder], way: &Way)
    requires heights { AreHeights stock.now heights.old }
    requires near { IsTrue (is_way_reached way.now) }
    ensures { AreSwept stock.now (IsSweptByAny body.now way.now) heights.old heights.new }
{
    for cylinder in body {
        sweep_way(stock, heights, cylinder, way);
    }
}
