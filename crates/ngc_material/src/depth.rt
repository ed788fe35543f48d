//! How deep straight feeds cut.
ghost use Rattle.std.specs.Prelude.{◌≡◌, ◌≤◌, IsTrue, pos, max, ◌+ℤ◌, ◌-ℤ◌, unsigned_abs};
ghost use Rattle.ngc_stock.specs.Cuts.{AreDepths, IsDepth, from_tip};
ghost use Rattle.ngc_stock.specs.Stocks.{natural_of};
ghost use Rattle.ngc_material.specs.Heights.{AreHeights, AreWithin, is_reached};

use crate::cutter::level_of;
use crate::line::Line;
use crate::touch::{Probe, tested_radius, touch_at};
use ngc_machine_files::Tool;
use ngc_stock::{Cylinder, Stock};

// Returns how far a level is above the height of a foot, or 0.
fn above_tip(stock: &Stock, level: u64, tip: i64) -> u64
    requires level { level ≤ 8589934592 }
    requires tip { unsigned_abs tip ≤ 200000000000 }
    ensures value { result ≡ natural_of ((stock.now.bottom +ℤ pos level) -ℤ tip) }
    ensures bound { result ≤ 10000000000000000000 }
{
    let apart = tip.abs_diff(stock.bottom);
    if tip < stock.bottom {
        level + apart
    } else {
        level.saturating_sub(apart)
    }
}

// Returns how far the highest cell that a disc of a straight feed's cutter passes is above the lower of the
// two heights of its foot, in nanometres; 0 if none is, or if the disc is too thin for the cells. The disc is
// smaller by the reduction, and the heights are those before the feed.
fn depth_of(stock: &Stock, heights: &[u32], cylinder: &Cylinder, line: &Line) -> u64
    requires heights { AreHeights stock.now heights.now }
    requires within { AreWithin stock.now heights.now }
    requires start { IsTrue (is_reached line.now.start) }
    requires end { IsTrue (is_reached line.now.end) }
    ensures value { IsDepth stock.now cylinder.now line.now.start line.now.end heights.now result }
    ensures bound { result ≤ 10000000000000000000 }
{
    let Some(tested) = tested_radius(&stock.grid, cylinder) else {
        return 0;
    };
    let tip = line.lower_tip(cylinder);
    let level = level_of(stock, tip);
    let probe = Probe {
        stretch: line.whole(),
        radius: tested,
        limit: level,
        tip: level,
    };
    match touch_at(stock, heights, &probe) {
        Some(touch) => above_tip(stock, u64::from(level) + u64::from(touch.depth), tip),
        None => 0,
    }
}

// Returns the depth from the tip of a tool, of a disc of this depth.
fn from_tip(tool: &Tool, disc: &Cylinder, depth: u64) -> u64
    requires { depth ≤ 10000000000000000000 }
    ensures { result ≡ from_tip tool.now disc.now depth }
{
    if depth == 0 {
        return 0;
    }
    let (foot, tip) = (disc.bottom.nanometres(), tool.bottom.nanometres());
    depth + foot.abs_diff(tip)
}

/// Returns how far the highest material that the discs of a straight feed's cutter meet is above the lower of
/// the tool's two tips, in nanometres; 0 if they meet none.
pub(crate) fn greatest_depth(
    stock: &Stock,
    heights: &[u32],
    tool: &Tool,
    discs: &[Cylinder],
    line: &Line,
) -> u64
    requires heights { AreHeights stock.now heights.now }
    requires within { AreWithin stock.now heights.now }
    requires start { IsTrue (is_reached line.now.start) }
    requires end { IsTrue (is_reached line.now.end) }
    ensures { AreDepths stock.now tool.now discs.now line.now.start line.now.end heights.now result }
{
    let mut greatest = 0;
    for disc in discs {
        let depth = depth_of(stock, heights, disc, line);
        greatest = greatest.max(from_tip(tool, disc, depth));
    }
    greatest
}
