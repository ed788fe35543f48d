//! Where a traverse may touch material, and with which part of a tool.
ghost use Rattle.std.specs.Prelude.{◌≡◌, ◌≤◌, ◌<◌, ◌+◌, ◌*◌, ◌-◌, pos, ◌+ℤ◌, IfNone, IfSome, IsTrue, length, unsigned_abs};
ghost use Rattle.ngc_cells.specs.Stretches.{RADIUS_LIMIT, IsStretch};
ghost use Rattle.ngc_cells.specs.Grids.{IsGrid, AreBelow};
ghost use Rattle.ngc_stock.specs.Stocks.{level_of, lowest_tip, piece, point_at, radius, reduction, rise, tolerance};
ghost use Rattle.ngc_stock.specs.Walk.{AreClear, AreDiscsClear, IsClear};
ghost use Rattle.ngc_material.specs.Heights.{AreHeights, AreWithin, is_reached};
ghost use Rattle.ngc_material.specs.Touches.{IsDeep, IsDeepest, IsFirstTouch, IsInWay, IsInWayOfAny, IsUpperTouch, deeper};

use crate::cutter::{above, level_of, lowest_part, radius, reduction, sigma};
use crate::line::Line;
use ngc_cells::{Grid, Spot, Stretch, highest_above};
use ngc_machine_files::Tool;
use ngc_stock::{Cylinder, Stock};

/// Where a part of a tool may touch material: the centre of a cell, and how far below its height the foot of
/// the part, or of a disc of the cutter, is at most, in nanometres.
#[derive(Clone, Copy)]
pub struct Touch {
    pub place: Spot,
    pub depth: u32,
}

/// Which part of a tool may touch material, counted from 0, the lowest, and where.
#[derive(Clone, Copy)]
pub(crate) struct PartTouch {
    pub(crate) part: usize,
    pub(crate) touch: Touch,
}

/// What is tested at once: the cells near a stretch that are higher than a limit, and the height of
/// the foot there. Both heights are above the stock's bottom.
#[derive(Clone, Copy)]
pub(crate) struct Probe {
    pub(crate) stretch: Stretch,
    pub(crate) radius: u32,
    pub(crate) limit: u32,
    pub(crate) tip: u32,
}

/// Returns the deeper of two touches, or the one that there is.
fn deeper(first: Option<Touch>, second: Option<Touch>) -> Option<Touch>
    ensures { result ≡ deeper first second }
{
    match (first, second) {
        (Some(one), Some(other)) => {
            if one.depth < other.depth {
                Some(other)
            } else {
                Some(one)
            }
        }
        (Some(one), None) => Some(one),
        (None, _) => second,
    }
}

/// Returns a deepest cell of those that a probe finds, or `None` if it finds none.
pub(crate) fn touch_at(stock: &Stock, heights: &[u32], probe: &Probe) -> Option<Touch>
    requires heights { AreHeights stock.now heights.now }
    requires within { AreWithin stock.now heights.now }
    requires stretch { IsStretch probe.now.stretch }
    requires radius { probe.now.radius ≤ RADIUS_LIMIT }
    ensures none { IfNone result (AreBelow stock.now.grid probe.now.stretch probe.now.radius probe.now.limit heights.now) }
    ensures some { IfSome result (IsDeepest stock.now.grid
        (IsDeep stock.now.grid probe.now.stretch probe.now.radius probe.now.limit probe.now.tip heights.now)) }
{
    // A holder is mostly above the stock, and is so wide that its cells would take long.
    if stock.height <= probe.limit {
        return None;
    }
    let grid = &stock.grid;
    match highest_above(grid, heights, &probe.stretch, probe.radius, probe.limit) {
        Some(peak) => Some(Touch {
            place: grid.centre(peak.cell),
            depth: peak.height.saturating_sub(probe.tip),
        }),
        None => None,
    }
}

// Returns how far material may be above a foot and isn't reported.
fn tolerance(grid: &Grid) -> i64
    ensures value { result ≡ pos (tolerance grid.now) }
    ensures bound { tolerance grid.now ≤ 700000000 }
{
    10_000 + 2 * sigma(grid) as i64
}

// Returns the same for the pieces of a line.
fn room(grid: &Grid, line: &Line) -> i64
    ensures value { result ≡ pos (tolerance grid.now + 2 * rise line.now.start line.now.end) }
    ensures bound { tolerance grid.now + 2 * rise line.now.start line.now.end ≤ 500000000000 }
{
    tolerance(grid) + 2 * line.rise() as i64
}

// Returns a level at this distance above a height.
fn level_above(stock: &Stock, height: i64, room: i64) -> u32
    requires height { unsigned_abs height ≤ 400000000000000 }
    requires room { unsigned_abs room ≤ 500000000000 }
    ensures { result ≡ level_of stock.now (height +ℤ room) }
{
    level_of(stock, height + room)
}

// Returns the radius of a cylinder that is tested, or `None` for a thinner one than the reduction.
pub(crate) fn tested_radius(grid: &Grid, cylinder: &Cylinder) -> Option<u32>
    requires { IsGrid grid.now }
    ensures none { IfNone result (radius cylinder.now < reduction grid.now) }
    ensures some { IfSome result (λ r. r ≡ radius cylinder.now - reduction grid.now) }
    ensures thick { IfSome result (λ r. reduction grid.now ≤ radius cylinder.now) }
    ensures bound { IfSome result (λ r. r ≤ RADIUS_LIMIT) }
{
    let reduction = reduction(grid);
    let whole = u64::from(radius(cylinder));
    if whole < reduction {
        return None;
    }
    Some((whole - reduction) as u32)
}

// Returns what is tested at the end of a traverse.
pub(crate) fn end_probe(stock: &Stock, cylinder: &Cylinder, line: &Line, tested: u32) -> Probe
    ensures { result ≡ record {
      stretch = point_at line.now.end;
      radius = tested;
      limit = level_of stock.now ((line.now.end.z +ℤ cylinder.now.bottom) +ℤ pos (tolerance stock.now.grid));
      tip = level_of stock.now (line.now.end.z +ℤ cylinder.now.bottom);
    } }
{
    let tip = line.last_tip(cylinder);
    Probe {
        stretch: line.end_point(),
        radius: tested,
        limit: level_above(stock, tip, tolerance(&stock.grid)),
        tip: level_of(stock, tip),
    }
}

// Returns what is tested at a piece of a traverse.
fn piece_probe(stock: &Stock, cylinder: &Cylinder, line: &Line, part: u32, tested: u32) -> Probe
    requires { part < 1000 }
    ensures { result ≡ record {
      stretch = piece line.now.start line.now.end part;
      radius = tested;
      limit = level_of stock.now (lowest_tip cylinder.now line.now.start line.now.end part
          +ℤ pos (tolerance stock.now.grid + 2 * rise line.now.start line.now.end));
      tip = level_of stock.now (lowest_tip cylinder.now line.now.start line.now.end part);
    } }
{
    let tip = line.lowest_tip(cylinder, part);
    Probe {
        stretch: line.piece(part),
        radius: tested,
        limit: level_above(stock, tip, room(&stock.grid, line)),
        tip: level_of(stock, tip),
    }
}

/// Returns where a cylinder may touch material deepest, or `None` if it touches none.
fn deepest_touch(stock: &Stock, heights: &[u32], cylinder: &Cylinder, line: &Line) -> Option<Touch>
    requires heights { AreHeights stock.now heights.now }
    requires within { AreWithin stock.now heights.now }
    requires start { IsTrue (is_reached line.now.start) }
    requires end { IsTrue (is_reached line.now.end) }
    ensures none { IfNone result (IsClear stock.now cylinder.now line.now.start line.now.end heights.now) }
    ensures some { IfSome result (IsDeepest stock.now.grid
        (IsInWay stock.now cylinder.now line.now.start line.now.end heights.now)) }
{
    let Some(tested) = tested_radius(&stock.grid, cylinder) else {
        return None;
    };
    let probe = end_probe(stock, cylinder, line, tested);
    let mut deepest = touch_at(stock, heights, &probe);
    for part in 0..line.pieces() {
        let probe = piece_probe(stock, cylinder, line, part, tested);
        deepest = deeper(deepest, touch_at(stock, heights, &probe));
    }
    deepest
}

/// Returns where a disc of a cutter may touch material deepest, or `None` if none touches any.
fn cutter_touch(stock: &Stock, heights: &[u32], discs: &[Cylinder], line: &Line) -> Option<Touch>
    requires heights { AreHeights stock.now heights.now }
    requires within { AreWithin stock.now heights.now }
    requires start { IsTrue (is_reached line.now.start) }
    requires end { IsTrue (is_reached line.now.end) }
    ensures none { IfNone result (AreDiscsClear stock.now discs.now line.now.start line.now.end heights.now) }
    ensures some { IfSome result (IsDeepest stock.now.grid
        (IsInWayOfAny stock.now discs.now line.now.start line.now.end heights.now)) }
{
    let mut deepest = None;
    for disc in discs {
        deepest = deeper(deepest, deepest_touch(stock, heights, disc, line));
    }
    deepest
}

/// Returns the lowest part of a tool above its cutter that may touch material along a line, and where it is
/// deepest, or `None` if none of them may touch any.
pub(crate) fn upper_touch(
    stock: &Stock,
    heights: &[u32],
    tool: &Tool,
    line: &Line,
) -> Option<PartTouch>
    requires heights { AreHeights stock.now heights.now }
    requires within { AreWithin stock.now heights.now }
    requires start { IsTrue (is_reached line.now.start) }
    requires end { IsTrue (is_reached line.now.end) }
    ensures none { IfNone result (AreClear stock.now tool.now line.now.start line.now.end heights.now) }
    ensures some { IfSome result (λ f.
        IsUpperTouch stock.now tool.now line.now.start line.now.end heights.now f.part f.touch) }
{
    let mut upper = above(tool);
    for part in 1..tool.parts.as_slice().len() {
        if let Some(touch) = deepest_touch(stock, heights, &lowest_part(&upper), line) {
            return Some(PartTouch { part, touch });
        }
        upper = above(&upper);
    }
    None
}

/// Returns the lowest part of a tool that may touch material along a line, and where it is deepest, or `None`
/// if no part may touch any. The cutter is its discs.
pub(crate) fn first_touch(
    stock: &Stock,
    heights: &[u32],
    tool: &Tool,
    discs: &[Cylinder],
    line: &Line,
) -> Option<PartTouch>
    requires heights { AreHeights stock.now heights.now }
    requires within { AreWithin stock.now heights.now }
    requires start { IsTrue (is_reached line.now.start) }
    requires end { IsTrue (is_reached line.now.end) }
    ensures none { IfNone result (AreDiscsClear stock.now discs.now line.now.start line.now.end heights.now
        × AreClear stock.now tool.now line.now.start line.now.end heights.now) }
    ensures some { IfSome result (λ f.
        IsFirstTouch stock.now discs.now tool.now line.now.start line.now.end heights.now f.part f.touch) }
{
    match cutter_touch(stock, heights, discs, line) {
        Some(touch) => Some(PartTouch { part: 0, touch }),
        None => upper_touch(stock, heights, tool, line),
    }
}
