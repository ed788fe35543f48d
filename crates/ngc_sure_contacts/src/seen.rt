//! Where a cylinder surely goes through material along a line.
ghost use Rattle.std.specs.Prelude.{◌≡◌, ◌≤◌, ◌<◌, ◌+ℤ◌, IfSome, IsTrue};
ghost use Rattle.ngc_cells.specs.Stretches.{RADIUS_LIMIT, IsStretch};
ghost use Rattle.ngc_stock.specs.Stocks.{highest_tip, level_of, pieces};
ghost use Rattle.ngc_material.specs.Heights.{AreHeights, AreWithin, is_reached};
ghost use Rattle.ngc_sure_contacts.specs.Contacts.{IsThrough, IsThroughByAny, deeper};
ghost use Rattle.ngc_sure_contacts.specs.Maps.{IsSeen, IsUnder};

use crate::contact::Contact;
use crate::cutter::{level_of, radius};
use crate::line::Line;
use ngc_cells::{Stretch, highest_above};
use ngc_stock::{Cylinder, Stock};

/// What is tested at once: the cells near a stretch, and the height of the foot there, above the stock's
/// bottom.
#[derive(Clone, Copy)]
struct Probe {
    stretch: Stretch,
    radius: u32,
    tip: u32,
}

/// Returns the deeper of two contacts, or the one that there is.
fn deeper(first: Option<Contact>, second: Option<Contact>) -> Option<Contact>
    ensures { result ≡ deeper first second }
{
    match (first, second) {
        (Some(one), Some(other)) => {
            if one.depth < other.depth {
                Some(other)
            } else {
                Some(one)
            }
        }
        (Some(one), None) => Some(one),
        (None, _) => second,
    }
}

// Returns a highest cell of those that a probe finds, or `None` if no foot is 0.01 mm deep in any.
#[tactic(auto, using(crate::proofs::Seeing::peak_seen))]
fn contact_at(stock: &Stock, heights: &[u32], probe: &Probe) -> Option<Contact>
    requires heights { AreHeights stock.now heights.now }
    requires stretch { IsStretch probe.now.stretch }
    requires radius { probe.now.radius ≤ RADIUS_LIMIT }
    ensures { IfSome result (IsSeen stock.now heights.now probe.now.stretch probe.now.radius probe.now.tip) }
{
    let limit = probe.tip.saturating_add(10_000);
    if stock.height <= limit {
        return None;
    }
    let grid = &stock.grid;
    match highest_above(grid, heights, &probe.stretch, probe.radius, limit) {
        Some(peak) => Some(Contact {
            place: grid.centre(peak.cell),
            depth: peak.height.saturating_sub(probe.tip),
        }),
        None => None,
    }
}

// Returns the level of the foot at the end of a line.
fn end_level(stock: &Stock, cylinder: &Cylinder, line: &Line) -> u32
    ensures { result ≡ level_of stock.now (line.now.end.z +ℤ cylinder.now.bottom) }
{
    level_of(stock, line.last_tip(cylinder))
}

// Returns the level of the foot at the higher end of a piece.
fn piece_level(stock: &Stock, cylinder: &Cylinder, line: &Line, part: u32) -> u32
    requires { part < 1000 }
    ensures { result ≡ level_of stock.now (highest_tip cylinder.now line.now.start line.now.end part) }
{
    level_of(stock, line.highest_tip(cylinder, part))
}

fn end_contact(stock: &Stock, heights: &[u32], cylinder: &Cylinder, line: &Line) -> Option<Contact>
    requires heights { AreHeights stock.now heights.now }
    requires within { AreWithin stock.now heights.now }
    requires end { IsTrue (is_reached line.now.end) }
    ensures { IfSome result (IsThrough stock.now (IsUnder stock.now heights.now) cylinder.now line.now.start line.now.end) }
{
    let probe = Probe {
        stretch: line.end_point(),
        radius: radius(cylinder),
        tip: end_level(stock, cylinder, line),
    };
    contact_at(stock, heights, &probe)
}

fn piece_contact(
    stock: &Stock,
    heights: &[u32],
    cylinder: &Cylinder,
    line: &Line,
    part: u32,
) -> Option<Contact>
    requires heights { AreHeights stock.now heights.now }
    requires within { AreWithin stock.now heights.now }
    requires start { IsTrue (is_reached line.now.start) }
    requires end { IsTrue (is_reached line.now.end) }
    requires part { part < pieces line.now.start line.now.end }
    requires few { pieces line.now.start line.now.end ≤ 1000 }
    ensures { IfSome result (IsThrough stock.now (IsUnder stock.now heights.now) cylinder.now line.now.start line.now.end) }
{
    let probe = Probe {
        stretch: line.piece(part),
        radius: radius(cylinder),
        tip: piece_level(stock, cylinder, line, part),
    };
    contact_at(stock, heights, &probe)
}

// Returns where a cylinder goes through material deepest along a line, as the heights show it.
fn line_contact(stock: &Stock, heights: &[u32], cylinder: &Cylinder, line: &Line) -> Option<Contact>
    requires heights { AreHeights stock.now heights.now }
    requires within { AreWithin stock.now heights.now }
    requires start { IsTrue (is_reached line.now.start) }
    requires end { IsTrue (is_reached line.now.end) }
    ensures { IfSome result (IsThrough stock.now (IsUnder stock.now heights.now) cylinder.now line.now.start line.now.end) }
{
    let mut deepest = end_contact(stock, heights, cylinder, line);
    for part in 0..line.pieces() {
        let contact = piece_contact(stock, heights, cylinder, line, part);
        deepest = deeper(deepest, contact);
    }
    deepest
}

/// Returns where one of some cylinders goes through material deepest along a line, as the heights show it.
pub(crate) fn deepest_contact(
    stock: &Stock,
    heights: &[u32],
    cylinders: &[Cylinder],
    line: &Line,
) -> Option<Contact>
    requires heights { AreHeights stock.now heights.now }
    requires within { AreWithin stock.now heights.now }
    requires start { IsTrue (is_reached line.now.start) }
    requires end { IsTrue (is_reached line.now.end) }
    ensures { IfSome result (IsThroughByAny stock.now (IsUnder stock.now heights.now) cylinders.now line.now.start line.now.end) }
{
    let mut deepest = None;
    for cylinder in cylinders {
        let contact = line_contact(stock, heights, cylinder, line);
        deepest = deeper(deepest, contact);
    }
    deepest
}
