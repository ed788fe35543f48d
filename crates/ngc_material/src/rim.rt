//! Where the parts of a tool above its cutter may touch material along an arc.
ghost use Rattle.std.specs.Prelude.{◌≡◌, ◌≤◌, ◌<ℤ◌, ◌-◌, ◌+◌, ◌⊎◌, pos, IfNone, IfSome, IfOk, IfErr, IsTrue};
ghost use Rattle.std.specs.Int.{int_min};
ghost use Rattle.ngc_fixed_length.specs.Places.{cross};
ghost use Rattle.ngc_cells.specs.Grids.{IsGrid};
ghost use Rattle.ngc_stock.specs.Arcs.{AreAlong, IsChord, first_end, last_end, low_at};
ghost use Rattle.ngc_stock.specs.Feeds.{AreAbove};
ghost use Rattle.ngc_stock.specs.Stocks.{sigma};
ghost use Rattle.ngc_stock.specs.Walk.{AreClear};
ghost use Rattle.ngc_material.specs.Heights.{AreHeights, AreWithin, is_reached};
ghost use Rattle.ngc_material.specs.Rims.{AreChordsClear, IsRim, IsStopped};
ghost use Rattle.ngc_material.specs.Touches.{IsArcTouch, IsLowPart};

use crate::chord::{Band, Sector};
use crate::cutter::{above, lowest_part, sigma};
use crate::line::{Line, flat};
use crate::reach::is_reached;
use crate::spoke::Spoke;
use crate::sweep::{Piece, narrower, room};
use crate::touch::{PartTouch, Touch, end_probe, upper_touch};
use ngc_arc_geometry::Arc;
use ngc_fixed_length::{Nm, Plane, Point3, Turn};
use ngc_machine_files::Tool;
use ngc_stock::Stock;

/// Why the parts of a tool aren't tested along all chords of an arc.
#[derive(Clone, Copy)]
pub(crate) enum Stop {
    /// A part may touch material along one of them.
    Touched(PartTouch),
    /// No chords are found that follow the arc.
    Lost,
}

fn length(nanometres: i64) -> Option<Nm>
    ensures { IfSome result (λ l. l ≡ nanometres) }
{
    match Nm::from_nanometres(i128::from(nanometres)) {
        Ok(length) => Some(length),
        Err(_) => None,
    }
}

/// Returns the height of an arc's lower end.
fn lower_end(arc: &Arc) -> Nm
    ensures { result ≡ int_min arc.now.start.z arc.now.end.z }
{
    let (start, end) = (arc.start().z, arc.end().z);
    if end.nanometres() < start.nanometres() {
        end
    } else {
        start
    }
}

/// Returns how far the chords of an arc of these radii may be from its centre.
fn band(inner: u64, outer: u64, room: u64) -> Band
    requires inner { inner ≤ 2000020000 }
    requires outer { outer ≤ 2000020000 }
    requires room { room ≤ 300000000 }
    ensures least { result.least ≡ outer - room }
    ensures most { result.most ≡ inner + room }
{
    Band {
        least: outer.saturating_sub(room),
        most: inner + room,
    }
}

/// An arc along which parts of a tool are tested.
#[derive(Clone, Copy)]
struct Rim {
    stock: Stock,
    arc: Arc,
    sector: Sector,
    /// How far the chords may be from the centre.
    band: Band,
    /// How far the cutter's chords are from it. The parts are tested along these, since what the cutter has
    /// removed along others may be a little too narrow.
    tight: Band,
    ghost holds: { IsRim stock arc sector band },
    ghost fits: { (tight.least ≤ 2400000000) × (tight.most ≤ 2400000000) },
}

impl Rim {
    /// Returns an arc with what is to know of it, or `None` if its centre is too far from its ends.
    fn of(stock: &Stock, arc: &Arc) -> Option<Rim>
        requires { IsGrid stock.now.grid }
        ensures { IfSome result (λ r. (r.stock ≡ stock.now) × (r.arc ≡ arc.now)) }
    {
        let (inner, outer) = (arc.inner_radius(), arc.outer_radius());
        let room = room(&stock.grid, inner, outer);
        let sector = Sector::of(arc)?;
        Some(Rim {
            stock: *stock,
            arc: *arc,
            sector,
            band: band(inner, outer, sigma(&stock.grid)),
            tight: narrower(&band(inner, outer, room), room),
        })
    }

    /// Returns the point at the end of a spoke, as low as the arc's lower end, or `None` if it is far from the
    /// machine's zero.
    fn low_at(&self, spoke: &Spoke) -> Option<Point3>
        ensures place { IfSome result (λ p. p ≡ low_at self.now.arc spoke.now) }
        ensures near { IfSome result (λ p. IsTrue (is_reached p)) }
    {
        let centre = self.arc.centre();
        let point = Point3 {
            x: length(centre.u.nanometres() + spoke.x())?,
            y: length(centre.v.nanometres() + spoke.y())?,
            z: lower_end(&self.arc),
        };
        if is_reached(&point) {
            Some(point)
        } else {
            None
        }
    }

    /// Returns the line between the ends of two spokes, or `None` if it doesn't follow the arc
    /// counterclockwise.
    fn chord(&self, first: &Spoke, last: &Spoke) -> Option<Line>
        ensures chord { IfSome result (λ l. IsChord self.now.arc (sigma self.now.stock.grid) first.now last.now) }
        ensures turns { IfSome result (λ l. pos 0 <ℤ cross first.now last.now) }
        ensures start { IfSome result (λ l. l.start ≡ low_at self.now.arc first.now) }
        ensures end { IfSome result (λ l. l.end ≡ low_at self.now.arc last.now) }
        ensures starts_near { IfSome result (λ l. IsTrue (is_reached l.start)) }
        ensures ends_near { IfSome result (λ l. IsTrue (is_reached l.end)) }
    {
        if !self.band.has(&self.sector, first, last) || first.cross(last) <= 0 {
            return None;
        }
        let start = self.low_at(first)?;
        let end = self.low_at(last)?;
        Some(Line { start, end })
    }

    fn test_chord(
        &self,
        heights: &[u32],
        tool: &Tool,
        first: &Spoke,
        last: &Spoke,
    ) -> Result<(), Stop>
        requires heights { AreHeights self.now.stock heights.now }
        requires within { AreWithin self.now.stock heights.now }
        ensures chord { IfOk result (λ u. IsChord self.now.arc (sigma self.now.stock.grid) first.now last.now) }
        ensures turns { IfOk result (λ u. pos 0 <ℤ cross first.now last.now) }
        ensures clear { IfOk result (λ u. AreClear self.now.stock tool.now
            (low_at self.now.arc first.now) (low_at self.now.arc last.now) heights.now) }
        ensures stop { IfErr result (IsStopped self.now.stock tool.now self.now.arc heights.now) }
    {
        let Some(line) = self.chord(first, last) else {
            return Err(Stop::Lost);
        };
        match upper_touch(&self.stock, heights, tool, &line) {
            Some(touch) => Err(Stop::Touched(touch)),
            None => Ok(()),
        }
    }

    /// Tests the parts along the chords of a piece of the arc of at most half a turn, counterclockwise.
    fn test_piece(
        &self,
        heights: &[u32],
        tool: &Tool,
        first: Spoke,
        last: Spoke,
    ) -> Result<(), Stop>
        requires heights { AreHeights self.now.stock heights.now }
        requires within { AreWithin self.now.stock heights.now }
        ensures clear { IfOk result (λ u. AreChordsClear self.now.stock tool.now self.now.arc heights.now first last) }
        ensures stop { IfErr result (IsStopped self.now.stock tool.now self.now.arc heights.now) }
    {
        let piece = Piece::between(&self.band, first, last);
        let count = piece.chords(&self.tight, &self.sector);
        let mut start = first;
        for index in 0..count {
            let end = piece.at(count, index + 1);
            match self.test_chord(heights, tool, &start, &end) {
                Ok(()) => {}
                Err(stop) => return Err(stop),
            }
            start = end;
        }
        if start.is_at(&last) {
            Ok(())
        } else {
            Err(Stop::Lost)
        }
    }

    /// Returns the spoke to the end from which the arc leads counterclockwise.
    fn first(&self) -> Spoke
        ensures { result ≡ first_end self.now.arc }
    {
        match self.sector.turn {
            Turn::Counterclockwise => self.sector.start,
            Turn::Clockwise => self.sector.end,
        }
    }

    /// Returns the spoke to the other end.
    fn last(&self) -> Spoke
        ensures { result ≡ last_end self.now.arc }
    {
        match self.sector.turn {
            Turn::Counterclockwise => self.sector.end,
            Turn::Clockwise => self.sector.start,
        }
    }

    /// Tests the parts along the chords of the whole arc: of one or two pieces of at most half a turn.
    fn test(&self, heights: &[u32], tool: &Tool) -> Result<(), Stop>
        requires heights { AreHeights self.now.stock heights.now }
        requires within { AreWithin self.now.stock heights.now }
        ensures clear { IfOk result (λ u. AreAlong self.now.arc (sigma self.now.stock.grid)
            (λ a b. AreClear self.now.stock tool.now a b heights.now)) }
        ensures stop { IfErr result (IsStopped self.now.stock tool.now self.now.arc heights.now) }
    {
        let first = self.first();
        let last = self.last();
        if !self.sector.is_full && 0 <= first.cross(&last) {
            return self.test_piece(heights, tool, first, last);
        }
        let opposite = first.opposite();
        match self.test_piece(heights, tool, first, opposite) {
            Ok(()) => self.test_piece(heights, tool, opposite, last),
            Err(stop) => Err(stop),
        }
    }
}

fn test_arc(stock: &Stock, heights: &[u32], tool: &Tool, arc: &Arc) -> Result<(), Stop>
    requires heights { AreHeights stock.now heights.now }
    requires within { AreWithin stock.now heights.now }
    ensures clear { IfOk result (λ u. AreAlong arc.now (sigma stock.now.grid)
        (λ a b. AreClear stock.now tool.now a b heights.now)) }
    ensures stop { IfErr result (IsStopped stock.now tool.now arc.now heights.now) }
{
    match Rim::of(stock, arc) {
        Some(rim) => rim.test(heights, tool),
        None => Err(Stop::Lost),
    }
}

/// Returns the lowest part of a tool above its cutter whose foot is below the top of a stock at the lower
/// end of an arc, or `None` if there is none.
fn low_part(stock: &Stock, tool: &Tool, arc: &Arc) -> Option<PartTouch>
    ensures none { IfNone result (AreAbove stock.now tool.now arc.now) }
    ensures some { IfSome result (λ f. IsLowPart stock.now tool.now arc.now f.part f.touch) }
{
    let end = arc.end();
    let low = Point3 {
        x: end.x,
        y: end.y,
        z: lower_end(arc),
    };
    let start = low;
    let line = Line { start, end: low };
    let mut upper = above(tool);
    for part in 1..tool.parts.as_slice().len() {
        let probe = end_probe(stock, &lowest_part(&upper), &line, 0);
        if probe.limit < stock.height {
            let place = flat(&end);
            let depth = stock.height.saturating_sub(probe.tip);
            return Some(PartTouch {
                part,
                touch: Touch { place, depth },
            });
        }
        upper = above(&upper);
    }
    None
}

/// Returns a part of a tool above its cutter that may touch material along an arc in the plane of X and Y, and
/// where, or `None` if none of them may touch any, or for another arc. The parts are as low as the arc's lower
/// end.
pub(crate) fn arc_touch(stock: &Stock, heights: &[u32], tool: &Tool, arc: &Arc) -> Option<PartTouch>
    requires heights { AreHeights stock.now heights.now }
    requires within { AreWithin stock.now heights.now }
    ensures none { IfNone result (arc.now.plane ≡ Plane.XY → AreAlong arc.now (sigma stock.now.grid)
        (λ a b. AreClear stock.now tool.now a b heights.now) ⊎ AreAbove stock.now tool.now arc.now) }
    ensures some { IfSome result (λ f. IsArcTouch stock.now tool.now arc.now heights.now f.part f.touch) }
{
    match arc.plane() {
        Plane::XY => {}
        _ => return None,
    }
    // A holder is mostly above the stock, and is so wide that its cells would take long.
    let low = low_part(stock, tool, arc)?;
    match test_arc(stock, heights, tool, arc) {
        Ok(()) => None,
        Err(Stop::Touched(touch)) => Some(touch),
        Err(Stop::Lost) => Some(low),
    }
}
