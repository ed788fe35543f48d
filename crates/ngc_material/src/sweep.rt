//! How a feed along an arc lowers the cells of a stock.
ghost use Rattle.std.specs.Prelude.{◌≡◌, ◌≤◌, ◌↔◌, IsTrue, IfSome};
ghost use Rattle.ngc_arc_geometry.specs.Shape.{ArcShape};
ghost use Rattle.ngc_cells.specs.Stretches.{IsSpot, IsStretch};
ghost use Rattle.ngc_cells.specs.Grids.{IsGrid};
ghost use Rattle.ngc_stock.specs.Stocks.{sigma};
ghost use Rattle.ngc_stock.specs.Arcs.{upper_tip, chord};
ghost use Rattle.ngc_stock.specs.Walk.{AreArcsCut, IsArcCut};
ghost use Rattle.ngc_material.specs.Chords.{IsSwept, AreSomeCut};
ghost use Rattle.ngc_material.specs.Heights.{AreHeights, AreWithin, is_reached};

use crate::chord::{Band, Sector};
use crate::cutter::{level_of, sigma};
use crate::cutting::cut_disc;
use crate::line::Line;
use crate::spoke::Spoke;
use crate::touch::tested_radius;
use ngc_arc_geometry::Arc;
use ngc_cells::{Grid, Spot, Stretch, lower};
use ngc_fixed_length::{Nm, Point2, Turn};
use ngc_stock::{Cylinder, Stock};

/// How many chords half a turn can have.
const COUNTS: [u32; 15] = [
    1, 2, 4, 8, 16, 32, 64, 128, 256, 512, 1024, 2048, 4096, 8192, 16_384,
];

/// A piece of an arc, at most half a turn counterclockwise, and the radius of the points between.
#[derive(Clone, Copy)]
pub(crate) struct Piece {
    first: Spoke,
    last: Spoke,
    radius: u32,
}

/// Returns a band that is a little narrower, since the chords of an arc differ by roundings.
pub(crate) fn narrower(band: &Band, room: u64) -> Band
    requires least { band.now.least ≤ 2000020000 }
    requires most { band.now.most ≤ 2400000000 }
    requires room { room ≤ 300000000 }
    ensures least { result.least ≤ 2400000000 }
    ensures most { result.most ≤ 2400000000 }
{
    let spare = room / 8;
    Band {
        least: if band.least == 0 {
            0
        } else {
            band.least + spare
        },
        most: band.most.saturating_sub(spare),
    }
}

impl Piece {
    /// Returns a piece in the middle of a band.
    pub(crate) fn between(band: &Band, first: Spoke, last: Spoke) -> Piece
        requires least { band.now.least ≤ 2000020000 }
        requires most { band.now.most ≤ 2400000000 }
    {
        let radius = ((band.least + band.most) / 2) as u32;
        Piece {
            first,
            last,
            radius,
        }
    }

    /// Returns about the point where the parts before it are `index` of `count`, a power of two.
    pub(crate) fn at(&self, count: u32, index: u32) -> Spoke {
        if count <= index {
            return self.last;
        }
        let (mut first, mut last) = (self.first, self.last);
        let mut rest = index;
        let mut half = count / 2;
        for _ in 0..14 {
            if half == 0 {
                return first;
            }
            let middle = first.halfway(&last, self.radius);
            if rest < half {
                last = middle;
            } else {
                first = middle;
                rest -= half;
            }
            half /= 2;
        }
        first
    }

    /// Returns the least number of chords of which the first follows the arc, or 0 if there is none.
    pub(crate) fn chords(&self, band: &Band, sector: &Sector) -> u32
        requires least { band.now.least ≤ 2400000000 }
        requires most { band.now.most ≤ 2400000000 }
    {
        for count in &COUNTS {
            if band.has(sector, &self.first, &self.at(*count, 1)) {
                return *count;
            }
        }
        0
    }
}

/// Returns the height of a cylinder's foot at the higher end of an arc.
fn upper_tip(cylinder: &Cylinder, arc: &Arc) -> i64
    ensures { result ≡ upper_tip cylinder.now arc.now }
{
    let first = arc.start().z.nanometres();
    let last = arc.end().z.nanometres();
    let highest = first.max(last);
    highest + cylinder.bottom.nanometres()
}

fn is_near(spot: &Spot) -> bool
    ensures { IsTrue result ↔ IsSpot spot.now }
{
    spot.x.unsigned_abs() <= 2_000_000_000 && spot.y.unsigned_abs() <= 2_000_000_000
}

/// Returns whether a chord is within two metres of the machine's zero.
fn is_stretch(chord: &Stretch) -> bool
    ensures { IsTrue result → IsStretch chord.now }
{
    if !is_near(&chord.start) || !is_near(&chord.end) {
        return false;
    }
    chord.part < chord.parts && chord.parts <= 1000
}

/// Returns whether a middle is at most `reach` from the cells along an axis.
fn meets(corner: i64, half: u32, count: u32, middle: Nm, reach: u64) -> bool {
    let low = i128::from(corner);
    let high = low + 2 * i128::from(count) * i128::from(half);
    let (middle, reach) = (i128::from(middle.nanometres()), i128::from(reach));
    low - reach <= middle && middle - reach <= high
}

/// Returns whether a circle may meet the cells.
fn is_over(grid: &Grid, centre: &Point2, radius: u64) -> bool {
    meets(grid.corner.x, grid.half, grid.columns, centre.u, radius)
        && meets(grid.corner.y, grid.half, grid.rows, centre.v, radius)
}

/// Returns how far the chords of an arc of these radii may be from its circles. With half of the room, a
/// traverse along the arc, or from one of its points, isn't found. An uneven arc takes all.
pub(crate) fn room(grid: &Grid, inner: u64, outer: u64) -> u64
    requires outer { outer ≤ 2000020000 }
    ensures bound { result ≤ sigma grid.now }
    ensures small { result ≤ 300000000 }
{
    let sigma = sigma(grid);
    if 2 * outer.saturating_sub(inner) <= sigma {
        sigma / 2
    } else {
        sigma
    }
}

/// An arc along which a disc of a cutter lowers the cells of a stock.
#[derive(Clone, Copy)]
pub(crate) struct Sweep {
    stock: Stock,
    cylinder: Cylinder,
    arc: Arc,
    sector: Sector,
    band: Band,
    /// How far the chords may be from the arc's circles.
    room: u64,
    /// The radius of the disc, smaller by the room and half the diagonal of a cell.
    radius: u32,
    level: u32,
    ghost holds: { IsSwept stock cylinder arc sector band room radius level },
}

impl Sweep {
    /// Returns an arc with what is to know of it, or `None` if it lowers nothing for sure: if it is in
    /// another plane, above the stock or beside it, or if the disc is too thin.
    fn of(stock: &Stock, cylinder: &Cylinder, arc: &Arc) -> Option<Sweep>
        requires { IsGrid stock.now.grid }
        ensures { IfSome result (λ w. (w.stock ≡ stock.now) × (w.cylinder ≡ cylinder.now) × (w.arc ≡ arc.now)) }
    {
        let level = level_of(stock, upper_tip(cylinder, arc));
        if stock.height <= level {
            return None;
        }
        let tested = tested_radius(&stock.grid, cylinder)?;
        let (inner, outer) = (arc.inner_radius(), arc.outer_radius());
        let room = room(&stock.grid, inner, outer);
        let radius = tested + (sigma(&stock.grid) - room) as u32;
        if !is_over(&stock.grid, &arc.centre(), outer + u64::from(radius)) {
            return None;
        }
        let sector = Sector::of(arc)?;
        Some(Sweep {
            stock: *stock,
            cylinder: *cylinder,
            arc: *arc,
            sector,
            band: Band {
                least: outer.saturating_sub(room),
                most: inner + room,
            },
            room,
            radius,
            level,
        })
    }

    /// Returns the chord between the ends of two spokes.
    fn chord(&self, first: &Spoke, last: &Spoke) -> Stretch
        ensures { result ≡ chord self.now.arc first.now last.now }
    {
        let centre = self.arc.centre();
        let (u, v) = (centre.u.nanometres(), centre.v.nanometres());
        Stretch {
            start: Spot {
                x: u + first.x(),
                y: v + first.y(),
            },
            end: Spot {
                x: u + last.x(),
                y: v + last.y(),
            },
            parts: 1,
            part: 0,
        }
    }

    /// Lowers the cells near a chord, if it follows the arc.
    fn cut_chord(&self, heights: &mut [u32], first: &Spoke, last: &Spoke)
        requires { AreHeights self.now.stock heights.old }
        ensures { AreSomeCut self.now.stock self.now.cylinder self.now.arc heights.old heights.new }
    {
        if !self.band.has(&self.sector, first, last) {
            return;
        }
        let chord = self.chord(first, last);
        if is_stretch(&chord) {
            lower(&self.stock.grid, heights, &chord, self.radius, self.level);
        }
    }

    fn cut_piece(&self, heights: &mut [u32], first: Spoke, last: Spoke)
        requires { AreHeights self.now.stock heights.old }
        ensures { AreSomeCut self.now.stock self.now.cylinder self.now.arc heights.old heights.new }
    {
        let piece = Piece::between(&self.band, first, last);
        let count = piece.chords(&narrower(&self.band, self.room), &self.sector);
        let mut start = first;
        for index in 0..count {
            let end = piece.at(count, index + 1);
            self.cut_chord(heights, &start, &end);
            start = end;
        }
    }

    /// Lowers the cells near the arc's chords: of one or two pieces of at most half a turn.
    fn cut(&self, heights: &mut [u32])
        requires { AreHeights self.now.stock heights.old }
        ensures { AreSomeCut self.now.stock self.now.cylinder self.now.arc heights.old heights.new }
    {
        let (first, last) = match self.sector.turn {
            Turn::Counterclockwise => (self.sector.start, self.sector.end),
            Turn::Clockwise => (self.sector.end, self.sector.start),
        };
        let opposite = first.opposite();
        if self.sector.is_full {
            self.cut_piece(heights, first, opposite);
            self.cut_piece(heights, opposite, first);
        } else if 0 <= first.cross(&last) {
            self.cut_piece(heights, first, last);
        } else {
            self.cut_piece(heights, first, opposite);
            self.cut_piece(heights, opposite, last);
        }
    }
}

/// Lowers the cells near the chords of an arc.
fn cut_chords(stock: &Stock, heights: &mut [u32], cylinder: &Cylinder, arc: &Arc)
    requires { AreHeights stock.now heights.old }
    ensures { AreSomeCut stock.now cylinder.now arc.now heights.old heights.new }
{
    match Sweep::of(stock, cylinder, arc) {
        Some(sweep) => sweep.cut(heights),
        None => {}
    }
}

// Lowers the cells that a disc covers along an arc, as far as its chords show it, and at its end.
fn cut_arc(stock: &Stock, heights: &mut [u32], cylinder: &Cylinder, arc: &Arc)
    requires heights { AreHeights stock.now heights.old }
    requires within { AreWithin stock.now heights.old }
    requires end { IsTrue (is_reached arc.now.end) }
    ensures { IsArcCut stock.now cylinder.now arc.now heights.old heights.new }
{
    cut_chords(stock, heights, cylinder, arc);
    let line = Line {
        start: arc.end(),
        end: arc.end(),
    };
    cut_disc(stock, heights, cylinder, &line);
}

/// Lowers the cells that the discs of a cutter cover along an arc, one disc after another.
pub(crate) fn cut_arcs(stock: &Stock, heights: &mut [u32], discs: &[Cylinder], arc: &Arc)
    requires heights { AreHeights stock.now heights.old }
    requires within { AreWithin stock.now heights.old }
    requires end { IsTrue (is_reached arc.now.end) }
    ensures { AreArcsCut stock.now discs.now arc.now heights.old heights.new }
{
    for disc in discs {
        cut_arc(stock, heights, disc, arc);
    }
}
