ghost use Rattle.std.specs.Prelude.{◌≡◌, ◌≢◌, ℕ, ℤ, pos, ◌+◌, ◌*◌, ◌<◌, ◌≤◌, ◌≤ℤ◌, ◌↔◌, unsigned_abs};
ghost use Rattle.ngc_cells.specs.Stretches.{REACH};
ghost use Rattle.ngc_cells.specs.Spans.{IsIn};
ghost use Rattle.ngc_cells.specs.Grids.{middle_of};

use crate::span::Span;
use crate::stretch::Spot;

/// Square cells over a rectangle that begins at `corner`: `rows` rows of `columns` cells, each twice
/// `half` wide, in nanometres.
#[derive(Clone, Copy)]
pub struct Grid {
    pub corner: Spot,
    pub half: u32,
    pub columns: u32,
    pub rows: u32,
}

impl Grid {
    ghost use Rattle.std.specs.Prelude.{◌≡◌, ◌*◌, ◌<◌};
    ghost use Rattle.ngc_cells.specs.Grids.{IsGrid, centre};

    /// Returns the centre of a cell. The cells of a row follow each other.
    pub fn centre(&self, cell: usize) -> Spot
        requires grid { IsGrid self.now }
        requires cell { cell < self.now.columns * self.now.rows }
        ensures { result ≡ centre self.now cell }
    {
        let columns = self.columns as usize;
        Spot {
            x: middle_of(self.corner.x, self.half, (cell % columns) as u32),
            y: middle_of(self.corner.y, self.half, (cell / columns) as u32),
        }
    }
}

/// The indices from `first` to the one before `end`.
#[derive(Clone, Copy)]
pub(crate) struct Indices {
    pub(crate) first: u32,
    pub(crate) end: u32,
}

/// Returns the middle of the cell at an index, along an axis.
pub(crate) fn middle_of(corner: i64, half: u32, index: u32) -> i64
    requires corner { unsigned_abs corner ≤ REACH }
    requires index { (2 * index + 1) * half ≤ 2 * REACH }
    ensures { result ≡ middle_of corner half index }
{
    corner + (2 * i64::from(index) + 1) * i64::from(half)
}

/// Returns a number, or the nearest one that is at most 2^40 in size.
fn limited(number: i128) -> i128
    ensures bound { unsigned_abs result ≤ 1099511627776 }
    ensures low { (x : ℤ) → unsigned_abs x < 1099511627776 → (number ≤ℤ x) ↔ (result ≤ℤ x) }
    ensures high { (x : ℤ) → unsigned_abs x < 1099511627776 → (x ≤ℤ number) ↔ (x ≤ℤ result) }
{
    if number < -1_099_511_627_776 {
        -1_099_511_627_776
    } else if 1_099_511_627_776 < number {
        1_099_511_627_776
    } else {
        number
    }
}

/// Returns the first of the indices below `count` that is at least a number, or `count`.
fn first_from(number: i128, count: u32) -> u32
    ensures within { result ≤ count }
    ensures value { (i : ℕ) → i < count → (result ≤ i) ↔ (number ≤ℤ pos i) }
{
    if number <= 0 {
        0
    } else if i128::from(count) <= number {
        count
    } else {
        number as u32
    }
}

/// Returns the first of the indices below `count` that is above a number, or `count`.
fn end_after(number: i128, count: u32) -> u32
    ensures within { result ≤ count }
    ensures value { (i : ℕ) → i < count → (i < result) ↔ (pos i ≤ℤ number) }
{
    if number < 0 {
        0
    } else if i128::from(count) <= number {
        count
    } else {
        number as u32 + 1
    }
}

/// Returns the indices below `count` of the cells whose middles are in a span.
pub(crate) fn indices_in(corner: i64, half: u32, count: u32, span: &Span) -> Indices
    requires corner { unsigned_abs corner ≤ REACH }
    requires half { 0 < half }
    requires fits { 2 * count * half ≤ 2 * REACH }
    ensures first { result.first ≤ count }
    ensures within { result.end ≤ count }
    ensures are { (i : ℕ) → i < count
        → ((result.first ≤ i) × (i < result.end)) ↔ IsIn span.now (middle_of corner half i) }
{
    let base = i128::from(corner) + i128::from(half);
    let indices = Span::quotients(
        limited(span.low) - base,
        limited(span.high) - base,
        2 * i128::from(half),
    );
    Indices {
        first: first_from(indices.low, count),
        end: end_after(indices.high, count),
    }
}
