//! Lines at a shift of the origin, and the boxes of their pieces.
ghost use Rattle.std.specs.Prelude.{◌≡◌, ◌≤◌, ◌+◌, ◌*◌, ◌/◌, ◌*ℤ◌, ◌-ℤ◌, ◌≤ℤ◌, pos, unsigned_abs};
ghost use Rattle.std.specs.Prelude.{◌==◌, ◌&&◌};
ghost use Rattle.std.specs.Int.{int_min, int_max};
ghost use Rattle.ngc_fixed_length.specs.Length.{IsStep};
ghost use Rattle.ngc_fixed_length.specs.Rounding.{nearest};
ghost use Rattle.ngc_certificate_text.specs.Certificate.{WHOLE as WHOLE_LINE};
ghost use Rattle.ngc_certificate.specs.DerivedBox.{cut_at as at_cut, low_between, high_between};
ghost use Rattle.ngc_certificate.specs.DerivedBox.{line_box};
ghost use Rattle.ngc_collision.specs.Inside.{place_of};
ghost use Rattle.ngc_place.specs.Shifts.{IsShift, shifted as point_shifted};
ghost use Rattle.ngc_place.specs.Inside.{SHIFTED_LIMIT, IsNear, AreOnLine};

use crate::grid::{first_grid_point, last_grid_point, nearest_step};
use crate::spots::{shifted, to_grid};
use ngc_collision::Place;
use ngc_fixed_length::{Nm, Point3, StepPos};

/// The number of parts of a line.
const WHOLE: u32 = 65_536;

/// A section of a line: the 65,536ths of the line at which it begins and ends.
#[derive(Clone, Copy)]
pub(crate) struct Cuts {
    pub(crate) from: u32,
    pub(crate) to: u32,
}

/// Returns the number of parts of a line before piece `k` of `count`.
fn part_before(k: u32, count: u32) -> u32
    requires some { 1 ≤ count }
    requires limit { count ≤ 65535 }
    requires k { k ≤ count }
    ensures value { result ≡ WHOLE_LINE * k / count }
    ensures within { result ≤ WHOLE_LINE }
{
    WHOLE * k / count
}

impl Cuts {
    /// Returns the section of piece `k` of `count` of a line.
    pub(crate) fn of_piece(k: u32, count: u32) -> Cuts
        requires limit { count ≤ 65535 }
        requires k { k + 1 ≤ count }
        ensures from { result.from ≡ WHOLE_LINE * k / count }
        ensures to { result.to ≡ WHOLE_LINE * (k + 1) / count }
        ensures on_line { AreOnLine result }
    {
        Cuts {
            from: part_before(k, count),
            to: part_before(k + 1, count),
        }
    }

    /// Returns whether the section is the whole line.
    fn is_whole(&self) -> bool
        ensures { result ≡ (self.now.from == 0 && self.now.to == 65536) }
    {
        self.from == 0 && self.to == WHOLE
    }
}

/// Returns a length in 65,536ths of a nanometre.
fn in_parts(length: i64) -> i64
    requires { unsigned_abs length ≤ SHIFTED_LIMIT }
    ensures value { result ≡ length *ℤ pos 65536 }
    ensures bound { unsigned_abs result ≤ SHIFTED_LIMIT * WHOLE_LINE }
{
    length * 65_536
}

/// Returns a step in 65,536ths of a nanometre.
fn step_in_parts(step: Nm) -> i64
    requires { IsStep step }
    ensures value { result ≡ step *ℤ pos 65536 }
    ensures least { pos 32768000 ≤ℤ result }
    ensures greatest { result ≤ℤ pos 3276800000 }
{
    step.nanometres() * 65_536
}

/// Returns `end - start`, in nanometres.
fn way_between(start: i64, end: i64) -> i64
    requires start { unsigned_abs start ≤ SHIFTED_LIMIT }
    requires end { unsigned_abs end ≤ SHIFTED_LIMIT }
    ensures value { result ≡ end -ℤ start }
    ensures bound { unsigned_abs result ≤ 2 * SHIFTED_LIMIT }
{
    end - start
}

/// Returns `part` 65,536ths of a difference, in 65,536ths of a nanometre.
fn part_of_way(way: i64, part: u32) -> i64
    requires way { unsigned_abs way ≤ 2 * SHIFTED_LIMIT }
    requires part { part ≤ WHOLE_LINE }
    ensures value { result ≡ way *ℤ pos part }
    ensures bound { unsigned_abs result ≤ 2 * SHIFTED_LIMIT * WHOLE_LINE }
{
    way * i64::from(part)
}

/// Returns the coordinate after `part` parts of a line from start to end, in 65,536ths of a
/// nanometre.
fn cut_at(start: i64, end: i64, part: u32) -> i64
    requires start { unsigned_abs start ≤ SHIFTED_LIMIT }
    requires end { unsigned_abs end ≤ SHIFTED_LIMIT }
    requires part { part ≤ WHOLE_LINE }
    ensures value { result ≡ at_cut start end part }
    ensures bound { unsigned_abs result ≤ 3 * SHIFTED_LIMIT * WHOLE_LINE }
{
    in_parts(start) + part_of_way(way_between(start, end), part)
}

/// Returns the lesser of two cuts.
fn lesser_cut(start: i64, end: i64, cuts: &Cuts) -> i64
    requires start { unsigned_abs start ≤ SHIFTED_LIMIT }
    requires end { unsigned_abs end ≤ SHIFTED_LIMIT }
    requires on_line { AreOnLine cuts.now }
    ensures value { result ≡ int_min (at_cut start end cuts.now.from)
        (at_cut start end cuts.now.to) }
    ensures bound { unsigned_abs result ≤ 3 * SHIFTED_LIMIT * WHOLE_LINE }
{
    cut_at(start, end, cuts.from).min(cut_at(start, end, cuts.to))
}

/// Returns the greater of two cuts.
fn greater_cut(start: i64, end: i64, cuts: &Cuts) -> i64
    requires start { unsigned_abs start ≤ SHIFTED_LIMIT }
    requires end { unsigned_abs end ≤ SHIFTED_LIMIT }
    requires on_line { AreOnLine cuts.now }
    ensures value { result ≡ int_max (at_cut start end cuts.now.from)
        (at_cut start end cuts.now.to) }
    ensures bound { unsigned_abs result ≤ 3 * SHIFTED_LIMIT * WHOLE_LINE }
{
    cut_at(start, end, cuts.from).max(cut_at(start, end, cuts.to))
}

/// Returns the first of the grid points within a step of the line between two cuts, in steps.
fn first_between(step: Nm, start: i64, end: i64, cuts: &Cuts) -> i32
    requires step { IsStep step }
    requires start { unsigned_abs start ≤ SHIFTED_LIMIT }
    requires end { unsigned_abs end ≤ SHIFTED_LIMIT }
    requires on_line { AreOnLine cuts.now }
    ensures { result ≡ low_between step start end cuts.now.from cuts.now.to }
{
    let step = step_in_parts(step);
    first_grid_point(step, lesser_cut(start, end, cuts) - step)
}

/// Returns the last of the grid points within a step of the line between two cuts, in steps.
fn last_between(step: Nm, start: i64, end: i64, cuts: &Cuts) -> i32
    requires step { IsStep step }
    requires start { unsigned_abs start ≤ SHIFTED_LIMIT }
    requires end { unsigned_abs end ≤ SHIFTED_LIMIT }
    requires on_line { AreOnLine cuts.now }
    ensures { result ≡ high_between step start end cuts.now.from cuts.now.to }
{
    let step = step_in_parts(step);
    last_grid_point(step, greater_cut(start, end, cuts) + step)
}

/// Returns the first of the grid points that a piece of a line needs along an axis, in steps.
fn first_needed(step: Nm, start: i64, end: i64, cuts: &Cuts) -> i32
    requires step { IsStep step }
    requires start { unsigned_abs start ≤ SHIFTED_LIMIT }
    requires end { unsigned_abs end ≤ SHIFTED_LIMIT }
    requires on_line { AreOnLine cuts.now }
    ensures { result ≡ int_max (low_between step start end cuts.now.from cuts.now.to)
        (int_min (nearest start step) (nearest end step)) }
{
    let least = nearest_step(step, start).min(nearest_step(step, end));
    first_between(step, start, end, cuts).max(least)
}

/// Returns the last of the grid points that a piece of a line needs along an axis, in steps.
fn last_needed(step: Nm, start: i64, end: i64, cuts: &Cuts) -> i32
    requires step { IsStep step }
    requires start { unsigned_abs start ≤ SHIFTED_LIMIT }
    requires end { unsigned_abs end ≤ SHIFTED_LIMIT }
    requires on_line { AreOnLine cuts.now }
    ensures { result ≡ int_min (high_between step start end cuts.now.from cuts.now.to)
        (int_max (nearest start step) (nearest end step)) }
{
    let greatest = nearest_step(step, start).max(nearest_step(step, end));
    last_between(step, start, end, cuts).min(greatest)
}

/// A line at a shift of the origin, in nanometres.
#[derive(Clone, Copy)]
pub(crate) struct Straight {
    pub(crate) start: Place,
    pub(crate) end: Place,
    ghost start_near: { IsNear start },
    ghost end_near: { IsNear end },
}

impl Straight {
    /// Returns the line from a start to an end, each of which moves with the origin or not.
    pub(crate) fn new(
        step: Nm,
        by: &StepPos,
        start_moves: bool,
        end_moves: bool,
        start: &Point3,
        end: &Point3,
    ) -> Straight
        requires step { IsStep step }
        requires by { IsShift by.now }
        ensures start { place_of result.start ≡ point_shifted step by.now start_moves start.now }
        ensures end { place_of result.end ≡ point_shifted step by.now end_moves end.now }
    {
        Straight {
            start: shifted(step, by, start_moves, start),
            end: shifted(step, by, end_moves, end),
        }
    }

    /// Returns the lowest corner of the box of a section.
    fn low_between(&self, step: Nm, cuts: &Cuts) -> StepPos
        requires step { IsStep step }
        requires on_line { AreOnLine cuts.now }
        ensures { result ≡ (line_box step (place_of self.now.start) (place_of self.now.end)
            cuts.now.from cuts.now.to).low }
    {
        StepPos {
            x: first_needed(step, self.start.x, self.end.x, cuts),
            y: first_needed(step, self.start.y, self.end.y, cuts),
            z: first_needed(step, self.start.z, self.end.z, cuts),
        }
    }

    /// Returns the lowest corner of the box of a piece.
    pub(crate) fn low(&self, step: Nm, cuts: &Cuts) -> StepPos
        requires step { IsStep step }
        requires on_line { AreOnLine cuts.now }
        ensures { result ≡ (line_box step (place_of self.now.start) (place_of self.now.end)
            cuts.now.from cuts.now.to).low }
    {
        if cuts.is_whole() {
            return to_grid(step, &self.start).lesser(&to_grid(step, &self.end));
        }
        self.low_between(step, cuts)
    }

    /// Returns the highest corner of the box of a section.
    fn high_between(&self, step: Nm, cuts: &Cuts) -> StepPos
        requires step { IsStep step }
        requires on_line { AreOnLine cuts.now }
        ensures { result ≡ (line_box step (place_of self.now.start) (place_of self.now.end)
            cuts.now.from cuts.now.to).high }
    {
        StepPos {
            x: last_needed(step, self.start.x, self.end.x, cuts),
            y: last_needed(step, self.start.y, self.end.y, cuts),
            z: last_needed(step, self.start.z, self.end.z, cuts),
        }
    }

    /// Returns the highest corner of the box of a piece.
    pub(crate) fn high(&self, step: Nm, cuts: &Cuts) -> StepPos
        requires step { IsStep step }
        requires on_line { AreOnLine cuts.now }
        ensures { result ≡ (line_box step (place_of self.now.start) (place_of self.now.end)
            cuts.now.from cuts.now.to).high }
    {
        if cuts.is_whole() {
            return to_grid(step, &self.start).greater(&to_grid(step, &self.end));
        }
        self.high_between(step, cuts)
    }
}
