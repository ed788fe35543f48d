ghost use Rattle.std.specs.Prelude.{◌≡◌, ◌==◌, ◌&&◌, ◌+◌, ◌*◌, ◌^◌, ◌≤◌, max, pos, ◌≤ℤ◌, ◌*ℤ◌};
ghost use Rattle.std.specs.Prelude.{◌-ℤ◌, unsigned_abs};
ghost use Rattle.std.specs.Int.{int_max, int_min};
ghost use Rattle.ngc_fixed_length.specs.Length.{IsStep};
ghost use Rattle.ngc_fixed_length.specs.Boxes.{grid_above, grid_below};
ghost use Rattle.ngc_certificate.specs.DerivedBox.{cut_at as at_cut, low_between, high_between};
ghost use Rattle.ngc_certificate.specs.Inside.{IsOnLine};
ghost use Rattle.ngc_certificate_text.specs.Certificate.{WHOLE as WHOLE_LINE};

use crate::chain::{WHOLE, part_of};
use ngc_certificate_text::Cut;
use ngc_fixed_length::Nm;

/// Two cuts of a line, in parts of 65,536.
#[derive(Clone, Copy)]
pub(crate) struct Cuts {
    pub(crate) from: u32,
    pub(crate) to: u32,
}

impl Cuts {
    ghost use Rattle.ngc_certificate.specs.Chain.{part_of as part_of_cut};

    /// Returns the parts of a line between two cuts.
    pub(crate) fn of(begin: &Cut, end: &Cut) -> Cuts
        ensures from { result.from ≡ part_of_cut begin.now }
        ensures to { result.to ≡ part_of_cut end.now }
    {
        Cuts {
            from: part_of(begin),
            to: part_of(end),
        }
    }

    /// Returns whether they cover the whole line.
    pub(crate) fn are_all(&self) -> bool
        ensures { result ≡ (self.now.from == 0 && self.now.to == WHOLE_LINE) }
    {
        self.from == 0 && self.to == WHOLE
    }
}

/// Returns a length in 65,536ths of a nanometre.
fn in_parts(length: Nm) -> i128
    ensures value { result ≡ length *ℤ pos 65536 }
    ensures bound { unsigned_abs result ≤ 6553600000000000 }
{
    i128::from(length.nanometres()) * 65_536
}

/// Returns the distance from start to end, in nanometres.
fn way_between(start: Nm, end: Nm) -> i128
    ensures value { result ≡ end -ℤ start }
    ensures bound { unsigned_abs result ≤ 200000000000 }
{
    i128::from(end.nanometres()) - i128::from(start.nanometres())
}

/// Returns a distance times a number of parts.
fn part_of_way(way: i128, part: u32) -> i128
    requires { unsigned_abs way ≤ 200000000000 }
    ensures value { result ≡ way *ℤ pos part }
    ensures bound { unsigned_abs result ≤ 200000000000 * part }
{
    way * i128::from(part)
}

/// Returns the cut at `part` 65,536ths of the line from start to end, in 65,536ths of a nanometre.
fn cut_at(start: Nm, end: Nm, part: u32) -> i128
    ensures value { result ≡ at_cut start end part }
    ensures bound { unsigned_abs result ≤ 6553600000000000 + 200000000000 * part }
{
    in_parts(start) + part_of_way(way_between(start, end), part)
}

/// Returns the last grid point that is not above a number of 65,536ths of a nanometre, in steps.
fn last_grid_point(step: i128, parts: i128) -> i64
    requires step { pos 32768000 ≤ℤ step }
    requires parts { unsigned_abs parts ≤ 10 ^ 21 }
    ensures value { result ≡ grid_below step parts }
    ensures bound { unsigned_abs result * 32768000 ≤ unsigned_abs parts + 32768000 }
{
    parts.div_euclid(step) as i64
}

/// Returns the first grid point that is not below a number of 65,536ths of a nanometre, in steps.
fn first_grid_point(step: i128, parts: i128) -> i64
    requires step { pos 32768000 ≤ℤ step }
    requires parts { unsigned_abs parts ≤ 10 ^ 21 }
    ensures value { result ≡ grid_above step parts }
    ensures bound { unsigned_abs result * 32768000 ≤ unsigned_abs parts + 32768000 }
{
    -last_grid_point(step, -parts)
}

/// Returns the lesser of two cuts.
fn lesser_cut(start: Nm, end: Nm, cuts: &Cuts) -> i128
    ensures value { result ≡ int_min (at_cut start end cuts.now.from)
        (at_cut start end cuts.now.to) }
    ensures bound { unsigned_abs result ≤ 6553600000000000
        + 200000000000 * max cuts.now.from cuts.now.to }
    ensures reach { unsigned_abs result ≤ 9 * 10 ^ 20 }
{
    cut_at(start, end, cuts.from).min(cut_at(start, end, cuts.to))
}

/// Returns the greater of two cuts.
fn greater_cut(start: Nm, end: Nm, cuts: &Cuts) -> i128
    ensures value { result ≡ int_max (at_cut start end cuts.now.from)
        (at_cut start end cuts.now.to) }
    ensures bound { unsigned_abs result ≤ 6553600000000000
        + 200000000000 * max cuts.now.from cuts.now.to }
    ensures reach { unsigned_abs result ≤ 9 * 10 ^ 20 }
{
    cut_at(start, end, cuts.from).max(cut_at(start, end, cuts.to))
}

/// Returns the first grid point within a step of the line between two cuts, in steps.
pub(crate) fn first_between(step: Nm, start: Nm, end: Nm, cuts: &Cuts) -> i64
    requires { IsStep step }
    ensures value { result ≡ low_between step start end cuts.now.from cuts.now.to }
    ensures bound { IsOnLine cuts.now → unsigned_abs result ≤ 10 ^ 9 }
{
    let step = in_parts(step);
    first_grid_point(step, lesser_cut(start, end, cuts) - step)
}

/// Returns the last grid point within a step of the line between two cuts, in steps.
pub(crate) fn last_between(step: Nm, start: Nm, end: Nm, cuts: &Cuts) -> i64
    requires { IsStep step }
    ensures value { result ≡ high_between step start end cuts.now.from cuts.now.to }
    ensures bound { IsOnLine cuts.now → unsigned_abs result ≤ 10 ^ 9 }
{
    let step = in_parts(step);
    last_grid_point(step, greater_cut(start, end, cuts) + step)
}
