ghost use Rattle.std.specs.Prelude.{◌≡◌, ◌≤◌, pos, ◌+ℤ◌, ◌*ℤ◌, unsigned_abs};
ghost use Rattle.ngc_fixed_length.specs.Limits.{IsLength};
ghost use Rattle.ngc_fixed_length.specs.Signed.{is_negative as is_below_zero};
ghost use Rattle.ngc_dialect_cycles.specs.Levels.{retract_of, bottom_of, hole_place};
ghost use Rattle.ngc_dialect_cycles.specs.Refusals.{bad_peck, negative_dwell as has_negative_dwell};
ghost use Rattle.ngc_dialect_cycles.specs.Refusals.{needs_spindle, back_of, is_near};
ghost use Rattle.ngc_dialect_cycles.specs.Refusals.{is_last_near, is_in_range, check};

use crate::line::{CycleLine, HoleKind, Pecks, Series};
use crate::refusal::CycleRefusal;
use ngc_canned_cycles::heights::{relative, times};
use ngc_fixed_length::{Nm, Value};

/// Returns the sum of two lengths, in nanometres.
pub(crate) fn sum(a: Nm, b: Nm) -> i128
    ensures { result ≡ a +ℤ b }
{
    i128::from(a.nanometres()) + i128::from(b.nanometres())
}

fn is_length(nanometres: i128) -> bool
    ensures { result ≡ is_near nanometres }
{
    nanometres.unsigned_abs() <= 100_000_000_000
}

fn is_negative(seconds: Value) -> bool
    ensures { result ≡ is_below_zero seconds }
{
    seconds.millionths() < 0
}

impl Pecks {
    fn is_bad(&self) -> bool
        ensures { result ≡ bad_peck (HoleKind.Peck self.now) }
    {
        self.depth.nanometres() <= 0 || self.back.nanometres() < 0
    }
}

impl HoleKind {
    fn has_bad_peck(&self) -> bool
        ensures { result ≡ bad_peck self.now }
    {
        match self {
            HoleKind::Peck(pecks) | HoleKind::BreakChips(pecks) => pecks.is_bad(),
            _ => false,
        }
    }

    fn has_negative_dwell(&self) -> bool
        ensures { result ≡ has_negative_dwell self.now }
    {
        match self {
            HoleKind::DrillWithDwell(dwell)
            | HoleKind::BoreWithStop(dwell)
            | HoleKind::BoreWithDwell(dwell) => is_negative(*dwell),
            _ => false,
        }
    }

    fn needs_spindle(&self) -> bool
        ensures { result ≡ needs_spindle self.now }
    {
        matches!(self, HoleKind::BoreWithStop(_))
    }

    // Returns the distance by which a peck may end above R.
    fn back(&self) -> Nm
        ensures { result ≡ back_of self.now }
    {
        match self {
            HoleKind::Peck(pecks) | HoleKind::BreakChips(pecks) => pecks.back,
            _ => Nm::zero(),
        }
    }
}

// Returns a coordinate of hole `index`, in nanometres.
fn coordinate(first: Nm, step: Nm, index: u32) -> i128
    ensures value { result ≡ first +ℤ (pos index *ℤ step) }
    ensures length { IsLength first }
{
    i128::from(first.nanometres()) + times(u64::from(index), step)
}

impl CycleLine {
    /// Returns the coordinates of a hole on the plane's axes, in nanometres; holes count from 0.
    pub(crate) fn hole_coordinates(&self, index: u32) -> (i128, i128)
        ensures u { result.0 ≡ (hole_place self.now index).u }
        ensures v { result.1 ≡ (hole_place self.now index).v }
        ensures length_u { IsLength self.now.first.u }
        ensures length_v { IsLength self.now.first.v }
    {
        (
            coordinate(self.first.u, self.step.u, index),
            coordinate(self.first.v, self.step.v, index),
        )
    }

    fn is_last_near(&self) -> bool
        ensures { result ≡ is_last_near self.now }
    {
        let (u, v) = self.hole_coordinates(self.repeats.saturating_sub(1));
        is_length(u) && is_length(v)
    }
}

impl Series {
    /// Returns the height of R, in nanometres.
    pub(crate) fn retract_height(&self, line: &CycleLine) -> i128
        ensures value { result ≡ retract_of self.now line.now }
        ensures bound { unsigned_abs result ≤ 200000000000 }
    {
        relative(
            line.distance,
            i128::from(self.level.nanometres()),
            self.retract,
        )
    }

    /// Returns the height of the bottom, in nanometres.
    pub(crate) fn bottom_height(&self, line: &CycleLine) -> i128
        ensures value { result ≡ bottom_of self.now line.now }
        ensures bound { unsigned_abs result ≤ 300000000000 }
    {
        relative(line.distance, self.retract_height(line), self.depth)
    }

    // Returns the greatest height to which a peck may go back, in nanometres.
    fn back_height(&self, line: &CycleLine) -> i128
        ensures { result ≡ retract_of self.now line.now +ℤ back_of self.now.kind }
    {
        self.retract_height(line) + i128::from(self.kind.back().nanometres())
    }

    fn is_in_range(&self, line: &CycleLine) -> bool
        ensures { result ≡ is_in_range self.now line.now }
    {
        let retract = is_length(self.retract_height(line));
        let bottom = is_length(self.bottom_height(line));
        let back = is_length(self.back_height(line));
        let last = line.is_last_near();
        retract && bottom && back && last
    }

    /// Returns the first reason to refuse the cycle, in the order of `CycleRefusal`.
    pub(crate) fn check(&self, line: &CycleLine) -> Result<(), CycleRefusal>
        ensures { result ≡ check self.now line.now }
    {
        if self.retract_height(line) < self.bottom_height(line) {
            return Err(CycleRefusal::RetractBelowBottom);
        }
        if self.kind.has_bad_peck() {
            return Err(CycleRefusal::BadPeck);
        }
        if self.kind.has_negative_dwell() {
            return Err(CycleRefusal::NegativeDwell);
        }
        if self.kind.needs_spindle() && !line.turning {
            return Err(CycleRefusal::SpindleNotTurning);
        }
        if !self.is_in_range(line) {
            return Err(CycleRefusal::TooFar);
        }
        Ok(())
    }
}
