ghost use Rattle.std.specs.Prelude.{◌≡◌, ◌≢◌, ◌≤◌, ◌-ℤ◌, ℕ, false, Err, IsTrue, ◌<◌, unsigned_abs};
ghost use Rattle.std.specs.Prelude.{OnOk};
ghost use Rattle.ngc_fixed_length.specs.Signed.{is_negative as is_below_zero, is_within};
ghost use Rattle.ngc_fixed_length.specs.Limits.{IsLength};
ghost use Rattle.ngc_offsets.specs.Ranges.{coordinate_limit};
ghost use Rattle.ngc_canned_cycles.specs.Heights.{place_before, retract_of, bottom_of, repeats_of};
ghost use Rattle.ngc_canned_cycles.specs.Heights.{AreLengths};
ghost use Rattle.ngc_canned_cycles.specs.Holes.{peck_count as pecks_over};
ghost use Rattle.ngc_canned_cycles.specs.Refusals.{bad_repeats, bad_peck, negative_dwell};
ghost use Rattle.ngc_canned_cycles.specs.Refusals.{needs_spindle, check, is_in_range_if_given};
ghost use Rattle.ngc_canned_cycles.specs.Refusals.{is_repeat_in_range, is_in_range, AreRepeats};

use crate::cycle::{Cycle, Hole, Start};
use crate::fault::CycleFault;
use ngc_fixed_length::{FeedMode, MILLIONTHS, Nm, Value};
use ngc_offsets::CoordinateRange;

/// Returns the least number of pecks, at least 1, that cover the whole distance.
pub(crate) fn peck_count(way: i128, peck: u64) -> u64
    requires positive { 0 < peck }
    requires short { peck ≤ 100000000000 }
    requires near { unsigned_abs way ≤ 500000000000 }
    ensures value { result ≡ pecks_over way peck }
    ensures bound { result ≤ 600000000000 }
{
    let way = way.unsigned_abs() as u64;
    ((way + (peck - 1)) / peck).max(1)
}

fn is_negative(seconds: Value) -> bool
    ensures { result ≡ is_below_zero seconds }
{
    seconds.millionths() < 0
}

impl Hole {
    // Returns whether Q is not above 0, or takes more than 10,000 pecks.
    fn has_bad_peck(&self, way: i128) -> bool
        requires { unsigned_abs way ≤ 500000000000 }
        ensures { result ≡ bad_peck self.now way }
    {
        match self {
            Hole::Peck(peck) => {
                let size = peck.nanometres();
                size <= 0 || peck_count(way, size.unsigned_abs()) > 10_000
            }
            _ => false,
        }
    }

    fn has_negative_dwell(&self) -> bool
        ensures { result ≡ negative_dwell self.now }
    {
        match self {
            Hole::DrillWithDwell(dwell) | Hole::BoreWithStop(dwell) | Hole::BoreWithDwell(dwell) =>
                { is_negative(*dwell) }
            _ => false,
        }
    }

    fn needs_spindle(&self) -> bool
        ensures { result ≡ needs_spindle self.now }
    {
        matches!(self, Hole::BoreWithStop(_))
    }
}

fn is_coordinate_if_given(reach: CoordinateRange, given: Option<Nm>, coordinate: i128) -> bool
    ensures { result ≡ is_in_range_if_given reach given coordinate }
{
    match given {
        None => true,
        Some(_) => is_coordinate(reach, coordinate),
    }
}

fn is_coordinate(reach: CoordinateRange, nanometres: i128) -> bool
    ensures { result ≡ is_within (coordinate_limit reach) nanometres }
{
    nanometres.unsigned_abs() <= u128::from(reach.limit())
}

impl Cycle {
    // Returns L as a whole number, or 1 if it is missing.
    fn repeat_count(&self) -> u32
        ensures { result ≡ repeats_of self.now.repeats }
    {
        match self.repeats {
            None => 1,
            Some(repeats) => (repeats.millionths().unsigned_abs() / MILLIONTHS) as u32,
        }
    }

    fn has_bad_repeats(&self) -> bool
        ensures { result ≡ bad_repeats self.now.repeats }
    {
        match self.repeats {
            None => false,
            Some(repeats) => {
                let count = self.repeat_count();
                let is_whole = repeats.millionths().unsigned_abs() % MILLIONTHS == 0;
                is_negative(repeats) || !is_whole || !(count >= 1 && count <= 9_999)
            }
        }
    }

    /// Returns the number of repeats: L, or 1 if it is missing. NISTIR 6556, 3.5.16.
    pub fn repeats(&self) -> u16
        requires { AreRepeats (repeats_of self.now.repeats) }
        ensures { result ≡ repeats_of self.now.repeats }
    {
        self.repeat_count() as u16
    }

    /// Checks the cycle, once for a line. Returns the first fault of `RetractBelowBottom`,
    /// `BadRepeats`, `BadPeck`, `NegativeDwell`, `SpindleNotTurning` and `InverseTime` that it has.
    /// After `Ok` there are from 1 to 9,999 repeats.
    pub fn check(&self, start: &Start) -> Result<(), CycleFault>
        ensures value { result ≡ check self.now start.now }
        ensures repeats { OnOk result (AreRepeats (repeats_of self.now.repeats)) }
        ensures peck { OnOk result
            (bad_peck self.now.hole (retract_of self.now start.now -ℤ bottom_of self.now start.now)
            ≡ false) }
        ensures no_memory { result ≢ Err CycleFault.Memory }
    {
        let retract = self.retract_height(start);
        let bottom = self.bottom_height(start);
        if retract < bottom {
            return Err(CycleFault::RetractBelowBottom);
        }
        if self.has_bad_repeats() {
            return Err(CycleFault::BadRepeats);
        }
        if self.hole.has_bad_peck(retract - bottom) {
            return Err(CycleFault::BadPeck);
        }
        if self.hole.has_negative_dwell() {
            return Err(CycleFault::NegativeDwell);
        }
        if self.hole.needs_spindle() && !start.turning {
            return Err(CycleFault::SpindleNotTurning);
        }
        match self.feed_mode {
            FeedMode::InverseTime => Err(CycleFault::InverseTime),
            FeedMode::PerMinute => Ok(()),
        }
    }

    fn is_repeat_in_range(&self, start: &Start, repeat: u32) -> bool
        ensures value { result ≡ is_repeat_in_range self.now start.now repeat }
        ensures length_u { IsLength (place_before self.now start.now).u }
        ensures length_v { IsLength (place_before self.now start.now).v }
    {
        let (u, v) = self.repeat_coordinates(start, repeat);
        is_coordinate_if_given(start.reach, self.u, u)
            && is_coordinate_if_given(start.reach, self.v, v)
    }

    fn has_coordinates(&self, start: &Start) -> bool
        ensures value { result ≡ is_in_range self.now start.now }
        ensures length_u { IsLength (place_before self.now start.now).u }
        ensures length_v { IsLength (place_before self.now start.now).v }
    {
        let first = self.is_repeat_in_range(start, 1);
        let last = self.is_repeat_in_range(start, self.repeat_count());
        is_coordinate(start.reach, self.retract_height(start))
            && is_coordinate(start.reach, self.bottom_height(start))
            && first
            && last
    }

    /// Returns whether the programmed coordinates are within the reach: R, the bottom, and
    /// the places of the first and the last repeat. Then `fill` makes the moves of each repeat
    /// between them, too.
    pub fn is_in_range(&self, start: &Start) -> bool
        ensures value { result ≡ is_in_range self.now start.now }
        ensures lengths { IsTrue result → (j : ℕ) → 1 ≤ j → j ≤ repeats_of self.now.repeats →
            AreLengths self.now start.now j }
    {
        self.has_coordinates(start)
    }
}
