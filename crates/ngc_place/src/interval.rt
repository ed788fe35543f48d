ghost use Rattle.std.specs.Prelude.{◌≡◌, ◌+◌, ◌≤◌};
ghost use Rattle.ngc_place.specs.Shifts.{SHIFT_LIMIT, AreShifts};
ghost use Rattle.ngc_place.specs.Longest.{IsInLimit, at as interval_at, opposite, grown};
ghost use Rattle.ngc_place.specs.Longest.{shifts_of};
ghost use Rattle.ngc_place.specs.Inside.{steps_left as left_on};

use crate::axis::Axis;
use ngc_fixed_length::GridBox;

/// The greatest shift along an axis, in steps.
const LIMIT: i32 = 4_000_000;

/// An interval of shifts along an axis, in steps, both ends included.
#[derive(Clone, Copy)]
pub struct Interval {
    pub from: i32,
    pub to: i32,
}

/// A side of an interval.
#[derive(Clone, Copy)]
pub(crate) enum Side {
    Above,
    Below,
}

impl Side {
    /// Returns the opposite side.
    pub(crate) fn opposite(self) -> Side
        ensures { result ≡ opposite self }
    {
        match self {
            Side::Above => Side::Below,
            Side::Below => Side::Above,
        }
    }
}

impl Interval {
    /// Returns the interval of one shift.
    pub(crate) fn at(shift: i32) -> Interval
        ensures { result ≡ interval_at shift }
    {
        Interval {
            from: shift,
            to: shift,
        }
    }

    /// Returns the interval that is this number of steps longer on one side.
    pub(crate) fn grown(self, side: Side, steps: u32) -> Interval
        requires limit { IsInLimit self }
        requires steps { steps ≤ left_on side self }
        ensures value { result ≡ grown side steps self }
        ensures limit { IsInLimit result }
    {
        let steps = steps as i32;
        match side {
            Side::Above => Interval {
                from: self.from,
                to: self.to + steps,
            },
            Side::Below => Interval {
                from: self.from - steps,
                to: self.to,
            },
        }
    }

    /// Returns the number of steps from the end on one side to the limit of shifts.
    pub(crate) fn steps_left(self, side: Side) -> u32
        requires { IsInLimit self }
        ensures value { result ≡ left_on side self }
        ensures bound { result ≤ SHIFT_LIMIT + SHIFT_LIMIT }
    {
        match side {
            Side::Above => (LIMIT - self.to) as u32,
            Side::Below => (self.from + LIMIT) as u32,
        }
    }

    /// Returns the shifts along an axis.
    pub(crate) fn shifts(self, axis: Axis) -> GridBox
        requires { IsInLimit self }
        ensures value { result ≡ shifts_of axis self }
        ensures limit { AreShifts result }
    {
        axis.shifts(self.from, self.to)
    }
}
