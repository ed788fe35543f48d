//! An interval of shifts that grows on one side.
ghost use Rattle.std.specs.Prelude.{◌≡◌, ◌≤◌};
ghost use Rattle.ngc_place.specs.Shifts.{AreShifts};
ghost use Rattle.ngc_place.specs.Longest.{IsInLimit, shifts_of, grown};
ghost use Rattle.ngc_place.specs.Inside.{steps_left as left_on};

use crate::axis::Axis;
use crate::interval::{Interval, Side};
use ngc_fixed_length::GridBox;

/// An interval of shifts along an axis, which grows on one side.
#[derive(Clone, Copy)]
pub(crate) struct Growing {
    pub(crate) axis: Axis,
    pub(crate) interval: Interval,
    pub(crate) side: Side,
    ghost limit: { IsInLimit interval },
}

impl Growing {
    /// Returns the shifts of the interval when it is this number of steps longer.
    pub(crate) fn shifts(&self, steps: u32) -> GridBox
        requires { steps ≤ left_on self.now.side self.now.interval }
        ensures value { result ≡ shifts_of self.now.axis
            (grown self.now.side steps self.now.interval) }
        ensures limit { AreShifts result }
    {
        self.interval.grown(self.side, steps).shifts(self.axis)
    }
}
