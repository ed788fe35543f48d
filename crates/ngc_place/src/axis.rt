ghost use Rattle.std.specs.Prelude.{◌≡◌};

use ngc_fixed_length::{GridBox, StepPos};

/// An axis of the machine.
#[derive(Clone, Copy, PartialEq, Eq)]
pub enum Axis {
    X,
    Y,
    Z,
}

impl Axis {
    ghost use Rattle.ngc_place.specs.Shifts.{along, shifts_along};

    /// Returns the shift of this number of steps along the axis alone.
    fn along(self, steps: i32) -> StepPos
        ensures { result ≡ along self steps }
    {
        let (x, y, z) = match self {
            Axis::X => (steps, 0, 0),
            Axis::Y => (0, steps, 0),
            Axis::Z => (0, 0, steps),
        };
        StepPos { x, y, z }
    }

    /// Returns the shifts along the axis alone, from one number of steps to another, both included.
    pub fn shifts(self, from: i32, to: i32) -> GridBox
        ensures { result ≡ shifts_along self from to }
    {
        GridBox {
            low: self.along(from),
            high: self.along(to),
        }
    }
}
