ghost use Rattle.std.specs.Prelude.{◌≡◌};
ghost use Rattle.ngc_fixed_length.specs.Boxes.{is_below, holds_box};
ghost use Rattle.ngc_certificate.specs.Inside.{corner_of, bounds_of, IsNarrow};

use ngc_fixed_length::{GridBox, StepPos};

/// A corner of a box, in steps.
#[derive(Clone, Copy)]
pub(crate) struct Corner {
    pub(crate) x: i64,
    pub(crate) y: i64,
    pub(crate) z: i64,
}

/// A box from its lowest to its highest corner. It may extend beyond the grid points of 32-bit
/// steps.
#[derive(Clone, Copy)]
pub(crate) struct Bounds {
    pub(crate) low: Corner,
    pub(crate) high: Corner,
}

impl Corner {
    fn of(point: &StepPos) -> Corner
        ensures { corner_of result ≡ point.now }
    {
        Corner {
            x: i64::from(point.x),
            y: i64::from(point.y),
            z: i64::from(point.z),
        }
    }

    /// Returns whether this corner is at most the other on each axis.
    fn is_below(&self, other: &Corner) -> bool
        ensures { result ≡ is_below (corner_of self.now) (corner_of other.now) }
    {
        self.x <= other.x && self.y <= other.y && self.z <= other.z
    }

    fn narrowed(&self) -> StepPos
        requires { IsNarrow self.now }
        ensures { result ≡ corner_of self.now }
    {
        StepPos {
            x: self.x as i32,
            y: self.y as i32,
            z: self.z as i32,
        }
    }
}

impl Bounds {
    /// Returns whether a box of grid points contains all of this one.
    pub(crate) fn are_in(&self, outer: &GridBox) -> bool
        ensures { result ≡ holds_box outer.now (bounds_of self.now) }
    {
        Corner::of(&outer.low).is_below(&self.low) && self.high.is_below(&Corner::of(&outer.high))
    }

    /// Returns the same box as a box of grid points.
    pub(crate) fn narrowed(&self) -> GridBox
        requires low { IsNarrow self.now.low }
        requires high { IsNarrow self.now.high }
        ensures { result ≡ bounds_of self.now }
    {
        GridBox {
            low: self.low.narrowed(),
            high: self.high.narrowed(),
        }
    }
}
