ghost use Rattle.std.specs.Prelude.{◌≡◌};

use crate::range::{COORDINATE, FAR_COORDINATE, OFFSET};
use thiserror::Error;

/// An axis of the machine.
#[derive(Clone, Copy, Debug, PartialEq, Eq)]
pub enum Axis {
    X,
    Y,
    Z,
}

/// How far from zero a programmed coordinate may be.
#[derive(Clone, Copy, Debug, PartialEq, Eq)]
pub enum CoordinateRange {
    /// At most 10^9 nm in size.
    Near,
    /// At most 4*10^9 nm in size.
    Far,
}

impl CoordinateRange {
    ghost use Rattle.ngc_offsets.specs.Ranges.{coordinate_limit};

    /// Returns the greatest size of a programmed coordinate, in nanometres.
    pub fn limit(self) -> u64
        ensures { result ≡ coordinate_limit self }
    {
        match self {
            CoordinateRange::Near => COORDINATE,
            CoordinateRange::Far => FAR_COORDINATE,
        }
    }
}

/// What a length in a part program is, which decides its range.
#[derive(Clone, Copy, Debug, PartialEq, Eq)]
pub enum Quantity {
    /// A programmed coordinate: at most 10^9 nm in size, or 4*10^9 nm.
    Coordinate(CoordinateRange),
    /// An origin or an offset: at most 4*10^9 nm in size.
    Offset,
}

impl Quantity {
    ghost use Rattle.ngc_offsets.specs.Ranges.{limit_of};

    /// Returns the greatest size of such a length, in nanometres.
    pub fn limit(self) -> u64
        ensures { result ≡ limit_of self }
    {
        match self {
            Quantity::Coordinate(reach) => reach.limit(),
            Quantity::Offset => OFFSET,
        }
    }
}

/// The reasons why a place or a change of the frames is refused.
#[derive(Clone, Copy, Debug, PartialEq, Eq, Error)]
pub enum FrameFault {
    /// Fault 221: a coordinate, or an origin or offset, is beyond its range. `at` is in nanometres.
    #[error("the coordinate or offset is beyond its range")]
    BeyondRange {
        axis: Axis,
        quantity: Quantity,
        at: i64,
    },
    /// Fault 222.
    #[error("the tool table has no such tool")]
    NoSuchTool,
}

impl FrameFault {
    ghost use Rattle.ngc_offsets.specs.Faults.{number_of};

    /// Returns the fault's number, which listings and messages print.
    pub fn number(&self) -> u16
        ensures { result ≡ number_of self.now }
    {
        match self {
            FrameFault::BeyondRange { .. } => 221,
            FrameFault::NoSuchTool => 222,
        }
    }
}
