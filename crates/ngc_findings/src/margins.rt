//! The side on which a box is nearest to the travel limits, or leaves them farthest.
ghost use Rattle.std.specs.Prelude.{◌≡◌};
ghost use Rattle.ngc_findings.specs.Margins.{narrower, axis_margin, tightest};

use crate::travel::{AxisSpace, Room};

/// An axis of the machine.
#[derive(Clone, Copy)]
pub enum Axis {
    X,
    Y,
    Z,
}

/// A side of the travel along an axis.
#[derive(Clone, Copy)]
pub enum Side {
    Below,
    Above,
}

/// The distance from a box to one side of the travel, in nanometres. It is below zero if the box
/// leaves the travel there.
#[derive(Clone, Copy)]
pub struct Margin {
    pub axis: Axis,
    pub side: Side,
    pub left: i64,
}

fn narrower(one: Margin, other: Margin) -> Margin
    ensures { result ≡ narrower one other }
{
    if other.left < one.left { other } else { one }
}

fn axis_margin(axis: Axis, room: &AxisSpace) -> Margin
    ensures { result ≡ axis_margin axis room.now }
{
    let below = Margin {
        axis,
        side: Side::Below,
        left: room.below,
    };
    let above = Margin {
        axis,
        side: Side::Above,
        left: room.above,
    };
    narrower(below, above)
}

impl Room {
    /// Returns the side with the least margin. Of equal ones it is the first, in the order X below,
    /// X above, Y below and so on.
    pub fn tightest(&self) -> Margin
        ensures { result ≡ tightest self.now }
    {
        let x = axis_margin(Axis::X, &self.x);
        let y = axis_margin(Axis::Y, &self.y);
        let z = axis_margin(Axis::Z, &self.z);
        narrower(narrower(x, y), z)
    }
}
