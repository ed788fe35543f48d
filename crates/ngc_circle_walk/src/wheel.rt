ghost use Rattle.std.specs.Prelude.{◌≡◌, ℕ, ◌≤◌, ◌<◌};
ghost use Rattle.ngc_circle_walk.specs.declared.spoke.Spoke.{Spoke};
ghost use Rattle.ngc_circle_walk.specs.Wheel.{rolled, IsRoll, IsSmall};

use crate::spoke::{Roll, Spoke};

/// A point that moves round a centre by unit moves, along a circle: as far out as a limit allows.
/// Lengths are in nanometres, and the limit is the square of one.
pub trait Wheel {
    /// The position of the point.
    ghost place: { Self → Spoke };

    /// The length of a move along an axis.
    ghost pace: { Self → ℕ };

    /// The greatest squared distance from the centre at which the rule may choose the next point.
    ghost rim: { Self → ℕ };

    /// Returns a wheel at a point. Its moves are `step` nanometres long along each axis, from 1 to
    /// 50,000; both coordinates of the point are at most 3*10^9 nm.
    fn new(spoke: Spoke, step: u64, limit: u64) -> Self
        requires step { 0 < step }
        requires short { step ≤ 50000 }
        requires small { IsSmall spoke }
        ensures place { Self.place result ≡ spoke }
        ensures pace { Self.pace result ≡ step }
        ensures rim { Self.rim result ≡ limit };

    /// Returns the position of the point.
    fn spoke(&self) -> Spoke
        ensures { result ≡ place self.now };

    /// Makes one move and returns it: over the next half axis if that is less than a step away;
    /// else outward if the limit allows it; else diagonally if the limit allows that; else inward.
    fn advance(&mut self) -> Roll
        requires { IsSmall (place self.old) }
        ensures roll { IsRoll (pace self.old) (rim self.old) (place self.old) result }
        ensures place { place self.new ≡ rolled (pace self.old) result (place self.old) }
        ensures pace { pace self.new ≡ pace self.old }
        ensures rim { rim self.new ≡ rim self.old };
}
