ghost use Rattle.std.specs.Prelude.{◌≡◌, ◌+◌, ◌*◌, ◌/◌, ◌≤◌, ◌<◌, unsigned_abs, ℤ, ◌-ℤ◌, ◌*ℤ◌};
ghost use Rattle.ngc_circle_walk.specs.Around.{around};
ghost use Rattle.ngc_circle_walk.specs.Entering.{IsEntry};
ghost use Rattle.ngc_circle_walk.specs.Wheel.{IsSmall};

use ngc_circle_walk::{Roll, Spoke};

/// A vector in a plane, in nanometres.
#[derive(Clone, Copy)]
pub(crate) struct Vector2 {
    pub u: i64,
    pub v: i64,
}

/// Returns the product of two coordinates of vectors.
fn product(x: i64, y: i64) -> i128
    requires x { unsigned_abs x ≤ 3000000000 }
    requires y { unsigned_abs y ≤ 3000000000 }
    ensures value { result ≡ x *ℤ y }
    ensures bound { unsigned_abs result ≤ 9000000000000000000 }
{
    i128::from(x) * i128::from(y)
}

impl Vector2 {
    ghost use Rattle.ngc_step_kernel.specs.Ways.{IsWay};

    /// Returns the cross product. It is above 0 if a turn of less than half a circle leads from
    /// this vector to the other.
    pub(crate) fn cross(&self, other: &Vector2) -> i128
        requires here { IsWay self.now }
        requires other { IsWay other.now }
        ensures { result ≡ (self.now.u *ℤ other.now.v) -ℤ (self.now.v *ℤ other.now.u) }
    {
        product(self.u, other.v) - product(self.v, other.u)
    }

    /// Returns the square of the vector's length.
    pub(crate) fn square(&self) -> u128
        requires { IsWay self.now }
        ensures { result ≡ unsigned_abs self.now.u * unsigned_abs self.now.u
            + unsigned_abs self.now.v * unsigned_abs self.now.v }
    {
        let u = u128::from(self.u.unsigned_abs());
        let v = u128::from(self.v.unsigned_abs());
        u * u + v * v
    }

    pub(crate) fn spoke(&self) -> Spoke
        requires { IsWay self.now }
        ensures place { around result.quadrant result.x result.y
            ≡ record { u = self.now.u; v = self.now.v } }
        ensures small { IsSmall result }
        ensures out { 0 < unsigned_abs self.now.u + unsigned_abs self.now.v → 0 < result.x }
    {
        Spoke::of(self.u, self.v)
    }
}

/// Returns the greatest squared distance at which a wheel about a centre chooses a point.
pub(crate) fn limit_of(radius: u64, step: u64) -> u64
    requires radius { radius ≤ 2000100000 }
    requires short { step ≤ 50000 }
    ensures value { result ≡ (radius + 2 * step / 5) * (radius + 2 * step / 5) }
    ensures bound { result ≤ 2000120000 * 2000120000 }
{
    let reach = radius + 2 * step / 5;
    reach * reach
}

/// Returns the move that leads from a joint before the start's direction to a point at that
/// direction or past it. It moves along the lesser axis, and along the greater one too if the limit
/// requires it.
pub(crate) fn entering(joint: Spoke, is_steep: bool, step: u64, limit: u64) -> Roll
    requires x { joint.x ≤ 2900000000 }
    requires y { joint.y ≤ 2900000000 }
    requires short { step ≤ 50000 }
    ensures { IsEntry step limit is_steep joint result }
{
    if joint.x < step {
        return Roll::Over;
    }
    if is_steep {
        if joint.rolled(Roll::Diagonal, step).square() <= limit {
            Roll::Diagonal
        } else {
            Roll::Inward
        }
    } else if joint.rolled(Roll::Outward, step).square() <= limit {
        Roll::Outward
    } else {
        Roll::Diagonal
    }
}
