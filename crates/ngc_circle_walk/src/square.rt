ghost use Rattle.std.specs.Prelude.{◌≡◌, ◌+◌, ◌-◌, ◌*◌, ◌≤◌};

use crate::spoke::{Roll, Spoke};
use crate::wheel::Wheel;
use std::marker::Model;

/// A wheel that updates the squared distance of its point from the centre with additions only.
#[derive(Drop)]
pub struct SquareWheel {
    spoke: Spoke,
    step: u64,
    limit: u64,
    square: u64,
}

impl Model for SquareWheel {
    ghost use Rattle.ngc_circle_walk.specs.Turning.{Turning};

    ghost Value = { Turning };

    ghost use Rattle.ngc_circle_walk.specs.Turning.{square_turning, IsSquareWheel};

    ghost view = { square_turning };

    ghost invariant = { IsSquareWheel };
}

/// Returns how much the square of a coordinate grows in a step outward.
fn growth(y: u64, step: u64) -> u64
    requires small { y ≤ 3000000000 }
    requires short { step ≤ 50000 }
    ensures value { y * y + result ≡ (y + step) * (y + step) }
    ensures bound { result ≤ 400000000000000 }
{
    step * (2 * y + step)
}

/// Returns how much the square of a coordinate shrinks in a step inward.
fn fall(x: u64, step: u64) -> u64
    requires small { x ≤ 3000000000 }
    requires short { step ≤ 50000 }
    requires room { step ≤ x }
    ensures value { (x - step) * (x - step) + result ≡ x * x }
{
    step * (2 * (x - step) + step)
}

/// Returns the square of a coordinate.
fn squared(x: u64) -> u64
    requires { x ≤ 3000000000 }
    ensures value { result ≡ x * x }
    ensures bound { result ≤ 9000000000000000000 }
{
    x * x
}

impl Wheel for SquareWheel {
    ghost place = { λ w. w.place };

    ghost pace = { λ w. w.pace };

    ghost rim = { λ w. w.rim };

    fn new(spoke: Spoke, step: u64, limit: u64) -> SquareWheel {
        SquareWheel {
            spoke,
            step,
            limit,
            square: squared(spoke.x) + squared(spoke.y),
        }
    }

    fn spoke(&self) -> Spoke {
        self.spoke
    }

    fn advance(&mut self) -> Roll {
        let Spoke { x, y, .. } = self.spoke;
        let step = self.step;
        let (roll, square) = if x < step {
            (Roll::Over, squared(y) + squared(step - x))
        } else {
            let farther = self.square + growth(y, step);
            let less = fall(x, step);
            if farther <= self.limit {
                (Roll::Outward, farther)
            } else if farther - less <= self.limit {
                (Roll::Diagonal, farther - less)
            } else {
                (Roll::Inward, self.square - less)
            }
        };
        self.square = square;
        self.spoke = self.spoke.rolled(roll, step);
        roll
    }
}
