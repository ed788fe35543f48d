//! Square roots.
ghost use Rattle.std.specs.Prelude.{◌≡◌, ◌≤◌, ◌^◌, ◌*◌, IfOk, pos, unsigned_abs};
ghost use Rattle.ngc_dialect_numbers.specs.Numbers.{IsNumber};
ghost use Rattle.ngc_dialect_numbers.specs.SquareRoots as spec;

use crate::fault::NoValue;
use crate::number::Number;
use ngc_fixed_length::root_floor;

// Returns the whole number that is nearest to a square root.
fn nearest_root(square: u128) -> u128
    requires { square ≤ 10 ^ 38 }
    ensures value { result ≡ spec.nearest_root square }
    ensures bound { result ≤ 2 ^ 64 }
    ensures near { spec.IsNearestRoot square result }
{
    let root = u128::from(root_floor(square));
    if root < square - root * root {
        root + 1
    } else {
        root
    }
}

// Returns the root of a size, in units.
fn root_of(size: u128) -> i128
    requires { size ≤ 10 ^ 21 }
    ensures value { result ≡ pos (spec.nearest_root (size * 1000000000000)) }
    ensures bound { IsNumber result }
    ensures near { spec.IsNearestRoot (size * 1000000000000) (unsigned_abs result) }
{
    nearest_root(size * 1_000_000_000_000) as i128
}

impl Number {
    /// Returns what SQRT returns: the square root, rounded to the nearest unit. Returns
    /// `NegativeRoot` for a number below 0.
    pub fn sqrt(self) -> Result<Number, NoValue>
        ensures value { result ≡ spec.square_root self }
        ensures near { IfOk result (λ r. spec.IsNearestRoot (unsigned_abs self * 1000000000000) (unsigned_abs r)) }
    {
        if self.trillionths() < 0 {
            return Err(NoValue::NegativeRoot);
        }
        Number::from_trillionths(root_of(self.trillionths().unsigned_abs()))
    }
}
