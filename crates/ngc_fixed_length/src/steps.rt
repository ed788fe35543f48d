ghost use Rattle.std.specs.Prelude.{◌≡◌, ◌≤◌, ◌*ℤ◌, unsigned_abs};
ghost use Rattle.ngc_fixed_length.specs.Length.{IsStep};

use crate::length::Nm;

/// Returns the length of `steps` grid steps in nanometres. A step is from 500 to 50,000 nm.
pub fn nanometres_at(step: Nm, steps: i32) -> i64
    requires { IsStep step }
    ensures value { result ≡ steps *ℤ step }
    ensures bound { unsigned_abs result ≤ 107374182400000 }
{
    i64::from(steps) * step.nanometres()
}
