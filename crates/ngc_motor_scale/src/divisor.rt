//! The greatest common divisor.
ghost use Rattle.std.specs.Prelude.{◌≡◌};
ghost use Rattle.std.specs.Int.{IsGcd};
ghost use Rattle.ngc_motor_scale.specs.Scales.{gcd};

/// Returns the greatest common divisor of two numbers.
pub(crate) fn common_divisor(a: u128, b: u128) -> u128
    ensures value { result ≡ gcd a b }
    ensures greatest { IsGcd a b result }
{
    let mut greater = a;
    let mut lesser = b;
    while lesser != 0 {
        let rest = greater % lesser;
        greater = lesser;
        lesser = rest;
    }
    greater
}
