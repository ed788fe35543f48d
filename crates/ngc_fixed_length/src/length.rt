ghost use Rattle.std.specs.Prelude.{◌≡◌, ◌≤◌, ℤ, ◌+ℤ◌, ◌-ℤ◌, pos, unsigned_abs};
ghost use Rattle.ngc_fixed_length.specs.NumberFault.{within};
ghost use Rattle.ngc_fixed_length.specs.Rounding.{nearest};
ghost use Rattle.ngc_fixed_length.specs.Length.{IsStep};
ghost use Rattle.ngc_fixed_length.specs.Limits.{LENGTH_LIMIT, IsLength};

use crate::fault::NumberFault;
use crate::rounding::short_quotient;
use std::marker::Model;

/// A length in nanometres, at most 10^11 in size.
#[derive(Clone, Copy, PartialEq, Eq, PartialOrd, Ord)]
pub struct Nm {
    nanometres: i64,
}

impl Model for Nm {
    ghost Value = { ℤ };

    ghost view = { λ l. l.nanometres };

    ghost invariant = { λ l. IsLength l.nanometres };

    ghost inverse = { λ z. record { nanometres = z } };
}

impl Default for Nm {
    ghost is_default = { λ l. l ≡ pos 0 };

    fn default() -> Nm {
        Nm::zero()
    }
}

impl Nm {
    /// Returns a number of nanometres as a length, or `TooLarge` above 10^11 in size.
    pub fn from_nanometres(nanometres: i128) -> Result<Nm, NumberFault>
        ensures { result ≡ within LENGTH_LIMIT nanometres }
    {
        if nanometres.unsigned_abs() <= 100_000_000_000 {
            Ok(Nm {
                nanometres: nanometres as i64,
            })
        } else {
            Err(NumberFault::TooLarge)
        }
    }

    /// Returns the length 0.
    pub fn zero() -> Nm
        ensures { result ≡ pos 0 }
    {
        Nm { nanometres: 0 }
    }

    /// Returns the number of nanometres.
    pub fn nanometres(self) -> i64
        ensures value { result ≡ self }
        ensures bound { IsLength result }
    {
        self.nanometres
    }

    /// Returns the sum, which must be at most 10^11 nm in size, as each length is.
    pub fn plus(self, other: Nm) -> Nm
        requires { IsLength (self +ℤ other) }
        ensures { result ≡ self +ℤ other }
    {
        Nm {
            nanometres: self.nanometres + other.nanometres,
        }
    }

    /// Returns this length less `other`; the difference must be at most 10^11 nm in size.
    pub fn minus(self, other: Nm) -> Nm
        requires { IsLength (self -ℤ other) }
        ensures { result ≡ self -ℤ other }
    {
        Nm {
            nanometres: self.nanometres - other.nanometres,
        }
    }

    /// Returns the nearest grid point, in steps. A step is from 500 to 50,000 nm; ties go away from
    /// zero.
    pub fn to_grid(self, step: Nm) -> i32
        requires { IsStep step }
        ensures value { result ≡ nearest self step }
        ensures bound { unsigned_abs result ≤ 200000000 }
    {
        short_quotient(self.nanometres, step.nanometres.unsigned_abs()) as i32
    }
}
