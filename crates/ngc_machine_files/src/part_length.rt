use crate::numbers::length;
use ngc_fixed_length::Nm;
use std::marker::Model;

/// A length of 0 to 10^9 nm. It is stored in 32 bits, since each command that mounts a tool holds
/// the tool's parts.
#[derive(Clone, Copy, PartialEq, Eq)]
pub struct PartLength {
    nanometres: u32,
}

impl Model for PartLength {
    ghost use Rattle.std.specs.Prelude.{◌≤◌, ℤ, pos, unsigned_abs};
    ghost use Rattle.ngc_machine_files.specs.Numbers.{PART_LIMIT};

    ghost Value = { ℤ };

    ghost view = { λ l. pos l.nanometres };

    ghost invariant = { λ l. l.nanometres ≤ PART_LIMIT };

    ghost inverse = { λ z. record { nanometres = unsigned_abs z } };
}

impl PartLength {
    ghost use Rattle.std.specs.Prelude.{◌≡◌, ◌≤◌, pos};
    ghost use Rattle.ngc_fixed_length.specs.Limits.{IsLength};
    ghost use Rattle.ngc_machine_files.specs.Numbers.{PART_LIMIT};

    /// Returns a number of nanometres as the length of a part.
    pub(crate) fn new(nanometres: u32) -> PartLength
        requires { nanometres ≤ PART_LIMIT }
        ensures { result ≡ pos nanometres }
    {
        PartLength { nanometres }
    }

    /// Returns the number of nanometres.
    pub fn nanometres(self) -> i64
        ensures value { result ≡ self }
        ensures bound { IsLength result }
    {
        i64::from(self.nanometres)
    }

    /// Returns the same length as `Nm`.
    pub fn length(self) -> Nm
        ensures { result ≡ self }
    {
        length(self.nanometres())
    }
}
