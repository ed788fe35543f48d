ghost use Rattle.std.specs.Prelude.{◌≡◌};

use thiserror::Error;

/// The reasons why arithmetic on values returns no value.
#[derive(Clone, Copy, Debug, PartialEq, Eq, Error)]
pub enum NumberFault {
    /// Fault 101: a number over 10^9 units, or a length over 10^11 nm.
    #[error("the number is too large")]
    TooLarge,
    /// Fault 102.
    #[error("division by zero")]
    DivisionByZero,
}

impl NumberFault {
    ghost use Rattle.ngc_fixed_length.specs.NumberFault.{number_of};

    /// Returns the fault's number.
    pub fn number(&self) -> u16
        ensures { result ≡ number_of self.now }
    {
        match self {
            NumberFault::TooLarge => 101,
            NumberFault::DivisionByZero => 102,
        }
    }
}
