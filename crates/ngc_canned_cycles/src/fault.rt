ghost use Rattle.std.specs.Prelude.{◌≡◌};

use thiserror::Error;

/// The reasons why a cycle is refused.
#[derive(Clone, Copy, Debug, PartialEq, Eq, Error)]
pub enum CycleFault {
    /// Fault 231.
    #[error("R is below the bottom of the hole")]
    RetractBelowBottom,
    /// Fault 232.
    #[error("L is not a whole number from 1 to 9999")]
    BadRepeats,
    /// Fault 233.
    #[error("Q is not above 0, or takes more than 10000 pecks")]
    BadPeck,
    /// Fault 234.
    #[error("P is below 0")]
    NegativeDwell,
    /// Fault 235: G86 would stop a spindle that does not turn.
    #[error("the spindle does not turn")]
    SpindleNotTurning,
    /// Fault 236.
    #[error("a canned cycle in inverse time feed mode")]
    InverseTime,
    /// Fault 900.
    #[error("out of memory")]
    Memory,
}

impl CycleFault {
    ghost use Rattle.ngc_canned_cycles.specs.Faults.{number_of};

    /// Returns the fault's number, which listings and messages print.
    pub fn number(&self) -> u16
        ensures { result ≡ number_of self.now }
    {
        match self {
            CycleFault::RetractBelowBottom => 231,
            CycleFault::BadRepeats => 232,
            CycleFault::BadPeck => 233,
            CycleFault::NegativeDwell => 234,
            CycleFault::SpindleNotTurning => 235,
            CycleFault::InverseTime => 236,
            CycleFault::Memory => 900,
        }
    }
}
