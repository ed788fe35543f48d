ghost use Rattle.std.specs.Prelude.{◌≡◌};

use ngc_fixed_length::NumberFault;
use thiserror::Error;

/// The reasons why a word has no value, or the store no memory.
#[derive(Clone, Copy, Debug, PartialEq, Eq, Error)]
pub enum EvalFault {
    #[error(transparent)]
    Number(NumberFault),
    #[error("parameter index is not a whole number")]
    IndexNotWhole,
    #[error("parameter index is not from 1 to 5160")]
    IndexOutOfRange,
    #[error("brackets and # nested more than 16 deep")]
    TooDeep,
    #[error("out of memory")]
    Memory,
}

impl EvalFault {
    ghost use Rattle.ngc_parameters.specs.Fault.{number_of};

    /// Returns the fault's number, which listings and messages print.
    pub fn number(&self) -> u16
        ensures { result ≡ number_of self.now }
    {
        match self {
            EvalFault::Number(fault) => fault.number(),
            EvalFault::IndexNotWhole => 131,
            EvalFault::IndexOutOfRange => 132,
            EvalFault::TooDeep => 133,
            EvalFault::Memory => 900,
        }
    }
}
