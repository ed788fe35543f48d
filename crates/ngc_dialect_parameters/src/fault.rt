ghost use Rattle.std.specs.Prelude.{◌≡◌};

use ngc_dialect_numbers::NoValue;

/// The reasons why a part of a line has no value.
#[derive(Clone, Copy, Debug, PartialEq, Eq)]
pub enum Cause {
    /// A parameter's number is not whole.
    IndexNotWhole,
    /// No parameter has this number.
    IndexOutOfRange,
    /// The program hasn't set the parameter, and the control doesn't give it a value here.
    Unset,
    /// Only the control sets this parameter.
    ReadOnly,
    Value(NoValue),
}

impl Cause {
    ghost use Rattle.ngc_dialect_parameters.specs.Faults.{cause_number};

    /// Returns the fault's number, which messages print.
    pub fn number(self) -> u16
        ensures { result ≡ cause_number self }
    {
        match self {
            Cause::IndexNotWhole => 131,
            Cause::IndexOutOfRange => 132,
            Cause::Unset | Cause::ReadOnly => 134,
            Cause::Value(_) => 135,
        }
    }
}

/// A refusal of a line: why, and the number of bytes of the line's text from the refused part on.
/// `column_of` makes a column of it.
#[derive(Clone, Copy, Debug, PartialEq, Eq)]
pub struct EvaluationFault {
    pub cause: Cause,
    pub left: usize,
}

/// The reasons why the parameters can't be stored.
#[derive(Clone, Copy, Debug, PartialEq, Eq)]
pub enum StoreFault {
    /// Subprograms are nested over 10 deep.
    TooDeep,
    /// There are over 10,000 names.
    TooManyNames,
    /// Memory was refused.
    Memory,
}

impl StoreFault {
    ghost use Rattle.ngc_dialect_parameters.specs.Faults.{store_number};

    /// Returns the fault's number, which messages print.
    pub fn number(self) -> u16
        ensures { result ≡ store_number self }
    {
        match self {
            StoreFault::TooDeep => 137,
            StoreFault::TooManyNames => 139,
            StoreFault::Memory => 900,
        }
    }
}
