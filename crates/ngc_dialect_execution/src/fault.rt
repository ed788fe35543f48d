//! Why a program of another control isn't executed.
ghost use Rattle.std.specs.Prelude.{◌≡◌, Result};
ghost use Rattle.ngc_dialect_parameters.specs.Stored.{Stored};
ghost use Rattle.ngc_dialect_parameters.specs.Storing.{Stores};
ghost use Rattle.ngc_dialect_parameters.specs.declared.fault.StoreFault.{StoreFault as Fault};
ghost use Rattle.ngc_dialect_execution.specs.Faults.{Says, caused, stored_cause};
ghost use Rattle.ngc_dialect_execution.specs.Faults.{at_line as located};

use ngc_dialect_flow::Cause as FlowCause;
use ngc_dialect_parameters::{Cause as ValueCause, StoreFault};
use ngc_dialect_reader::LineFault;
use ngc_dialect_repeats::PolarRefusal;
use ngc_dialect_rules::Fault as RuleFault;
use thiserror::Error;

/// The reasons why a line of another control isn't executed.
#[derive(Clone, Copy)]
pub enum Cause {
    /// 111, 112, 123: the line can't be read from a column on.
    Reading(LineFault),
    /// 131, 132, 134, 135: a part of the line has no value.
    Value(ValueCause),
    /// 139: over 10,000 names.
    TooManyNames,
    /// 136, 137, 138, 211: a subprogram, loop or jump can't be executed.
    Flow(FlowCause),
    /// 101, 204, 205, 211, 252: the dialect's rules refuse the line.
    Rule(RuleFault),
    /// 101, 211: polar words.
    Polar(PolarRefusal),
    /// 211: M72 where neither M70 nor M73 has saved modes.
    NothingSaved,
    /// The fault of a plain line that the line became.
    Plain(ngc_canonical::Fault),
}

impl Cause {
    ghost use Rattle.ngc_dialect_execution.specs.Faults.{cause_number};

    /// Returns the fault's number.
    pub fn number(&self) -> u16
        ensures { result ≡ cause_number self.now }
    {
        match self {
            Cause::Reading(fault) => fault.cause.number(),
            Cause::Value(cause) => cause.number(),
            Cause::TooManyNames => 139,
            Cause::Flow(cause) => cause.number(),
            Cause::Rule(fault) => fault.cause.number(),
            Cause::Polar(refusal) => refusal.number(),
            Cause::NothingSaved => 211,
            Cause::Plain(fault) => fault.number(),
        }
    }
}

/// Why a line isn't executed: its cause, or lack of memory.
#[derive(Clone, Copy)]
pub enum Refusal {
    Because(Cause),
    Memory,
}

/// Why a program is refused: the line of the source and the cause, or lack of memory (900).
#[derive(Clone, Copy)]
pub enum DialectFault {
    At { line: u32, cause: Cause },
    Memory,
}

impl DialectFault {
    ghost use Rattle.ngc_dialect_execution.specs.Faults.{dialect_number};

    /// Returns the fault's number.
    pub fn number(&self) -> u16
        ensures { result ≡ dialect_number self.now }
    {
        match self {
            DialectFault::At { cause, .. } => cause.number(),
            DialectFault::Memory => 900,
        }
    }
}

/// Returns a refusal with the line of the source.
pub(crate) fn at_line(line: u32, refusal: Refusal) -> DialectFault
    ensures { result ≡ located line refusal }
{
    match refusal {
        Refusal::Because(cause) => DialectFault::At { line, cause },
        Refusal::Memory => DialectFault::Memory,
    }
}

/// Returns the outcome of storing parameters, with the refusal for its fault.
pub(crate) fn stored(outcome: Result<(), StoreFault>) -> Result<(), Refusal>
    ensures { (new : Stored) (says : Result Stored Fault) → Stores outcome new says
        → Says (λ _. new) result (caused stored_cause says) }
{
    match outcome {
        Ok(()) => Ok(()),
        Err(StoreFault::TooDeep) => Err(Refusal::Because(Cause::Flow(FlowCause::TooDeep))),
        Err(StoreFault::TooManyNames) => Err(Refusal::Because(Cause::TooManyNames)),
        Err(StoreFault::Memory) => Err(Refusal::Memory),
    }
}
