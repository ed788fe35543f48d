ghost use Rattle.std.specs.Prelude.{◌≡◌};

use ngc_arc_geometry::ArcFault;
use ngc_canned_cycles::CycleFault;
use ngc_fixed_length::NumberFault;
use ngc_modal_state::ModalFault;
use ngc_offsets::{CoordinateRange, FrameFault};
use ngc_parameters::EvalFault;
use thiserror::Error;

/// What is wrong with a line that was read.
#[derive(Clone, Copy, Debug, PartialEq, Eq, Error)]
pub enum Fault {
    /// 101, 102, 131 to 133: a fault of a value.
    #[error(transparent)]
    Value(EvalFault),
    /// 201 to 210: a fault of words or modal codes.
    #[error(transparent)]
    Modal(ModalFault),
    /// 101: a length over 10^11 nm.
    #[error(transparent)]
    Length(NumberFault),
    /// 221: a coordinate, an origin or an offset that is out of range.
    #[error(transparent)]
    Frame(FrameFault),
    /// 221: a canned cycle with a height or a hole that is farther from zero than this range.
    #[error("a coordinate of the canned cycle is beyond its range")]
    CycleBeyondRange(CoordinateRange),
    /// 222: the tool table has no tool of this number.
    #[error("the tool table has no tool {0}")]
    NoSuchTool(u32),
    /// 231 to 236: a fault of a canned cycle.
    #[error(transparent)]
    Cycle(CycleFault),
    /// 241 to 246: a fault of an arc.
    #[error(transparent)]
    Arc(ArcFault),
    /// 252: the feed is 0 for a motion at a feed.
    #[error("the feed is zero")]
    FeedZero,
    /// 120: the program has no end.
    #[error("the program has no end")]
    NoEnd,
    /// 251: there are over 1,000,000 commands.
    #[error("the program has too many commands")]
    TooManyCommands,
}

impl Fault {
    ghost use Rattle.ngc_canonical.specs.Faults.{fault_number};

    /// Returns the fault's number.
    pub fn number(&self) -> u16
        ensures { result ≡ fault_number self.now }
    {
        match self {
            Fault::Value(fault) => fault.number(),
            Fault::Modal(fault) => fault.number(),
            Fault::Length(fault) => fault.number(),
            Fault::Frame(fault) => fault.number(),
            Fault::CycleBeyondRange(_) => 221,
            Fault::NoSuchTool(_) => 222,
            Fault::Cycle(fault) => fault.number(),
            Fault::Arc(fault) => fault.number(),
            Fault::FeedZero => 252,
            Fault::NoEnd => 120,
            Fault::TooManyCommands => 251,
        }
    }
}

/// Why a program is refused: the fault and its line, or 900.
#[derive(Clone, Copy, Debug, PartialEq, Eq, Error)]
pub enum ProgramFault {
    #[error("line {line}: {fault}")]
    At { line: u32, fault: Fault },
    #[error("out of memory")]
    Memory,
}

impl ProgramFault {
    ghost use Rattle.ngc_canonical.specs.Faults.{program_number};

    /// Returns the fault's number.
    pub fn number(&self) -> u16
        ensures { result ≡ program_number self.now }
    {
        match self {
            ProgramFault::At { fault, .. } => fault.number(),
            ProgramFault::Memory => 900,
        }
    }
}
