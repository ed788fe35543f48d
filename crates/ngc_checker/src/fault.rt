ghost use Rattle.std.specs.Prelude.{◌≡◌};
ghost use Rattle.ngc_checker.specs.Faults.{number_of};

use ngc_canonical::ProgramFault;
use ngc_certificate::{PieceFault, Setting};
use thiserror::Error;

/// The reasons why a certificate isn't accepted. Commands, pieces and fixtures are counted from 0.
#[derive(Clone, Copy, Debug, PartialEq, Eq, Error)]
pub enum CheckFault {
    /// Fault 311: the program is refused at this setting of block delete.
    #[error("the program is refused: {fault}")]
    Program {
        setting: Setting,
        fault: ProgramFault,
    },
    /// Fault 312: the indexes of the program's motions and of the certificate's are two lists that
    /// differ. This is the index at the first position where they differ, the lesser of the two if
    /// both have one there.
    #[error("program and certificate differ at command {command}")]
    MotionsDiffer {
        setting: Setting,
        command: u32,
    },
    /// Fault 318: the start point is in a fixture.
    #[error("the start point meets fixture {fixture}")]
    Start {
        fixture: u32,
    },
    /// Fault 313 to 316: a piece of a motion.
    #[error("command {command}, piece {piece}: {fault}")]
    Piece {
        setting: Setting,
        command: u32,
        piece: u32,
        fault: PieceFault,
    },
    /// Fault 319: rapids are free, and this traverse has several pieces.
    #[error("the traverse of command {command} is divided")]
    Divided {
        setting: Setting,
        command: u32,
    },
    /// Fault 317: the body of the tool that this command mounts meets a fixture.
    #[error("the tool of command {command} meets fixture {fixture}")]
    ToolChange {
        setting: Setting,
        command: u32,
        fixture: u32,
    },
    /// Fault 900.
    #[error("out of memory")]
    Memory,
}

impl CheckFault {
    /// Returns the fault's number: 311 to 319, 900.
    pub fn number(&self) -> u16
        ensures { result ≡ number_of self.now }
    {
        match self {
            CheckFault::Program { .. } => 311,
            CheckFault::MotionsDiffer { .. } => 312,
            CheckFault::Start { .. } => 318,
            CheckFault::Piece { fault, .. } => fault.number(),
            CheckFault::Divided { .. } => 319,
            CheckFault::ToolChange { .. } => 317,
            CheckFault::Memory => 900,
        }
    }
}
