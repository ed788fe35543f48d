ghost use Rattle.std.specs.Prelude.{◌≡◌};
ghost use Rattle.ngc_certificate.specs.Faults.{piece_number, make_number};

use ngc_certificate_text::Setting;
use thiserror::Error;

/// The reasons why a piece is refused.
#[derive(Clone, Copy, Debug, PartialEq, Eq, Error)]
pub enum PieceFault {
    /// Fault 313: the piece isn't of its motion's kind, or doesn't follow the piece before it, or
    /// is the last and doesn't end with the motion.
    #[error("the piece does not follow the one before it")]
    Chain,
    /// Fault 314: the box doesn't contain the piece.
    #[error("the box does not hold the piece")]
    NotCovered,
    /// Fault 315: the box leaves the travel limits.
    #[error("the box leaves the travel limits")]
    OutsideTravel,
    /// Fault 316: over the box the tool's body meets this fixture, the lowest one that it meets,
    /// counted from 0.
    #[error("the body meets fixture {0}")]
    MeetsFixture(u32),
}

impl PieceFault {
    /// Returns the fault's number: 313 to 316.
    pub fn number(&self) -> u16
        ensures { result ≡ piece_number self.now }
    {
        match self {
            PieceFault::Chain => 313,
            PieceFault::NotCovered => 314,
            PieceFault::OutsideTravel => 315,
            PieceFault::MeetsFixture(_) => 316,
        }
    }
}

/// The first piece of a motion that is refused.
#[derive(Clone, Copy)]
pub struct PieceRefusal {
    /// Its number in the motion, counted from 0.
    pub piece: u32,
    pub fault: PieceFault,
}

/// The reasons why no certificate is made.
#[derive(Clone, Copy, Debug, PartialEq, Eq, Error)]
pub enum MakeFault {
    /// Fault 304: no number of pieces that was tried clears this command, counted from 0, at this
    /// setting of block delete. If the start point isn't clear, it is command 0 with block delete
    /// off.
    #[error("no certificate clears command {command}")]
    NotCleared { setting: Setting, command: u32 },
    /// Fault 900.
    #[error("out of memory")]
    Memory,
}

impl MakeFault {
    /// Returns the fault's number: 304 or 900.
    pub fn number(&self) -> u16
        ensures { result ≡ make_number self.now }
    {
        match self {
            MakeFault::NotCleared { .. } => 304,
            MakeFault::Memory => 900,
        }
    }
}

/// Fault 900: there is too little memory to join a certificate, for a `CheckReader` or for a
/// controller.
#[derive(Clone, Copy, Debug, PartialEq, Eq, Error)]
#[error("out of memory")]
pub struct MemoryFault;

impl MemoryFault {
    /// Returns the fault's number.
    pub fn number(&self) -> u16
        ensures { result ≡ 900 }
    {
        900
    }
}
