ghost use Rattle.std.specs.Prelude.{◌≡◌};

use ngc_text::WriteFault;
use thiserror::Error;

/// Why no picture is drawn, or only a prefix of one.
#[derive(Clone, Copy, Debug, PartialEq, Eq, Error)]
pub enum DrawFault {
    /// Memory was refused: 900.
    #[error("out of memory")]
    Memory,
    /// A write failed: 902.
    #[error("the output was not written")]
    Write,
}

impl DrawFault {
    ghost use Rattle.ngc_drawing.specs.Faults.{number_of};

    /// Returns the fault's number.
    pub fn number(&self) -> u16
        ensures { result ≡ number_of self.now }
    {
        match self {
            DrawFault::Memory => 900,
            DrawFault::Write => 902,
        }
    }
}
