ghost use Rattle.std.specs.Prelude.{◌≡◌};

use crate::fault::LineFault;
use thiserror::Error;

/// The reasons why a program is not read.
#[derive(Clone, Copy, Debug, PartialEq, Eq, Error)]
pub enum ReadFault {
    /// A line is refused: its number in the file, from 1, and why.
    #[error("line {0}: {1}")]
    Line(u32, LineFault),
    /// A file that begins with a `%` line lacks the second one.
    #[error("second percent line missing")]
    NoEnd,
    /// The file has more than 100,000 lines to read.
    #[error("too many lines")]
    TooManyLines,
    /// There is no memory for the lines.
    #[error("out of memory")]
    Memory,
    /// The source failed.
    #[error("read failed")]
    Device,
}

impl ReadFault {
    ghost use Rattle.ngc_line_reader.specs.ReadFaults.{number_of};

    /// Returns the fault's number, as listings print it.
    pub fn number(&self) -> u16
        ensures { result ≡ number_of self.now }
    {
        match self {
            ReadFault::Line(_, fault) => fault.number(),
            ReadFault::NoEnd => 121,
            ReadFault::TooManyLines => 122,
            ReadFault::Memory => 900,
            ReadFault::Device => 901,
        }
    }
}
