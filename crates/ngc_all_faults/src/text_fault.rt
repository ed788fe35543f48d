ghost use Rattle.std.specs.Prelude.{◌≡◌};
ghost use Rattle.ngc_all_faults.specs.Faults.{line_of, number_of};

use ngc_canonical::Fault;
use ngc_line_reader::ReadFault;

/// A fault of a program's text at a setting of block delete.
#[derive(Clone, Copy)]
pub enum TextFault {
    /// The text can't be read as a program.
    Unread(ReadFault),
    /// A line is refused when it is executed; its number in the file, from 1.
    Refused { line: u32, fault: Fault },
}

impl TextFault {
    /// Returns the line of the fault, or `None` if it is in no line: a missing second `%` (121),
    /// too many lines (122), or a program without an end (120).
    pub fn line(&self) -> Option<u32>
        ensures { result ≡ line_of self.now }
    {
        match self {
            TextFault::Unread(ReadFault::Line(line, _)) => Some(*line),
            TextFault::Unread(_) => None,
            TextFault::Refused {
                fault: Fault::NoEnd,
                ..
            } => None,
            TextFault::Refused { line, .. } => Some(*line),
        }
    }

    /// Returns the fault's number.
    pub fn number(&self) -> u16
        ensures { result ≡ number_of self.now }
    {
        match self {
            TextFault::Unread(fault) => fault.number(),
            TextFault::Refused { fault, .. } => fault.number(),
        }
    }
}
