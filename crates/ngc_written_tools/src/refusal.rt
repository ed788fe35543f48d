//! Why a tool table of version 3 is refused.
ghost use Rattle.std.specs.Prelude.{◌≡◌};
ghost use Rattle.ngc_written_tools.specs.Refusals as spec;

use ngc_machine_figures::{FileRefusal, ToolWrong, Wrong};
use ngc_machine_files::FileFault;

/// Why a tool table of version 3 is refused.
#[derive(Clone, Copy)]
pub enum ToolsRefusal {
    /// A key is unknown or missing, can't be read, or doesn't fit another one.
    Key(FileRefusal),
    /// A number is out of its range.
    Range(FileFault),
}

/// Why there are no tools of a table.
#[derive(Clone, Copy)]
pub enum ToolsFault {
    /// Memory was refused.
    Memory,
    /// The table has a mistake.
    Refused(ToolsRefusal),
}

fn tool_fault(wrong: ToolWrong) -> FileFault
    ensures { result ≡ spec.tool_fault wrong }
{
    match wrong {
        ToolWrong::NoTools
        | ToolWrong::NoHolder
        | ToolWrong::NoPart
        | ToolWrong::NoLength
        | ToolWrong::LoneShank
        | ToolWrong::NoCutter
        | ToolWrong::LonePoint => FileFault::Document,
        _ => FileFault::Tools,
    }
}

fn key_fault(wrong: Wrong) -> FileFault
    ensures { result ≡ spec.key_fault wrong }
{
    match wrong {
        Wrong::Tool(wrong) => tool_fault(wrong),
        _ => FileFault::Document,
    }
}

impl ToolsRefusal {
    /// Returns the fault of a tool table that it is: 269 where a key is unknown or missing, or can't be
    /// read, and 268 where a number is out of its range, or lengths don't fit each other.
    pub fn fault(self) -> FileFault
        ensures { result ≡ spec.fault_of self }
    {
        match self {
            ToolsRefusal::Key(refusal) => key_fault(refusal.wrong),
            ToolsRefusal::Range(fault) => fault,
        }
    }
}
