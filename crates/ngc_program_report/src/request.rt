ghost use Rattle.std.specs.Prelude.{◌≤◌};

use ngc_file_figures::FileFigures;
use ngc_origins::Origins;
use ngc_report::Form;

/// The options of a report, and what the files say besides the machine and its tools.
#[derive(Clone, Copy)]
pub struct ReportRequest<'a> {
    /// The most pieces that a motion is cut into, at least 1.
    pub cuts: u16,
    /// Whether every command that isn't cleared is reported, and not only the first.
    pub all: bool,
    /// The form in which the report is written.
    pub form: Form,
    /// The origins that replace those of the machine file, which the report names.
    pub origins: Origins,
    /// What the machine file and the tool table say besides the machine and its tools.
    pub figures: FileFigures<'a>,
    /// The most cells that a block of material is divided into, at most 4,000,000.
    pub cells: u32,
    ghost some_cuts: { 1 ≤ cuts },
}
