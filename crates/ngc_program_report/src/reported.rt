ghost use Rattle.std.specs.Prelude.{◌≡◌};
ghost use Rattle.ngc_file_figures.specs.Files.{speeds_of, values_of};
ghost use Rattle.ngc_program_report.specs.Reported.{reported};

use ngc_dialect_notes::Notes;
use ngc_file_figures::{AxisFigures, FileFigures, ToolLimits, speeds_of};
use ngc_line_reader::Program;
use std::alloc::Allocator;

/// The text of a program for another control, with the notes on it at each setting of block delete, and
/// what the machine file and the tool table say besides the machine and its tools.
#[derive(Clone, Copy)]
pub struct OtherText<'a> {
    pub text: &'a [u8],
    pub figures: FileFigures<'a>,
    pub off: Notes,
    pub on: Notes,
}

/// The text of a program that is reported, and what the machine file and the tool table say besides the
/// machine and its tools.
#[derive(Drop)]
pub enum ReportedText<'a, A: Allocator> {
    /// A program in our own language: its lines are quoted, and their words examined.
    Own(&'a Program<A>, FileFigures<'a>),
    /// The text of a program for another control. Its lines are quoted, by their numbers from 1. Their
    /// words aren't examined, since they have other meanings; the length offsets that they set are,
    /// and the notes are written.
    Other(&'a OtherText<'a>),
}

// Returns what the two files say besides the machine and its tools.
pub(crate) fn figures_of<'a, A: Allocator>(text: &ReportedText<'a, A>) -> FileFigures<'a>
    ensures { values_of result ≡ (reported text.now).figures }
{
    match text {
        ReportedText::Own(_, figures) => *figures,
        ReportedText::Other(other) => other.figures,
    }
}

// Returns the speeds of the axes as they are written.
pub(crate) fn speeds_in<A: Allocator>(text: &ReportedText<'_, A>) -> Option<AxisFigures>
    ensures { result ≡ speeds_of (reported text.now).figures.machine }
{
    speeds_of(&figures_of(text).machine)
}

// Returns the limits of the tools.
pub(crate) fn limits_in<'a, A: Allocator>(text: &ReportedText<'a, A>) -> &'a [ToolLimits]
    ensures { result.now ≡ (reported text.now).figures.tools }
{
    figures_of(text).tools
}
