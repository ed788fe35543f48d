//! The length offset in force, as far as the words of a program's lines say.
ghost use Rattle.std.specs.Prelude.{◌≡◌, find};
ghost use Rattle.ngc_line_reader.specs.ScanLine.{parts_of};
ghost use Rattle.ngc_word_warnings.specs.Offsets.{applied, has_number, is_apart, is_applied, is_of_other};
ghost use Rattle.ngc_word_warnings.specs.Offsets.{is_other};
ghost use Rattle.ngc_word_warnings.specs.Offsets.{offset_after, offset_of};

use crate::said::{has_code, number_after};
use ngc_line_reader::{Letter, Line};
use ngc_machine_files::Tool;

/// The length offset in force.
#[derive(Clone, Copy)]
pub enum Offset {
    /// None is in force: before any G43, after G49, or after G43 H0.
    Off,
    /// That of the tool with this number, in millionths. It was mounted when G43 applied the offset,
    /// or no tool was.
    Of(i64),
    /// Another: G43 had an H with brackets or a parameter, or with the number of a tool that wasn't
    /// the mounted one.
    Other,
}

/// Returns whether a number, in millionths, is neither that of a tool nor 0.
pub(crate) fn is_other(tool: &Tool, number: i64) -> bool
    ensures { result ≡ is_other tool.now number }
{
    0 < number && number != i64::from(tool.number) * 1_000_000
}

fn is_of_other(mounted: &Option<Tool>, number: i64) -> bool
    ensures { result ≡ is_of_other mounted.now number }
{
    match mounted {
        Some(tool) => is_other(tool, number),
        None => false,
    }
}

fn applied(mounted: &Option<Tool>, number: Option<i64>) -> Offset
    ensures { result ≡ applied mounted.now number }
{
    match number {
        None => Offset::Other,
        Some(number) if number == 0 => Offset::Off,
        Some(number) if is_of_other(mounted, number) => Offset::Other,
        Some(number) => Offset::Of(number),
    }
}

impl Offset {
    /// Returns whether an offset is in force.
    pub(crate) fn is_applied(&self) -> bool
        ensures { result ≡ is_applied self.now }
    {
        match self {
            Offset::Off => false,
            Offset::Of(_) | Offset::Other => true,
        }
    }

    /// Returns the offset after a line after which this tool is mounted.
    pub(crate) fn after(&self, mounted: &Option<Tool>, line: &Line) -> Offset
        ensures { result ≡ offset_after mounted.now self.now (parts_of line.now) }
    {
        if has_code(line, Letter::G, 43_000_000) {
            applied(mounted, number_after(line, Letter::H))
        } else if has_code(line, Letter::G, 49_000_000) {
            Offset::Off
        } else {
            *self
        }
    }
}

fn has_number(number: i64, tool: &Tool) -> bool
    ensures { result ≡ has_number number tool.now }
{
    number == i64::from(tool.number) * 1_000_000
}

fn tool_with(tools: &[Tool], number: i64) -> Option<Tool>
    ensures { result ≡ find (has_number number) tools.now }
{
    tools.iter().find(|tool| has_number(number, tool)).copied()
}

/// Returns whether the offset of the tool with this number, in millionths, differs from that of
/// another tool by 10 nm or more.
pub(crate) fn is_apart(tools: &[Tool], number: i64, tool: &Tool) -> bool
    ensures { result ≡ is_apart (offset_of tools.now number) tool.now }
{
    match tool_with(tools, number) {
        Some(other) => other.offset.nanometres().abs_diff(tool.offset.nanometres()) >= 10,
        None => false,
    }
}
