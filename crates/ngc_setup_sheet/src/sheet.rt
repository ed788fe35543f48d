//! The whole sheet.
ghost use Rattle.std.specs.Prelude.{flat_map, OnOk, OnErr};
ghost use Rattle.std.specs.Io.KnownBytes.{Appends};
ghost use Rattle.ngc_text.specs.Failures.{CountsFailure};
ghost use Rattle.ngc_text.specs.Written.{AppendsPrefix};
ghost use Rattle.ngc_file_figures.specs.Files.{values_of};
ghost use Rattle.ngc_machine_files.specs.Machine.{file_of};
ghost use Rattle.ngc_sentences.specs.Saying.{Says};
ghost use Rattle.ngc_setup_sheet.specs.Reaches.{IsReach};
ghost use Rattle.ngc_setup_sheet.specs.Sheets.{fixtures_from, tool_lines, table_lines, sheet, sheet_text};
ghost use Rattle.ngc_setup_sheet.specs.Spelling.{lines_text};

use crate::lines::{fixture_lines, lines_after_tools, machine_lines, tool_lines};
use crate::reach::Reach;
use crate::warnings::are_unset;
use crate::writer::say_lines;
use ngc_file_figures::{FileFigures, MachineFigures, ToolLimits};
use ngc_machine_files::{Machine, Tool};
use ngc_sentences::Page;
use ngc_text::{Sink, WriteFault};
use std::alloc::Allocator;

fn say_fixtures<A: Allocator, W: Sink>(
    machine: &Machine<A>,
    written: &Option<MachineFigures>,
    reach: &Reach,
    page: &mut Page,
    output: &mut W,
)
    requires { IsReach reach.now }
    ensures { Says (W.written output.old) (W.written output.new)
        (W.failures output.old) (W.failures output.new) page.old page.new
        (lines_text
        (fixtures_from (file_of machine.now) written.now reach.now 0
        (file_of machine.now).fixtures)) }
{
    for (i, fixture) in machine.fixtures.as_slice().iter().enumerate() {
        let lines = fixture_lines(machine, written, reach, i, fixture);
        say_lines(lines.as_slice(), page, output);
    }
}

fn say_tools<W: Sink>(
    unset: bool,
    table: &[ToolLimits],
    tools: &[Tool],
    page: &mut Page,
    output: &mut W,
)
    ensures { Says (W.written output.old) (W.written output.new)
        (W.failures output.old) (W.failures output.new) page.old page.new
        (lines_text (flat_map (tool_lines unset table.now) tools.now)) }
{
    for tool in tools {
        let lines = tool_lines(unset, table, tool);
        say_lines(lines.as_slice(), page, output);
    }
}

fn say_table<W: Sink>(table: &[ToolLimits], tools: &[Tool], page: &mut Page, output: &mut W)
    ensures { Says (W.written output.old) (W.written output.new)
        (W.failures output.old) (W.failures output.new) page.old page.new
        (lines_text (table_lines table.now tools.now)) }
{
    let unset = are_unset(tools);
    say_tools(unset, table, tools, page, output);
    let lines = lines_after_tools(unset);
    say_lines(lines.as_slice(), page, output);
}

fn say_all<A: Allocator, W: Sink>(
    machine: &Machine<A>,
    figures: &FileFigures<'_>,
    tools: &[Tool],
    page: &mut Page,
    output: &mut W,
)
    ensures { Says (W.written output.old) (W.written output.new)
        (W.failures output.old) (W.failures output.new) page.old page.new
        (lines_text (sheet (file_of machine.now) (values_of figures.now) tools.now)) }
{
    let reach = Reach::of(tools);
    let lines = machine_lines(machine, &figures.machine, &reach);
    say_lines(lines.as_slice(), page, output);
    say_fixtures(machine, &figures.machine, &reach, page, output);
    say_table(figures.tools, tools, page, output);
}

/// Writes the setup sheet of a machine and of its tools, in millimetres, with a warning below each
/// line that looks wrong.
///
/// Fixtures and origins count as out of reach by these tools, or by the spindle nose if there
/// are none. The function allocates no memory. After a fault (902) a prefix of the text is written,
/// and the sink has counted the failure.
pub fn write_sheet<A: Allocator, W: Sink>(
    machine: &Machine<A>,
    figures: &FileFigures<'_>,
    tools: &[Tool],
    sink: &mut W,
) -> Result<(), WriteFault>
    ensures ok { OnOk result
        (Appends (W.written sink.old) (W.written sink.new)
        (sheet_text (file_of machine.now) (values_of figures.now) tools.now)) }
    ensures fault { OnErr result
        (AppendsPrefix (W.written sink.old) (W.written sink.new)
        (sheet_text (file_of machine.now) (values_of figures.now) tools.now)) }
    ensures counts { CountsFailure (W.failures sink.old) (W.failures sink.new) result }
{
    let mut page = Page::new();
    say_all(machine, figures, tools, &mut page, sink);
    page.finish(sink)
}
