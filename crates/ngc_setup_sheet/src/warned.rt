//! The warnings of a sheet on their own.
ghost use Rattle.std.specs.Prelude.{flat_map, OnOk, OnErr};
ghost use Rattle.std.specs.Io.KnownBytes.{Appends};
ghost use Rattle.ngc_text.specs.Failures.{CountsFailure};
ghost use Rattle.ngc_text.specs.Written.{AppendsPrefix};
ghost use Rattle.ngc_file_figures.specs.Files.{values_of};
ghost use Rattle.ngc_machine_files.specs.Machine.{file_of};
ghost use Rattle.ngc_sentences.specs.Saying.{Says};
ghost use Rattle.ngc_setup_sheet.specs.Reaches.{IsReach};
ghost use Rattle.ngc_setup_sheet.specs.Sheets.{fixtures_from, tool_lines, table_lines, sheet};
ghost use Rattle.ngc_setup_sheet.specs.Sheets.{warnings_text};
ghost use Rattle.ngc_setup_sheet.specs.Sheets.{warning_facts, warning_remarks};
ghost use Rattle.ngc_setup_sheet.specs.Spelling.{lines_text};
ghost use Rattle.ngc_setup_sheet.specs.Writes.{chosen};

use crate::lines::{fixture_lines, lines_after_tools, machine_lines, tool_lines};
use crate::reach::Reach;
use crate::warnings::are_unset;
use crate::writer::{Style, say_warning_lines};
use ngc_file_figures::{FileFigures, MachineFigures, ToolLimits};
use ngc_machine_files::{Machine, Tool};
use ngc_sentences::Page;
use ngc_text::{Sink, WriteFault};
use std::alloc::Allocator;

fn warn_of_fixtures<A: Allocator, W: Sink>(
    style: Style,
    machine: &Machine<A>,
    written: &Option<MachineFigures>,
    reach: &Reach,
    page: &mut Page,
    output: &mut W,
)
    requires { IsReach reach.now }
    ensures { Says (W.written output.old) (W.written output.new)
        (W.failures output.old) (W.failures output.new) page.old page.new
        (lines_text (chosen style
        (fixtures_from (file_of machine.now) written.now reach.now 0
        (file_of machine.now).fixtures))) }
{
    for (i, fixture) in machine.fixtures.as_slice().iter().enumerate() {
        let lines = fixture_lines(machine, written, reach, i, fixture);
        say_warning_lines(style, lines.as_slice(), page, output);
    }
}

fn warn_of_tools<W: Sink>(
    style: Style,
    unset: bool,
    table: &[ToolLimits],
    tools: &[Tool],
    page: &mut Page,
    output: &mut W,
)
    ensures { Says (W.written output.old) (W.written output.new)
        (W.failures output.old) (W.failures output.new) page.old page.new
        (lines_text (chosen style (flat_map (tool_lines unset table.now) tools.now))) }
{
    for tool in tools {
        let lines = tool_lines(unset, table, tool);
        say_warning_lines(style, lines.as_slice(), page, output);
    }
}

fn warn_of_table<W: Sink>(
    style: Style,
    table: &[ToolLimits],
    tools: &[Tool],
    page: &mut Page,
    output: &mut W,
)
    ensures { Says (W.written output.old) (W.written output.new)
        (W.failures output.old) (W.failures output.new) page.old page.new
        (lines_text (chosen style (table_lines table.now tools.now))) }
{
    let unset = are_unset(tools);
    warn_of_tools(style, unset, table, tools, page, output);
    let lines = lines_after_tools(unset);
    say_warning_lines(style, lines.as_slice(), page, output);
}

fn warn_of_all<A: Allocator, W: Sink>(
    style: Style,
    machine: &Machine<A>,
    figures: &FileFigures<'_>,
    tools: &[Tool],
    page: &mut Page,
    output: &mut W,
)
    ensures { Says (W.written output.old) (W.written output.new)
        (W.failures output.old) (W.failures output.new) page.old page.new
        (lines_text (chosen style (sheet (file_of machine.now) (values_of figures.now) tools.now))) }
{
    let reach = Reach::of(tools);
    let lines = machine_lines(machine, &figures.machine, &reach);
    say_warning_lines(style, lines.as_slice(), page, output);
    warn_of_fixtures(style, machine, &figures.machine, &reach, page, output);
    warn_of_table(style, figures.tools, tools, page, output);
}

/// Writes only the warnings of the setup sheet of a machine and its tools, in the sheet's order.
/// Each is a line that begins with `warning: `. If nothing looks wrong, nothing is written.
///
/// The function allocates no memory. After a fault (902) a prefix of the text is written, and the
/// sink has counted the failure.
pub fn write_warnings<A: Allocator, W: Sink>(
    machine: &Machine<A>,
    figures: &FileFigures<'_>,
    tools: &[Tool],
    sink: &mut W,
) -> Result<(), WriteFault>
    ensures ok { OnOk result
        (Appends (W.written sink.old) (W.written sink.new)
        (warnings_text (file_of machine.now) (values_of figures.now) tools.now)) }
    ensures fault { OnErr result
        (AppendsPrefix (W.written sink.old) (W.written sink.new)
        (warnings_text (file_of machine.now) (values_of figures.now) tools.now)) }
    ensures counts { CountsFailure (W.failures sink.old) (W.failures sink.new) result }
{
    let mut page = Page::new();
    warn_of_all(Style::Lines, machine, figures, tools, &mut page, sink);
    page.finish(sink)
}

/// Writes the warnings that `write_warnings` writes, in its order, each as an object of a JSON
/// document after a comma and a line feed. If nothing looks wrong, nothing is written.
///
/// An object has the member `fact`, which is `warning`, and then `text`, the warning's words. The
/// objects continue an array that isn't empty. The function allocates no memory. After a fault
/// (902) a prefix of the text is written, and the sink has counted the failure.
pub fn write_warning_facts<A: Allocator, W: Sink>(
    machine: &Machine<A>,
    figures: &FileFigures<'_>,
    tools: &[Tool],
    sink: &mut W,
) -> Result<(), WriteFault>
    ensures ok { OnOk result
        (Appends (W.written sink.old) (W.written sink.new)
        (warning_facts (file_of machine.now) (values_of figures.now) tools.now)) }
    ensures fault { OnErr result
        (AppendsPrefix (W.written sink.old) (W.written sink.new)
        (warning_facts (file_of machine.now) (values_of figures.now) tools.now)) }
    ensures counts { CountsFailure (W.failures sink.old) (W.failures sink.new) result }
{
    let mut page = Page::new();
    warn_of_all(Style::Facts, machine, figures, tools, &mut page, sink);
    page.finish(sink)
}

/// Writes the warnings that `write_warnings` writes, in its order, each as a comment of a TOML
/// document on its own line, which begins with `# Warning: `. If nothing looks wrong, nothing is
/// written.
///
/// The function allocates no memory. After a fault (902) a prefix of the text is written, and the
/// sink has counted the failure.
pub fn write_warning_remarks<A: Allocator, W: Sink>(
    machine: &Machine<A>,
    figures: &FileFigures<'_>,
    tools: &[Tool],
    sink: &mut W,
) -> Result<(), WriteFault>
    ensures ok { OnOk result
        (Appends (W.written sink.old) (W.written sink.new)
        (warning_remarks (file_of machine.now) (values_of figures.now) tools.now)) }
    ensures fault { OnErr result
        (AppendsPrefix (W.written sink.old) (W.written sink.new)
        (warning_remarks (file_of machine.now) (values_of figures.now) tools.now)) }
    ensures counts { CountsFailure (W.failures sink.old) (W.failures sink.new) result }
{
    let mut page = Page::new();
    warn_of_all(Style::Remarks, machine, figures, tools, &mut page, sink);
    page.finish(sink)
}
