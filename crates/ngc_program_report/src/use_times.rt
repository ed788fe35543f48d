//! The time of a program with each tool, as a report states it.
ghost use Rattle.std.specs.Prelude.{◌≡◌};
ghost use Rattle.ngc_report.specs.Words.{tool_text};
ghost use Rattle.ngc_sentences.specs.Parts.{part_text};
ghost use Rattle.ngc_sentences.specs.Saying.{Says};
ghost use Rattle.ngc_program_report.specs.Times.{ticks_counted, tool_value, use_time, uses_text};

use crate::program_time::ProgramTime;
use crate::report_time::{clock_of, seconds_of};
use crate::run_time::RunTime;
use ngc_commands::Command;
use ngc_findings::{ToolUses, moves_first};
use ngc_machine_files::Tool;
use ngc_report::Form;
use ngc_sentences::{Page, Part, say};
use ngc_text::Sink;
use std::alloc::Allocator;

#[tactic(auto, unfolding(ngc_report::specs::Words::tool_text))]
fn tool_name(tool: &Option<Tool>) -> Part<'static>
    ensures { part_text result ≡ tool_text tool.now }
{
    match tool {
        None => Part::Text(b"no tool"),
        Some(tool) => Part::Tool(tool.number),
    }
}

#[tactic(auto, unfolding(crate::specs::Times::tool_value))]
fn tool_number(tool: &Option<Tool>) -> Part<'static>
    ensures { part_text result ≡ tool_value tool.now }
{
    match tool {
        None => Part::Text(b"null"),
        Some(tool) => Part::Number(u128::from(tool.number)),
    }
}

#[tactic(auto, unfolding(crate::specs::Times::use_time))]
fn say_use_time<W: Sink>(
    form: Form,
    tool: &Option<Tool>,
    time: &RunTime,
    page: &mut Page,
    output: &mut W,
)
    ensures { Says (W.written output.old) (W.written output.new)
        (W.failures output.old) (W.failures output.new) page.old page.new
        (use_time form tool.now time.now) }
{
    match form {
        Form::Words =>
            say!(page, output; b"With ", tool_name(tool), b" it takes ", Part::Number(time.ticks), b" ticks, ", clock_of(time), b".\n"),
        Form::Json =>
            say!(page, output; b",\n{\"fact\":\"use_time\",\"tool\":", tool_number(tool), b",\"ticks\":", Part::Number(time.ticks), b",\"seconds\":", seconds_of(time), b"}"),
    }
}

// Returns the ticks of the reported uses.
fn ticks_counted<'a>(commands: &[Command], parts: &'a [u128]) -> &'a [u128]
    ensures { result.now ≡ ticks_counted commands.now parts.now }
{
    if moves_first(commands) {
        return parts;
    }
    match parts.split_first() {
        Some((_, later)) => later,
        None => parts,
    }
}

/// Says the time of a program with each tool, a line for each use.
pub(crate) fn say_use_times<A: Allocator, W: Sink>(
    form: Form,
    commands: &[Command],
    time: &ProgramTime<A>,
    page: &mut Page,
    output: &mut W,
)
    ensures { Says (W.written output.old) (W.written output.new)
        (W.failures output.old) (W.failures output.new) page.old page.new
        (uses_text form commands.now time.now) }
{
    let mut uses = ToolUses::new(commands);
    let mut left = ticks_counted(commands, time.parts.as_slice());
    while let Some(tool) = uses.next_tool() {
        let Some((ticks, later)) = left.split_first() else {
            return;
        };
        let mut lasts = time.whole;
        lasts.ticks = *ticks;
        say_use_time(form, &tool, &lasts, page, output);
        left = later;
    }
}
