//! Reports of all commands that are refused.
ghost use Rattle.std.specs.Prelude.{◌≡◌, None};
ghost use Rattle.ngc_machine_files.specs.Machine.{file_of};
ghost use Rattle.ngc_sentences.specs.Saying.{Says};
ghost use Rattle.ngc_text.specs.Failures.{CountsFailure};
ghost use Rattle.ngc_report.specs.Forms.{report_text};
ghost use Rattle.ngc_report.specs.Reports.{Prints, refusals_head, scene_lines, start_lines_if};
ghost use Rattle.ngc_report.specs.Reports.{reported_extent, verdict_line};
ghost use Rattle.ngc_findings.specs.Scenes.{StandsAfter, scene_at};

use crate::form::Form;
use crate::report::{alongs, fit_line, say_lines, say_scene, say_start_point};
use ngc_commands::Command;
use ngc_findings::{Line, Standing, extent, extent_in_travel};
use ngc_fixed_length::GridBox;
use ngc_machine_files::Machine;
use ngc_sentences::Page;
use ngc_text::{Chunk, Sink, WriteFault};
use std::alloc::Allocator;

fn say_start_if<A: Allocator, W: Sink>(
    form: Form,
    machine: &Machine<A>,
    start: bool,
    page: &mut Page,
    output: &mut W,
)
    ensures { Says (W.written output.old) (W.written output.new)
        (W.failures output.old) (W.failures output.new) page.old page.new
        (report_text form (start_lines_if (file_of machine.now) start)) }
{
    if start {
        say_start_point(form, machine, None, page, output);
    }
}

fn verdict<A: Allocator>(
    machine: &Machine<A>,
    commands: &[Command],
    start: bool,
    indices: &[u32],
) -> Line
    ensures { result ≡ verdict_line (file_of machine.now) commands.now start indices.now }
{
    if start || !indices.is_empty() {
        Line::Refused
    } else {
        fit_line(machine, commands)
    }
}

fn reported_extent<A: Allocator>(
    machine: &Machine<A>,
    commands: &[Command],
    start: bool,
    indices: &[u32],
) -> GridBox
    ensures { result ≡ reported_extent (file_of machine.now) commands.now start indices.now }
{
    if start || !indices.is_empty() {
        extent(machine, commands)
    } else {
        extent_in_travel(machine, commands)
    }
}

fn say_head<A: Allocator, W: Sink>(
    form: Form,
    machine: &Machine<A>,
    commands: &[Command],
    start: bool,
    indices: &[u32],
    page: &mut Page,
    output: &mut W,
)
    ensures { Says (W.written output.old) (W.written output.new)
        (W.failures output.old) (W.failures output.new) page.old page.new
        (report_text form
        (refusals_head (file_of machine.now) commands.now start indices.now)) }
{
    let line = verdict(machine, commands, start, indices);
    say_lines(form, &[line], page, output);
    let sides = alongs(machine, &reported_extent(machine, commands, start, indices));
    say_lines(form, &sides, page, output);
    say_start_if(form, machine, start, page, output);
}

/// Adds the head of the report of a program whose commands at these indices, from 0, are refused,
/// and the start, if it is: the verdict, the extent along each axis, and the obstacle of the start.
/// Without indices the program fits.
///
/// After a fault (902, only if the sink failed) a prefix of the text is written.
pub fn collect_refusals_head<A: Allocator, W: Sink>(
    chunk: &mut Chunk,
    form: Form,
    machine: &Machine<A>,
    commands: &[Command],
    start: bool,
    indices: &[u32],
    sink: &mut W,
) -> Result<(), WriteFault>
    ensures told { Prints form (W.written sink.old) (W.written sink.new) chunk.old chunk.new result
        (refusals_head (file_of machine.now) commands.now start indices.now) }
    ensures counts { CountsFailure (W.failures sink.old) (W.failures sink.new) result }
{
    match chunk.write_out(sink) {
        Ok(()) => {}
        Err(fault) => return Err(fault),
    }
    let mut page = Page::new();
    say_head(form, machine, commands, start, indices, &mut page, sink);
    page.finish(sink)
}

/// Adds the report of a refused command, by its index from 0: what it does, its obstacle, and how
/// far it must move to be clear of that. Nothing is added for a command that neither moves nor
/// changes the tool. The function is fastest if the indices rise from call to call.
///
/// After a fault (902, only if the sink failed) a prefix of the text is written.
pub fn collect_refused_command<A: Allocator, W: Sink>(
    chunk: &mut Chunk,
    form: Form,
    machine: &Machine<A>,
    commands: &[Command],
    standing: &mut Standing,
    command: usize,
    sink: &mut W,
) -> Result<(), WriteFault>
    requires { StandsAfter (file_of machine.now) commands.now standing.old }
    ensures told { Prints form (W.written sink.old) (W.written sink.new) chunk.old chunk.new result
        (scene_lines (file_of machine.now) command None
        (scene_at (file_of machine.now) commands.now command)) }
    ensures stands { StandsAfter (file_of machine.now) commands.now standing.new }
    ensures counts { CountsFailure (W.failures sink.old) (W.failures sink.new) result }
{
    let scene = standing.scene(machine, commands, command);
    match chunk.write_out(sink) {
        Ok(()) => {}
        Err(fault) => return Err(fault),
    }
    let mut page = Page::new();
    say_scene(form, machine, command, None, &scene, &mut page, sink);
    page.finish(sink)
}
