//! How warnings about a program are written.
ghost use Rattle.std.specs.Prelude.{OnOk, OnErr};
ghost use Rattle.std.specs.Io.KnownBytes.{Appends};
ghost use Rattle.ngc_text.specs.Failures.{CountsFailure};
ghost use Rattle.ngc_text.specs.Written.{AppendsPrefix};
ghost use Rattle.ngc_machine_files.specs.Machine.{file_of};
ghost use Rattle.ngc_sentences.specs.Saying.{Says};
ghost use Rattle.ngc_findings.specs.Warnings.{warned, traverse_lines, motion_lines, warning_lines};
ghost use Rattle.ngc_report.specs.Forms.{report_text};

use crate::form::Form;
use crate::report::say_lines;
use ngc_commands::Command;
use ngc_file_figures::AxisFigures;
use ngc_findings::{Concern, Line, warning_about};
use ngc_machine_files::Machine;
use ngc_sentences::Page;
use ngc_text::{Sink, WriteFault};
use std::alloc::Allocator;

fn say_warned<A: Allocator, W: Sink>(
    form: Form,
    machine: &Machine<A>,
    concern: Concern,
    commands: &[Command],
    page: &mut Page,
    output: &mut W,
)
    ensures { Says (W.written output.old) (W.written output.new)
        (W.failures output.old) (W.failures output.new) page.old page.new
        (report_text form
        (warned (file_of machine.now) concern commands.now)) }
{
    if let Some(warning) = warning_about(machine, concern, commands) {
        say_lines(form, &[Line::Warned(warning)], page, output);
    }
}

fn say_traverse_warnings<A: Allocator, W: Sink>(
    form: Form,
    machine: &Machine<A>,
    commands: &[Command],
    page: &mut Page,
    output: &mut W,
)
    ensures { Says (W.written output.old) (W.written output.new)
        (W.failures output.old) (W.failures output.new) page.old page.new
        (report_text form (traverse_lines (file_of machine.now) commands.now)) }
{
    say_warned(form, machine, Concern::LowHome, commands, page, output);
    say_warned(form, machine, Concern::LowAcross, commands, page, output);
}

fn say_motion_warnings<A: Allocator, W: Sink>(
    form: Form,
    machine: &Machine<A>,
    speeds: Option<AxisFigures>,
    commands: &[Command],
    page: &mut Page,
    output: &mut W,
)
    ensures { Says (W.written output.old) (W.written output.new)
        (W.failures output.old) (W.failures output.new) page.old page.new
        (report_text form (motion_lines (file_of machine.now) speeds commands.now)) }
{
    say_warned(
        form,
        machine,
        Concern::FastFeed(speeds),
        commands,
        page,
        output,
    );
    say_warned(form, machine, Concern::NearlyFull, commands, page, output);
    say_traverse_warnings(form, machine, commands, page, output);
}

fn say_warnings<A: Allocator, W: Sink>(
    form: Form,
    machine: &Machine<A>,
    speeds: Option<AxisFigures>,
    commands: &[Command],
    page: &mut Page,
    output: &mut W,
)
    ensures { Says (W.written output.old) (W.written output.new)
        (W.failures output.old) (W.failures output.new) page.old page.new
        (report_text form (warning_lines (file_of machine.now) speeds commands.now)) }
{
    say_warned(form, machine, Concern::NoTool, commands, page, output);
    say_warned(form, machine, Concern::IdleSpindle, commands, page, output);
    say_motion_warnings(form, machine, speeds, commands, page, output);
}

/// Writes the warnings about a program. They are: motions without a tool that leave the height of
/// the start, feeds with a tool while the spindle is off or at speed 0, feeds above the machine's
/// greatest speed along an axis, arcs of more than 359 degrees whose ends lie less than 0.01 mm
/// apart, traverses home along X or Y below the top of a fixture, and traverses along X or Y inside
/// the area of the feeds, lower than the last feeds began. Feeds are compared with these speeds of the
/// axes, in nanometres per minute, or with the machine's rates if there are none.
///
/// Each kind that occurs has a line with the number of its commands, and the line of the program,
/// from 1, that has the first. A program without mistakes has no line.
///
/// The function allocates no memory. After a fault (902, only if the sink failed) a prefix of the
/// text is written.
pub fn write_warnings<A: Allocator, W: Sink>(
    form: Form,
    machine: &Machine<A>,
    speeds: Option<AxisFigures>,
    commands: &[Command],
    sink: &mut W,
) -> Result<(), WriteFault>
    ensures ok { OnOk result
        (Appends (W.written sink.old) (W.written sink.new)
        (report_text form (warning_lines (file_of machine.now) speeds commands.now))) }
    ensures fault { OnErr result
        (AppendsPrefix (W.written sink.old) (W.written sink.new)
        (report_text form (warning_lines (file_of machine.now) speeds commands.now))) }
    ensures counts { CountsFailure (W.failures sink.old) (W.failures sink.new) result }
{
    let mut page = Page::new();
    say_warnings(form, machine, speeds, commands, &mut page, sink);
    page.finish(sink)
}
