//! How the reports of programs that fit are written.
ghost use Rattle.std.specs.Prelude.{◌≡◌, ◌++◌, true, false};
ghost use Rattle.ngc_canonical.specs.Interpreter.{setup_of};
ghost use Rattle.ngc_machine_files.specs.Machine.{file_of};
ghost use Rattle.ngc_machine_files.specs.Tools.{tools_of};
ghost use Rattle.ngc_report.specs.Forms.{closing};
ghost use Rattle.ngc_lowest_tips.specs.Tips.{lowest_tips};
ghost use Rattle.ngc_program_report.specs.Coordinates.{history_of};
ghost use Rattle.ngc_dialect_note_texts.specs.Texts.{notes_text};
ghost use Rattle.ngc_length_warnings.specs.Spelling.{length_warnings};
ghost use Rattle.ngc_program_report.specs.Reported.{noted_by, notes_at, reported};
ghost use Rattle.ngc_margins.specs.Lines.{kept_by};
ghost use Rattle.ngc_program_report.specs.Texts.{accepted_text, duration_text, findings, front_text, idle_line};
ghost use Rattle.ngc_program_report.specs.Texts.{idle_text, is_on, language_warnings, remarks};
ghost use Rattle.ngc_program_report.specs.Texts.{setting_text, shop_text, system_warnings, takes_line};
ghost use Rattle.ngc_program_report.specs.Texts.{tool_figures};
ghost use Rattle.ngc_program_report.specs.Texts.{warnings};
ghost use Rattle.ngc_program_report.specs.Times.{uses_text};
ghost use Rattle.ngc_stock_report.specs.Texts.{material_text};
ghost use Rattle.ngc_program_report.specs.Writing.{Writes};

use crate::program_time::ProgramTime;
use crate::report_frame::{closing, write_heading};
use crate::report_time::say_takes_line;
use crate::reported::{OtherText, ReportedText, figures_of, limits_in, speeds_in};
use crate::subject::{Execution, Fit, Heading, Subject};
use crate::use_times::say_use_times;
use ngc_certificate::Setting;
use ngc_certificate_text::MotionList;
use ngc_checker::Accepted;
use ngc_commands::Command;
use ngc_dialect_note_texts::write_notes;
use ngc_dialect_notes::Notes;
use ngc_length_warnings::{write_box_warnings, write_length_warnings};
use ngc_limit_warnings::write_limit_warnings;
use ngc_lowest_tips::{LowestTip, write_lowest_tips};
use ngc_machine_files::Tools;
use ngc_origin_warnings::write_origin_warnings;
use ngc_origins::Origins;
use ngc_report::{Form, write_fit, write_warnings};
use ngc_sentences::Page;
use ngc_setup_sheet::{write_warning_facts, write_warnings as write_shop_warnings};
use ngc_stock_report::{write_caution, write_material};
use ngc_text::{Sink, WriteFault, write_all};
use ngc_tool_figures::write_tool_figures;
use ngc_tool_warnings::write_tool_warnings;
use ngc_word_warnings::write_word_warnings;
use std::alloc::Allocator;

// Writes the time of a program, and the time with each tool.
fn write_times<A: Allocator, W: Sink>(
    form: Form,
    commands: &[Command],
    time: &ProgramTime<A>,
    output: &mut W,
) -> Result<(), WriteFault>
    ensures { Writes (W.written output.old) (W.written output.new) (W.failures output.old)
        (W.failures output.new) result
        (takes_line form time.now.whole ++ uses_text form commands.now time.now) }
{
    let mut page = Page::new();
    say_takes_line(form, &time.whole, &mut page, output);
    say_use_times(form, commands, time, &mut page, output);
    page.finish(output)
}

// Writes the figures of each tool that feeds.
fn write_figures<A: Allocator, W: Sink>(
    form: Form,
    tools: &Tools<A>,
    commands: &[Command],
    time: &ProgramTime<A>,
    output: &mut W,
) -> Result<(), WriteFault>
    ensures { Writes (W.written output.old) (W.written output.new) (W.failures output.old)
        (W.failures output.new) result
        (tool_figures form (tools_of tools.now) commands.now time.now) }
{
    let per_second = time.whole.ticks_per_second;
    let parts = time.parts.as_slice();
    write_tool_figures(form, per_second, tools.tools(), commands, parts, output)
}

// Writes the time of a program, the time with each tool, and the figures of each tool.
fn write_duration<A: Allocator, W: Sink>(
    form: Form,
    tools: &Tools<A>,
    commands: &[Command],
    time: &ProgramTime<A>,
    output: &mut W,
) -> Result<(), WriteFault>
    ensures { Writes (W.written output.old) (W.written output.new) (W.failures output.old)
        (W.failures output.new) result
        (duration_text form (tools_of tools.now) commands.now time.now) }
{
    write_times(form, commands, time, output)?;
    write_figures(form, tools, commands, time, output)
}

// Returns whether block delete removes lines at a setting.
pub(crate) fn is_on(setting: Setting) -> bool
    ensures { result ≡ is_on setting }
{
    match setting {
        Setting::Off => false,
        Setting::On => true,
    }
}

// Returns the notes on a program for another control at a setting of block delete.
fn notes_at<'a>(other: &'a OtherText<'_>, deletes: bool) -> &'a Notes
    ensures { result.now ≡ notes_at deletes (noted_by other.now) }
{
    if deletes { &other.on } else { &other.off }
}

fn idle_line(form: Form) -> &'static [u8]
    ensures { result.now ≡ idle_line form }
{
    match form {
        Form::Words => b"warning: the program does nothing: it has no command before its end.\n",
        Form::Json => {
            b",\n{\"fact\":\"warning\",\"text\":\"the program does nothing: it has no command before its end\"}"
        }
    }
}

// Returns the warning of a program that has no command before its end, or nothing.
fn idle_text(form: Form, commands: &[Command]) -> &'static [u8]
    ensures { result.now ≡ idle_text form commands.now }
{
    if commands.len() <= 1 {
        idle_line(form)
    } else {
        b""
    }
}

// Writes the warnings of a program for another control, at a setting of block delete: that it does
// nothing, and those for the length offsets that it sets. The notes on its lines follow.
fn write_other_words<A: Allocator, W: Sink>(
    subject: &Subject<A>,
    other: &OtherText<'_>,
    deletes: bool,
    execution: &Execution<A>,
    output: &mut W,
) -> Result<(), WriteFault>
    ensures { Writes (W.written output.old) (W.written output.new) (W.failures output.old)
        (W.failures output.new) result
        (idle_text subject.now.form execution.now.commands.now
        ++ (length_warnings subject.now.form (file_of subject.now.machine.now)
        execution.now.history.now.start execution.now.history.now.changes.items
        execution.now.commands.now
        ++ notes_text subject.now.form (notes_at deletes (noted_by other.now)))) }
{
    let (form, machine, commands) = (subject.form, subject.machine, execution.commands);
    write_all(output, idle_text(form, commands))?;
    write_length_warnings(form, machine, execution.history, commands, output)?;
    write_notes(form, notes_at(other, deletes), output)
}

// Writes the warnings for the words of a program's lines, at a setting of block delete; if the program is
// for another control, that it does nothing, those for the length offsets, and the notes on its lines.
fn write_words<A: Allocator, W: Sink>(
    subject: &Subject<A>,
    deletes: bool,
    execution: &Execution<A>,
    output: &mut W,
) -> Result<(), WriteFault>
    ensures { Writes (W.written output.old) (W.written output.new) (W.failures output.old)
        (W.failures output.new) result
        (language_warnings subject.now.form deletes
        (setup_of subject.now.machine.now subject.now.tools.now)
        (history_of execution.now.history.now.start execution.now.history.now.changes.items)
        execution.now.commands.now (reported subject.now.text.now).examined
        (reported subject.now.text.now).notes) }
{
    let (form, machine, table) = (subject.form, subject.machine, subject.tools.tools());
    let commands = execution.commands;
    match subject.text {
        ReportedText::Own(program, _) => {
            write_word_warnings(form, deletes, program, machine, table, commands, output)
        }
        ReportedText::Other(other) => {
            write_other_words(subject, other, deletes, execution, output)
        }
    }
}

// Writes the warnings for the coordinate systems of a program: of boxes that count from one in which it
// cuts without a tool length offset, and of the origins from which it moves.
fn write_system_warnings<A: Allocator, W: Sink>(
    subject: &Subject<A>,
    execution: &Execution<A>,
    output: &mut W,
) -> Result<(), WriteFault>
    ensures { Writes (W.written output.old) (W.written output.new) (W.failures output.old)
        (W.failures output.new) result
        (system_warnings subject.now.form (setup_of subject.now.machine.now subject.now.tools.now)
        (history_of execution.now.history.now.start execution.now.history.now.changes.items)
        execution.now.commands.now) }
{
    let (form, machine, table) = (subject.form, subject.machine, subject.tools.tools());
    let (history, commands) = (execution.history, execution.commands);
    write_box_warnings(form, machine, history, commands, output)?;
    write_origin_warnings(form, machine, table, history, commands, output)
}

// Writes the warnings at a setting.
pub(crate) fn write_setting_warnings<A: Allocator, W: Sink>(
    subject: &Subject<A>,
    setting: Setting,
    execution: &Execution<A>,
    output: &mut W,
) -> Result<(), WriteFault>
    ensures { Writes (W.written output.old) (W.written output.new) (W.failures output.old)
        (W.failures output.new) result
        (warnings subject.now.form setting
        (setup_of subject.now.machine.now subject.now.tools.now)
        (history_of execution.now.history.now.start execution.now.history.now.changes.items)
        execution.now.commands.now (reported subject.now.text.now)) }
{
    let (form, machine, commands) = (subject.form, subject.machine, execution.commands);
    let speeds = speeds_in(subject.text);
    let limits = limits_in(subject.text);
    write_warnings(form, machine, speeds, commands, output)?;
    write_tool_warnings(form, machine, commands, output)?;
    write_limit_warnings(form, limits, commands, output)?;
    write_words(subject, is_on(setting), execution, output)?;
    write_system_warnings(subject, execution, output)
}

// Writes the lowest heights and the warnings at a setting.
fn write_remarks<A: Allocator, W: Sink>(
    subject: &Subject<A>,
    setting: Setting,
    execution: &Execution<A>,
    tips: &[LowestTip],
    output: &mut W,
) -> Result<(), WriteFault>
    requires tips { tips.now
        ≡ lowest_tips (tools_of subject.now.tools.now) execution.now.history.now.start
        execution.now.history.now.changes.items execution.now.commands.now }
    ensures { Writes (W.written output.old) (W.written output.new) (W.failures output.old)
        (W.failures output.new) result
        (remarks subject.now.form setting
        (setup_of subject.now.machine.now subject.now.tools.now)
        (history_of execution.now.history.now.start execution.now.history.now.changes.items)
        execution.now.commands.now (reported subject.now.text.now)) }
{
    write_lowest_tips(subject.form, tips, output)?;
    write_setting_warnings(subject, setting, execution, output)
}

// Writes which traverses of a setting may touch the material of the machine, and which of its commands
// change a tool in it.
fn write_stock<A: Allocator, W: Sink>(
    subject: &Subject<A>,
    commands: &[Command],
    fit: &Fit<A>,
    output: &mut W,
) -> Result<(), WriteFault>
    ensures { Writes (W.written output.old) (W.written output.new) (W.failures output.old)
        (W.failures output.new) result
        (material_text subject.now.form (file_of subject.now.machine.now)
        (tools_of subject.now.tools.now) commands.now fit.now.material) }
{
    let tools = subject.tools.tools();
    let (form, machine) = (subject.form, subject.machine);
    write_material(form, machine, tools, commands, &fit.material, output)
}

// Writes the heading of a setting, and how many motions may touch the material.
fn write_front<A: Allocator, W: Sink>(
    subject: &Subject<A>,
    heading: Heading,
    fit: &Fit<A>,
    output: &mut W,
) -> Result<(), WriteFault>
    ensures { Writes (W.written output.old) (W.written output.new) (W.failures output.old)
        (W.failures output.new) result
        (front_text subject.now.form subject.now.origins.now (kept_by (file_of subject.now.machine.now))
        heading.first heading.named heading.setting fit.now.material) }
{
    let form = subject.form;
    write_heading(form, subject.origins, subject.machine, heading, output)?;
    write_caution(form, &fit.material, output)
}

// Writes what fits at a setting, the time and the figures of the tools there, the lowest heights,
// the warnings, and which traverses may touch the material.
fn write_setting<A: Allocator, M: MotionList, W: Sink>(
    subject: &Subject<A>,
    heading: Heading,
    commands: &[Command],
    motions: &M,
    fit: &Fit<A>,
    output: &mut W,
) -> Result<(), WriteFault>
    requires tips { fit.now.tips.items
        ≡ lowest_tips (tools_of subject.now.tools.now) fit.now.history.now.start
        fit.now.history.now.changes.items commands.now }
    ensures { Writes (W.written output.old) (W.written output.new) (W.failures output.old)
        (W.failures output.new) result
        (setting_text subject.now.form subject.now.origins.now heading.first heading.named
        heading.setting (setup_of subject.now.machine.now subject.now.tools.now) commands.now
        (M.entries motions.now) (findings fit.now.time fit.now.material)
        (history_of fit.now.history.now.start fit.now.history.now.changes.items)
        (reported subject.now.text.now)) }
{
    let form = subject.form;
    write_front(subject, heading, fit, output)?;
    write_fit(form, subject.machine, commands, motions, output)?;
    write_duration(form, subject.tools, commands, &fit.time, output)?;
    let history = fit.history;
    let execution = Execution { commands, history };
    write_remarks(
        subject,
        heading.setting,
        &execution,
        fit.tips.as_slice(),
        output,
    )?;
    write_stock(subject, commands, fit, output)
}

// Writes the warnings about the machine and its tools.
pub(crate) fn write_shop<A: Allocator, W: Sink>(
    subject: &Subject<A>,
    output: &mut W,
) -> Result<(), WriteFault>
    ensures { Writes (W.written output.old) (W.written output.new) (W.failures output.old)
        (W.failures output.new) result
        (shop_text subject.now.form (setup_of subject.now.machine.now subject.now.tools.now)
        (reported subject.now.text.now).figures) }
{
    let figures = figures_of(subject.text);
    let tools = subject.tools.tools();
    match subject.form {
        Form::Words => write_shop_warnings(subject.machine, &figures, tools, output),
        Form::Json => write_warning_facts(subject.machine, &figures, tools, output),
    }
}

// Writes the warnings about the machine and its tools, and the end of a report of a program that
// fits.
fn write_fit_end<A: Allocator, W: Sink>(
    subject: &Subject<A>,
    output: &mut W,
) -> Result<(), WriteFault>
    ensures { Writes (W.written output.old) (W.written output.new) (W.failures output.old)
        (W.failures output.new) result
        (shop_text subject.now.form (setup_of subject.now.machine.now subject.now.tools.now)
        (reported subject.now.text.now).figures
        ++ closing subject.now.form) }
{
    write_shop(subject, output)?;
    write_all(output, closing(subject.form))
}

// Writes what fits at both settings, which have the same commands.
pub(crate) fn write_once<A: Allocator, M: MotionList, W: Sink>(
    form: Form,
    origins: &Origins,
    text: &ReportedText<'_, A>,
    accepted: &Accepted<A>,
    motions: &M,
    fit: &Fit<A>,
    output: &mut W,
) -> Result<(), WriteFault>
    requires tips { fit.now.tips.items
        ≡ lowest_tips accepted.now.tools fit.now.history.now.start
        fit.now.history.now.changes.items accepted.now.off }
    ensures { Writes (W.written output.old) (W.written output.new) (W.failures output.old)
        (W.failures output.new) result
        (accepted_text form origins.now false accepted.now
        (record { off = M.entries motions.now; on = M.entries motions.now })
        (findings fit.now.time fit.now.material) (findings fit.now.time fit.now.material)
        (history_of fit.now.history.now.start fit.now.history.now.changes.items)
        (history_of fit.now.history.now.start fit.now.history.now.changes.items)
        (reported text.now)) }
{
    let (machine, tools) = (accepted.machine(), accepted.tools());
    let subject = Subject {
        form,
        origins,
        text,
        machine,
        tools,
    };
    let heading = Heading {
        first: true,
        named: false,
        setting: Setting::Off,
    };
    write_setting(
        &subject,
        heading,
        accepted.commands(false),
        motions,
        fit,
        output,
    )?;
    write_fit_end(&subject, output)
}

// Writes what fits at each setting.
pub(crate) fn write_both<A: Allocator, M: MotionList, W: Sink>(
    form: Form,
    origins: &Origins,
    text: &ReportedText<'_, A>,
    accepted: &Accepted<A>,
    off_motions: &M,
    off: &Fit<A>,
    on_motions: &M,
    on: &Fit<A>,
    output: &mut W,
) -> Result<(), WriteFault>
    requires off_tips { off.now.tips.items
        ≡ lowest_tips accepted.now.tools off.now.history.now.start
        off.now.history.now.changes.items accepted.now.off }
    requires on_tips { on.now.tips.items
        ≡ lowest_tips accepted.now.tools on.now.history.now.start
        on.now.history.now.changes.items accepted.now.on }
    ensures { Writes (W.written output.old) (W.written output.new) (W.failures output.old)
        (W.failures output.new) result
        (accepted_text form origins.now true accepted.now
        (record { off = M.entries off_motions.now; on = M.entries on_motions.now })
        (findings off.now.time off.now.material) (findings on.now.time on.now.material)
        (history_of off.now.history.now.start off.now.history.now.changes.items)
        (history_of on.now.history.now.start on.now.history.now.changes.items)
        (reported text.now)) }
{
    let (machine, tools) = (accepted.machine(), accepted.tools());
    let subject = Subject {
        form,
        origins,
        text,
        machine,
        tools,
    };
    let heading = Heading {
        first: true,
        named: true,
        setting: Setting::Off,
    };
    write_setting(
        &subject,
        heading,
        accepted.commands(false),
        off_motions,
        off,
        output,
    )?;
    let heading = Heading {
        first: false,
        named: true,
        setting: Setting::On,
    };
    write_setting(
        &subject,
        heading,
        accepted.commands(true),
        on_motions,
        on,
        output,
    )?;
    write_fit_end(&subject, output)
}
