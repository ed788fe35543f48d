//! How the reports of programs that don't fit or are refused are written.
ghost use Rattle.std.specs.Prelude.{◌≡◌, ◌++◌, OnOk, OnErr, None, is_some, true, false};
ghost use Rattle.std.specs.Io.KnownBytes.{Appends};
ghost use Rattle.ngc_canonical.specs.Faults.{fault_number};
ghost use Rattle.ngc_canonical.specs.Interpreter.{setup_of};
ghost use Rattle.ngc_certificate.specs.PieceFault.{place_fault};
ghost use Rattle.ngc_certificate_text.specs.Collects.{Collects};
ghost use Rattle.ngc_text.specs.Failures.{CountsFailure};
ghost use Rattle.ngc_text.specs.Written.{AppendsPrefix};
ghost use Rattle.ngc_fixed_length.specs.Grid.{grid};
ghost use Rattle.ngc_line_reader.specs.ProgramView.{text_in};
ghost use Rattle.ngc_machine_files.specs.Machine.{file_of};
ghost use Rattle.ngc_frames.specs.Walks.{WalksOver};
ghost use Rattle.ngc_refused_values.specs.Texts.{value_line};
ghost use Rattle.ngc_report.specs.Marks.{named_line};
ghost use Rattle.ngc_report.specs.Quotes.{quoted};
ghost use Rattle.ngc_findings.specs.Scenes.{StandsAfter};
ghost use Rattle.ngc_program_report.specs.Coordinates.{coordinates_text, history_of};
ghost use Rattle.ngc_program_report.specs.Reported.{reported};
ghost use Rattle.ngc_program_report.specs.Texts.{all_refusals, cause_text, command_refusal};
ghost use Rattle.ngc_program_report.specs.Texts.{command_refusals, ending, first_of, is_on};
ghost use Rattle.ngc_program_report.specs.Texts.{missing_at, missing_if, quoted_if, refusal_end};
ghost use Rattle.ngc_program_report.specs.Texts.{refusal_text, refusals_text, refused_line};
ghost use Rattle.ngc_program_report.specs.Texts.{rejection_text, refused_command, refused_number};
ghost use Rattle.ngc_program_report.specs.Texts.{setting_refusals, shop_text};
ghost use Rattle.ngc_program_report.specs.Writing.{Writes};

use crate::coordinates::{collect_coordinates, refused_path, write_coordinates};
use crate::demanded::write_demanded;
use crate::fit_writer::{is_on, write_setting_warnings, write_shop};
use crate::met::met_at;
use crate::report_frame::{write_early_heading, write_ending, write_heading};
use crate::reported::ReportedText;
use crate::subject::{Execution, Heading, Subject};
use ngc_canonical::Fault;
use ngc_certificate::{Setting, place_fault};
use ngc_commands::{Command, Way};
use ngc_findings::Standing;
use ngc_frames::{FrameInForce, FrameWalk};
use ngc_line_reader::Program;
use ngc_machine_files::Machine;
use ngc_origin_warnings::write_missing_origin;
use ngc_origins::Origins;
use ngc_refused_values::write_values;
use ngc_report::{
    Form, collect_refusals_head, collect_refused_command, write_line, write_named, write_refusal,
    write_text_line,
};
use ngc_text::{Chunk, Sink, WriteFault, write_all};
use std::alloc::Allocator;

// Returns the command that a refusal reports, or `None` if the start point isn't clear.
fn refused_command<A: Allocator>(machine: &Machine<A>, command: u32) -> Option<usize>
    ensures { result ≡ refused_command
        (place_fault (file_of machine.now) None
        (grid (file_of machine.now).step (file_of machine.now).start)) command }
{
    match place_fault(machine, None, &machine.start.to_grid(machine.step)) {
        Some(_) => None,
        None => Some(command as usize),
    }
}

// Returns the program line of the reported command.
fn refused_number(commands: &[Command], told: Option<usize>) -> Option<u32>
    ensures { result ≡ refused_number commands.now told }
{
    match told {
        None => None,
        Some(command) => match commands.get(command) {
            None => None,
            Some(command) => Some(command.line),
        },
    }
}

// Writes a line of a program, by its number.
fn write_quoted<A: Allocator, W: Sink>(
    form: Form,
    text: &ReportedText<'_, A>,
    number: u32,
    output: &mut W,
) -> Result<(), WriteFault>
    ensures { Writes (W.written output.old) (W.written output.new) (W.failures output.old)
        (W.failures output.new) result (quoted form number (reported text.now).quoted) }
{
    match text {
        ReportedText::Own(program, _) => write_line(form, program, number, output),
        ReportedText::Other(other) => write_text_line(form, other.text, number, output),
    }
}

fn write_refused_line<A: Allocator, W: Sink>(
    form: Form,
    text: &ReportedText<'_, A>,
    number: Option<u32>,
    output: &mut W,
) -> Result<(), WriteFault>
    ensures { Writes (W.written output.old) (W.written output.new) (W.failures output.old)
        (W.failures output.new) result (quoted_if form number (reported text.now).quoted) }
{
    match number {
        None => write_all(output, b""),
        Some(number) => write_quoted(form, text, number, output),
    }
}

// Writes the program line of the reported command, and its program coordinates.
fn write_cause_end<A: Allocator, W: Sink>(
    subject: &Subject<A>,
    number: Option<u32>,
    frame: &FrameInForce,
    way: &Option<Way>,
    output: &mut W,
) -> Result<(), WriteFault>
    ensures { Writes (W.written output.old) (W.written output.new) (W.failures output.old)
        (W.failures output.new) result
        (quoted_if subject.now.form number (reported subject.now.text.now).quoted
        ++ coordinates_text subject.now.form subject.now.origins.now frame.now way.now) }
{
    write_refused_line(subject.form, subject.text, number, output)?;
    write_coordinates(subject.form, subject.origins, frame, way, output)
}

// Writes the obstacle of a command, what it lacks of a margin, and its program line.
fn write_cause<A: Allocator, W: Sink>(
    subject: &Subject<A>,
    commands: &[Command],
    told: Option<usize>,
    fixture: Option<u32>,
    frame: &FrameInForce,
    output: &mut W,
) -> Result<(), WriteFault>
    ensures { Writes (W.written output.old) (W.written output.new) (W.failures output.old)
        (W.failures output.new) result
        (cause_text subject.now.form subject.now.origins.now (file_of subject.now.machine.now)
        commands.now told fixture (reported subject.now.text.now) frame.now) }
{
    write_refusal(
        subject.form,
        subject.machine,
        commands,
        told,
        fixture,
        output,
    )?;
    write_demanded(
        subject.form,
        subject.machine,
        commands,
        told,
        fixture,
        output,
    )?;
    let number = refused_number(commands, told);
    let way = refused_path(commands, told);
    write_cause_end(subject, number, frame, &way, output)
}

// Writes that a coordinate system has no origin, if a motion in it leaves the travel.
fn write_missing_if<A: Allocator, W: Sink>(
    subject: &Subject<A>,
    fixture: Option<u32>,
    way: &Option<Way>,
    frame: &FrameInForce,
    output: &mut W,
) -> Result<(), WriteFault>
    ensures { Writes (W.written output.old) (W.written output.new) (W.failures output.old)
        (W.failures output.new) result
        (missing_if subject.now.form subject.now.origins.now (file_of subject.now.machine.now)
        fixture way.now frame.now) }
{
    match (fixture, way) {
        (None, Some(_)) if !subject.origins.replaces(frame.frame.system()) => {
            write_missing_origin(subject.form, subject.machine, frame, output)
        }
        _ => write_all(output, b""),
    }
}

// Writes the same of the reported command.
fn write_missing<A: Allocator, W: Sink>(
    subject: &Subject<A>,
    execution: &Execution<A>,
    told: Option<usize>,
    output: &mut W,
) -> Result<(), WriteFault>
    ensures { Writes (W.written output.old) (W.written output.new) (W.failures output.old)
        (W.failures output.new) result
        (missing_at subject.now.form subject.now.origins.now (file_of subject.now.machine.now)
        execution.now.commands.now
        (history_of execution.now.history.now.start execution.now.history.now.changes.items)
        told) }
{
    match told {
        None => write_all(output, b""),
        Some(command) => {
            let commands = execution.commands;
            let fixture = met_at(subject.machine, commands, command);
            let path = refused_path(commands, Some(command));
            let frame = execution.history.in_force(command);
            write_missing_if(subject, fixture, &path, &frame, output)
        }
    }
}

// Writes the warnings about the machine and its tools, and the end of a report of a program that
// doesn't fit.
fn write_misfit_end<A: Allocator, W: Sink>(
    subject: &Subject<A>,
    output: &mut W,
) -> Result<(), WriteFault>
    ensures { Writes (W.written output.old) (W.written output.new) (W.failures output.old)
        (W.failures output.new) result
        (shop_text subject.now.form (setup_of subject.now.machine.now subject.now.tools.now)
        (reported subject.now.text.now).figures
        ++ ending subject.now.form 304) }
{
    write_shop(subject, output)?;
    write_ending(subject.form, 304, output)
}

// Writes the warnings at a setting, those about the machine and its tools, and the end.
fn write_refusal_end<A: Allocator, W: Sink>(
    subject: &Subject<A>,
    setting: Setting,
    execution: &Execution<A>,
    output: &mut W,
) -> Result<(), WriteFault>
    ensures { Writes (W.written output.old) (W.written output.new) (W.failures output.old)
        (W.failures output.new) result
        (refusal_end subject.now.form setting
        (setup_of subject.now.machine.now subject.now.tools.now)
        (history_of execution.now.history.now.start execution.now.history.now.changes.items)
        execution.now.commands.now (reported subject.now.text.now)) }
{
    write_setting_warnings(subject, setting, execution, output)?;
    write_misfit_end(subject, output)
}

// Writes the obstacle of a command at a setting, and the warnings there.
pub(crate) fn write_refused<A: Allocator, W: Sink>(
    subject: &Subject<A>,
    named: bool,
    setting: Setting,
    execution: &Execution<A>,
    command: u32,
    output: &mut W,
) -> Result<(), WriteFault>
    ensures { Writes (W.written output.old) (W.written output.new) (W.failures output.old)
        (W.failures output.new) result
        (refusal_text subject.now.form subject.now.origins.now named setting
        (setup_of subject.now.machine.now subject.now.tools.now) execution.now.commands.now
        command (reported subject.now.text.now)
        (history_of execution.now.history.now.start execution.now.history.now.changes.items)) }
{
    let heading = Heading {
        first: true,
        named,
        setting,
    };
    write_heading(
        subject.form,
        subject.origins,
        subject.machine,
        heading,
        output,
    )?;
    let told = refused_command(subject.machine, command);
    write_missing(subject, execution, told, output)?;
    let commands = execution.commands;
    let fixture = met_at(subject.machine, commands, command as usize);
    let frame = execution.history.in_force(command as usize);
    write_cause(subject, commands, told, fixture, &frame, output)?;
    write_refusal_end(subject, setting, execution, output)
}

// Returns whether a fixture is met at the start.
pub(crate) fn is_start_refused<A: Allocator>(machine: &Machine<A>) -> bool
    ensures { result ≡ is_some
        (place_fault (file_of machine.now) None
        (grid (file_of machine.now).step (file_of machine.now).start)) }
{
    place_fault(machine, None, &machine.start.to_grid(machine.step)).is_some()
}

// Adds a refused command: its obstacle, and its coordinates in the program.
fn collect_refusal<A: Allocator, W: Sink>(
    chunk: &mut Chunk,
    subject: &Subject<A>,
    execution: &Execution<A>,
    command: usize,
    standing: &mut Standing,
    walk: &mut FrameWalk,
    output: &mut W,
) -> Result<(), WriteFault>
    requires standing { StandsAfter (file_of subject.now.machine.now) execution.now.commands.now
        standing.old }
    requires walk { WalksOver execution.now.history.now.start
        execution.now.history.now.changes.items walk.old }
    ensures text { Collects (W.written output.old) (W.written output.new) chunk.old chunk.new result
        (command_refusal subject.now.form subject.now.origins.now
        (file_of subject.now.machine.now) execution.now.commands.now
        (history_of execution.now.history.now.start execution.now.history.now.changes.items)
        command) }
    ensures standing { StandsAfter (file_of subject.now.machine.now) execution.now.commands.now
        standing.new }
    ensures walk { WalksOver execution.now.history.now.start
        execution.now.history.now.changes.items walk.new }
    ensures counts { CountsFailure (W.failures output.old) (W.failures output.new) result }
{
    let (form, machine, commands) = (subject.form, subject.machine, execution.commands);
    match collect_refused_command(chunk, form, machine, commands, standing, command, output) {
        Ok(()) => {}
        Err(fault) => return Err(fault),
    }
    let frame = walk.in_force(execution.history, command);
    let way = refused_path(commands, Some(command));
    collect_coordinates(chunk, form, subject.origins, &frame, &way, output)
}

// Adds the refused commands in order.
fn collect_refusals<A: Allocator, W: Sink>(
    chunk: &mut Chunk,
    subject: &Subject<A>,
    execution: &Execution<A>,
    indices: &[u32],
    output: &mut W,
) -> Result<(), WriteFault>
    ensures text { Collects (W.written output.old) (W.written output.new) chunk.old chunk.new result
        (command_refusals subject.now.form subject.now.origins.now
        (file_of subject.now.machine.now) execution.now.commands.now
        (history_of execution.now.history.now.start execution.now.history.now.changes.items)
        indices.now) }
    ensures counts { CountsFailure (W.failures output.old) (W.failures output.new) result }
{
    let mut standing = Standing::first(subject.machine, execution.commands);
    let mut walk = FrameWalk::start(execution.history);
    for index in indices {
        match collect_refusal(
            chunk,
            subject,
            execution,
            *index as usize,
            &mut standing,
            &mut walk,
            output,
        ) {
            Ok(()) => {}
            Err(fault) => return Err(fault),
        }
    }
    Ok(())
}

// Adds all obstacles of commands, and that of the start if it has one.
fn collect_all<A: Allocator, W: Sink>(
    chunk: &mut Chunk,
    subject: &Subject<A>,
    execution: &Execution<A>,
    indices: &[u32],
    output: &mut W,
) -> Result<(), WriteFault>
    ensures text { Collects (W.written output.old) (W.written output.new) chunk.old chunk.new result
        (all_refusals subject.now.form subject.now.origins.now (file_of subject.now.machine.now)
        execution.now.commands.now
        (history_of execution.now.history.now.start execution.now.history.now.changes.items)
        indices.now) }
    ensures counts { CountsFailure (W.failures output.old) (W.failures output.new) result }
{
    let (form, machine, commands) = (subject.form, subject.machine, execution.commands);
    let start = is_start_refused(machine);
    match collect_refusals_head(chunk, form, machine, commands, start, indices, output) {
        Ok(()) => {}
        Err(fault) => return Err(fault),
    }
    collect_refusals(chunk, subject, execution, indices, output)
}

fn write_obstacles<A: Allocator, W: Sink>(
    subject: &Subject<A>,
    execution: &Execution<A>,
    indices: &[u32],
    output: &mut W,
) -> Result<(), WriteFault>
    ensures { Writes (W.written output.old) (W.written output.new) (W.failures output.old)
        (W.failures output.new) result
        (all_refusals subject.now.form subject.now.origins.now (file_of subject.now.machine.now)
        execution.now.commands.now
        (history_of execution.now.history.now.start execution.now.history.now.changes.items)
        indices.now) }
{
    let mut chunk = Chunk::new();
    match collect_all(&mut chunk, subject, execution, indices, output) {
        Ok(()) => chunk.write_out(output),
        Err(fault) => Err(fault),
    }
}

// Returns the first of the commands that are refused.
fn first_of(indices: &[u32]) -> Option<usize>
    ensures { result ≡ first_of indices.now }
{
    match indices {
        [] => None,
        [index, ..] => Some(*index as usize),
    }
}

// Writes all obstacles at a setting, and the warnings there.
fn write_setting_refusals<A: Allocator, W: Sink>(
    subject: &Subject<A>,
    heading: Heading,
    execution: &Execution<A>,
    indices: &[u32],
    output: &mut W,
) -> Result<(), WriteFault>
    ensures { Writes (W.written output.old) (W.written output.new) (W.failures output.old)
        (W.failures output.new) result
        (setting_refusals subject.now.form subject.now.origins.now heading.first heading.named
        heading.setting (setup_of subject.now.machine.now subject.now.tools.now)
        execution.now.commands.now
        (history_of execution.now.history.now.start execution.now.history.now.changes.items)
        indices.now (reported subject.now.text.now)) }
{
    write_heading(
        subject.form,
        subject.origins,
        subject.machine,
        heading,
        output,
    )?;
    write_missing(subject, execution, first_of(indices), output)?;
    write_obstacles(subject, execution, indices, output)?;
    write_setting_warnings(subject, heading.setting, execution, output)
}

/// Writes all obstacles at both settings, which have the same commands.
pub(crate) fn write_all_once<A: Allocator, W: Sink>(
    subject: &Subject<A>,
    execution: &Execution<A>,
    indices: &[u32],
    output: &mut W,
) -> Result<(), WriteFault>
    ensures { Writes (W.written output.old) (W.written output.new) (W.failures output.old)
        (W.failures output.new) result
        (refusals_text subject.now.form subject.now.origins.now false
        (setup_of subject.now.machine.now subject.now.tools.now) execution.now.commands.now
        execution.now.commands.now
        (history_of execution.now.history.now.start execution.now.history.now.changes.items)
        (history_of execution.now.history.now.start execution.now.history.now.changes.items)
        indices.now indices.now (reported subject.now.text.now)) }
{
    let heading = Heading {
        first: true,
        named: false,
        setting: Setting::Off,
    };
    write_setting_refusals(subject, heading, execution, indices, output)?;
    write_misfit_end(subject, output)
}

/// Writes all obstacles at each setting.
pub(crate) fn write_all_both<A: Allocator, W: Sink>(
    subject: &Subject<A>,
    off: &Execution<A>,
    off_indices: &[u32],
    on: &Execution<A>,
    on_indices: &[u32],
    output: &mut W,
) -> Result<(), WriteFault>
    ensures { Writes (W.written output.old) (W.written output.new) (W.failures output.old)
        (W.failures output.new) result
        (refusals_text subject.now.form subject.now.origins.now true
        (setup_of subject.now.machine.now subject.now.tools.now) off.now.commands.now
        on.now.commands.now
        (history_of off.now.history.now.start off.now.history.now.changes.items)
        (history_of on.now.history.now.start on.now.history.now.changes.items) off_indices.now
        on_indices.now (reported subject.now.text.now)) }
{
    let heading = Heading {
        first: true,
        named: true,
        setting: Setting::Off,
    };
    write_setting_refusals(subject, heading, off, off_indices, output)?;
    let heading = Heading {
        first: false,
        named: true,
        setting: Setting::On,
    };
    write_setting_refusals(subject, heading, on, on_indices, output)?;
    write_misfit_end(subject, output)
}

/// Returns the line that says that a program is refused.
pub fn refused_line(form: Form) -> &'static [u8]
    ensures { result.now ≡ refused_line form }
{
    match form {
        Form::Words => b"The program is refused.\n",
        Form::Json => b",\n{\"fact\":\"verdict\",\"fits\":false}",
    }
}

// Writes what a fault names in its line, its values, and the end.
fn write_rejection_end<A: Allocator, W: Sink>(
    form: Form,
    program: &Program<A>,
    setting: Setting,
    number: u32,
    fault: &Fault,
    output: &mut W,
) -> Result<(), WriteFault>
    ensures { Writes (W.written output.old) (W.written output.new) (W.failures output.old)
        (W.failures output.new) result
        (named_line form number fault.now (text_in program.now).lines
        ++ (value_line form (is_on setting) number fault.now (text_in program.now).lines
        ++ ending form (fault_number fault.now))) }
{
    write_named(form, program, number, fault, output)?;
    write_values(form, is_on(setting), program, number, fault, output)?;
    write_ending(form, fault.number(), output)
}

/// Writes the report of a program that is refused at a setting of block delete: the faulty line, by
/// its number, the word that the fault names, and the values of 221 and 222.
pub fn write_rejection<A: Allocator, W: Sink>(
    form: Form,
    origins: &Origins,
    program: &Program<A>,
    named: bool,
    setting: Setting,
    number: u32,
    fault: &Fault,
    output: &mut W,
) -> Result<(), WriteFault>
    ensures ok { OnOk result
        (Appends (W.written output.old) (W.written output.new)
        (rejection_text form origins.now named setting number fault.now
        (text_in program.now).lines)) }
    ensures fault { OnErr result
        (AppendsPrefix (W.written output.old) (W.written output.new)
        (rejection_text form origins.now named setting number fault.now
        (text_in program.now).lines)) }
    ensures counts { CountsFailure (W.failures output.old) (W.failures output.new) result }
{
    let heading = Heading {
        first: true,
        named,
        setting,
    };
    write_early_heading(form, origins, heading, output)?;
    write_all(output, refused_line(form))?;
    write_line(form, program, number, output)?;
    write_rejection_end(form, program, setting, number, fault, output)
}
