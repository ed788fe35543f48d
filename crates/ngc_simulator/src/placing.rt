//! Where the origin of a coordinate system may lie for a program to fit.
ghost use Rattle.std.specs.Prelude.{◌≡◌, ◌≤◌, Err, IfErr, IfOk, IfSome, OnErr, OnOk, Some};
ghost use Rattle.std.specs.Prelude.{slice_get};
ghost use Rattle.std.specs.Io.KnownBytes.{Appends};
ghost use Rattle.ngc_text.specs.Failures.{CountsFailure, Rises};
ghost use Rattle.ngc_text.specs.Written.{AppendsPrefix};
ghost use Rattle.ngc_line_reader.specs.declared.program.fault.ReadFault.TheVariants.{Device};
ghost use Rattle.ngc_machine_files.specs.Machine.{file_of};
ghost use Rattle.ngc_canonical.specs.Interpreter.{setup_of};
ghost use Rattle.ngc_job.specs.Job.{commands_in};
ghost use Rattle.ngc_program_report.specs.Texts.{is_on};
ghost use Rattle.ngc_inputs.specs.Faults.{FailsByOutput, OfCertifying};
ghost use Rattle.ngc_inputs.specs.Unread.{FailsByInput, SourceFails};
ghost use Rattle.ngc_simulator.specs.Answers.{OwnPlaceResult, PlaceResult, own_place_inputs};
ghost use Rattle.ngc_simulator.specs.Answers.{place_inputs, place_request};
ghost use Rattle.ngc_simulator.specs.Answers.{requested_system};
ghost use Rattle.ngc_simulator.specs.Placing.{IsHere, OfPlacing, PlaceWritten, PlacesJob};
ghost use Rattle.ngc_simulator.specs.Placing.{line_of, placement_text};
ghost use Rattle.ngc_shifted_program.specs.Executions.{Execution, IsExecution};

use crate::certifier::{plans_for, refused};
use crate::dialect_places::place_dialect;
use crate::done::Done;
use crate::mistaken_files::read_placed_reporting;
use crate::place_request::PlaceRequest;
use crate::reporting_files::requested_form;
use ngc_certificate::{MakeFault, Setting};
use ngc_command_line::PlaceOptions;
use ngc_commands::Command;
use ngc_fixed_length::System;
use ngc_inputs::{AnswerFault, Files, open_file};
use ngc_job::Job;
use ngc_line_reader::Program;
use ngc_machine_files::{Machine, Tools};
use ngc_place_report::{
    Here, Placement, find_placement, system_named, write_document, write_words,
};
use ngc_report::Form;
use ngc_shifted_program::PartProgram;
use ngc_text::{Sink, Source, WriteFault};
use std::alloc::{AllocError, Allocator, Global};

fn is_on(setting: Setting) -> bool
    ensures { result ≡ is_on setting }
{
    match setting {
        Setting::Off => false,
        Setting::On => true,
    }
}

fn line_of(commands: &[Command], command: usize) -> u32
    ensures { result ≡ line_of (slice_get commands.now command) }
{
    match commands.get(command) {
        None => 0,
        Some(command) => command.line,
    }
}

// Returns the line of a command at a setting, or 0 if there is no such command.
fn line_at<A: Allocator>(job: &Job<A>, setting: Setting, command: u32) -> u32
    ensures { result ≡ line_of (slice_get (commands_in (is_on setting) job.now) command) }
{
    line_of(job.commands(is_on(setting)), command as usize)
}

// Returns whether a job fits where its origin is. It fails if memory runs out.
fn find_here<A: Allocator + Copy>(alloc: A, job: &Job<A>, cuts: u16) -> Result<Here, AllocError>
    requires { 1 ≤ cuts }
    ensures { IfOk result (IsHere job.now cuts) }
{
    match plans_for(alloc, job, cuts) {
        Ok(_plans) => Ok(Here::Fits),
        Err(MakeFault::NotCleared { setting, command }) => Ok(Here::NotCleared {
            setting,
            line: line_at(job, setting, command),
        }),
        Err(MakeFault::Memory) => Err(AllocError),
    }
}

fn write_placement<A: Allocator, W: Sink>(
    form: Form,
    machine: &Machine<A>,
    system: System,
    placement: &Placement,
    output: &mut W,
) -> Result<(), WriteFault>
    ensures ok { OnOk result (Appends (W.written output.old) (W.written output.new)
        (placement_text form (file_of machine.now) system placement.now)) }
    ensures fault { OnErr result (AppendsPrefix (W.written output.old) (W.written output.new)
        (placement_text form (file_of machine.now) system placement.now)) }
    ensures counts { CountsFailure (W.failures output.old) (W.failures output.new) result }
{
    match form {
        Form::Words => write_words(machine, system, placement, output),
        Form::Json => write_document(machine, system, placement, output),
    }
}

/// Writes whether the program of a job fits where the origin of a coordinate system is, and the shifts
/// along each axis alone at which it fits. For any fault nothing is written, except that a prefix is
/// written if a write fails (902).
pub(crate) fn place_job<A: Allocator + Copy, W: Sink>(
    alloc: A,
    program: &PartProgram<'_, A>,
    job: &Job<A>,
    request: PlaceRequest,
    output: &mut W,
) -> Result<(), AnswerFault>
    ensures places { (does : Execution) → IsExecution program.now does →
        PlacesJob does job.now request (W.written output.old) (W.written output.new) result }
    ensures sink { FailsByOutput result (W.failures output.old) (W.failures output.new) }
    ensures faults { IfErr result OfPlacing }
{
    let (system, cuts) = (request.system, request.cuts);
    let here = match find_here(alloc, job, cuts) {
        Ok(here) => here,
        Err(_) => return Err(AnswerFault::Make(MakeFault::Memory)),
    };
    let placement = match find_placement(alloc, program, job, system, here, cuts) {
        Ok(placement) => placement,
        Err(_) => return Err(AnswerFault::Make(MakeFault::Memory)),
    };
    match write_placement(request.form, job.machine(), system, &placement, output) {
        Ok(()) => Ok(()),
        Err(fault) => Err(AnswerFault::Write(fault)),
    }
}

/// Writes whether a program fits where the origin of a coordinate system is, and the shifts along
/// each axis alone at which it fits, at both settings of block delete. For any fault nothing is
/// written, except that a prefix is written if a write fails (902).
pub fn place_program<A: Allocator + Copy, R: Source, W: Sink>(
    alloc: A,
    source: &mut R,
    machine: Machine<A>,
    tools: Tools<A>,
    request: PlaceRequest,
    output: &mut W,
) -> Result<(), AnswerFault>
    // Where the source's bytes are known, the output is about their meaning.
    ensures writes { IfSome (R.remaining source.old)
        (λ bytes. PlaceWritten (setup_of machine tools) bytes request (W.written output.old)
        (W.written output.new) result) }
    // A fault of reading or writing results only from a device that failed.
    ensures source { result ≡ Err (AnswerFault.Read Device) →
        Rises (R.failures source.old) (R.failures source.new) }
    ensures sink { FailsByOutput result (W.failures output.old) (W.failures output.new) }
    ensures faults { IfErr result OfCertifying }
{
    let program = Program::read(alloc, source)?;
    let job = match Job::new(alloc, &program, machine, tools) {
        Ok(job) => job,
        Err(refusal) => return Err(refused(refusal)),
    };
    place_job(alloc, &PartProgram::Own(&program), &job, request, output)
}

pub(crate) fn request_of(options: &PlaceOptions<'_>, system: System) -> PlaceRequest
    ensures { result ≡ place_request options.now system }
{
    PlaceRequest {
        system,
        cuts: options.cuts,
        form: requested_form(options.json),
    }
}

// Writes where the origin of a system may lie, for a program in our own language. If a machine file or
// a tool table is refused, its mistake is written.
fn place_own<F: Files, W: Sink>(
    alloc: Global,
    options: &PlaceOptions<'_>,
    system: System,
    files: &mut F,
    output: &mut W,
) -> Result<Done, AnswerFault>
    ensures comes { OwnPlaceResult (F.bytes files.old) options.now system (W.written output.old)
        (W.written output.new) result }
    ensures unread { FailsByInput (SourceFails F.R.remaining F.R.failures) (F.bytes files.old)
        (own_place_inputs options.now) (F.failures files.old) (F.failures files.new) result }
    ensures sink { FailsByOutput result (W.failures output.old) (W.failures output.new) }
{
    let request = request_of(options, system);
    let form = request.form;
    let (machine, tools) = (options.machine, Some(options.tools));
    let changes = &options.changes;
    let shop = read_placed_reporting(alloc, form, machine, tools, changes, files, output)?;
    let mut source = open_file(options.program, files)?;
    place_program(
        alloc,
        &mut source,
        shop.machine,
        shop.tools,
        request,
        output,
    )?;
    Ok(Done::Quietly)
}

/// Writes where the origin of a system may lie. The system is looked up before a file is read.
pub(crate) fn place_files<F: Files, W: Sink>(
    alloc: Global,
    options: &PlaceOptions<'_>,
    files: &mut F,
    output: &mut W,
) -> Result<Done, AnswerFault>
    ensures comes { PlaceResult (F.bytes files.old) options.now (requested_system options.now)
        (W.written output.old) (W.written output.new) result }
    ensures unread { FailsByInput (SourceFails F.R.remaining F.R.failures) (F.bytes files.old)
        (place_inputs options.now (requested_system options.now)) (F.failures files.old)
        (F.failures files.new) result }
    ensures sink { FailsByOutput result (W.failures output.old) (W.failures output.new) }
{
    let Some(system) = system_named(options.system) else {
        return Err(AnswerFault::UnknownSystem);
    };
    match options.dialect {
        None => place_own(alloc, options, system, files, output),
        Some(control) => place_dialect(alloc, control, options, system, files, output),
    }
}
