//! Runs of programs for other controls.
ghost use Rattle.std.specs.Prelude.{◌≡◌, [], ◌∷◌, IfSome, Some};
ghost use Rattle.ngc_canonical.specs.Interpreter.{setup_of};
ghost use Rattle.ngc_inputs.specs.Faults.{FailsByOutput};
ghost use Rattle.ngc_inputs.specs.Setups.{KeepsFiles};
ghost use Rattle.ngc_inputs.specs.Unread.{FailsBy, FailsByInput, OfCertificate, SourceFails};
ghost use Rattle.ngc_inputs.specs.Unread.{certificate_unread};
ghost use Rattle.ngc_simulator.specs.Answers.{DialectLiveResult, DialectRunResult};
ghost use Rattle.ngc_simulator.specs.Answers.{DialectRunThroughResult, live_inputs_in};
ghost use Rattle.ngc_simulator.specs.Answers.{run_inputs_in, run_through_inputs_in};
ghost use Rattle.ngc_simulator.specs.DialectRuns.{JudgesJob};

use crate::dialect_certificates::job_of;
use crate::dialects::{DialectFiles, read_sent};
use crate::done::Done;
use crate::live_request::LiveRequest;
use crate::living::run_live;
use crate::running::run_program;
use crate::through::run_program_through;
use crate::writing::Writing;
use ngc_certificate_text::CertificateFault;
use ngc_checker::{CheckReadFault, check_job_source};
use ngc_command_line::{LiveOptions, RunOptions, RunThroughOptions};
use ngc_inputs::{AnswerFault, Files, Verdict, bytes_of, open_file};
use ngc_job::Job;
use ngc_program_report::RunTime;
use ngc_run_log::LiveForm;
use ngc_text::Sink;
use std::alloc::Global;

// Judges the certificate of the named file for a job.
fn judge_job<F: Files>(
    job: Job<Global>,
    name: &str,
    files: &mut F,
) -> Result<Verdict<Global>, CertificateFault>
    ensures judges { IfSome (F.bytes files.old (Some name.now)) (λ text. JudgesJob job text result) }
    ensures keeps { KeepsFiles (F.bytes files.old) (F.bytes files.new) }
    // 901 is returned only where the file can't be opened or its source fails.
    ensures unread { FailsBy certificate_unread (SourceFails F.R.remaining F.R.failures)
        (F.bytes files.old) (record { kind = OfCertificate; name = Some name.now } ∷ [])
        (F.failures files.old) (F.failures files.new) result }
{
    let mut certificate = match files.source(Some(name)) {
        Ok(certificate) => certificate,
        Err(_) => return Err(CertificateFault::ReadFailed),
    };
    match check_job_source(job, &mut certificate) {
        Ok(accepted) => Ok(Ok(accepted)),
        Err(CheckReadFault::Check(fault)) => Ok(Err(fault)),
        Err(CheckReadFault::Certificate(fault)) => Err(fault),
    }
}

/// Runs a program for a control to its end, and returns its time. A program that is refused is
/// reported before the certificate's file is opened.
pub(crate) fn run_through_dialect<F: Files, W: Sink>(
    alloc: Global,
    control: &str,
    options: &RunThroughOptions<'_>,
    writing: Writing,
    files: &mut F,
    output: &mut W,
) -> Result<Done, AnswerFault>
    ensures comes { DialectRunThroughResult control.now (F.bytes files.old) options.now writing
        (W.written output.old) (W.written output.new) result }
    ensures unread { FailsByInput (SourceFails F.R.remaining F.R.failures) (F.bytes files.old)
        (run_through_inputs_in (Some control.now) options.now) (F.failures files.old)
        (F.failures files.new) result }
    ensures sink { FailsByOutput result (W.failures output.old) (W.failures output.new) }
{
    let names = DialectFiles {
        control,
        machine: Some(options.machine),
        tools: Some(options.tools),
        changes: options.changes,
        program: options.program,
    };
    let sent = read_sent(alloc, &names, files)?;
    let ticks_per_second = sent.shop.machine.ticks_per_second;
    let made = job_of(alloc, sent)?;
    let job = match made {
        Ok(job) => job,
        Err(notes) => return Ok(Done::WithNotes(notes)),
    };
    let verdict = match judge_job(job, options.certificate, files) {
        Ok(verdict) => verdict,
        Err(fault) => return Err(AnswerFault::Certificate(fault)),
    };
    let report = run_program_through(alloc, verdict, options.delete, writing, output)?;
    Ok(Done::RunThrough(RunTime {
        ticks: report.ticks,
        ticks_per_second,
    }))
}

/// Runs a program for a control over events. A program that is refused is reported before the
/// certificate's file is opened, and a refusal of the certificate is returned only after the events
/// are read and understood.
pub(crate) fn run_dialect<F: Files, W: Sink>(
    alloc: Global,
    control: &str,
    options: &RunOptions<'_>,
    writing: Writing,
    files: &mut F,
    output: &mut W,
) -> Result<Done, AnswerFault>
    ensures comes { DialectRunResult control.now (F.bytes files.old) options.now writing
        (W.written output.old) (W.written output.new) result }
    ensures unread { FailsByInput (SourceFails F.R.remaining F.R.failures) (F.bytes files.old)
        (run_inputs_in (Some control.now) options.now) (F.failures files.old)
        (F.failures files.new) result }
    ensures sink { FailsByOutput result (W.failures output.old) (W.failures output.new) }
{
    let names = DialectFiles {
        control,
        machine: Some(options.machine),
        tools: Some(options.tools),
        changes: options.changes,
        program: options.program,
    };
    let sent = read_sent(alloc, &names, files)?;
    let made = job_of(alloc, sent)?;
    let job = match made {
        Ok(job) => job,
        Err(notes) => return Ok(Done::WithNotes(notes)),
    };
    let verdict = match judge_job(job, options.certificate, files) {
        Ok(verdict) => verdict,
        Err(fault) => return Err(AnswerFault::Certificate(fault)),
    };
    let events = bytes_of(alloc, options.events, files)?;
    run_program(
        alloc,
        verdict,
        events.as_slice(),
        options.delete,
        writing,
        output,
    )?;
    Ok(Done::Quietly)
}

/// Makes a live run of a program for a control. A program that is refused is reported before the
/// certificate's file is opened, and standard input is opened once all files are read.
pub(crate) fn live_dialect<F: Files, W: Sink>(
    alloc: Global,
    control: &str,
    options: &LiveOptions<'_>,
    form: LiveForm,
    files: &mut F,
    output: &mut W,
) -> Result<Done, AnswerFault>
    ensures comes { DialectLiveResult control.now (F.bytes files.old) options.now form
        (W.written output.old) (W.written output.new) result }
    ensures unread { FailsByInput (SourceFails F.R.remaining F.R.failures) (F.bytes files.old)
        (live_inputs_in (Some control.now) options.now) (F.failures files.old)
        (F.failures files.new) result }
    ensures sink { FailsByOutput result (W.failures output.old) (W.failures output.new) }
{
    let names = DialectFiles {
        control,
        machine: Some(options.machine),
        tools: Some(options.tools),
        changes: options.changes,
        program: Some(options.program),
    };
    let sent = read_sent(alloc, &names, files)?;
    let made = job_of(alloc, sent)?;
    let job = match made {
        Ok(job) => job,
        Err(notes) => return Ok(Done::WithNotes(notes)),
    };
    let verdict = match judge_job(job, options.certificate, files) {
        Ok(verdict) => verdict,
        Err(fault) => return Err(AnswerFault::Certificate(fault)),
    };
    let mut events = open_file(None, files)?;
    let request = LiveRequest {
        form,
        feeds_ring: options.feed_ring,
        aborts: options.aborts,
    };
    run_live(alloc, verdict, &mut events, options.delete, request, output)?;
    Ok(Done::Quietly)
}
