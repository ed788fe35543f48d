//! Certificates of programs for other controls.
ghost use Rattle.std.specs.Prelude.{◌≡◌, ◌≤◌, IfErr, IfOk, IfSome, Err, MatchResult, Some, true};
ghost use Rattle.ngc_canonical.specs.Interpreter.{setup_of};
ghost use Rattle.ngc_certificate_text.specs.declared.fault.CertificateFault.TheVariants.{ReadFailed};
ghost use Rattle.ngc_dialect_job.specs.Job.{IsDialectJob};
ghost use Rattle.ngc_text.specs.Failures.{Rises};
ghost use Rattle.ngc_simulator.specs.Answers.{DialectCertifyResult, DialectCheckResult};
ghost use Rattle.ngc_simulator.specs.Answers.{certify_inputs_in, check_inputs_in};
ghost use Rattle.ngc_simulator.specs.Dialects.{CertifiesDialect, CertifiesJob, ChecksJob};
ghost use Rattle.ngc_simulator.specs.Dialects.{NotesRefusal};
ghost use Rattle.ngc_inputs.specs.Faults.{FailsByOutput, OfChecking};
ghost use Rattle.ngc_inputs.specs.Unread.{FailsByInput, SourceFails};

use crate::certifier::{plans_for, write_plans};
use crate::dialects::{DialectFiles, Sent, read_sent, refused};
use crate::done::{Done, Notes};
use ngc_checker::{CheckReadFault, check_job_source};
use ngc_command_line::{CertifyOptions, CheckOptions, Format};
use ngc_dialect_execution::DialectFault;
use ngc_dialect_job::dialect_job;
use ngc_dialect_names::Dialect;
use ngc_inputs::{AnswerFault, Files, Shop, open_file};
use ngc_job::Job;
use ngc_text::{Sink, Source, write_all};
use std::alloc::Global;

/// Returns the job of a program's text, or notes on why it is refused.
pub(crate) fn job_of_text(
    alloc: Global,
    dialect: Dialect,
    text: &[u8],
    shop: Shop,
) -> Result<Result<Job<Global>, Notes>, AnswerFault>
    ensures job { IfOk result (λ made. MatchResult made
        (λ j. IsDialectJob dialect text.now (setup_of shop.machine shop.tools) j)
        (NotesRefusal dialect (setup_of shop.machine shop.tools) text.now)) }
    ensures fault { IfErr result (λ e. e ≡ AnswerFault.Memory) }
{
    match dialect_job(alloc, dialect, text, shop.machine, shop.tools) {
        Ok(job) => Ok(Ok(job)),
        Err(refusal) => match refusal.fault {
            DialectFault::Memory => Err(AnswerFault::Memory),
            DialectFault::At { line, cause } => {
                let notes = refused(alloc, Some(refusal.setting), line, &cause)?;
                Ok(Err(notes))
            }
        },
    }
}

/// Returns the job of a program, or notes on why it is refused.
pub(crate) fn job_of(alloc: Global, sent: Sent) -> Result<Result<Job<Global>, Notes>, AnswerFault>
    ensures job { IfOk result (λ made. MatchResult made
        (λ j. IsDialectJob sent.dialect sent.text.items
        (setup_of sent.shop.machine sent.shop.tools) j)
        (NotesRefusal sent.dialect (setup_of sent.shop.machine sent.shop.tools) sent.text.items)) }
    ensures fault { IfErr result (λ e. e ≡ AnswerFault.Memory) }
{
    let shop = sent.shop;
    job_of_text(alloc, sent.dialect, sent.text.as_slice(), shop)
}

// Writes the certificate that is made for a job.
fn certify_job<W: Sink>(
    alloc: Global,
    job: &Job<Global>,
    cuts: u16,
    format: Format,
    output: &mut W,
) -> Result<(), AnswerFault>
    requires { 1 ≤ cuts }
    ensures certifies { CertifiesJob job.now cuts format (W.written output.old)
        (W.written output.new) result }
    ensures sink { FailsByOutput result (W.failures output.old) (W.failures output.new) }
{
    let plans = match plans_for(alloc, job, cuts) {
        Ok(plans) => plans,
        Err(fault) => return Err(AnswerFault::Make(fault)),
    };
    write_plans(alloc, job, &plans, format, output)
}

// Writes the certificate of a program, or returns notes on why it is refused.
fn certify_sent<W: Sink>(
    alloc: Global,
    sent: Sent,
    cuts: u16,
    format: Format,
    output: &mut W,
) -> Result<Done, AnswerFault>
    requires { 1 ≤ cuts }
    ensures certifies { CertifiesDialect sent.dialect
        (setup_of sent.shop.machine sent.shop.tools) sent.text.items cuts format
        (W.written output.old) (W.written output.new) result }
    ensures sink { FailsByOutput result (W.failures output.old) (W.failures output.new) }
{
    match job_of(alloc, sent)? {
        Ok(job) => {
            certify_job(alloc, &job, cuts, format, output)?;
            Ok(Done::Quietly)
        }
        Err(notes) => Ok(Done::WithNotes(notes)),
    }
}

/// Writes the certificate of a program for a control.
pub(crate) fn certify_dialect<F: Files, W: Sink>(
    alloc: Global,
    control: &str,
    options: &CertifyOptions<'_>,
    files: &mut F,
    output: &mut W,
) -> Result<Done, AnswerFault>
    requires { 1 ≤ options.now.cuts }
    ensures comes { DialectCertifyResult control.now (F.bytes files.old) options.now
        (W.written output.old) (W.written output.new) result }
    ensures unread { FailsByInput (SourceFails F.R.remaining F.R.failures) (F.bytes files.old)
        (certify_inputs_in (Some control.now) options.now) (F.failures files.old)
        (F.failures files.new) result }
    ensures sink { FailsByOutput result (W.failures output.old) (W.failures output.new) }
{
    let names = DialectFiles {
        control,
        machine: Some(options.machine),
        tools: Some(options.tools),
        changes: options.changes,
        program: options.program,
    };
    let sent = read_sent(alloc, &names, files)?;
    certify_sent(alloc, sent, options.cuts, options.format, output)
}

// Writes `accepted` if the certificate from a source holds for a job.
fn check_job<S: Source, W: Sink>(
    job: Job<Global>,
    certificate: &mut S,
    output: &mut W,
) -> Result<(), AnswerFault>
    ensures checks { IfSome (S.remaining certificate.old)
        (λ text. ChecksJob job text (W.written output.old) (W.written output.new) result) }
    ensures source { result ≡ Err (AnswerFault.Certificate ReadFailed) →
        Rises (S.failures certificate.old) (S.failures certificate.new) }
    ensures sink { FailsByOutput result (W.failures output.old) (W.failures output.new) }
    ensures faults { IfErr result OfChecking }
{
    match check_job_source(job, certificate) {
        Ok(_) => {}
        Err(CheckReadFault::Certificate(fault)) => return Err(AnswerFault::Certificate(fault)),
        Err(CheckReadFault::Check(fault)) => return Err(AnswerFault::Check(fault)),
    }
    match write_all(output, b"accepted\n") {
        Ok(()) => Ok(()),
        Err(fault) => Err(AnswerFault::Write(fault)),
    }
}

/// Checks a certificate of a program for a control. A program that is refused is reported before
/// the certificate's file is opened.
pub(crate) fn check_dialect<F: Files, W: Sink>(
    alloc: Global,
    control: &str,
    options: &CheckOptions<'_>,
    files: &mut F,
    output: &mut W,
) -> Result<Done, AnswerFault>
    ensures comes { DialectCheckResult control.now (F.bytes files.old) options.now
        (W.written output.old) (W.written output.new) result }
    ensures unread { FailsByInput (SourceFails F.R.remaining F.R.failures) (F.bytes files.old)
        (check_inputs_in (Some control.now) options.now) (F.failures files.old)
        (F.failures files.new) result }
    ensures sink { FailsByOutput result (W.failures output.old) (W.failures output.new) }
{
    let names = DialectFiles {
        control,
        machine: Some(options.machine),
        tools: Some(options.tools),
        changes: options.changes,
        program: options.program,
    };
    let sent = read_sent(alloc, &names, files)?;
    let job = match job_of(alloc, sent)? {
        Ok(job) => job,
        Err(notes) => return Ok(Done::WithNotes(notes)),
    };
    let mut certificate = open_file(Some(options.certificate), files)?;
    check_job(job, &mut certificate, output)?;
    Ok(Done::Quietly)
}
