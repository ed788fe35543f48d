//! Reports of programs for other controls that are refused.
ghost use Rattle.std.specs.Prelude.{◌≡◌, ◌++◌, min, OnErr, OnOk};
ghost use Rattle.std.specs.Io.KnownBytes.{Appends};
ghost use Rattle.ngc_text.specs.Failures.{CountsFailure};
ghost use Rattle.ngc_text.specs.Written.{AppendsPrefix};
ghost use Rattle.ngc_dialect_execution.specs.Faults.{cause_number};
ghost use Rattle.ngc_inputs.specs.Faults.{FailsByOutput};
ghost use Rattle.ngc_program_report.specs.Texts.{ending};
ghost use Rattle.ngc_simulator.specs.DialectRefusals.{ReportsRefused, fault_place, reason_end};
ghost use Rattle.ngc_simulator.specs.DialectRefusals.{reason_start, reason_text, refusal_text};
ghost use Rattle.ngc_simulator.specs.DialectRefusals.{verdict_line};

use crate::dialects::refused;
use crate::done::Done;
use crate::unread_files::unreadable_line;
use ngc_certificate_text::Setting;
use ngc_dialect_execution::{Cause, has_deleted_lines};
use ngc_dialect_faults::write_cause;
use ngc_inputs::AnswerFault;
use ngc_program_report::{ReportRequest, refused_line, write_ending, write_rejection_heading};
use ngc_report::{Form, write_source_line, write_text_line};
use ngc_text::{Sink, WriteFault, write_all};
use std::alloc::Global;

/// The first fault of a program for another control.
#[derive(Clone, Copy)]
pub(crate) struct RefusedDialect {
    /// The setting of block delete at which it is refused: `On` only if it isn't refused at `Off`.
    pub(crate) setting: Setting,
    /// The line of the source, from 1.
    pub(crate) line: u32,
    pub(crate) cause: Cause,
}

fn verdict_line(form: Form, cause: &Cause) -> &'static [u8]
    ensures { result.now ≡ verdict_line form cause.now }
{
    match cause {
        Cause::Reading(_) => unreadable_line(form),
        _ => refused_line(form),
    }
}

fn marked_column(column: usize) -> u16
    ensures { result ≡ min column 65535 }
{
    column.min(65535) as u16
}

// Writes the line of a fault, with a mark below the column from which it can't be read.
fn write_place<W: Sink>(
    form: Form,
    line: u32,
    cause: &Cause,
    text: &[u8],
    output: &mut W,
) -> Result<(), WriteFault>
    ensures ok { OnOk result
        (Appends (W.written output.old) (W.written output.new)
        (fault_place form line cause.now text.now)) }
    ensures fault { OnErr result
        (AppendsPrefix (W.written output.old) (W.written output.new)
        (fault_place form line cause.now text.now)) }
    ensures counts { CountsFailure (W.failures output.old) (W.failures output.new) result }
{
    match cause {
        Cause::Reading(fault) => {
            write_source_line(form, text, line, marked_column(fault.column), output)
        }
        _ => write_text_line(form, text, line, output),
    }
}

fn reason_start(form: Form) -> &'static [u8]
    ensures { result.now ≡ reason_start form }
{
    match form {
        Form::Words => b"Reason: ",
        Form::Json => b",\n{\"fact\":\"reason\",\"text\":\"",
    }
}

fn reason_end(form: Form) -> &'static [u8]
    ensures { result.now ≡ reason_end form }
{
    match form {
        Form::Words => b".\n",
        Form::Json => b"\"}",
    }
}

// Writes what is wrong, and the end of the report.
fn write_reason<W: Sink>(form: Form, cause: &Cause, output: &mut W) -> Result<(), WriteFault>
    ensures ok { OnOk result
        (Appends (W.written output.old) (W.written output.new)
        (reason_text form cause.now ++ ending form (cause_number cause.now))) }
    ensures fault { OnErr result
        (AppendsPrefix (W.written output.old) (W.written output.new)
        (reason_text form cause.now ++ ending form (cause_number cause.now))) }
    ensures counts { CountsFailure (W.failures output.old) (W.failures output.new) result }
{
    write_cause(reason_start(form), cause, reason_end(form), output)?;
    write_ending(form, cause.number(), output)
}

fn write_refusal<W: Sink>(
    request: &ReportRequest<'_>,
    text: &[u8],
    refusal: &RefusedDialect,
    output: &mut W,
) -> Result<(), WriteFault>
    ensures ok { OnOk result
        (Appends (W.written output.old) (W.written output.new)
        (refusal_text request.now text.now refusal.now)) }
    ensures fault { OnErr result
        (AppendsPrefix (W.written output.old) (W.written output.new)
        (refusal_text request.now text.now refusal.now)) }
    ensures counts { CountsFailure (W.failures output.old) (W.failures output.new) result }
{
    let (form, cause) = (request.form, &refusal.cause);
    let named = has_deleted_lines(text);
    write_rejection_heading(form, &request.origins, named, refusal.setting, output)?;
    write_all(output, verdict_line(form, cause))?;
    write_place(form, refusal.line, cause, text, output)?;
    write_reason(form, cause, output)
}

/// Writes the report of a program's text that is refused, and returns notes on the fault. If memory runs
/// out, nothing is written; if a write fails (902), a prefix is written.
pub(crate) fn report_refused<W: Sink>(
    alloc: Global,
    text: &[u8],
    refusal: &RefusedDialect,
    request: &ReportRequest<'_>,
    output: &mut W,
) -> Result<Done, AnswerFault>
    ensures reports { ReportsRefused text.now request.now refusal.now (W.written output.old)
        (W.written output.new) result }
    ensures sink { FailsByOutput result (W.failures output.old) (W.failures output.new) }
{
    let (setting, line) = (refusal.setting, refusal.line);
    let notes = refused(alloc, Some(setting), line, &refusal.cause)?;
    match write_refusal(request, text, refusal, output) {
        Ok(()) => Ok(Done::WithNotes(notes)),
        Err(fault) => Err(AnswerFault::Write(fault)),
    }
}
