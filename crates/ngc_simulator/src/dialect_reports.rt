//! Reports of programs for other controls.
ghost use Rattle.std.specs.Prelude.{◌≡◌, IfErr, IfOk, MatchResult, Some, unwrap_or};
ghost use Rattle.ngc_canonical.specs.Interpreter.{setup_of};
ghost use Rattle.ngc_inputs.specs.Faults.{FailsByOutput};
ghost use Rattle.ngc_inputs.specs.Unread.{FailsByInput, SourceFails};
ghost use Rattle.ngc_dialect_notes.specs.Notes.{no_notes};
ghost use Rattle.ngc_simulator.specs.Answers.{DialectReportResult, report_inputs_in};
ghost use Rattle.ngc_simulator.specs.DialectReports.{IsNotedJob, ReportsDialect};
ghost use Rattle.ngc_simulator.specs.DialectRefusals.{IsRefusedDialect};

use crate::dialect_refusals::{RefusedDialect, report_refused};
use crate::dialects::{Sent, executed_at, read_sent_reporting};
use crate::done::Done;
use crate::reporting::report_job;
use crate::reporting_files::request_of;
use ngc_certificate_text::Setting;
use ngc_command_line::ReportOptions;
use ngc_dialect_execution::{Wanted, has_deleted_lines};
use ngc_dialect_names::Dialect;
use ngc_dialect_notes::Notes as ProgramNotes;
use ngc_file_figures::StoredFigures;
use ngc_inputs::{AnswerFault, Files, Shop};
use ngc_job::Job;
use ngc_program_report::{FramedJob, OtherText, ReportRequest, ReportedText};
use ngc_text::Sink;
use std::alloc::Global;

const NOTES: Wanted = Wanted {
    notes: true,
    lines: false,
};

/// A job with the frames of its commands, and the notes on its program at each setting.
#[derive(Drop)]
struct NotedJob {
    framed: FramedJob<Global>,
    off: ProgramNotes,
    on: ProgramNotes,
}

// Returns the notes that were collected.
fn collected(notes: Option<ProgramNotes>) -> ProgramNotes
    ensures { result ≡ unwrap_or notes no_notes }
{
    notes.unwrap_or(ProgramNotes::none())
}

// Returns the job of a program with the frames of its commands and the notes on it, or why it is
// refused. If no line begins with `/`, it is executed once.
fn framed_dialect(
    alloc: Global,
    dialect: Dialect,
    text: &[u8],
    shop: Shop,
) -> Result<Result<NotedJob, RefusedDialect>, AnswerFault>
    ensures framed { IfOk result (λ made. MatchResult made
        (IsNotedJob dialect (setup_of shop.machine shop.tools) text.now)
        (IsRefusedDialect dialect (setup_of shop.machine shop.tools) text.now)) }
    ensures fault { IfErr result (λ e. e ≡ AnswerFault.Memory) }
{
    let off = match executed_at(alloc, NOTES, dialect, text, &shop, false)? {
        Ok(off) => off,
        Err((line, cause)) => {
            return Ok(Err(RefusedDialect {
                setting: Setting::Off,
                line,
                cause,
            }));
        }
    };
    if !has_deleted_lines(text) {
        let Shop { machine, tools, .. } = shop;
        let job = Job::from_commands(machine, tools, off.framed.commands, None);
        let framed = FramedJob {
            job,
            off: off.framed.frames,
            on: None,
        };
        let notes = collected(off.notes);
        return Ok(Ok(NotedJob {
            framed,
            off: notes,
            on: notes,
        }));
    }
    let on = match executed_at(alloc, NOTES, dialect, text, &shop, true)? {
        Ok(on) => on,
        Err((line, cause)) => {
            return Ok(Err(RefusedDialect {
                setting: Setting::On,
                line,
                cause,
            }));
        }
    };
    let Shop { machine, tools, .. } = shop;
    let job = Job::from_commands(
        machine,
        tools,
        off.framed.commands,
        Some(on.framed.commands),
    );
    let framed = FramedJob {
        job,
        off: off.framed.frames,
        on: Some(on.framed.frames),
    };
    Ok(Ok(NotedJob {
        framed,
        off: collected(off.notes),
        on: collected(on.notes),
    }))
}

// Returns the same without its figures, and its figures.
fn without_figures(alloc: Global, sent: Sent) -> (Sent, StoredFigures)
    ensures dialect { result.0.dialect ≡ sent.dialect }
    ensures machine { result.0.shop.machine ≡ sent.shop.machine }
    ensures tools { result.0.shop.tools ≡ sent.shop.tools }
    ensures text { result.0.text ≡ sent.text }
    ensures figures { result.1 ≡ sent.shop.figures }
{
    let Sent {
        dialect,
        shop,
        text,
    } = sent;
    let Shop {
        machine,
        tools,
        figures,
    } = shop;
    let shop = Shop {
        machine,
        tools,
        figures: StoredFigures::none(alloc),
    };
    let sent = Sent {
        dialect,
        shop,
        text,
    };
    (sent, figures)
}

// Writes the report of a program. If it is refused, notes report its fault.
fn report_sent<W: Sink>(
    alloc: Global,
    sent: Sent,
    request: &ReportRequest<'_>,
    output: &mut W,
) -> Result<Done, AnswerFault>
    ensures reports { ReportsDialect sent.dialect (setup_of sent.shop.machine sent.shop.tools)
        sent.text.items request.now (W.written output.old) (W.written output.new) result }
    ensures sink { FailsByOutput result (W.failures output.old) (W.failures output.new) }
{
    let Sent {
        dialect,
        shop,
        text,
    } = sent;
    match framed_dialect(alloc, dialect, text.as_slice(), shop)? {
        Ok(noted) => {
            let other = OtherText {
                text: text.as_slice(),
                figures: request.figures,
                off: noted.off,
                on: noted.on,
            };
            let text = ReportedText::Other(&other);
            report_job(alloc, &text, noted.framed, request, output)?;
            Ok(Done::Quietly)
        }
        Err(refusal) => report_refused(alloc, text.as_slice(), &refusal, request, output),
    }
}

/// Writes the report of a program for a control. If a machine file or a tool table is refused, its
/// mistake is written. Notes report the fault of a program that is refused.
pub(crate) fn report_dialect<F: Files, W: Sink>(
    alloc: Global,
    control: &str,
    options: &ReportOptions<'_>,
    files: &mut F,
    output: &mut W,
) -> Result<Done, AnswerFault>
    ensures comes { DialectReportResult control.now (F.bytes files.old) options.now
        (W.written output.old) (W.written output.new) result }
    ensures unread { FailsByInput (SourceFails F.R.remaining F.R.failures) (F.bytes files.old)
        (report_inputs_in (Some control.now) options.now) (F.failures files.old)
        (F.failures files.new) result }
    ensures sink { FailsByOutput result (W.failures output.old) (W.failures output.new) }
{
    let sent = read_sent_reporting(alloc, control, options, files, output)?;
    let (sent, figures) = without_figures(alloc, sent);
    let request = request_of(figures.borrowed(), options);
    report_sent(alloc, sent, &request, output)
}
