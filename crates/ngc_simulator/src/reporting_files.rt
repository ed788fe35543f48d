//! The report of a program, from the files that the command line names.
ghost use Rattle.std.specs.Prelude.{◌≡◌, unwrap_or};
ghost use Rattle.ngc_stock_report.specs.Placed.{USUAL_CELLS};
ghost use Rattle.ngc_simulator.specs.Answers.{OwnReportResult, ReportResult, own_report_inputs};
ghost use Rattle.ngc_simulator.specs.Answers.{report_inputs, request_of, requested_form};
ghost use Rattle.ngc_inputs.specs.Faults.{FailsByOutput};
ghost use Rattle.ngc_inputs.specs.Unread.{FailsByInput, SourceFails};

use crate::dialect_reports::report_dialect;
use crate::done::Done;
use crate::faults_files::report_all_faults;
use crate::report_shop::read_report_shop;
use crate::reporting::report_program;
use crate::unread_files::report_unreadable;
use ngc_command_line::ReportOptions;
use ngc_file_figures::FileFigures;
use ngc_inputs::{AnswerFault, Files, Shop, open_file};
use ngc_program_report::ReportRequest;
use ngc_report::Form;
use ngc_stock_report::USUAL_CELLS;
use ngc_text::Sink;
use std::alloc::Global;

/// Returns the form that is requested: a document or words.
pub(crate) fn requested_form(json: bool) -> Form
    ensures { result ≡ requested_form json }
{
    if json { Form::Json } else { Form::Words }
}

/// Returns the most cells of a block: those that are requested, or the usual number.
pub(crate) fn cells_of(requested: Option<u32>) -> u32
    ensures { result ≡ unwrap_or requested USUAL_CELLS }
{
    match requested {
        None => USUAL_CELLS,
        Some(cells) => cells,
    }
}

/// Returns what is requested of a report, with what the files say besides the machine and its tools.
pub(crate) fn request_of<'a>(
    figures: FileFigures<'a>,
    options: &ReportOptions<'_>,
) -> ReportRequest<'a>
    ensures { result ≡ request_of figures.entry options.now }
{
    ReportRequest {
        cuts: options.cuts,
        all: options.all,
        form: requested_form(options.json),
        origins: options.changes.origins,
        figures,
        cells: cells_of(options.cells),
    }
}

// Writes the report of a program in our own language. Its faults are those of a certificate that isn't
// made. If a machine file or a tool table is refused, its mistake is written, and a sentence if a number
// of cells is requested without material. If a named program can't be read, the line at fault is
// written. If all is requested, all faults of a named program that can't be read or is refused are
// written.
fn report_own<F: Files, W: Sink>(
    alloc: Global,
    options: &ReportOptions<'_>,
    files: &mut F,
    output: &mut W,
) -> Result<Done, AnswerFault>
    ensures comes { OwnReportResult (F.bytes files.old) options.now (W.written output.old)
        (W.written output.new) result }
    ensures unread { FailsByInput (SourceFails F.R.remaining F.R.failures) (F.bytes files.old)
        (own_report_inputs options.now) (F.failures files.old) (F.failures files.new) result }
    ensures sink { FailsByOutput result (W.failures output.old) (W.failures output.new) }
{
    let form = requested_form(options.json);
    let shop = read_report_shop(alloc, options, files, output)?;
    report_all_faults(alloc, options, form, &shop, files, output)?;
    let mut source = open_file(options.program, files)?;
    let Shop {
        machine,
        tools,
        figures,
    } = shop;
    let request = request_of(figures.borrowed(), options);
    let fault = match report_program(alloc, &mut source, machine, tools, &request, output) {
        Ok(()) => return Ok(Done::Quietly),
        Err(fault) => fault,
    };
    // Standard input isn't read again.
    let name = match options.program {
        Some(name) => name,
        None => return Err(fault),
    };
    match fault {
        AnswerFault::Read(fault) => {
            let told = report_unreadable(alloc, form, name, fault, files, output);
            Err(told)
        }
        _ => Err(fault),
    }
}

/// Writes the report of a program.
pub(crate) fn report_files<F: Files, W: Sink>(
    alloc: Global,
    options: &ReportOptions<'_>,
    files: &mut F,
    output: &mut W,
) -> Result<Done, AnswerFault>
    ensures comes { ReportResult (F.bytes files.old) options.now (W.written output.old)
        (W.written output.new) result }
    ensures unread { FailsByInput (SourceFails F.R.remaining F.R.failures) (F.bytes files.old)
        (report_inputs options.now) (F.failures files.old) (F.failures files.new) result }
    ensures sink { FailsByOutput result (W.failures output.old) (W.failures output.new) }
{
    match options.dialect {
        None => report_own(alloc, options, files, output),
        Some(control) => report_dialect(alloc, control, options, files, output),
    }
}
