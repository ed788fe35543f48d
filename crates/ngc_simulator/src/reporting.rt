//! Whether a program fits, with its clearance and its time, or the obstacle.
ghost use Rattle.std.specs.Prelude.{◌≡◌, ℕ, List, IfErr, IfSome, Ok, Err};
ghost use Rattle.ngc_canonical.specs.Interpreter.{setup_of};
ghost use Rattle.ngc_canonical.specs.State.{Setup};
ghost use Rattle.ngc_text.specs.Failures.{Rises};
ghost use Rattle.ngc_line_reader.specs.ProgramText.{program_of};
ghost use Rattle.ngc_line_reader.specs.ProgramView.{text_in};
ghost use Rattle.ngc_line_reader.specs.declared.program.fault.ReadFault.TheVariants.{Device};
ghost use Rattle.ngc_inputs.specs.Faults.{FailsByOutput, FailsWith, OfCertifying, OfReporting};
ghost use Rattle.ngc_inputs.specs.Jobs.{WhyNotMade};
ghost use Rattle.ngc_program_report.specs.Framed.{framed_in};
ghost use Rattle.ngc_program_report.specs.Reported.{reported};
ghost use Rattle.ngc_simulator.specs.Reporting.{Reports, ReportsJob};

use crate::certifier::plans_for;
use ngc_canonical::{ProgramFault, has_deleted_lines};
use ngc_certificate::{MakeFault, Setting};
use ngc_inputs::AnswerFault;
use ngc_line_reader::Program;
use ngc_machine_files::{Machine, Tools};
use ngc_program_report::{
    FramedJob, ReportRequest, ReportedText, framed_job, report_fit, report_refusal, write_rejection,
};
use ngc_text::{Sink, Source};
use std::alloc::Allocator;

// Writes the report of a program that is refused at a setting, and returns its fault.
fn report_rejection<A: Allocator, W: Sink>(
    program: &Program<A>,
    setting: Setting,
    fault: ProgramFault,
    request: &ReportRequest<'_>,
    output: &mut W,
) -> AnswerFault
    // If memory ran out there is no report.
    ensures memory { fault ≡ ProgramFault.Memory →
        (result ≡ AnswerFault.Make MakeFault.Memory) ×
        (W.written output.new ≡ W.written output.old) }
    ensures reports { (setup : Setup) (bytes : List ℕ) →
        program_of bytes ≡ Ok (text_in program.now) →
        WhyNotMade setup bytes request.now.cuts (AnswerFault.Refused setting fault) →
        Reports setup bytes request.now (W.written output.old) (W.written output.new) (Err result) }
    ensures sink { FailsWith result (W.failures output.old) (W.failures output.new) }
    ensures faults { OfReporting result }
{
    let (line, cause) = match fault {
        ProgramFault::At { line, fault } => (line, fault),
        ProgramFault::Memory => return AnswerFault::Make(MakeFault::Memory),
    };
    let named = has_deleted_lines(program);
    match write_rejection(
        request.form,
        &request.origins,
        program,
        named,
        setting,
        line,
        &cause,
        output,
    ) {
        Ok(()) => AnswerFault::Refused { setting, fault },
        Err(fault) => AnswerFault::Write(fault),
    }
}

/// Writes the report of a job, for the text of its program: its margins and its time, or the obstacle,
/// with fault 304. If memory runs out, nothing is written; if a write fails (902), a prefix is written.
pub(crate) fn report_job<A: Allocator + Copy, W: Sink>(
    alloc: A,
    text: &ReportedText<'_, A>,
    framed: FramedJob<A>,
    request: &ReportRequest<'_>,
    output: &mut W,
) -> Result<(), AnswerFault>
    ensures reports { ReportsJob (framed_in framed) (reported text.now) request.now
        (W.written output.old) (W.written output.new) result }
    ensures sink { FailsByOutput result (W.failures output.old) (W.failures output.new) }
{
    match plans_for(alloc, &framed.job, request.cuts) {
        Ok(plans) => {
            report_fit(alloc, text, framed, &plans, request, output)?;
            Ok(())
        }
        Err(MakeFault::NotCleared { setting, command }) => {
            report_refusal(alloc, text, &framed, setting, command, request, output)?;
            Err(AnswerFault::Make(MakeFault::NotCleared { setting, command }))
        }
        Err(MakeFault::Memory) => Err(AnswerFault::Make(MakeFault::Memory)),
    }
}

/// Writes whether a program fits on a machine with its tools: its extent and its clearance, the use
/// of each tool and the time; or the obstacle, with fault 304. A program with lines that begin with
/// `/` has a report for each setting of block delete. For any other fault nothing is written,
/// except that a prefix is written if a write fails (902).
pub fn report_program<A: Allocator + Copy, R: Source, W: Sink>(
    alloc: A,
    source: &mut R,
    machine: Machine<A>,
    tools: Tools<A>,
    request: &ReportRequest<'_>,
    output: &mut W,
) -> Result<(), AnswerFault>
    // Where the source's bytes are known, the output is the report of their meaning.
    ensures reports { IfSome (R.remaining source.old)
        (λ bytes. Reports (setup_of machine tools) bytes request.now (W.written output.old)
        (W.written output.new) result) }
    // A fault of reading or writing results only from a device that failed.
    ensures source { result ≡ Err (AnswerFault.Read Device) →
        Rises (R.failures source.old) (R.failures source.new) }
    ensures sink { FailsByOutput result (W.failures output.old) (W.failures output.new) }
    ensures faults { IfErr result OfCertifying }
{
    let program = Program::read(alloc, source)?;
    let framed = match framed_job(alloc, &program, machine, tools) {
        Ok(framed) => framed,
        Err(refusal) => {
            let (setting, fault) = (refusal.setting, refusal.fault);
            return Err(report_rejection(&program, setting, fault, request, output));
        }
    };
    let text = ReportedText::Own(&program, request.figures);
    report_job(alloc, &text, framed, request, output)
}
