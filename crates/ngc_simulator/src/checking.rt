ghost use Rattle.std.specs.Prelude.{◌≡◌, ℕ, List, IfErr, IfSome, Ok, Err};
ghost use Rattle.ngc_canonical.specs.Interpreter.{setup_of};
ghost use Rattle.ngc_certificate_text.specs.declared.fault.CertificateFault.TheVariants.{ReadFailed};
ghost use Rattle.ngc_text.specs.Failures.{Rises};
ghost use Rattle.ngc_line_reader.specs.ProgramText.{program_of, HaveReadings};
ghost use Rattle.ngc_line_reader.specs.ProgramView.{text_in};
ghost use Rattle.ngc_simulator.specs.Answers.{CheckResult, OwnCheckResult, check_inputs};
ghost use Rattle.ngc_simulator.specs.Answers.{own_check_inputs};
ghost use Rattle.ngc_inputs.specs.Faults.{FailsByOutput, OfChecking};
ghost use Rattle.ngc_inputs.specs.Jobs.{Checks};
ghost use Rattle.ngc_inputs.specs.Unread.{FailsByInput, SourceFails};

use crate::dialect_certificates::check_dialect;
use crate::done::Done;
use ngc_command_line::CheckOptions;
use ngc_inputs::{AnswerFault, Files, judge, open_file, read_placed, read_program};
use ngc_line_reader::Program;
use ngc_machine_files::{Machine, Tools};
use ngc_text::{Sink, Source, write_all};
use std::alloc::{Allocator, Global};

/// Writes `accepted` if the certificate from a source shows that a program is safe on a machine
/// with its tools. Otherwise nothing is written; if a write fails, a prefix is written.
pub fn check_program<A: Allocator + Copy, S: Source, W: Sink>(
    alloc: A,
    program: &Program<A>,
    machine: &Machine<A>,
    tools: &Tools<A>,
    certificate: &mut S,
    output: &mut W,
) -> Result<(), AnswerFault>
    // For any file from which the program was read, where the bytes of the certificate are known:
    // the result is that of both.
    ensures checks { (bytes : List ℕ) → program_of bytes ≡ Ok (text_in program.now) →
        HaveReadings (text_in program.now).lines →
        IfSome (S.remaining certificate.old)
        (λ text. Checks (setup_of machine.now tools.now) bytes text (W.written output.old)
        (W.written output.new) result) }
    // A fault of reading or writing results only from a device that failed.
    ensures source { result ≡ Err (AnswerFault.Certificate ReadFailed) →
        Rises (S.failures certificate.old) (S.failures certificate.new) }
    ensures sink { FailsByOutput result (W.failures output.old) (W.failures output.new) }
    ensures faults { IfErr result OfChecking }
{
    let verdict = judge(alloc, program, machine, tools, certificate)?;
    match verdict {
        Ok(_) => {}
        Err(fault) => return Err(AnswerFault::Check(fault)),
    }
    write_all(output, b"accepted\n")?;
    Ok(())
}

// Checks a certificate for a program in our own language. The program is read before the
// certificate's file is opened.
fn check_own<F: Files, W: Sink>(
    alloc: Global,
    options: &CheckOptions<'_>,
    files: &mut F,
    output: &mut W,
) -> Result<Done, AnswerFault>
    ensures comes { OwnCheckResult (F.bytes files.old) options.now (W.written output.old)
        (W.written output.new) result }
    ensures unread { FailsByInput (SourceFails F.R.remaining F.R.failures) (F.bytes files.old)
        (own_check_inputs options.now) (F.failures files.old) (F.failures files.new) result }
    ensures sink { FailsByOutput result (W.failures output.old) (W.failures output.new) }
{
    let shop = read_placed(
        alloc,
        Some(options.machine),
        Some(options.tools),
        &options.changes,
        files,
    )?;
    let program = read_program(alloc, options.program, files)?;
    let mut certificate = open_file(Some(options.certificate), files)?;
    check_program(
        alloc,
        &program,
        &shop.machine,
        &shop.tools,
        &mut certificate,
        output,
    )?;
    Ok(Done::Quietly)
}

// Checks a certificate.
pub(crate) fn check_files<F: Files, W: Sink>(
    alloc: Global,
    options: &CheckOptions<'_>,
    files: &mut F,
    output: &mut W,
) -> Result<Done, AnswerFault>
    ensures comes { CheckResult (F.bytes files.old) options.now (W.written output.old)
        (W.written output.new) result }
    ensures unread { FailsByInput (SourceFails F.R.remaining F.R.failures) (F.bytes files.old)
        (check_inputs options.now) (F.failures files.old) (F.failures files.new) result }
    ensures sink { FailsByOutput result (W.failures output.old) (W.failures output.new) }
{
    match options.dialect {
        None => check_own(alloc, options, files, output),
        Some(control) => check_dialect(alloc, control, options, files, output),
    }
}
