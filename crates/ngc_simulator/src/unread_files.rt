//! The fault of a program that can't be read, written before it is returned.
ghost use Rattle.std.specs.Prelude.{◌≡◌, [], ◌∷◌, Err, IfSome, OnErr, OnOk, Some};
ghost use Rattle.std.specs.Io.KnownBytes.{Appends};
ghost use Rattle.ngc_text.specs.Failures.{CountsFailure};
ghost use Rattle.ngc_text.specs.Written.{AppendsPrefix};
ghost use Rattle.ngc_line_reader.specs.ProgramText.{program_of};
ghost use Rattle.ngc_line_reader.specs.ProgramView.{FaultIs};
ghost use Rattle.ngc_line_reader.specs.declared.program.fault.ReadFault.TheVariants.{Device};
ghost use Rattle.ngc_simulator.specs.Answers.{program_input};
ghost use Rattle.ngc_inputs.specs.Faults.{FailsWith, OfExplaining};
ghost use Rattle.ngc_inputs.specs.Setups.{KeepsFiles};
ghost use Rattle.ngc_inputs.specs.Unread.{FailsByInput, SourceFails};
ghost use Rattle.ngc_simulator.specs.Unreadable.{ReportsUnreadableFile, is_of_text, marked_fault};
ghost use Rattle.ngc_simulator.specs.Unreadable.{unreadable_line, unreadable_text};

use ngc_inputs::{AnswerFault, Files, bytes_of};
use ngc_line_reader::ReadFault;
use ngc_program_report::{opening, write_ending};
use ngc_report::{Form, write_source_line};
use ngc_text::{InputFault, Sink, WriteFault, write_all};
use std::alloc::Global;

fn is_of_text(fault: ReadFault) -> bool
    ensures { result ≡ is_of_text fault }
{
    match fault {
        ReadFault::Line(..) | ReadFault::NoEnd | ReadFault::TooManyLines => true,
        ReadFault::Memory | ReadFault::Device => false,
    }
}

/// Returns the line that says that a program can't be read.
pub(crate) fn unreadable_line(form: Form) -> &'static [u8]
    ensures { result.now ≡ unreadable_line form }
{
    match form {
        Form::Words => b"The program can't be read.\n",
        Form::Json => b",\n{\"fact\":\"unreadable\"}",
    }
}

// Writes the line at fault, if there is one, with a mark below its column.
fn write_marked_fault<W: Sink>(
    form: Form,
    text: &[u8],
    fault: ReadFault,
    output: &mut W,
) -> Result<(), WriteFault>
    ensures ok { OnOk result
        (Appends (W.written output.old) (W.written output.new) (marked_fault form fault text.now)) }
    ensures fault { OnErr result
        (AppendsPrefix (W.written output.old) (W.written output.new)
        (marked_fault form fault text.now)) }
    ensures counts { CountsFailure (W.failures output.old) (W.failures output.new) result }
{
    match fault {
        ReadFault::Line(number, fault) => {
            write_source_line(form, text, number, fault.column, output)
        }
        ReadFault::NoEnd | ReadFault::TooManyLines | ReadFault::Memory | ReadFault::Device => {
            Ok(())
        }
    }
}

// Writes the report of a program's text that has a fault.
fn write_unreadable<W: Sink>(
    form: Form,
    text: &[u8],
    fault: ReadFault,
    output: &mut W,
) -> Result<(), WriteFault>
    ensures ok { OnOk result
        (Appends (W.written output.old) (W.written output.new)
        (unreadable_text form fault text.now)) }
    ensures fault { OnErr result
        (AppendsPrefix (W.written output.old) (W.written output.new)
        (unreadable_text form fault text.now)) }
    ensures counts { CountsFailure (W.failures output.old) (W.failures output.new) result }
{
    write_all(output, opening(form))?;
    write_all(output, unreadable_line(form))?;
    write_marked_fault(form, text, fault, output)?;
    write_ending(form, fault.number(), output)
}

/// Writes why the program of a named file can't be read, with the line at fault, and returns the
/// fault: 901 if the file, which is read once more, isn't read a second time, and 902 if the write
/// fails. Nothing is written if memory runs out.
pub(crate) fn report_unreadable<F: Files, W: Sink>(
    alloc: Global,
    form: Form,
    name: &str,
    fault: ReadFault,
    files: &mut F,
    output: &mut W,
) -> AnswerFault
    ensures tells { IfSome (F.bytes files.old (Some name.now))
        (λ bytes. FaultIs fault (program_of bytes) →
        ReportsUnreadableFile form (Some name.now) bytes (W.written output.old)
        (W.written output.new) result) }
    ensures keeps { KeepsFiles (F.bytes files.old) (F.bytes files.new) }
    // For either of the two sources of the file that failed.
    ensures unread { (fault ≡ Device →
        SourceFails F.R.remaining F.R.failures (F.bytes files.old (Some name.now))) →
        FailsByInput {T = Unit {0}} (SourceFails F.R.remaining F.R.failures) (F.bytes files.old)
        (program_input (Some name.now) ∷ []) (F.failures files.old) (F.failures files.new)
        (Err result) }
    ensures sink { FailsWith result (W.failures output.old) (W.failures output.new) }
    ensures faults { OfExplaining result }
{
    if !is_of_text(fault) {
        return AnswerFault::Read(fault);
    }
    let bytes = match bytes_of(alloc, name, files) {
        Ok(bytes) => bytes,
        Err(InputFault::Device) => return AnswerFault::Read(ReadFault::Device),
        Err(InputFault::Memory | InputFault::TooLong) => return AnswerFault::Read(fault),
    };
    match write_unreadable(form, bytes.as_slice(), fault, output) {
        Ok(()) => AnswerFault::Read(fault),
        Err(fault) => AnswerFault::Write(fault),
    }
}
