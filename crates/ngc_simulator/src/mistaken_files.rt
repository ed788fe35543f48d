//! The mistake of a machine file or a tool table that is refused, written before its fault.
ghost use Rattle.std.specs.Prelude.{◌≡◌, ◌⊎◌, IfOk, OnErr, OnOk, Some, flat_map, option_map};
ghost use Rattle.std.specs.Io.KnownBytes.{Appends, Keeps};
ghost use Rattle.ngc_text.specs.Failures.{CountsFailure};
ghost use Rattle.ngc_text.specs.Written.{AppendsPrefix};
ghost use Rattle.ngc_sentences.specs.Saying.{Says};
ghost use Rattle.ngc_machine_files.specs.Faults.{number_of as file_number};
ghost use Rattle.ngc_refused_files.specs.Stops.{StopsWhere};
ghost use Rattle.ngc_inputs.specs.Faults.{FailsByOutput};
ghost use Rattle.ngc_simulator.specs.Mistaken.{PlacedReportResultIs, ReportResultIs, OfText, ReportsMistake};
ghost use Rattle.ngc_simulator.specs.Mistaken.{fault_document, kind_of, mistake_document, mistake_fact};
ghost use Rattle.ngc_simulator.specs.Mistaken.{quoted_byte, reported_text, text_of};
ghost use Rattle.ngc_file_figures.specs.Files.{stored};
ghost use Rattle.ngc_inputs.specs.Setups.{AreFiguresIn, KeepsFiles};
ghost use Rattle.ngc_inputs.specs.Unread.{FailsByInput, SourceFails, setup_input, shop_inputs};

use ngc_inputs::{AnswerFault, Files, Shop, bytes_of, read_shop};
use ngc_machine_files::FileFault;
use ngc_machine_mistakes::write_mistake;
use ngc_margins::Changes;
use ngc_program_report::{opening, write_ending};
use ngc_report::{Form, say_escaped};
use ngc_sentences::{Page, Part, say};
use ngc_text::{Device, InputFault, Sink, WriteFault, write_all};
use ngc_tool_mistakes::write_mistake as write_tools_mistake;
use std::alloc::Global;

/// Writes a document that has the fault's number alone.
pub(crate) fn write_fault_document<W: Sink>(number: u16, output: &mut W) -> Result<(), WriteFault>
    ensures ok { OnOk result
        (Appends (W.written output.old) (W.written output.new) (fault_document number)) }
    ensures fault { OnErr result
        (AppendsPrefix (W.written output.old) (W.written output.new) (fault_document number)) }
    ensures counts { CountsFailure (W.failures output.old) (W.failures output.new) result }
{
    write_all(output, opening(Form::Json))?;
    write_ending(Form::Json, number, output)
}

fn say_byte<W: Sink>(byte: u8, page: &mut Page, output: &mut W)
    ensures { Says (W.written output.old) (W.written output.new)
        (W.failures output.old) (W.failures output.new) page.old page.new (quoted_byte byte) }
{
    if byte == b'\n' {
        say!(page, output; b"\\n");
    } else if byte < 32 {
        say!(page, output; b"?");
    } else {
        say_escaped(byte, page, output);
    }
}

fn say_quoted<W: Sink>(text: &[u8], page: &mut Page, output: &mut W)
    ensures { Says (W.written output.old) (W.written output.new)
        (W.failures output.old) (W.failures output.new) page.old page.new
        (flat_map quoted_byte text.now) }
{
    for byte in text {
        say_byte(*byte, page, output);
    }
}

#[tactic(auto, unfolding(crate::specs::Mistaken::mistake_fact))]
fn say_fact<W: Sink>(text: &[u8], page: &mut Page, output: &mut W)
    ensures { Says (W.written output.old) (W.written output.new)
        (W.failures output.old) (W.failures output.new) page.old page.new
        (mistake_fact text.now) }
{
    say!(page, output; b",\n{\"fact\":\"reason\",\"text\":\"");
    say_quoted(text, page, output);
    say!(page, output; b"\"}");
}

fn write_fact<W: Sink>(text: &[u8], output: &mut W) -> Result<(), WriteFault>
    ensures ok { OnOk result
        (Appends (W.written output.old) (W.written output.new) (mistake_fact text.now)) }
    ensures fault { OnErr result
        (AppendsPrefix (W.written output.old) (W.written output.new) (mistake_fact text.now)) }
    ensures counts { CountsFailure (W.failures output.old) (W.failures output.new) result }
{
    let mut page = Page::new();
    say_fact(text, &mut page, output);
    page.finish(output)
}

// Writes a document that has a mistake in words, and the fault's number.
fn write_mistake_document<W: Sink>(
    text: &[u8],
    number: u16,
    output: &mut W,
) -> Result<(), WriteFault>
    ensures ok { OnOk result
        (Appends (W.written output.old) (W.written output.new) (mistake_document number text.now)) }
    ensures fault { OnErr result
        (AppendsPrefix (W.written output.old) (W.written output.new)
        (mistake_document number text.now)) }
    ensures counts { CountsFailure (W.failures output.old) (W.failures output.new) result }
{
    write_all(output, opening(Form::Json))?;
    write_fact(text, output)?;
    write_ending(Form::Json, number, output)
}

/// A file that can be refused.
#[derive(Clone, Copy)]
pub enum RefusedFile {
    Machine,
    Tools,
}

/// What is written of a file that is refused: how, which file, its name, and its fault.
#[derive(Clone, Copy)]
pub struct Refusal<'a> {
    pub form: Form,
    pub file: RefusedFile,
    pub name: &'a str,
    pub fault: FileFault,
}

// Writes the mistake in these bytes in words, or nothing if memory runs out.
fn write_words<W: Sink>(
    alloc: Global,
    refusal: &Refusal<'_>,
    bytes: &[u8],
    output: &mut W,
) -> Result<(), WriteFault>
    ensures ok { OnOk result (StopsWhere bytes.now (λ stop.
        Appends (W.written output.old) (W.written output.new)
        (text_of refusal.now.file refusal.now.name.now refusal.now.fault bytes.now stop))
        ⊎ Keeps (W.written output.old) (W.written output.new)) }
    ensures fault { OnErr result (StopsWhere bytes.now (λ stop.
        AppendsPrefix (W.written output.old) (W.written output.new)
        (text_of refusal.now.file refusal.now.name.now refusal.now.fault bytes.now stop))) }
    ensures counts { CountsFailure (W.failures output.old) (W.failures output.new) result }
{
    match refusal.file {
        RefusedFile::Machine => write_mistake(alloc, refusal.name, bytes, refusal.fault, output),
        RefusedFile::Tools => write_tools_mistake(
            alloc,
            refusal.name,
            bytes,
            refusal.fault,
            output,
        ),
    }
}

// Writes the document of the mistake in these bytes, or nothing if memory runs out.
fn write_document<W: Sink>(
    alloc: Global,
    refusal: &Refusal<'_>,
    bytes: &[u8],
    output: &mut W,
) -> Result<(), WriteFault>
    ensures ok { OnOk result (StopsWhere bytes.now (λ stop.
        Appends (W.written output.old) (W.written output.new)
        (mistake_document (file_number refusal.now.fault)
        (text_of refusal.now.file refusal.now.name.now refusal.now.fault bytes.now stop)))
        ⊎ Keeps (W.written output.old) (W.written output.new)) }
    ensures fault { OnErr result (StopsWhere bytes.now (λ stop.
        AppendsPrefix (W.written output.old) (W.written output.new)
        (mistake_document (file_number refusal.now.fault)
        (text_of refusal.now.file refusal.now.name.now refusal.now.fault bytes.now stop)))) }
    ensures counts { CountsFailure (W.failures output.old) (W.failures output.new) result }
{
    let mut sink = Device::new(Vec::new(alloc));
    if write_words(alloc, refusal, bytes, &mut sink).is_err() {
        return Ok(());
    }
    let text = sink.into_inner();
    if text.is_empty() {
        return Ok(());
    }
    write_mistake_document(text.as_slice(), refusal.fault.number(), output)
}

fn write_report<W: Sink>(
    alloc: Global,
    refusal: &Refusal<'_>,
    bytes: &[u8],
    output: &mut W,
) -> Result<(), WriteFault>
    ensures ok { OnOk result (StopsWhere bytes.now (λ stop.
        Appends (W.written output.old) (W.written output.new)
        (reported_text refusal.now.form refusal.now.fault
        (text_of refusal.now.file refusal.now.name.now refusal.now.fault bytes.now stop)))
        ⊎ Keeps (W.written output.old) (W.written output.new)) }
    ensures fault { OnErr result (StopsWhere bytes.now (λ stop.
        AppendsPrefix (W.written output.old) (W.written output.new)
        (reported_text refusal.now.form refusal.now.fault
        (text_of refusal.now.file refusal.now.name.now refusal.now.fault bytes.now stop)))) }
    ensures counts { CountsFailure (W.failures output.old) (W.failures output.new) result }
{
    match refusal.form {
        Form::Words => write_words(alloc, refusal, bytes, output),
        Form::Json => write_document(alloc, refusal, bytes, output),
    }
}

// Writes the mistake in the file's bytes, which are read once more. Nothing is written if memory
// runs out.
fn report_mistake<F: Files, W: Sink>(
    alloc: Global,
    refusal: &Refusal<'_>,
    files: &mut F,
    output: &mut W,
) -> Result<(), AnswerFault>
    ensures tells { ReportsMistake
        (OfText refusal.now.form refusal.now.file refusal.now.name.now refusal.now.fault
        (F.bytes files.old (Some refusal.now.name.now)))
        (W.written output.old) (W.written output.new) result }
    ensures keeps { KeepsFiles (F.bytes files.old) (F.bytes files.new) }
    ensures unread { FailsByInput (SourceFails F.R.remaining F.R.failures) (F.bytes files.old)
        (setup_input (kind_of refusal.now.file) (Some refusal.now.name.now)) (F.failures files.old)
        (F.failures files.new) result }
    ensures sink { FailsByOutput result (W.failures output.old) (W.failures output.new) }
{
    if refusal.fault == FileFault::Memory {
        return Ok(());
    }
    let bytes = match bytes_of(alloc, refusal.name, files) {
        Ok(bytes) => bytes,
        Err(InputFault::Device) => return Err(AnswerFault::Input(InputFault::Device)),
        Err(InputFault::Memory | InputFault::TooLong) => return Ok(()),
    };
    write_report(alloc, refusal, bytes.as_slice(), output)?;
    Ok(())
}

/// Returns the machine and its tools, as `read_shop` reads them, or the fault for which there are
/// none. Where it refuses a file, the file's mistake is written first, in words, or as a document
/// with the words and the fault's number: 901 where the file isn't read a second time, 902 where the
/// write fails.
pub(crate) fn read_shop_reporting<F: Files, W: Sink>(
    alloc: Global,
    form: Form,
    machine: &str,
    tools: Option<&str>,
    files: &mut F,
    output: &mut W,
) -> Result<Shop, AnswerFault>
    ensures said { ReportResultIs form (F.bytes files.old) (Some machine.now)
        (option_map (λ n. n.now) tools.entry) (W.written output.old) (W.written output.new) result }
    ensures figures { IfOk result (λ shop. AreFiguresIn (F.bytes files.old) (Some machine.now)
        (option_map (λ n. n.now) tools.entry) (stored shop.figures)) }
    ensures keeps { KeepsFiles (F.bytes files.old) (F.bytes files.new) }
    // The first file that isn't read can't be opened, its source fails, or it is too long.
    ensures unread { FailsByInput (SourceFails F.R.remaining F.R.failures) (F.bytes files.old)
        (shop_inputs (Some machine.now) (option_map (λ n. n.now) tools.entry))
        (F.failures files.old) (F.failures files.new) result }
    ensures sink { FailsByOutput result (W.failures output.old) (W.failures output.new) }
{
    match (read_shop(alloc, Some(machine), tools, files), tools) {
        (Ok(shop), _) => Ok(shop),
        (Err(AnswerFault::Machine(fault)), _) => {
            let refusal = Refusal {
                form,
                file: RefusedFile::Machine,
                name: machine,
                fault,
            };
            report_mistake(alloc, &refusal, files, output)?;
            Err(AnswerFault::Machine(fault))
        }
        (Err(AnswerFault::Tools(fault)), Some(tools)) => {
            let refusal = Refusal {
                form,
                file: RefusedFile::Tools,
                name: tools,
                fault,
            };
            report_mistake(alloc, &refusal, files, output)?;
            Err(AnswerFault::Tools(fault))
        }
        (Err(fault), _) => Err(fault),
    }
}

/// Returns the machine, with these changes, and its tools, or the fault for
/// which there are none, as `read_shop_reporting` does.
pub(crate) fn read_placed_reporting<F: Files, W: Sink>(
    alloc: Global,
    form: Form,
    machine: &str,
    tools: Option<&str>,
    changes: &Changes,
    files: &mut F,
    output: &mut W,
) -> Result<Shop, AnswerFault>
    ensures said { PlacedReportResultIs form (F.bytes files.old) (Some machine.now)
        (option_map (λ n. n.now) tools.entry) changes.now (W.written output.old)
        (W.written output.new) result }
    ensures figures { IfOk result (λ shop. AreFiguresIn (F.bytes files.old) (Some machine.now)
        (option_map (λ n. n.now) tools.entry) (stored shop.figures)) }
    ensures keeps { KeepsFiles (F.bytes files.old) (F.bytes files.new) }
    // The first file that isn't read can't be opened, its source fails, or it is too long.
    ensures unread { FailsByInput (SourceFails F.R.remaining F.R.failures) (F.bytes files.old)
        (shop_inputs (Some machine.now) (option_map (λ n. n.now) tools.entry))
        (F.failures files.old) (F.failures files.new) result }
    ensures sink { FailsByOutput result (W.failures output.old) (W.failures output.new) }
{
    match read_shop_reporting(alloc, form, machine, tools, files, output) {
        Ok(shop) => match shop.with_changes(changes) {
            Ok(changed) => Ok(changed),
            Err(fault) => Err(AnswerFault::Machine(fault)),
        },
        Err(fault) => Err(fault),
    }
}
