//! Programs for other controls, printed as programs in our own language.
ghost use Rattle.std.specs.Prelude.{◌≡◌, false, true, unwrap_or, IfErr, IfOk, Some, codes};
ghost use Rattle.ngc_canonical.specs.Interpreter.{setup_of};
ghost use Rattle.ngc_dialect_note_texts.specs.Texts.{notes_text};
ghost use Rattle.ngc_dialect_notes.specs.Notes.{no_notes};
ghost use Rattle.ngc_report.specs.declared.form.Form.TheVariants.{Words as words};
ghost use Rattle.ngc_plain_program.specs.Programs.{lines_of};
ghost use Rattle.ngc_simulator.specs.Adapting.{AdaptsDialect, PrintsLines, unprintable_text};
ghost use Rattle.ngc_simulator.specs.Answers.{AdaptResult, adapt_inputs};
ghost use Rattle.ngc_inputs.specs.Faults.{FailsByOutput};
ghost use Rattle.ngc_inputs.specs.Unread.{FailsByInput, SourceFails};

use crate::dialects::{DialectFiles, Sent, read_sent, traced_at};
use crate::done::{Done, Notes};
use ngc_command_line::AdaptOptions;
use ngc_dialect_execution::{KeptLine, Traced, Wanted};
use ngc_dialect_note_texts::write_notes;
use ngc_dialect_notes::Notes as ProgramNotes;
use ngc_inputs::{AnswerFault, Files};
use ngc_margins::Changes;
use ngc_plain_program::{is_printable, write_lines};
use ngc_report::Form;
use ngc_text::{Device, Sink, write_all};
use std::alloc::Global;

const EVERYTHING: Wanted = Wanted {
    notes: true,
    lines: true,
};

// Returns notes that the lines of a program can't be printed.
fn unprintable(alloc: Global) -> Result<Notes, AnswerFault>
    ensures notes { IfOk result (λ notes. (notes.is_written ≡ false)
        × (notes.text.items ≡ unprintable_text)) }
    ensures fault { IfErr result (λ e. e ≡ AnswerFault.Memory) }
{
    let mut text = Device::new(Vec::new(alloc));
    match write_all(
        &mut text,
        b"Nothing is written: the program has over 100,000 lines in our language, or one of over 256 characters.\n",
    ) {
        Ok(()) => Ok(Notes {
            text: text.into_inner(),
            is_written: false,
        }),
        Err(_) => Err(AnswerFault::Memory),
    }
}

// Returns the notes on a program that is written.
fn noted(alloc: Global, notes: Option<ProgramNotes>) -> Result<Notes, AnswerFault>
    ensures notes { IfOk result (λ told. (told.is_written ≡ true)
        × (told.text.items ≡ notes_text words (unwrap_or notes no_notes))) }
    ensures fault { IfErr result (λ e. e ≡ AnswerFault.Memory) }
{
    let notes = notes.unwrap_or(ProgramNotes::none());
    let mut text = Device::new(Vec::new(alloc));
    match write_notes(Form::Words, &notes, &mut text) {
        Ok(()) => Ok(Notes {
            text: text.into_inner(),
            is_written: true,
        }),
        Err(_) => Err(AnswerFault::Memory),
    }
}

// Writes the plain lines of a program, or returns notes on why they aren't written.
fn print_lines<W: Sink>(
    alloc: Global,
    lines: &[KeptLine<Global>],
    notes: Option<ProgramNotes>,
    output: &mut W,
) -> Result<Notes, AnswerFault>
    ensures prints { PrintsLines (lines_of lines.now) notes (W.written output.old)
        (W.written output.new) result }
    ensures sink { FailsByOutput result (W.failures output.old) (W.failures output.new) }
{
    if !is_printable(lines) {
        return unprintable(alloc);
    }
    let notes = noted(alloc, notes)?;
    match write_lines(lines, output) {
        Ok(()) => Ok(notes),
        Err(fault) => Err(AnswerFault::Write(fault)),
    }
}

// Writes a program in our own language, or returns notes on why it isn't written.
fn adapt_sent<W: Sink>(
    alloc: Global,
    sent: &Sent,
    block_delete: bool,
    output: &mut W,
) -> Result<Done, AnswerFault>
    ensures adapts { AdaptsDialect sent.now.dialect
        (setup_of sent.now.shop.machine sent.now.shop.tools) block_delete sent.now.text.items
        (W.written output.old) (W.written output.new) result }
    ensures sink { FailsByOutput result (W.failures output.old) (W.failures output.new) }
{
    let text = sent.text.as_slice();
    let shop = &sent.shop;
    let traced = match traced_at(alloc, EVERYTHING, sent.dialect, text, shop, block_delete)? {
        Ok(traced) => traced,
        Err(notes) => return Ok(Done::WithNotes(notes)),
    };
    let Traced { notes, lines, .. } = traced;
    let Some(lines) = lines else {
        return Err(AnswerFault::Memory);
    };
    let told = print_lines(alloc, lines.as_slice(), notes, output)?;
    Ok(Done::WithNotes(told))
}

/// Writes a program for a control as a program in our own language: its plain lines, in the order of
/// execution. Notes say what its lines leave out or mean otherwise, or why it is refused.
pub(crate) fn adapt_files<F: Files, W: Sink>(
    alloc: Global,
    options: &AdaptOptions<'_>,
    files: &mut F,
    output: &mut W,
) -> Result<Done, AnswerFault>
    ensures comes { AdaptResult (F.bytes files.old) options.now (W.written output.old)
        (W.written output.new) result }
    ensures unread { FailsByInput (SourceFails F.R.remaining F.R.failures) (F.bytes files.old)
        (adapt_inputs options.now) (F.failures files.old) (F.failures files.new) result }
    ensures sink { FailsByOutput result (W.failures output.old) (W.failures output.new) }
{
    let names = DialectFiles {
        control: options.from,
        machine: options.machine,
        tools: options.tools,
        changes: Changes::none(),
        program: options.program,
    };
    let sent = read_sent(alloc, &names, files)?;
    adapt_sent(alloc, &sent, options.delete, output)
}
