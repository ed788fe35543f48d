//! A command with `--out`.
ghost use Rattle.std.specs.Prelude.{◌≡◌, [], IfSome, None};
ghost use Rattle.ngc_dialect_choice.specs.Choice.{AnswersByMachine};
ghost use Rattle.ngc_inputs.specs.Unread.{SourceFails};
ghost use Rattle.ngc_output_answers.specs.Answers.{AnswersFile};
ghost use Rattle.ngc_output_answers.specs.Faults.{output_fault_text};
ghost use Rattle.ngc_output_file.specs.Names.{HasName, names_of};
ghost use Rattle.ngc_output_file.specs.Outputs.{KeepsAll};
ghost use Rattle.ngc_simulator.specs.Answers.{Takes};

use crate::fault::OutputFault;
use ngc_command_line::Options;
use ngc_dialect_choice::answer_by_machine;
use ngc_inputs::Files;
use ngc_output_file::{Outputs, is_one_of, names_of};
use ngc_text::{Sink, write_all};
use std::alloc::Global;

// Writes the lines of a fault, and returns its status.
fn stop<E: Sink>(fault: OutputFault, errors: &mut E) -> u8
    ensures status { result ≡ 1 }
    ensures tells { Takes
        (record {
          old = E.written errors.old;
          new = E.written errors.new;
          failures = E.failures errors.old;
          failures_now = E.failures errors.new;
        }) (output_fault_text fault) }
{
    let _ = write_all(errors, fault.text());
    1
}

// Does what the options request, with this file as its output.
fn answer_in_draft<F: Files, D: Outputs, E: Sink>(
    alloc: Global,
    options: &Options<'_>,
    name: &str,
    mut draft: D::Draft,
    files: &mut F,
    outputs: &mut D,
    errors: &mut E,
) -> u8
    requires { IfSome (D.Draft.written draft) (λ text. text ≡ []) }
    ensures { AnswersFile
        (record {
          bytes = F.bytes files.old;
          fails = SourceFails F.R.remaining F.R.failures;
          failures = F.failures files.old;
          failures_now = F.failures files.new;
        }) options.now name.now (record { old = D.bytes outputs.old; new = D.bytes outputs.new })
        (record {
          old = E.written errors.old;
          new = E.written errors.new;
          failures = E.failures errors.old;
          failures_now = E.failures errors.new;
        }) result }
{
    let status = answer_by_machine(alloc, options, files, &mut draft, errors);
    if status != 0 {
        outputs.discard(draft);
        return status;
    }
    match outputs.finish(draft, name) {
        Ok(()) => status,
        Err(_) => stop(OutputFault::NotWritten, errors),
    }
}

fn answer_file<F: Files, D: Outputs, E: Sink>(
    alloc: Global,
    options: &Options<'_>,
    name: &str,
    files: &mut F,
    outputs: &mut D,
    errors: &mut E,
) -> u8
    ensures answers { AnswersFile
        (record {
          bytes = F.bytes files.old;
          fails = SourceFails F.R.remaining F.R.failures;
          failures = F.failures files.old;
          failures_now = F.failures files.new;
        }) options.now name.now (record { old = D.bytes outputs.old; new = D.bytes outputs.new })
        (record {
          old = E.written errors.old;
          new = E.written errors.new;
          failures = E.failures errors.old;
          failures_now = E.failures errors.new;
        }) result }
    ensures input { HasName name.now (names_of options.now) → result ≡ 1 }
{
    if is_one_of(name, &names_of(options), outputs) {
        return stop(OutputFault::Input, errors);
    }
    match outputs.begin(name) {
        Ok(draft) => answer_in_draft(alloc, options, name, draft, files, outputs, errors),
        Err(_) => stop(OutputFault::NotMade, errors),
    }
}

/// Does what the options request. With a name for the output, the file of that name gets what the sink would
/// have got: all of it, or, if the status isn't 0, nothing, and a file that had the name stays as it was.
/// A file that the command line names to be read isn't written: status 1.
pub fn answer_to<F: Files, D: Outputs, W: Sink, E: Sink>(
    alloc: Global,
    options: &Options<'_>,
    out: Option<&str>,
    files: &mut F,
    outputs: &mut D,
    output: &mut W,
    errors: &mut E,
) -> u8
    // Without a name the sink gets the output, and no file is written.
    ensures sink { out.entry ≡ None → AnswersByMachine
        (record {
          bytes = F.bytes files.old;
          fails = SourceFails F.R.remaining F.R.failures;
          failures = F.failures files.old;
          failures_now = F.failures files.new;
        }) options.now
        (record {
          old = W.written output.old;
          new = W.written output.new;
          failures = W.failures output.old;
          failures_now = W.failures output.new;
        })
        (record {
          old = E.written errors.old;
          new = E.written errors.new;
          failures = E.failures errors.old;
          failures_now = E.failures errors.new;
        }) result }
    ensures no_file { out.entry ≡ None → KeepsAll (D.bytes outputs.old) (D.bytes outputs.new) }
    ensures file { IfSome out.entry (λ name. AnswersFile
        (record {
          bytes = F.bytes files.old;
          fails = SourceFails F.R.remaining F.R.failures;
          failures = F.failures files.old;
          failures_now = F.failures files.new;
        }) options.now name.now (record { old = D.bytes outputs.old; new = D.bytes outputs.new })
        (record {
          old = E.written errors.old;
          new = E.written errors.new;
          failures = E.failures errors.old;
          failures_now = E.failures errors.new;
        }) result) }
    ensures no_output { IfSome out.entry (λ _. W.written output.new ≡ W.written output.old) }
    ensures input { IfSome out.entry (λ name. HasName name.now (names_of options.now) → result ≡ 1) }
{
    match out {
        None => answer_by_machine(alloc, options, files, output, errors),
        Some(name) => answer_file(alloc, options, name, files, outputs, errors),
    }
}
