ghost use Rattle.std.specs.Prelude.{◌≡◌};
ghost use Rattle.ngc_dialect_choice.specs.Choice.{AnswersByMachine, with_dialect};
ghost use Rattle.ngc_inputs.specs.Faults.{fault_line};
ghost use Rattle.ngc_inputs.specs.Unread.{SourceFails};
ghost use Rattle.ngc_inputs.specs.declared.fault.AnswerFault.TheVariants.{Input as Unread};
ghost use Rattle.ngc_simulator.specs.Answers.{Answers, IsQuiet, Takes};
ghost use Rattle.ngc_simulator.specs.Status.{IsStatus};

use crate::choice::{deciding_file, other_name, with_dialect};
use crate::key::key_of;
use ngc_command_line::Options;
use ngc_inputs::{AnswerFault, Files, add_fault_line};
use ngc_simulator::answer;
use ngc_text::{Chunk, InputFault, Sink};
use std::alloc::Global;

// Writes the line of a file that isn't read.
fn report<E: Sink>(fault: InputFault, errors: &mut E)
    ensures { Takes
        (record {
          old = E.written errors.old;
          new = E.written errors.new;
          failures = E.failures errors.old;
          failures_now = E.failures errors.new;
        }) (fault_line (Unread fault)) }
{
    let mut chunk = Chunk::new();
    add_fault_line(&mut chunk, &AnswerFault::Input(fault));
    let _ = chunk.write_out(errors);
}

// Does what the options request with this language.
fn answer_in<F: Files, W: Sink, E: Sink>(
    alloc: Global,
    options: &Options<'_>,
    dialect: Option<&str>,
    files: &mut F,
    output: &mut W,
    errors: &mut E,
) -> u8
    ensures answers { Answers
        (record {
          bytes = F.bytes files.old;
          fails = SourceFails F.R.remaining F.R.failures;
          failures = F.failures files.old;
          failures_now =
              F.failures files.new;
        }) (with_dialect dialect.entry options.now)
        (record {
          old = W.written output.old;
          new = W.written output.new;
          failures = W.failures output.old;
          failures_now =
              W.failures output.new;
        })
        (record {
          old = E.written errors.old;
          new = E.written errors.new;
          failures = E.failures errors.old;
          failures_now = E.failures errors.new;
        }) result }
    ensures status { IsStatus result }
    ensures done { result ≡ 0 → W.failures output.new ≡ W.failures output.old }
    ensures quiet { IsQuiet (with_dialect dialect.entry options.now) → result ≡ 0 →
        E.written errors.new ≡ E.written errors.old }
{
    // A pattern binds the options: the prover's borrow checker refuses a plain `let`.
    let Some(chosen) = Some(with_dialect(options, dialect)) else {
        unreachable!()
    };
    answer(alloc, &chosen, files, output, errors)
}

/// Does what the options request, as `answer` does, and reads the program in the language of
/// `--dialect`, where `ngc` names our own, or else in that of the machine file's key `dialect`, or else in
/// our own. If a machine file that decides can't be read, it does nothing and reports that: status 1.
pub fn answer_by_machine<F: Files, W: Sink, E: Sink>(
    alloc: Global,
    options: &Options<'_>,
    files: &mut F,
    output: &mut W,
    errors: &mut E,
) -> u8
    // Of the files as they are at the call, although the machine file is read twice.
    ensures answers { AnswersByMachine
        (record {
          bytes = F.bytes files.old;
          fails = SourceFails F.R.remaining F.R.failures;
          failures = F.failures files.old;
          failures_now =
              F.failures files.new;
        }) options.now
        (record {
          old = W.written output.old;
          new = W.written output.new;
          failures = W.failures output.old;
          failures_now =
              W.failures output.new;
        })
        (record {
          old = E.written errors.old;
          new = E.written errors.new;
          failures = E.failures errors.old;
          failures_now = E.failures errors.new;
        }) result }
    ensures status { IsStatus result }
    ensures done { result ≡ 0 → W.failures output.new ≡ W.failures output.old }
{
    let Some(file) = deciding_file(options) else {
        let name = other_name(options);
        return answer_in(alloc, options, name, files, output, errors);
    };
    match key_of(alloc, file, files) {
        Ok(name) => answer_in(alloc, options, name, files, output, errors),
        Err(fault) => {
            report(fault, errors);
            1
        }
    }
}
