ghost use Rattle.std.specs.Prelude.{◌≡◌};
ghost use Rattle.ngc_simulator.specs.Answers.{Answers, ResultsBy, IsQuiet, inputs_of};
ghost use Rattle.ngc_inputs.specs.Faults.{FailsByOutput};
ghost use Rattle.ngc_simulator.specs.Status.{IsStatus};
ghost use Rattle.ngc_inputs.specs.Unread.{FailsByInput, SourceFails};

use crate::adapting::adapt_files;
use crate::certifier::certify_files;
use crate::checking::check_files;
use crate::done::Done;
use crate::drawing_files::draw_files;
use crate::guide::{write_help, write_version};
use crate::lister::list_files;
use crate::living::requested_live;
use crate::making::machine_files;
use crate::placing::place_files;
use crate::reporting_files::report_files;
use crate::running::requested_run;
use crate::showing::show_files;
use crate::through::requested_run_through;
use ngc_command_line::Options;
use ngc_fault_texts::{ExplainFault, explain};
use ngc_inputs::{AnswerFault, Files, add_fault_line};
use ngc_program_report::add_time_line;
use ngc_text::{Chunk, Sink, write_all};
use std::alloc::Global;

fn run_command<F: Files, W: Sink>(
    alloc: Global,
    options: &Options<'_>,
    files: &mut F,
    output: &mut W,
) -> Result<Done, AnswerFault>
    ensures comes { ResultsBy (F.bytes files.old) options.now (W.written output.old)
        (W.written output.new) result }
    ensures unread { FailsByInput (SourceFails F.R.remaining F.R.failures) (F.bytes files.old)
        (inputs_of options.now) (F.failures files.old) (F.failures files.new) result }
    ensures sink { FailsByOutput result (W.failures output.old) (W.failures output.new) }
{
    match options {
        Options::List(options) => list_files(alloc, options, files, output),
        Options::Certify(options) => certify_files(alloc, options, files, output),
        Options::Check(options) => check_files(alloc, options, files, output),
        Options::Run(options) => requested_run(alloc, options, files, output),
        Options::RunThrough(options) => requested_run_through(alloc, options, files, output),
        Options::Live(options) => requested_live(alloc, options, files, output),
        Options::Draw(options) => draw_files(alloc, options, files, output),
        Options::Show(options) => show_files(alloc, options, files, output),
        Options::Report(options) => report_files(alloc, options, files, output),
        Options::Place(options) => place_files(alloc, options, files, output),
        Options::Adapt(options) => adapt_files(alloc, options, files, output),
        Options::Machine(options) => machine_files(alloc, options, files, output),
        Options::Explain(number) => match explain(*number, output) {
            Ok(()) => Ok(Done::Quietly),
            Err(ExplainFault::Unknown) => Err(AnswerFault::UnknownFault),
            Err(ExplainFault::Write(fault)) => Err(AnswerFault::Write(fault)),
        },
        Options::Help(command) => {
            write_help(alloc, *command, output)?;
            Ok(Done::Quietly)
        }
        Options::Version => {
            write_version(output)?;
            Ok(Done::Quietly)
        }
    }
}

/// Does what the options request: writes output to the first sink, and the line of a fault, or of
/// the time of a run to the end, or the report of a program that is adapted, to the second. It
/// returns the exit status: 0 for done, 1 for input, output or memory, 3 for a file or a program
/// that is refused, 4 for a certificate that is refused or isn't made.
pub fn answer<F: Files, W: Sink, E: Sink>(
    alloc: Global,
    options: &Options<'_>,
    files: &mut F,
    output: &mut W,
    errors: &mut E,
) -> u8
    // Of the files that the options name: the listing, the certificate, the word that it is
    // accepted, the log of the run, or a fault, and the status and the second sink show which.
    ensures answers { Answers
        (record {
          bytes = F.bytes files.old;
          fails = SourceFails F.R.remaining F.R.failures;
          failures = F.failures files.old;
          failures_now =
              F.failures files.new;
        }) options.now
        (record {
          old = W.written output.old;
          new = W.written output.new;
          failures = W.failures output.old;
          failures_now =
              W.failures output.new;
        })
        (record {
          old = E.written errors.old;
          new = E.written errors.new;
          failures = E.failures errors.old;
          failures_now = E.failures errors.new;
        }) result }
    ensures status { IsStatus result }
    // A command with status 0 has written its output. To the second sink it has written only the
    // time of a run to the end or the report of an adapted program.
    ensures done { result ≡ 0 → W.failures output.new ≡ W.failures output.old }
    ensures quiet { IsQuiet options.now → result ≡ 0 → E.written errors.new ≡ E.written errors.old }
{
    match run_command(alloc, options, files, output) {
        Ok(Done::Quietly) => 0,
        Ok(Done::RunThrough(time)) => {
            let mut chunk = Chunk::new();
            add_time_line(&mut chunk, &time);
            let _ = chunk.write_out(errors);
            0
        }
        Ok(Done::WithNotes(notes)) => {
            let _ = write_all(errors, notes.text.as_slice());
            if notes.is_written { 0 } else { 3 }
        }
        Err(fault) => {
            let mut chunk = Chunk::new();
            add_fault_line(&mut chunk, &fault);
            let _ = chunk.write_out(errors);
            fault.status()
        }
    }
}
