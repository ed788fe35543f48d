ghost use Rattle.std.specs.Prelude.{ℕ, List, IfErr};
ghost use Rattle.ngc_canonical.specs.State.{Setup};
ghost use Rattle.ngc_machine_model.specs.Headline.{job_of};
ghost use Rattle.ngc_checker.specs.Accepted.{commands_at};
ghost use Rattle.ngc_run_through.specs.Runs.{FailsByWriting};
ghost use Rattle.ngc_simulator.specs.Answers.{OwnRunResult, RunResult, own_run_inputs, run_inputs};
ghost use Rattle.ngc_simulator.specs.Answers.{run_writing};
ghost use Rattle.ngc_inputs.specs.Faults.{FailsByOutput, OfRunning};
ghost use Rattle.ngc_inputs.specs.Judging.{IsVerdict};
ghost use Rattle.ngc_job.specs.Job.{JobData};
ghost use Rattle.ngc_simulator.specs.DialectRuns.{IsJobVerdict, RunsJob};
ghost use Rattle.ngc_simulator.specs.Running.{Runs, RecordsRun};
ghost use Rattle.ngc_inputs.specs.Unread.{FailsByInput, SourceFails};

use crate::dialect_runs::run_dialect;
use crate::done::Done;
use crate::writing::{Writing, writing_of};
use ngc_checker::Accepted;
use ngc_command_line::RunOptions;
use ngc_events::{EventLine, read_events};
use ngc_inputs::{AnswerFault, Files, Verdict, bytes_of, judge_file, read_placed, read_program};
use ngc_run_log::{run, write_pulses, write_samples, write_timed_log};
use ngc_run_through::{Report, RunFault};
use ngc_text::Sink;
use std::alloc::{Allocator, Global};

// Runs the accepted program over events, and writes the requested output.
fn record_run<A: Allocator + Copy, W: Sink>(
    alloc: A,
    accepted: Accepted<A>,
    block_delete: bool,
    lines: &[EventLine],
    writing: Writing,
    output: &mut W,
) -> Result<Report, RunFault>
    ensures records { RecordsRun writing
        (job_of accepted.machine (commands_at block_delete accepted)) lines.now
        (W.written output.old) (W.written output.new) result }
    ensures counts { FailsByWriting result (W.failures output.old) (W.failures output.new) }
{
    match writing {
        Writing::Log => run(alloc, accepted, block_delete, lines, output),
        Writing::Times => write_timed_log(alloc, accepted, block_delete, lines, output),
        Writing::Dump => write_pulses(alloc, accepted, block_delete, lines, output),
        Writing::Samples(inverted) => {
            write_samples(alloc, accepted, block_delete, lines, inverted, output)
        }
    }
}

/// Runs a program at a setting of block delete over the events of a text, and writes its log or its
/// pulses.
///
/// `verdict` is what `check` or `judge` returned for the program. A program that is refused isn't
/// run, and nothing is written. A fault of the events, 711, 712 or 900, takes precedence over the
/// refusal. Where a write fails, a prefix of the output is written.
pub fn run_program<A: Allocator + Copy, W: Sink>(
    alloc: A,
    verdict: Verdict<A>,
    events: &[u8],
    block_delete: bool,
    writing: Writing,
    output: &mut W,
) -> Result<Report, AnswerFault>
    // For any files that the verdict is about: the result is that of these files and of the events.
    ensures runs { (setup : Setup) (bytes text : List ℕ) → IsVerdict setup bytes text verdict →
        Runs writing setup bytes text events.now block_delete (W.written output.old)
        (W.written output.new) result }
    // For any job and certificate that the verdict is about: the same of these.
    ensures job { (j : JobData) (text : List ℕ) → IsJobVerdict j text verdict →
        RunsJob writing j text events.now block_delete (W.written output.old)
        (W.written output.new) result }
    ensures sink { FailsByOutput result (W.failures output.old) (W.failures output.new) }
    ensures faults { IfErr result OfRunning }
{
    let lines = read_events(alloc, events)?;
    let accepted = verdict?;
    let report = record_run(
        alloc,
        accepted,
        block_delete,
        lines.as_slice(),
        writing,
        output,
    )?;
    Ok(report)
}

// Makes a run of a program in our own language over events. Each file is read before the next one is
// opened. A refusal of the certificate is returned only after the events are read and understood.
fn run_own<F: Files, W: Sink>(
    alloc: Global,
    options: &RunOptions<'_>,
    writing: Writing,
    files: &mut F,
    output: &mut W,
) -> Result<Done, AnswerFault>
    ensures comes { OwnRunResult (F.bytes files.old) options.now writing
        (W.written output.old) (W.written output.new) result }
    ensures unread { FailsByInput (SourceFails F.R.remaining F.R.failures) (F.bytes files.old)
        (own_run_inputs options.now) (F.failures files.old) (F.failures files.new) result }
    ensures sink { FailsByOutput result (W.failures output.old) (W.failures output.new) }
{
    let shop = read_placed(
        alloc,
        Some(options.machine),
        Some(options.tools),
        &options.changes,
        files,
    )?;
    let program = read_program(alloc, options.program, files)?;
    let verdict = judge_file(alloc, &program, &shop, options.certificate, files)?;
    let events = bytes_of(alloc, options.events, files)?;
    run_program(
        alloc,
        verdict,
        events.as_slice(),
        options.delete,
        writing,
        output,
    )?;
    Ok(Done::Quietly)
}

/// Makes a run in the requested form. The form is looked up before a file is read.
pub(crate) fn requested_run<F: Files, W: Sink>(
    alloc: Global,
    options: &RunOptions<'_>,
    files: &mut F,
    output: &mut W,
) -> Result<Done, AnswerFault>
    ensures comes { RunResult (F.bytes files.old) options.now (run_writing options.now)
        (W.written output.old) (W.written output.new) result }
    ensures unread { FailsByInput (SourceFails F.R.remaining F.R.failures) (F.bytes files.old)
        (run_inputs options.now (run_writing options.now)) (F.failures files.old)
        (F.failures files.new) result }
    ensures sink { FailsByOutput result (W.failures output.old) (W.failures output.new) }
{
    let Some(writing) = writing_of(options.recording, options.output, options.inverted) else {
        return Err(AnswerFault::UnknownForm);
    };
    match options.dialect {
        None => run_own(alloc, options, writing, files, output),
        Some(control) => run_dialect(alloc, control, options, writing, files, output),
    }
}
