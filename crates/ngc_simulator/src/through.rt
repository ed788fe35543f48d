ghost use Rattle.std.specs.Prelude.{IfErr, List, ℕ};
ghost use Rattle.ngc_canonical.specs.State.{Setup};
ghost use Rattle.ngc_machine_model.specs.Headline.{job_of};
ghost use Rattle.ngc_checker.specs.Accepted.{commands_at};
ghost use Rattle.ngc_run_through.specs.Runs.{FailsByWriting};
ghost use Rattle.ngc_simulator.specs.Answers.{OwnRunThroughResult, RunThroughResult};
ghost use Rattle.ngc_simulator.specs.Answers.{own_run_through_inputs, run_through_inputs};
ghost use Rattle.ngc_simulator.specs.Answers.{run_through_writing};
ghost use Rattle.ngc_inputs.specs.Faults.{FailsByOutput, OfRunning};
ghost use Rattle.ngc_inputs.specs.Judging.{IsVerdict};
ghost use Rattle.ngc_job.specs.Job.{JobData};
ghost use Rattle.ngc_simulator.specs.DialectRuns.{IsJobVerdict, RunsJobThrough};
ghost use Rattle.ngc_simulator.specs.Running.{RunsThrough, RecordsThrough};
ghost use Rattle.ngc_inputs.specs.Unread.{FailsByInput, SourceFails};

use crate::dialect_runs::run_through_dialect;
use crate::done::Done;
use crate::writing::{Writing, writing_of};
use ngc_checker::Accepted;
use ngc_command_line::RunThroughOptions;
use ngc_inputs::{AnswerFault, Files, Verdict, judge_file, read_placed, read_program};
use ngc_program_report::RunTime;
use ngc_run_through::{
    Report, RunFault, run_through, write_pulses_through, write_samples_through,
    write_timed_log_through,
};
use ngc_text::Sink;
use std::alloc::{Allocator, Global};

// Runs the accepted program through to its end, and writes the requested output.
fn record_through<A: Allocator + Copy, W: Sink>(
    alloc: A,
    accepted: Accepted<A>,
    block_delete: bool,
    writing: Writing,
    output: &mut W,
) -> Result<Report, RunFault>
    ensures records { RecordsThrough writing
        (job_of accepted.machine (commands_at block_delete accepted)) (W.written output.old)
        (W.written output.new) result }
    ensures counts { FailsByWriting result (W.failures output.old) (W.failures output.new) }
{
    match writing {
        Writing::Log => run_through(alloc, accepted, block_delete, output),
        Writing::Times => write_timed_log_through(alloc, accepted, block_delete, output),
        Writing::Dump => write_pulses_through(alloc, accepted, block_delete, output),
        Writing::Samples(inverted) => {
            write_samples_through(alloc, accepted, block_delete, inverted, output)
        }
    }
}

/// Runs a program through to its end at a setting of block delete, and writes its log or its pulses.
///
/// `verdict` is what `check` or `judge` returned for the program. A program that is refused isn't
/// run, and nothing is written. Where a write fails, a prefix of the output is written.
pub fn run_program_through<A: Allocator + Copy, W: Sink>(
    alloc: A,
    verdict: Verdict<A>,
    block_delete: bool,
    writing: Writing,
    output: &mut W,
) -> Result<Report, AnswerFault>
    // For any files that the verdict is about: the result is that of these files.
    ensures runs { (setup : Setup) (bytes text : List ℕ) → IsVerdict setup bytes text verdict →
        RunsThrough writing setup bytes text block_delete (W.written output.old)
        (W.written output.new) result }
    // For any job and certificate that the verdict is about: the same of these.
    ensures job { (j : JobData) (text : List ℕ) → IsJobVerdict j text verdict →
        RunsJobThrough writing j text block_delete (W.written output.old) (W.written output.new)
        result }
    ensures sink { FailsByOutput result (W.failures output.old) (W.failures output.new) }
    ensures faults { IfErr result OfRunning }
{
    let accepted = verdict?;
    let report = record_through(alloc, accepted, block_delete, writing, output)?;
    Ok(report)
}

// Makes a run to the end of a program in our own language, and returns its time. Each file is read
// before the next one is opened.
fn run_through_own<F: Files, W: Sink>(
    alloc: Global,
    options: &RunThroughOptions<'_>,
    writing: Writing,
    files: &mut F,
    output: &mut W,
) -> Result<Done, AnswerFault>
    ensures comes { OwnRunThroughResult (F.bytes files.old) options.now writing
        (W.written output.old) (W.written output.new) result }
    ensures unread { FailsByInput (SourceFails F.R.remaining F.R.failures) (F.bytes files.old)
        (own_run_through_inputs options.now) (F.failures files.old) (F.failures files.new) result }
    ensures sink { FailsByOutput result (W.failures output.old) (W.failures output.new) }
{
    let shop = read_placed(
        alloc,
        Some(options.machine),
        Some(options.tools),
        &options.changes,
        files,
    )?;
    let program = read_program(alloc, options.program, files)?;
    let verdict = judge_file(alloc, &program, &shop, options.certificate, files)?;
    let report = run_program_through(alloc, verdict, options.delete, writing, output)?;
    Ok(Done::RunThrough(RunTime {
        ticks: report.ticks,
        ticks_per_second: shop.machine.ticks_per_second,
    }))
}

/// Makes a run in the requested form. The form is looked up before a file is read.
pub(crate) fn requested_run_through<F: Files, W: Sink>(
    alloc: Global,
    options: &RunThroughOptions<'_>,
    files: &mut F,
    output: &mut W,
) -> Result<Done, AnswerFault>
    ensures comes { RunThroughResult (F.bytes files.old) options.now (run_through_writing options.now)
        (W.written output.old) (W.written output.new) result }
    ensures unread { FailsByInput (SourceFails F.R.remaining F.R.failures) (F.bytes files.old)
        (run_through_inputs options.now (run_through_writing options.now)) (F.failures files.old)
        (F.failures files.new) result }
    ensures sink { FailsByOutput result (W.failures output.old) (W.failures output.new) }
{
    let Some(writing) = writing_of(options.recording, options.output, options.inverted) else {
        return Err(AnswerFault::UnknownForm);
    };
    match options.dialect {
        None => run_through_own(alloc, options, writing, files, output),
        Some(control) => { run_through_dialect(alloc, control, options, writing, files, output) }
    }
}
