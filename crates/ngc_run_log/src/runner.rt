ghost use Rattle.std.specs.Prelude.{◌≡◌, ◌<◌, ◌≤◌, ◌^◌, ℕ, List, Option, replicate, IfOk, OnOk};
ghost use Rattle.std.specs.Prelude.{OnErr};
ghost use Rattle.ngc_machine_model.specs.Headline.{job_of, RunsInTime, RunsSafely};
ghost use Rattle.ngc_machine_model.specs.State.{opening};
ghost use Rattle.ngc_checker.specs.Accepted.{commands_at};
ghost use Rattle.ngc_text.specs.Failures.{CountsFailure};
ghost use Rattle.ngc_run_through.specs.Forms.{ResultsAs, IsTracedRun, IsUntracedRun, PulsesResult};
ghost use Rattle.ngc_run_through.specs.Forms.{SamplesResult, TimesResult};
ghost use Rattle.ngc_run_through.specs.Recording.{HasFew, IsCutShort, IsRecorded};
ghost use Rattle.ngc_run_through.specs.Runs.{ResultsIn, FailsByWriting};
ghost use Rattle.ngc_run_through.specs.Tracing.{ticks_of};

use ngc_checker::Accepted;
use ngc_controller::Controller;
use ngc_events::{Event, EventLine};
use ngc_run_through::{Form, Recorder, Report, RunFault, Switches, Trace, switches_for};
use ngc_step_kernel::ArcPath;
use ngc_text::{Sink, WriteFault};
use std::alloc::Allocator;

// Processes the ticks without an output that follow, at most `most`, if a line repeats ticks.
// Returns their number.
fn coast<A: Allocator + Copy>(
    controller: &mut Controller<ArcPath, A>,
    event: Event,
    most: u32,
    recorder: &mut Recorder,
) -> u32
    requires { HasFew (2 ^ 125) recorder.old }
    ensures job { controller.new.job ≡ controller.old.job }
    ensures few { result ≤ most }
    ensures recorded { (written : Option (List ℕ)) →
        IsRecorded controller.old.job controller.old.state controller.new.state recorder.old
        recorder.new written written (replicate result event) }
{
    let Event::Tick = event else {
        return 0;
    };
    let ticks = controller.coast(u64::from(most));
    recorder.rest(ticks);
    ticks as u32
}

/// Processes the event of a line the number of times that the line says.
pub(crate) fn run_line<A: Allocator + Copy, W: Sink>(
    controller: &mut Controller<ArcPath, A>,
    line: &EventLine,
    recorder: &mut Recorder,
    sink: &mut W,
) -> Result<(), WriteFault>
    requires { HasFew (2 ^ 110) recorder.old }
    ensures job { controller.new.job ≡ controller.old.job }
    ensures recorded { OnOk result
        (IsRecorded controller.old.job controller.old.state controller.new.state recorder.old
        recorder.new (W.written sink.old) (W.written sink.new)
        (replicate line.now.times line.now.event)) }
    ensures fault { OnErr result
        (IsCutShort controller.old.job controller.old.state recorder.old (W.written sink.old)
        (W.written sink.new) (replicate line.now.times line.now.event)) }
    ensures times { line.now.times < 2 ^ 32 }
    ensures failures { CountsFailure (W.failures sink.old) (W.failures sink.new) result }
{
    let mut left = line.times;
    'turns: while left > 0 {
        let outcome = controller.event(line.event);
        match recorder.add(line.event, &outcome, sink) {
            Ok(()) => {}
            Err(fault) => return Err(fault),
        }
        left -= 1;
        left -= coast(controller, line.event, left, recorder);
    }
    Ok(())
}

fn run_lines<A: Allocator + Copy, W: Sink>(
    controller: &mut Controller<ArcPath, A>,
    lines: &[EventLine],
    trace: Trace<'_>,
    sink: &mut W,
) -> Result<Report, WriteFault>
    requires opens { controller.old.state ≡ opening controller.old.job.machine }
    requires safe { RunsSafely controller.old.job }
    requires in_time { RunsInTime controller.old.job }
    requires begins { ticks_of trace ≡ 0 }
    ensures traced { IfOk result
        (λ report. IsTracedRun trace.entry controller.old.job lines.now (W.written sink.old)
        (W.written sink.new) report) }
    ensures broken { OnErr result
        (IsUntracedRun trace.entry controller.old.job lines.now (W.written sink.old)
        (W.written sink.new)) }
    ensures failures { CountsFailure (W.failures sink.old) (W.failures sink.new) result }
{
    let mut recorder = Recorder::new(trace, controller.motors(), controller.position());
    for line in lines {
        match run_line(controller, line, &mut recorder, sink) {
            Ok(()) => {}
            Err(fault) => return Err(fault),
        }
    }
    recorder.finish(sink)
}

// Runs an accepted program over events and writes the run in a form.
fn run_as<A: Allocator + Copy, W: Sink>(
    alloc: A,
    accepted: Accepted<A>,
    block_delete: bool,
    lines: &[EventLine],
    form: Form,
    sink: &mut W,
) -> Result<Report, RunFault>
    ensures comes { ResultsAs form (job_of accepted.machine (commands_at block_delete accepted))
        lines.now (W.written sink.old) (W.written sink.new) result }
    ensures counts { FailsByWriting result (W.failures sink.old) (W.failures sink.new) }
{
    // The facts about the accepted program make the run safe and done in time.
    let ticks_per_second = accepted.machine().ticks_per_second;
    let kept = match switches_for(alloc, form, accepted.commands(block_delete)) {
        Ok(kept) => kept,
        Err(fault) => return Err(fault),
    };
    let mut controller = match Controller::<ArcPath, A>::new(alloc, accepted, block_delete) {
        Ok(controller) => controller,
        Err(_) => return Err(RunFault::Memory),
    };
    let switches = Switches {
        list: kept.as_slice(),
    };
    let first = controller.motors().counts(&controller.position());
    let trace = Trace::new(form, ticks_per_second, first, switches);
    match run_lines(&mut controller, lines, trace, sink) {
        Ok(report) => Ok(report),
        Err(fault) => Err(RunFault::Write(fault)),
    }
}

/// Runs an accepted program, at a setting of block delete, over events in their order, and writes
/// the log: a line for the outcome of each event. A tick in which nothing was commanded and nothing
/// ended has no line.
pub fn run<A: Allocator + Copy, W: Sink>(
    alloc: A,
    accepted: Accepted<A>,
    block_delete: bool,
    lines: &[EventLine],
    sink: &mut W,
) -> Result<Report, RunFault>
    ensures comes { ResultsIn (job_of accepted.machine (commands_at block_delete accepted)) lines.now
        (W.written sink.old) (W.written sink.new) result }
    ensures counts { FailsByWriting result (W.failures sink.old) (W.failures sink.new) }
{
    run_as(alloc, accepted, block_delete, lines, Form::Log, sink)
}

/// Runs an accepted program over events as [`run`] does, and writes the log with ticks: each line
/// begins with the number of ticks before its event took effect. After 2^64 - 1 ticks the number
/// stays.
pub fn write_timed_log<A: Allocator + Copy, W: Sink>(
    alloc: A,
    accepted: Accepted<A>,
    block_delete: bool,
    lines: &[EventLine],
    sink: &mut W,
) -> Result<Report, RunFault>
    ensures comes { TimesResult (job_of accepted.machine (commands_at block_delete accepted)) lines.now
        (W.written sink.old) (W.written sink.new) result }
    ensures counts { FailsByWriting result (W.failures sink.old) (W.failures sink.new) }
{
    run_as(alloc, accepted, block_delete, lines, Form::Times, sink)
}

/// Runs an accepted program, at a setting of block delete, over events in their order, and writes
/// the pulses of its ticks as a value change dump: a step and a direction of each axis, in
/// nanoseconds. Only ticks write something. If memory runs out, that is 900, and nothing is
/// written. If a write fails (902), a prefix of the dump is written.
pub fn write_pulses<A: Allocator + Copy, W: Sink>(
    alloc: A,
    accepted: Accepted<A>,
    block_delete: bool,
    lines: &[EventLine],
    sink: &mut W,
) -> Result<Report, RunFault>
    ensures comes { PulsesResult (job_of accepted.machine (commands_at block_delete accepted))
        lines.now (W.written sink.old) (W.written sink.new) result }
    ensures counts { FailsByWriting result (W.failures sink.old) (W.failures sink.new) }
{
    run_as(alloc, accepted, block_delete, lines, Form::Pulses, sink)
}

/// Runs an accepted program, at a setting of block delete, over events in their order, and writes
/// its samples: two bytes for each tick, with the steps and directions, the spindle and the
/// coolant. The bits of `inverted` are inverted. Only ticks write something. If memory runs out,
/// that is 900, and nothing is written. If a write fails (902), a prefix of the samples is written.
pub fn write_samples<A: Allocator + Copy, W: Sink>(
    alloc: A,
    accepted: Accepted<A>,
    block_delete: bool,
    lines: &[EventLine],
    inverted: u8,
    sink: &mut W,
) -> Result<Report, RunFault>
    ensures comes { SamplesResult inverted
        (job_of accepted.machine (commands_at block_delete accepted)) lines.now
        (W.written sink.old) (W.written sink.new) result }
    ensures counts { FailsByWriting result (W.failures sink.old) (W.failures sink.new) }
{
    run_as(
        alloc,
        accepted,
        block_delete,
        lines,
        Form::Samples(inverted),
        sink,
    )
}
