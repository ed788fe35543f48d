//! A run through a whole program: the operator only starts the machine again after a stop.
ghost use Rattle.std.specs.Prelude.{◌≡◌, ◌≤◌, ◌<◌, ◌+◌, ◌-◌, ◌*◌, ◌^◌, ℕ, List, Option, min};
ghost use Rattle.std.specs.Prelude.{length, Some, true, false, OnOk, OnErr, IfOk};
ghost use Rattle.ngc_machine_model.specs.Headline.{job_of, RunsInTime, RunsSafely};
ghost use Rattle.ngc_machine_model.specs.State.{loaded, opening};
ghost use Rattle.ngc_commands.specs.Sequence.{HasEnd};
ghost use Rattle.ngc_commands.specs.Sequence.{COMMAND_LIMIT};
ghost use Rattle.ngc_checker.specs.Accepted.{commands_at};
ghost use Rattle.ngc_text.specs.Failures.{CountsFailure};
ghost use Rattle.ngc_machine_files.specs.MachineRanges.{IsMachine};
ghost use Rattle.ngc_run_through.specs.Forms.{RunsToEndAs, IsTracedThrough, IsTracedOff};
ghost use Rattle.ngc_run_through.specs.Forms.{PulsesRunToEnd, SamplesRunToEnd, TimesRunToEnd};
ghost use Rattle.ngc_run_through.specs.Policy.{next_event};
ghost use Rattle.ngc_run_through.specs.Recording.{HasFew};
ghost use Rattle.ngc_run_through.specs.Runs.{FailsByWriting};
ghost use Rattle.ngc_run_through.specs.Stretches.{IsUntouched, IsGiven, Coasts, IsGivenLast, GoesBy};
ghost use Rattle.ngc_run_through.specs.Stretches.{BreaksOff, TicksBy, GoesBehind, FinishesHead};
ghost use Rattle.ngc_run_through.specs.Stretches.{Finishes, PassesHead, ending_in, is_stop};
ghost use Rattle.ngc_run_through.specs.Switching.{AreSwitches};
ghost use Rattle.ngc_run_through.specs.Through.{RunsToEnd};
ghost use Rattle.ngc_run_through.specs.Tracing.{ticks_of};

use crate::recorder::Recorder;
use crate::report::{Report, RunFault};
use crate::switches::{Switches, switches_for};
use crate::trace::{Form, Trace};
use ngc_checker::Accepted;
use ngc_controller::Controller;
use ngc_events::{Ending, Event, EventFault, Reply};
use ngc_pulses::Switch;
use ngc_step_kernel::ArcPath;
use ngc_text::{Sink, WriteFault};
use std::alloc::Allocator;

// Processes an event and records its outcome.
fn give<A: Allocator + Copy, W: Sink>(
    controller: &mut Controller<ArcPath, A>,
    event: Event,
    recorder: &mut Recorder,
    sink: &mut W,
) -> Result<Result<Reply, EventFault>, WriteFault>
    requires { HasFew (2 ^ 126) recorder.old }
    ensures given { IfOk result
        (IsGiven event controller.old controller.new recorder.old recorder.new (W.written sink.old)
        (W.written sink.new)) }
    ensures fault { OnErr result
        (IsGivenLast event controller.old recorder.old (W.written sink.old) (W.written sink.new)) }
    ensures failures { CountsFailure (W.failures sink.old) (W.failures sink.new) result }
{
    let outcome = controller.event(event);
    // Every dwell ends.
    let _dwelt = controller.dwelt();
    match recorder.add(event, &outcome, sink) {
        Ok(()) => Ok(outcome),
        Err(fault) => Err(fault),
    }
}

// Loads the next command, for which the ring must have space.
fn load_next<A: Allocator + Copy, W: Sink>(
    controller: &mut Controller<ArcPath, A>,
    recorder: &mut Recorder,
    sink: &mut W,
) -> Result<(), WriteFault>
    requires untouched { IsUntouched controller.old.job controller.old.state }
    requires runs { controller.old.state.stopped ≡ false }
    requires room { length controller.old.state.ring < controller.old.job.machine.ring }
    requires left { loaded controller.old.state < length controller.old.job.commands }
    requires few { HasFew (2 ^ 126) recorder.old }
    ensures goes { OnOk result
        (GoesBy 1 1 0 controller.old controller.new recorder.old recorder.new (W.written sink.old)
        (W.written sink.new)) }
    ensures still { OnOk result (recorder.new.report.ticks ≡ recorder.old.report.ticks) }
    ensures runs { OnOk result (controller.new.state.stopped ≡ false) }
    ensures fault { OnErr result
        (BreaksOff controller.old recorder.old (W.written sink.old) (W.written sink.new)) }
    ensures failures { CountsFailure (W.failures sink.old) (W.failures sink.new) result }
{
    match give(controller, Event::Load, recorder, sink) {
        Ok(_) => Ok(()),
        Err(fault) => Err(fault),
    }
}

// Starts again if the machine is stopped.
fn start_again<A: Allocator + Copy, W: Sink>(
    controller: &mut Controller<ArcPath, A>,
    recorder: &mut Recorder,
    sink: &mut W,
) -> Result<(), WriteFault>
    requires untouched { IsUntouched controller.old.job controller.old.state }
    requires stops { controller.old.state.stopped ≡ true }
    requires few { HasFew (2 ^ 126) recorder.old }
    ensures goes { OnOk result
        (GoesBy 1 0 0 controller.old controller.new recorder.old recorder.new (W.written sink.old)
        (W.written sink.new)) }
    ensures runs { OnOk result (controller.new.state.stopped ≡ false) }
    ensures fault { OnErr result
        (BreaksOff controller.old recorder.old (W.written sink.old) (W.written sink.new)) }
    ensures failures { CountsFailure (W.failures sink.old) (W.failures sink.new) result }
{
    match give(controller, Event::Start, recorder, sink) {
        Ok(_) => Ok(()),
        Err(fault) => Err(fault),
    }
}

// Returns the end of a command in an outcome, if one ended.
fn ending_in(outcome: &Result<Reply, EventFault>) -> Option<Ending>
    ensures { result ≡ ending_in outcome.now }
{
    match outcome {
        Ok(Reply::Ticked { ending, .. }) => *ending,
        _ => None,
    }
}

// Processes a tick. Returns the end of a command in it, if one ended.
fn tick<A: Allocator + Copy, W: Sink>(
    controller: &mut Controller<ArcPath, A>,
    recorder: &mut Recorder,
    sink: &mut W,
) -> Result<Option<Ending>, WriteFault>
    requires untouched { IsUntouched controller.old.job controller.old.state }
    requires runs { controller.old.state.stopped ≡ false }
    requires some { 1 ≤ length controller.old.state.ring }
    requires next { next_event controller.old.job controller.old.state ≡ Some Event.Tick }
    requires few { HasFew (2 ^ 126) recorder.old }
    ensures ticks { IfOk result
        (TicksBy controller.old controller.new recorder.old recorder.new (W.written sink.old)
        (W.written sink.new)) }
    ensures fault { OnErr result
        (BreaksOff controller.old recorder.old (W.written sink.old) (W.written sink.new)) }
    ensures failures { CountsFailure (W.failures sink.old) (W.failures sink.new) result }
{
    match give(controller, Event::Tick, recorder, sink) {
        Ok(outcome) => Ok(ending_in(&outcome)),
        Err(fault) => Err(fault),
    }
}

// Processes the ticks without an output that follow.
fn coast<A: Allocator + Copy>(controller: &mut Controller<ArcPath, A>, recorder: &mut Recorder)
    requires untouched { IsUntouched controller.old.job controller.old.state }
    requires runs { controller.old.state.stopped ≡ false }
    requires some { 1 ≤ length controller.old.state.ring }
    requires next { next_event controller.old.job controller.old.state ≡ Some Event.Tick }
    requires few { HasFew (2 ^ 125 + 2 ^ 102) recorder.old }
    ensures { (written : Option (List ℕ)) →
        Coasts controller.old controller.new recorder.old recorder.new written }
{
    let count = controller.coast(u64::MAX);
    // Every dwell ends.
    let _dwelt = controller.dwelt();
    recorder.rest(count);
}

// Starts again if a command ended by a stop.
fn continue_after<A: Allocator + Copy, W: Sink>(
    ending: Ending,
    controller: &mut Controller<ArcPath, A>,
    recorder: &mut Recorder,
    sink: &mut W,
) -> Result<(), WriteFault>
    requires untouched { IsUntouched controller.old.job controller.old.state }
    requires stops { controller.old.state.stopped ≡ is_stop ending }
    requires few { HasFew (2 ^ 126) recorder.old }
    ensures goes { OnOk result
        (GoesBehind ending controller.old controller.new recorder.old recorder.new
        (W.written sink.old) (W.written sink.new)) }
    ensures runs { OnOk result (controller.new.state.stopped ≡ false) }
    ensures fault { OnErr result
        (BreaksOff controller.old recorder.old (W.written sink.old) (W.written sink.new)) }
    ensures failures { CountsFailure (W.failures sink.old) (W.failures sink.new) result }
{
    match ending {
        Ending::Stopped(_) => start_again(controller, recorder, sink),
        Ending::Done(_) => Ok(()),
        Ending::End => Ok(()),
    }
}

// Processes ticks until the command at the head is done, and starts again if it was a stop.
fn play_head<A: Allocator + Copy, W: Sink>(
    controller: &mut Controller<ArcPath, A>,
    recorder: &mut Recorder,
    sink: &mut W,
) -> Result<(), WriteFault>
    requires untouched { IsUntouched controller.old.job controller.old.state }
    requires runs { controller.old.state.stopped ≡ false }
    requires some { 1 ≤ length controller.old.state.ring }
    requires next { next_event controller.old.job controller.old.state ≡ Some Event.Tick }
    requires few { HasFew (2 ^ 125) recorder.old }
    ensures goes { OnOk result
        (FinishesHead controller.old controller.new recorder.old recorder.new (W.written sink.old)
        (W.written sink.new)) }
    ensures runs { OnOk result (controller.new.state.stopped ≡ false) }
    ensures fault { OnErr result
        (BreaksOff controller.old recorder.old (W.written sink.old) (W.written sink.new)) }
    ensures failures { CountsFailure (W.failures sink.old) (W.failures sink.new) result }
{
    'ticks: loop {
        let ended = match tick(controller, recorder, sink) {
            Ok(ended) => ended,
            Err(fault) => return Err(fault),
        };
        if let Some(ending) = ended {
            return continue_after(ending, controller, recorder, sink);
        }
        coast(controller, recorder);
    }
}

// Processes the ticks up to the end of the motion at the head at once, if no text is written. Returns
// whether it did.
fn pass_motion<A: Allocator + Copy>(
    controller: &mut Controller<ArcPath, A>,
    recorder: &mut Recorder,
) -> bool
    requires untouched { IsUntouched controller.old.job controller.old.state }
    requires runs { controller.old.state.stopped ≡ false }
    requires some { 1 ≤ length controller.old.state.ring }
    requires next { next_event controller.old.job controller.old.state ≡ Some Event.Tick }
    requires few { HasFew (2 ^ 125) recorder.old }
    ensures { (written : Option (List ℕ)) →
        PassesHead result controller.old controller.new recorder.old recorder.new written }
{
    if recorder.is_silent() {
        if let Some(passed) = controller.finish_motion() {
            recorder.pass(passed.ticks, passed.path_steps, controller.position());
            return true;
        }
    }
    false
}

// Processes the events until the command at the head is done and the machine runs.
fn finish_head<A: Allocator + Copy, W: Sink>(
    controller: &mut Controller<ArcPath, A>,
    recorder: &mut Recorder,
    sink: &mut W,
) -> Result<(), WriteFault>
    requires untouched { IsUntouched controller.old.job controller.old.state }
    requires runs { controller.old.state.stopped ≡ false }
    requires some { 1 ≤ length controller.old.state.ring }
    requires next { next_event controller.old.job controller.old.state ≡ Some Event.Tick }
    requires few { HasFew (2 ^ 125) recorder.old }
    ensures goes { OnOk result
        (FinishesHead controller.old controller.new recorder.old recorder.new (W.written sink.old)
        (W.written sink.new)) }
    ensures runs { OnOk result (controller.new.state.stopped ≡ false) }
    ensures fault { OnErr result
        (BreaksOff controller.old recorder.old (W.written sink.old) (W.written sink.new)) }
    ensures failures { CountsFailure (W.failures sink.old) (W.failures sink.new) result }
{
    if pass_motion(controller, recorder) {
        return Ok(());
    }
    play_head(controller, recorder, sink)
}

// Loads `count` commands.
pub(crate) fn fill_ring<A: Allocator + Copy, W: Sink>(
    controller: &mut Controller<ArcPath, A>,
    count: usize,
    recorder: &mut Recorder,
    sink: &mut W,
) -> Result<(), WriteFault>
    requires room { length controller.old.state.ring + count
        ≤ controller.old.job.machine.ring }
    requires left { loaded controller.old.state + count ≤ length controller.old.job.commands }
    requires untouched { IsUntouched controller.old.job controller.old.state }
    requires runs { controller.old.state.stopped ≡ false }
    requires few { HasFew (2 ^ 120) recorder.old }
    ensures goes { OnOk result
        (GoesBy count count 0 controller.old controller.new recorder.old recorder.new
        (W.written sink.old) (W.written sink.new)) }
    ensures still { OnOk result (recorder.new.report.ticks ≡ recorder.old.report.ticks) }
    ensures runs { OnOk result (controller.new.state.stopped ≡ false) }
    ensures fault { OnErr result
        (BreaksOff controller.old recorder.old (W.written sink.old) (W.written sink.new)) }
    ensures failures { CountsFailure (W.failures sink.old) (W.failures sink.new) result }
{
    for _command in 0..count {
        match load_next(controller, recorder, sink) {
            Ok(()) => {}
            Err(fault) => return Err(fault),
        }
    }
    Ok(())
}

// Loads `count` more commands into a full ring, each after the end of the head.
pub(crate) fn keep_full<A: Allocator + Copy, W: Sink>(
    controller: &mut Controller<ArcPath, A>,
    count: usize,
    recorder: &mut Recorder,
    sink: &mut W,
) -> Result<(), WriteFault>
    requires full { 0 < count →
        length controller.old.state.ring ≡ controller.old.job.machine.ring }
    requires left { loaded controller.old.state + count ≤ length controller.old.job.commands }
    requires few_commands { count ≤ COMMAND_LIMIT }
    requires untouched { IsUntouched controller.old.job controller.old.state }
    requires runs { controller.old.state.stopped ≡ false }
    requires few { HasFew (2 ^ 124) recorder.old }
    ensures goes { OnOk result
        (GoesBy (count * 2 ^ 103) count count controller.old controller.new recorder.old
        recorder.new (W.written sink.old) (W.written sink.new)) }
    ensures runs { OnOk result (controller.new.state.stopped ≡ false) }
    ensures fault { OnErr result
        (BreaksOff controller.old recorder.old (W.written sink.old) (W.written sink.new)) }
    ensures failures { CountsFailure (W.failures sink.old) (W.failures sink.new) result }
{
    for _command in 0..count {
        match finish_head(controller, recorder, sink) {
            Ok(()) => {}
            Err(fault) => return Err(fault),
        }
        match load_next(controller, recorder, sink) {
            Ok(()) => {}
            Err(fault) => return Err(fault),
        }
    }
    Ok(())
}

// Continues until `count` commands are done, with none left to load.
pub(crate) fn finish<A: Allocator + Copy, W: Sink>(
    controller: &mut Controller<ArcPath, A>,
    count: usize,
    recorder: &mut Recorder,
    sink: &mut W,
) -> Result<(), WriteFault>
    requires loaded { count ≤ length controller.old.state.ring }
    requires all_loaded { 0 < count →
        loaded controller.old.state ≡ length controller.old.job.commands }
    requires small { count ≤ controller.old.job.machine.ring }
    requires untouched { IsUntouched controller.old.job controller.old.state }
    requires runs { controller.old.state.stopped ≡ false }
    requires few { HasFew (2 ^ 124) recorder.old }
    ensures goes { OnOk result
        (Finishes (count * 2 ^ 103) 0 count controller.old controller.new recorder.old recorder.new
        (W.written sink.old) (W.written sink.new)) }
    ensures runs { OnOk result (controller.new.state.stopped ≡ false) }
    ensures fault { OnErr result
        (BreaksOff controller.old recorder.old (W.written sink.old) (W.written sink.new)) }
    ensures failures { CountsFailure (W.failures sink.old) (W.failures sink.new) result }
{
    for _command in 0..count {
        match finish_head(controller, recorder, sink) {
            Ok(()) => {}
            Err(fault) => return Err(fault),
        }
    }
    Ok(())
}

// Processes the events that take all `count` commands to their end.
fn go_on<A: Allocator + Copy, W: Sink>(
    controller: &mut Controller<ArcPath, A>,
    count: usize,
    recorder: &mut Recorder,
    sink: &mut W,
) -> Result<(), WriteFault>
    requires count { count ≡ length controller.old.job.commands }
    requires few_commands { count ≤ COMMAND_LIMIT }
    requires none_loaded { length controller.old.state.ring ≡ 0 }
    requires none_done { controller.old.state.done ≡ 0 }
    requires untouched { IsUntouched controller.old.job controller.old.state }
    requires runs { controller.old.state.stopped ≡ false }
    requires few { HasFew 0 recorder.old }
    ensures goes { OnOk result
        (Finishes (2 ^ 125) count count controller.old controller.new recorder.old recorder.new
        (W.written sink.old) (W.written sink.new)) }
    ensures runs { OnOk result (controller.new.state.stopped ≡ false) }
    ensures fault { OnErr result
        (BreaksOff controller.old recorder.old (W.written sink.old) (W.written sink.new)) }
    ensures failures { CountsFailure (W.failures sink.old) (W.failures sink.new) result }
{
    let first = count.min(controller.ring());
    match fill_ring(controller, first, recorder, sink) {
        Ok(()) => {}
        Err(fault) => return Err(fault),
    }
    match keep_full(controller, count - first, recorder, sink) {
        Ok(()) => {}
        Err(fault) => return Err(fault),
    }
    finish(controller, first, recorder, sink)
}

// Goes through all `count` commands.
fn run_to_end<A: Allocator + Copy, W: Sink>(
    controller: &mut Controller<ArcPath, A>,
    count: usize,
    trace: Trace<'_>,
    sink: &mut W,
) -> Result<Report, WriteFault>
    requires opens { controller.old.state ≡ opening controller.old.job.machine }
    requires machine { IsMachine controller.old.job.machine }
    requires safe { RunsSafely controller.old.job }
    requires in_time { RunsInTime controller.old.job }
    requires has_end { HasEnd controller.old.job.commands }
    requires count { count ≡ length controller.old.job.commands }
    requires few_commands { count ≤ COMMAND_LIMIT }
    requires begins { ticks_of trace ≡ 0 }
    ensures traced { IfOk result
        (IsTracedThrough trace.entry controller.old.job (W.written sink.old) (W.written sink.new)) }
    ensures broken { OnErr result
        (IsTracedOff trace.entry controller.old.job (W.written sink.old) (W.written sink.new)) }
    ensures failures { CountsFailure (W.failures sink.old) (W.failures sink.new) result }
{
    let mut recorder = Recorder::new(trace, controller.motors(), controller.position());
    match go_on(controller, count, &mut recorder, sink) {
        Ok(()) => {}
        Err(fault) => return Err(fault),
    }
    recorder.finish(sink)
}

// Runs an accepted program through to its end and writes the run in a form, with what its commands
// switch.
fn run_with_switches<A: Allocator + Copy, W: Sink>(
    alloc: A,
    accepted: Accepted<A>,
    block_delete: bool,
    form: Form,
    list: &[Switch],
    sink: &mut W,
) -> Result<Report, RunFault>
    requires { AreSwitches form (commands_at block_delete accepted) list.now }
    ensures runs_to_end { RunsToEndAs form
        (job_of accepted.machine (commands_at block_delete accepted)) (W.written sink.old)
        (W.written sink.new) result }
    ensures counts { FailsByWriting result (W.failures sink.old) (W.failures sink.new) }
{
    // The facts about the accepted program make the run safe and done in time.
    let ticks_per_second = accepted.machine().ticks_per_second;
    let count = accepted.commands(block_delete).len();
    let mut controller = match Controller::<ArcPath, A>::new(alloc, accepted, block_delete) {
        Ok(controller) => controller,
        Err(_) => return Err(RunFault::Memory),
    };
    let first = controller.motors().counts(&controller.position());
    let switches = Switches { list };
    let trace = Trace::new(form, ticks_per_second, first, switches);
    match run_to_end(&mut controller, count, trace, sink) {
        Ok(report) => Ok(report),
        Err(fault) => Err(RunFault::Write(fault)),
    }
}

// Runs an accepted program through to its end and writes the run in a form.
fn run_to_end_as<A: Allocator + Copy, W: Sink>(
    alloc: A,
    accepted: Accepted<A>,
    block_delete: bool,
    form: Form,
    sink: &mut W,
) -> Result<Report, RunFault>
    ensures runs_to_end { RunsToEndAs form
        (job_of accepted.machine (commands_at block_delete accepted)) (W.written sink.old)
        (W.written sink.new) result }
    ensures counts { FailsByWriting result (W.failures sink.old) (W.failures sink.new) }
{
    match switches_for(alloc, form, accepted.commands(block_delete)) {
        Ok(kept) => {
            run_with_switches(alloc, accepted, block_delete, form, kept.as_slice(), sink)
        }
        Err(fault) => Err(fault),
    }
}

/// Runs an accepted program through to its end, at a setting of block delete, and writes the log.
/// The ring is kept full while commands are left, each command gets the ticks that it takes, and
/// the machine is started again after each stop. If memory runs out, that is 900, and nothing is
/// written. If a write fails (902), a prefix of the log is written.
pub fn run_through<A: Allocator + Copy, W: Sink>(
    alloc: A,
    accepted: Accepted<A>,
    block_delete: bool,
    sink: &mut W,
) -> Result<Report, RunFault>
    ensures runs_to_end { RunsToEnd (job_of accepted.machine (commands_at block_delete accepted))
        (W.written sink.old) (W.written sink.new) result }
    ensures counts { FailsByWriting result (W.failures sink.old) (W.failures sink.new) }
{
    run_to_end_as(alloc, accepted, block_delete, Form::Log, sink)
}

/// Runs an accepted program through to its end as [`run_through`] does, and writes the log with
/// ticks: each line begins with the number of ticks before its event took effect. After 2^64 - 1
/// ticks the number stays.
pub fn write_timed_log_through<A: Allocator + Copy, W: Sink>(
    alloc: A,
    accepted: Accepted<A>,
    block_delete: bool,
    sink: &mut W,
) -> Result<Report, RunFault>
    ensures runs_to_end { TimesRunToEnd
        (job_of accepted.machine (commands_at block_delete accepted)) (W.written sink.old)
        (W.written sink.new) result }
    ensures counts { FailsByWriting result (W.failures sink.old) (W.failures sink.new) }
{
    run_to_end_as(alloc, accepted, block_delete, Form::Times, sink)
}

/// Runs an accepted program through to its end as [`run_through`] does, and writes the pulses of
/// all its ticks as a value change dump. If memory runs out, that is 900, and nothing is written.
/// If a write fails (902), a prefix of the dump is written.
pub fn write_pulses_through<A: Allocator + Copy, W: Sink>(
    alloc: A,
    accepted: Accepted<A>,
    block_delete: bool,
    sink: &mut W,
) -> Result<Report, RunFault>
    ensures runs_to_end { PulsesRunToEnd
        (job_of accepted.machine (commands_at block_delete accepted)) (W.written sink.old)
        (W.written sink.new) result }
    ensures counts { FailsByWriting result (W.failures sink.old) (W.failures sink.new) }
{
    run_to_end_as(alloc, accepted, block_delete, Form::Pulses, sink)
}

/// Runs an accepted program through to its end as [`run_through`] does, and writes the samples of
/// all its ticks. The bits of `inverted` are inverted. If memory runs out, that is 900, and nothing
/// is written. If a write fails (902), a prefix of the samples is written.
pub fn write_samples_through<A: Allocator + Copy, W: Sink>(
    alloc: A,
    accepted: Accepted<A>,
    block_delete: bool,
    inverted: u8,
    sink: &mut W,
) -> Result<Report, RunFault>
    ensures runs_to_end { SamplesRunToEnd inverted
        (job_of accepted.machine (commands_at block_delete accepted)) (W.written sink.old)
        (W.written sink.new) result }
    ensures counts { FailsByWriting result (W.failures sink.old) (W.failures sink.new) }
{
    run_to_end_as(alloc, accepted, block_delete, Form::Samples(inverted), sink)
}
