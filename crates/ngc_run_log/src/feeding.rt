//! Ticks before which the ring is fed.
ghost use Rattle.std.specs.Prelude.{◌≡◌, ◌&&◌, ◌+◌, ◌*◌, ◌^◌, ℕ, [], ◌∷◌, replicate, true, false, OnOk, OnErr};
ghost use Rattle.ngc_events.specs.declared.event.Event.TheVariants.{Tick};
ghost use Rattle.ngc_machine_model.specs.Progress.{is_tick};
ghost use Rattle.ngc_text.specs.Failures.{CountsFailure};
ghost use Rattle.ngc_run_log.specs.Feeding.{IsFed, IsFedShort, IsLoaded};
ghost use Rattle.ngc_run_through.specs.Policy.{can_load};
ghost use Rattle.ngc_run_through.specs.Recording.{HasFew};

use crate::runner::run_line;
use ngc_controller::Controller;
use ngc_events::{Event, EventLine};
use ngc_run_through::Recorder;
use ngc_step_kernel::ArcPath;
use ngc_text::{Sink, WriteFault};
use std::alloc::Allocator;

// Loads commands while the ring has space for one that is left. The machine refuses the last load
// and stays as it was; that load isn't recorded.
fn load_all<A: Allocator + Copy, W: Sink>(
    controller: &mut Controller<ArcPath, A>,
    recorder: &mut Recorder,
    sink: &mut W,
) -> Result<(), WriteFault>
    requires { HasFew (2 ^ 112) recorder.old }
    ensures job { controller.new.job ≡ controller.old.job }
    ensures loads { OnOk result
        ((count : ℕ) × IsLoaded controller.old.job controller.old.state controller.new.state
        recorder.old recorder.new (W.written sink.old) (W.written sink.new) count) }
    ensures full { OnOk result (can_load controller.old.job controller.new.state ≡ false) }
    ensures cut { OnErr result
        (IsFedShort true controller.old.job controller.old.state recorder.old (W.written sink.old)
        (W.written sink.new) (Tick ∷ [])) }
    ensures failures { CountsFailure (W.failures sink.old) (W.failures sink.new) result }
{
    for _load in 0..controller.ring() {
        let outcome = controller.event(Event::Load);
        match outcome {
            Ok(_) => {}
            Err(_) => return Ok(()),
        }
        match recorder.add(Event::Load, &outcome, sink) {
            Ok(()) => {}
            Err(fault) => return Err(fault),
        }
    }
    Ok(())
}

// Feeds the ring and processes a tick.
fn feed_tick<A: Allocator + Copy, W: Sink>(
    controller: &mut Controller<ArcPath, A>,
    recorder: &mut Recorder,
    sink: &mut W,
) -> Result<(), WriteFault>
    requires { HasFew (2 ^ 112) recorder.old }
    ensures job { controller.new.job ≡ controller.old.job }
    ensures fed { OnOk result
        (IsFed true controller.old.job controller.old.state controller.new.state recorder.old
        recorder.new (W.written sink.old) (W.written sink.new) (Tick ∷ [])) }
    ensures cut { OnErr result
        (IsFedShort true controller.old.job controller.old.state recorder.old (W.written sink.old)
        (W.written sink.new) (Tick ∷ [])) }
    ensures few { OnOk result
        ((n : ℕ) → HasFew n recorder.old → HasFew (n + 2048) recorder.new) }
    ensures failures { CountsFailure (W.failures sink.old) (W.failures sink.new) result }
{
    match load_all(controller, recorder, sink) {
        Ok(()) => {}
        Err(fault) => return Err(fault),
    }
    let outcome = controller.event(Event::Tick);
    match recorder.add(Event::Tick, &outcome, sink) {
        Ok(()) => Ok(()),
        Err(fault) => Err(fault),
    }
}

// Processes `times` ticks, and feeds the ring before each of them.
fn feed_ticks<A: Allocator + Copy, W: Sink>(
    controller: &mut Controller<ArcPath, A>,
    times: u32,
    recorder: &mut Recorder,
    sink: &mut W,
) -> Result<(), WriteFault>
    requires { HasFew (2 ^ 110) recorder.old }
    ensures job { controller.new.job ≡ controller.old.job }
    ensures fed { OnOk result
        (IsFed true controller.old.job controller.old.state controller.new.state recorder.old
        recorder.new (W.written sink.old) (W.written sink.new) (replicate times Tick)) }
    ensures cut { OnErr result
        (IsFedShort true controller.old.job controller.old.state recorder.old (W.written sink.old)
        (W.written sink.new) (replicate times Tick)) }
    ensures few { OnOk result
        ((n : ℕ) → HasFew n recorder.old → HasFew (n + times * 2048) recorder.new) }
    ensures failures { CountsFailure (W.failures sink.old) (W.failures sink.new) result }
{
    for _tick in 0..times {
        match feed_tick(controller, recorder, sink) {
            Ok(()) => {}
            Err(fault) => return Err(fault),
        }
    }
    Ok(())
}

// Returns whether loads come before an event.
fn takes_loads(feeds: bool, event: Event) -> bool
    ensures { result ≡ (is_tick event && feeds) }
{
    match event {
        Event::Tick => feeds,
        _ => false,
    }
}

/// Processes the event of a line the number of times that the line says. If the ring is fed, loads
/// come before each tick while one is possible.
pub(crate) fn send_line<A: Allocator + Copy, W: Sink>(
    controller: &mut Controller<ArcPath, A>,
    feeds: bool,
    line: &EventLine,
    recorder: &mut Recorder,
    sink: &mut W,
) -> Result<(), WriteFault>
    requires { HasFew (2 ^ 110) recorder.old }
    ensures job { controller.new.job ≡ controller.old.job }
    ensures fed { OnOk result
        (IsFed feeds controller.old.job controller.old.state controller.new.state recorder.old
        recorder.new (W.written sink.old) (W.written sink.new)
        (replicate line.now.times line.now.event)) }
    ensures cut { OnErr result
        (IsFedShort feeds controller.old.job controller.old.state recorder.old
        (W.written sink.old) (W.written sink.new) (replicate line.now.times line.now.event)) }
    ensures few { OnOk result
        ((n : ℕ) → HasFew n recorder.old → HasFew (n + 2 ^ 43) recorder.new) }
    ensures failures { CountsFailure (W.failures sink.old) (W.failures sink.new) result }
{
    if takes_loads(feeds, line.event) {
        return match feed_ticks(controller, line.times, recorder, sink) {
            Ok(()) => Ok(()),
            Err(fault) => Err(fault),
        };
    }
    match run_line(controller, line, recorder, sink) {
        Ok(()) => Ok(()),
        Err(fault) => Err(fault),
    }
}
