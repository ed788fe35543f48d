//! The end of a live run: at rest.
ghost use Rattle.std.specs.Prelude.{◌≡◌, [], Option, List, ℕ, OnOk, OnErr};
ghost use Rattle.std.specs.Io.KnownBytes.{IsAtEnd};
ghost use Rattle.ngc_events.specs.declared.event.EventLine.{EventLine as Line};
ghost use Rattle.ngc_run_log.specs.Living.{ComesToRest, FailsBeforeRest, FailsLive, HasRun};
ghost use Rattle.ngc_run_log.specs.Living.{IsCutStop, IsLive, LivesToRest, is_write_fault};
ghost use Rattle.ngc_run_log.specs.declared.live_form.LiveForm.{LiveForm as Written};
ghost use Rattle.ngc_text.specs.Failures.{CountsFailure};

use crate::live::LiveRun;
use crate::live_fault::LiveFault;
use crate::live_source::feed_from;
use ngc_events::{Event, EventLine};
use ngc_text::{Sink, Source, WriteFault};
use std::alloc::Allocator;

/// Brings the machine of a run to rest, and writes the results. If it moves, it is held, and ticks
/// follow until its rate is 0. Each of them brakes by the change of the motion.
///
/// If a write fails (902), a prefix of the text is written. Feed nothing more then.
pub fn brake<A: Allocator + Copy, W: Sink>(
    live: &mut LiveRun<A>,
    sink: &mut W,
) -> Result<(), WriteFault>
    ensures rests { OnOk result ((form : Written) (lines : List Line) (first : Option (List ℕ)) →
        HasRun form live.old lines first (W.written sink.old) →
        ComesToRest form live.old.state live.new lines first (W.written sink.new)) }
    ensures cut { OnErr result ((form : Written) (lines : List Line) (first : Option (List ℕ)) →
        HasRun form live.old lines first (W.written sink.old) →
        IsCutStop form live.old.state live.new lines first (W.written sink.new)) }
    ensures job { live.new.job ≡ live.old.job }
    ensures feeds_ring { live.new.feeds ≡ live.old.feeds }
    ensures failures { CountsFailure (W.failures sink.old) (W.failures sink.new) result }
{
    if live.rate() == 0 {
        return Ok(());
    }
    let hold = EventLine {
        event: Event::Hold,
        times: 1,
    };
    match live.send(&hold, sink) {
        Ok(()) => {}
        Err(fault) => return Err(fault),
    }
    let tick = EventLine {
        event: Event::Tick,
        times: 1,
    };
    'ticks: while live.rate() > 0 {
        match live.send(&tick, sink) {
            Ok(()) => {}
            Err(fault) => return Err(fault),
        }
    }
    Ok(())
}

fn is_write_fault(ended: &Result<(), LiveFault>) -> bool
    ensures { result ≡ is_write_fault ended.now }
{
    match ended {
        Err(LiveFault::Write(_)) => true,
        _ => false,
    }
}

/// Feeds a run with the bytes of a source as [`feed_from`] does. Then it brings the machine to rest
/// as [`brake`] does, also after a wrong line (711) and a source that fails (901).
///
/// If a write fails (902), a prefix of the text is written, and nothing follows.
pub fn feed_to_rest<A: Allocator + Copy, S: Source, W: Sink>(
    live: &mut LiveRun<A>,
    source: &mut S,
    sink: &mut W,
) -> Result<(), LiveFault>
    ensures lives { (form : Written) (first : Option (List ℕ)) →
        IsLive form live.old [] first (W.written sink.old) →
        LivesToRest form live.new (S.remaining source.old) (S.remaining source.new) first
        (W.written sink.new) result }
    ensures job { live.new.job ≡ live.old.job }
    ensures feeds_ring { live.new.feeds ≡ live.old.feeds }
    // It returns `Ok` only if the source has ended.
    ensures end { OnOk result (IsAtEnd (S.remaining source.new)) }
    ensures source { FailsBeforeRest result (S.failures source.old) (S.failures source.new) }
    ensures failures { FailsLive result (W.failures sink.old) (W.failures sink.new) }
{
    let ended = feed_from(live, source, sink);
    if is_write_fault(&ended) {
        return ended;
    }
    match brake(live, sink) {
        Ok(()) => ended,
        Err(fault) => Err(LiveFault::Write(fault)),
    }
}
