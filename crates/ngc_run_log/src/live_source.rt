//! Events from a source, as they arrive.
ghost use Rattle.std.specs.Prelude.{◌≡◌, ◌<◌, ◌≤◌, ◌-◌, [], Option, List, ℕ, length, drop, true};
ghost use Rattle.std.specs.Prelude.{false, Ok, IfOk, OnOk};
ghost use Rattle.std.specs.Io.KnownBytes.{IsAtEnd};
ghost use Rattle.ngc_events.specs.Arriving.{HaveArrived, MOST_TEXT, filled};
ghost use Rattle.ngc_events.specs.declared.event.EventLine.{EventLine as Line};
ghost use Rattle.ngc_run_log.specs.Living.{FailsByReading, FailsLive, Fills, HasRun, IsLive};
ghost use Rattle.ngc_run_log.specs.Living.{LivesOn, TakesTurn};
ghost use Rattle.ngc_run_log.specs.declared.live_form.LiveForm.{LiveForm as Written};
ghost use Rattle.ngc_text.specs.Failures.{CountsFailure};

use crate::live::LiveRun;
use crate::live_fault::LiveFault;
use ngc_text::{DeviceFault, Sink, Source};
use std::alloc::Allocator;
use std::marker::Model;

// The number of bytes that are pulled from a source at once.
const PIECE_SIZE: usize = 4_096;

/// The bytes that were read from a source and are not fed yet, at most 4,096.
#[derive(Drop)]
pub struct LiveInput {
    bytes: [u8; PIECE_SIZE],
    start: usize,
    end: usize,
}

impl Model for LiveInput {
    ghost use Rattle.std.specs.Prelude.{◌≤◌, ◌-◌, ℕ, List, drop, take};

    ghost Value = { List ℕ };

    ghost view = { λ i. take (i.end - i.start) (drop i.start i.bytes) };

    ghost invariant = { λ i. (i.start ≤ i.end) × (i.end ≤ 4096) };
}

impl LiveInput {
    /// Returns the state before the first reading: no bytes.
    pub fn new() -> LiveInput
        ensures { result ≡ [] }
    {
        LiveInput {
            bytes: [0; PIECE_SIZE],
            start: 0,
            end: 0,
        }
    }

    /// Returns the bytes.
    pub fn left(&self) -> &[u8]
        ensures { result.now ≡ self.now }
    {
        &self.bytes[self.start..self.end]
    }

    // Drops all bytes but the last `count`, which must be there.
    fn keep(&mut self, count: usize)
        requires { count ≤ length self.old }
        ensures { self.new ≡ drop (length self.old - count) self.old }
    {
        self.start = self.end - count;
    }

    // Reads the next bytes if all that were read before are fed. Returns whether there are any now,
    // which is false at the end of the source.
    fn fill<S: Source>(&mut self, source: &mut S) -> Result<bool, DeviceFault>
        ensures fills { Fills self.old self.new (S.remaining source.old) (S.remaining source.new)
            result }
        ensures end { IfOk result (λ more. more ≡ false → IsAtEnd (S.remaining source.new)) }
        ensures counts { CountsFailure (S.failures source.old) (S.failures source.new) result }
    {
        if self.start < self.end {
            return Ok(true);
        }
        self.start = 0;
        self.end = 0;
        match source.pull(&mut self.bytes) {
            Ok(count) => {
                self.end = count;
                Ok(count > 0)
            }
            Err(fault) => Err(fault),
        }
    }
}

/// Feeds a run with the next line of a source, and writes its whole result. Returns `false` if the
/// source has ended instead.
///
/// It reads from the source only if all bytes that were read before are fed. So the results of all
/// lines that arrived are written before it waits for more. If what it reads completes no line, it
/// feeds that. The faults are those of [`feed_from`].
pub fn feed_next<A: Allocator + Copy, S: Source, W: Sink>(
    live: &mut LiveRun<A>,
    input: &mut LiveInput,
    source: &mut S,
    sink: &mut W,
) -> Result<bool, LiveFault>
    ensures turns { (form : Written) (text : List ℕ) (lines : List Line)
        (first : Option (List ℕ)) → HaveArrived text lines live.old.arriving →
        HasRun form live.old lines first (W.written sink.old) →
        TakesTurn form live.new text input.old lines input.new (S.remaining source.old)
        (S.remaining source.new) first (W.written sink.new) result }
    ensures job { live.new.job ≡ live.old.job }
    ensures feeds_ring { live.new.feeds ≡ live.old.feeds }
    // Each turn feeds a byte at least.
    ensures fills { IfOk result
        (λ goes_on. goes_on ≡ true → filled live.old.arriving < filled live.new.arriving) }
    ensures bound { IfOk result
        (λ goes_on. goes_on ≡ true → filled live.new.arriving ≤ MOST_TEXT) }
    ensures end { result ≡ Ok false → IsAtEnd (S.remaining source.new) }
    ensures source { FailsByReading result (S.failures source.old) (S.failures source.new) }
    ensures failures { FailsLive result (W.failures sink.old) (W.failures sink.new) }
{
    match input.fill(source) {
        Ok(true) => {}
        Ok(false) => {
            return match live.finish() {
                Ok(()) => Ok(false),
                Err(fault) => Err(LiveFault::Events(fault)),
            };
        }
        Err(_) => return Err(LiveFault::Read),
    }
    match live.feed(input.left(), sink) {
        Ok(Some(rest)) => {
            let count = rest.len();
            input.keep(count);
            Ok(true)
        }
        Ok(None) => {
            input.keep(0);
            Ok(true)
        }
        Err(fault) => Err(fault),
    }
}

/// Feeds a run with the bytes of a source as they arrive, line by line, until the source ends. The
/// whole result of each line is written before the next line is processed.
///
/// A source that fails is 901. A line that isn't an event (711) ends the run, and so does a last
/// line without its line feed; the text of the lines before it is written. If a write fails (902),
/// a prefix of the text is written.
pub fn feed_from<A: Allocator + Copy, S: Source, W: Sink>(
    live: &mut LiveRun<A>,
    source: &mut S,
    sink: &mut W,
) -> Result<(), LiveFault>
    ensures lives { (form : Written) (first : Option (List ℕ)) →
        IsLive form live.old [] first (W.written sink.old) →
        LivesOn form live.new (S.remaining source.old) (S.remaining source.new) first
        (W.written sink.new) result }
    ensures job { live.new.job ≡ live.old.job }
    ensures feeds_ring { live.new.feeds ≡ live.old.feeds }
    // It returns `Ok` only if the source has ended.
    ensures end { OnOk result (IsAtEnd (S.remaining source.new)) }
    ensures source { FailsByReading result (S.failures source.old) (S.failures source.new) }
    ensures failures { FailsLive result (W.failures sink.old) (W.failures sink.new) }
{
    let mut input = LiveInput::new();
    'turns: loop {
        match feed_next(live, &mut input, source, sink) {
            Ok(true) => {}
            Ok(false) => return Ok(()),
            Err(fault) => return Err(fault),
        }
    }
}
