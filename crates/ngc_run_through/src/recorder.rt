//! The record of a run in progress.
ghost use Rattle.std.specs.Prelude.{◌≡◌, ◌+◌, ◌^◌, ◌++◌, ℕ, List, [], ◌∷◌, replicate, Option, None};
ghost use Rattle.std.specs.Prelude.{Ok, IfOk, OnOk, OnErr, IsTrue, ◌↔◌};
ghost use Rattle.std.specs.Io.KnownBytes.{Appends};
ghost use Rattle.ngc_events.specs.declared.event.Event.TheVariants.{Tick};
ghost use Rattle.ngc_events.specs.declared.reply.Reply.TheVariants.{Ticked};
ghost use Rattle.ngc_text.specs.Failures.{CountsFailure};
ghost use Rattle.ngc_text.specs.Written.{AppendsPrefix};
ghost use Rattle.ngc_run_through.specs.Pauses.{paused_at};
ghost use Rattle.ngc_run_through.specs.Recording.{HasFew, Records, next_text};
ghost use Rattle.ngc_run_through.specs.Tracing.{last_text, opening_text};

use crate::counting::counted;
use crate::report::Report;
use crate::text_state::TextState;
use crate::trace::Trace;
use ngc_events::{Event, EventFault, Reply};
use ngc_fixed_length::StepPos;
use ngc_motors::Motors;
use ngc_text::{Chunk, Sink, WriteFault};

/// The report so far, and the text that isn't written yet.
#[derive(Drop)]
pub struct Recorder<'s> {
    /// The report of the events so far.
    pub report: Report,
    /// The motors whose counts the text has.
    pub motors: Motors,
    /// The state of the text.
    pub trace: Trace<'s>,
    /// The text that isn't written yet.
    pub chunk: Chunk,
}

// Returns whether an outcome is that of a tick in which nothing is commanded and nothing ends.
fn is_quiet(outcome: &Result<Reply, EventFault>) -> bool
    ensures { IsTrue result → outcome.now ≡ Ok (Ticked None None) }
{
    matches!(
        outcome,
        Ok(Reply::Ticked {
            position: None,
            ending: None,
        })
    )
}

impl<'s> Recorder<'s> {
    /// Returns a recorder without events, for a machine with these motors at a grid point.
    pub fn new(trace: Trace<'s>, motors: Motors, position: StepPos) -> Recorder<'s>
        ensures report { result.report
            ≡ record { ticks = 0; path_steps = 0; refused = 0; position = position } }
        ensures motors { result.motors ≡ motors }
        ensures trace { result.trace ≡ trace.entry }
        ensures chunk { result.chunk ≡ opening_text trace.entry }
    {
        let mut chunk = Chunk::new();
        trace.open(&mut chunk);
        Recorder {
            report: Report {
                ticks: 0,
                path_steps: 0,
                refused: 0,
                position,
            },
            motors,
            trace,
            chunk,
        }
    }

    /// Counts an event and records its outcome: the text has the motors' counts.
    pub fn add<W: Sink>(
        &mut self,
        event: Event,
        outcome: &Result<Reply, EventFault>,
        sink: &mut W,
    ) -> Result<(), WriteFault>
        requires { HasFew (2 ^ 126) self.old }
        ensures records { OnOk result
            (Records (event ∷ []) (outcome.now ∷ []) self.old self.new (W.written sink.old)
            (W.written sink.new)) }
        ensures fault { OnErr result
            (AppendsPrefix (W.written sink.old) (W.written sink.new)
            (self.old.chunk ++ next_text self.old (outcome.now ∷ []))) }
        ensures failures { CountsFailure (W.failures sink.old) (W.failures sink.new) result }
    {
        let told = counted(&self.motors, &self.report.position, outcome);
        self.report.count(event, outcome);
        // Most ticks write nothing.
        if is_quiet(&told) {
            self.trace.rest(1);
            return Ok(());
        }
        self.trace.tell(&told, &mut self.chunk, sink)
    }

    /// Counts ticks without an output.
    pub fn rest(&mut self, count: u64)
        requires { HasFew (2 ^ 125 + 2 ^ 102) self.old }
        ensures { (written : Option (List ℕ)) →
            Records (replicate count Tick) (replicate count (Ok (Ticked None None))) self.old
            self.new written written }
    {
        self.report.ticks += u128::from(count);
        self.trace.rest(count);
    }

    /// Returns whether no text is written.
    pub fn is_silent(&self) -> bool
        ensures { IsTrue result ↔ (self.now.trace ≡ Trace.NotReported) }
    {
        matches!(self.trace, Trace::NotReported)
    }

    /// Counts ticks with these pulses, the last of which leads to a position, in a record without
    /// a text.
    pub fn pass(&mut self, ticks: u64, path_steps: u64, position: StepPos)
        requires few { HasFew (2 ^ 125) self.old }
        ensures { self.new ≡ record self.old {
          report = record self.old.report {
            ticks = self.old.report.ticks + ticks;
            path_steps = self.old.report.path_steps + path_steps;
            position = position;
          };
        } }
    {
        self.report.ticks += u128::from(ticks);
        self.report.path_steps += u128::from(path_steps);
        self.report.position = position;
    }

    /// Returns the number of ticks so far.
    pub fn ticks(&self) -> u128
        ensures { result ≡ self.now.report.ticks }
    {
        self.report.ticks
    }

    /// Returns what is kept of the text once all of it is written.
    pub fn paused(&self) -> TextState
        ensures { result ≡ paused_at self.now.trace }
    {
        self.trace.paused()
    }

    /// Writes the rest of the text and returns the report.
    pub fn finish<W: Sink>(self, sink: &mut W) -> Result<Report, WriteFault>
        requires { HasFew (2 ^ 126) self }
        ensures report { IfOk result (λ report. report ≡ self.entry.report) }
        ensures ok { OnOk result
            (Appends (W.written sink.old) (W.written sink.new)
            (self.entry.chunk ++ last_text self.entry.trace)) }
        ensures fault { OnErr result
            (AppendsPrefix (W.written sink.old) (W.written sink.new)
            (self.entry.chunk ++ last_text self.entry.trace)) }
        ensures failures { CountsFailure (W.failures sink.old) (W.failures sink.new) result }
    {
        let report = self.report;
        let mut trace = self.trace;
        let mut chunk = self.chunk;
        match trace.close(&mut chunk, sink) {
            Ok(()) => {}
            Err(fault) => return Err(fault),
        }
        match chunk.write_out(sink) {
            Ok(()) => Ok(report),
            Err(fault) => Err(fault),
        }
    }
}
