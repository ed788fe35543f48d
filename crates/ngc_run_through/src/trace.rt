//! The text of a run: its log, its pulses in one of two forms, or nothing.
ghost use Rattle.std.specs.Prelude.{◌≡◌, ◌≤◌, ◌+◌, ◌^◌, ◌++◌, ◌∷◌, [], replicate, Ok, None, OnOk};
ghost use Rattle.std.specs.Prelude.{OnErr};
ghost use Rattle.ngc_events.specs.declared.reply.Reply.TheVariants.{Ticked};
ghost use Rattle.ngc_machine_files.specs.Ranges.{IsRate};
ghost use Rattle.ngc_text.specs.Collected.{HasSpaceForLine, WritesPrefix};
ghost use Rattle.ngc_text.specs.Failures.{CountsFailure};
ghost use Rattle.ngc_text.specs.Written.{AppendsPrefix};
ghost use Rattle.ngc_pulses.specs.Dumping.{after_tick, closing_text, tick_text};
ghost use Rattle.ngc_pulses.specs.Sampling.{after_samples, rest_bytes, samples_text};
ghost use Rattle.ngc_run_through.specs.Pauses.{paused_at, trace_from};
ghost use Rattle.ngc_run_through.specs.Log.{log};
ghost use Rattle.ngc_run_through.specs.Times.{ticks_after, ticks_with, timed_log};
ghost use Rattle.ngc_run_through.specs.Tracing.{dump_after, dump_text, last_text, opening_text};
ghost use Rattle.ngc_run_through.specs.Tracing.{sampled, switched_by, ticks_of, trace_after, trace_of};
ghost use Rattle.ngc_run_through.specs.Tracing.{trace_text};

use crate::log_line::{add_outcome, add_timed_outcome};
use crate::switches::Switches;
use crate::text_state::TextState;
use ngc_events::{EventFault, Reply};
use ngc_fixed_length::StepPos;
use ngc_pulses::{PulseDump, PulseSamples, Switch};
use ngc_text::{Chunk, Sink, WriteFault};

/// The form in which a run is written.
#[derive(Clone, Copy)]
pub enum Form {
    /// The log: the outcome of each event.
    Log,
    /// The log with ticks: each line begins with the number of ticks before its event.
    Times,
    /// The pulses of its ticks as a value change dump.
    Pulses,
    /// The pulses of its ticks as samples, with the bits of a mask inverted.
    Samples(u8),
}

/// The state of the text after some events.
#[derive(Drop)]
pub enum Trace<'s> {
    /// The log.
    Log,
    /// The log with ticks: the number of ticks so far.
    Times(u64),
    /// The value change dump.
    Pulses(PulseDump),
    /// The samples, and what each command switches.
    Samples(PulseSamples, Switches<'s>),
    /// No text.
    NotReported,
}

// Counts ticks without a pulse.
fn rest_for(dump: &mut PulseDump, count: u64)
    requires { dump.old.ticks + count ≤ 2 ^ 126 + 1 }
    ensures { dump.new ≡ record dump.old { ticks = dump.old.ticks + count } }
{
    for _tick in 0..count {
        dump.rest();
    }
}

// Adds a tick whose pulse leads to a position, or one without.
fn add_tick(dump: &mut PulseDump, position: Option<StepPos>, chunk: &mut Chunk)
    requires few { dump.old.ticks ≤ 2 ^ 126 }
    requires room { HasSpaceForLine chunk.old }
    ensures state { dump.new ≡ after_tick dump.old position }
    ensures text { chunk.new ≡ chunk.old ++ tick_text dump.old position }
{
    match position {
        Some(position) => dump.step_to(position, chunk),
        None => dump.rest(),
    }
}

// Adds the changes of an outcome's tick, if it is one.
fn add_changes(dump: &mut PulseDump, outcome: &Result<Reply, EventFault>, chunk: &mut Chunk)
    requires few { dump.old.ticks ≤ 2 ^ 126 }
    requires room { HasSpaceForLine chunk.old }
    ensures state { dump.new ≡ dump_after dump.old (outcome.now ∷ []) }
    ensures text { chunk.new ≡ chunk.old ++ dump_text dump.old (outcome.now ∷ []) }
{
    if let Ok(Reply::Ticked { position, .. }) = outcome {
        add_tick(dump, *position, chunk);
    }
}

// Adds the log's text for an outcome. Writes the chunk first if it has too little space.
fn write_outcome<W: Sink>(
    outcome: &Result<Reply, EventFault>,
    chunk: &mut Chunk,
    sink: &mut W,
) -> Result<(), WriteFault>
    ensures text { OnOk result
        (WritesPrefix (W.written sink.old) (W.written sink.new)
        (chunk.old ++ log (outcome.now ∷ [])) chunk.new) }
    ensures fault { OnErr result
        (AppendsPrefix (W.written sink.old) (W.written sink.new)
        (chunk.old ++ log (outcome.now ∷ []))) }
    ensures failures { CountsFailure (W.failures sink.old) (W.failures sink.new) result }
{
    match chunk.make_space(sink) {
        Ok(()) => {}
        Err(fault) => return Err(fault),
    }
    add_outcome(chunk, outcome);
    Ok(())
}

// Returns the number of ticks after `count` more in which nothing was commanded and nothing ended.
fn after_quiet(ticks: u64, count: u64) -> u64
    ensures { result ≡ ticks_after ticks (replicate count (Ok (Ticked None None))) }
{
    ticks.saturating_add(count)
}

// Returns `ticks`, plus 1 if the outcome is that of a tick.
fn count_tick(ticks: u64, outcome: &Result<Reply, EventFault>) -> u64
    ensures { result ≡ ticks_with ticks outcome.now }
{
    match outcome {
        Ok(Reply::Ticked { .. }) => ticks.saturating_add(1),
        _ => ticks,
    }
}

// Adds the text of the log with ticks for an outcome. Writes the chunk first if it has too little
// space.
fn write_timed<W: Sink>(
    ticks: &mut u64,
    outcome: &Result<Reply, EventFault>,
    chunk: &mut Chunk,
    sink: &mut W,
) -> Result<(), WriteFault>
    ensures state { OnOk result (ticks.new ≡ ticks_after ticks.old (outcome.now ∷ [])) }
    ensures text { OnOk result
        (WritesPrefix (W.written sink.old) (W.written sink.new)
        (chunk.old ++ timed_log ticks.old (outcome.now ∷ [])) chunk.new) }
    ensures fault { OnErr result
        (AppendsPrefix (W.written sink.old) (W.written sink.new)
        (chunk.old ++ timed_log ticks.old (outcome.now ∷ []))) }
    ensures failures { CountsFailure (W.failures sink.old) (W.failures sink.new) result }
{
    match chunk.make_space(sink) {
        Ok(()) => {}
        Err(fault) => return Err(fault),
    }
    add_timed_outcome(chunk, *ticks, outcome);
    *ticks = count_tick(*ticks, outcome);
    Ok(())
}

// Adds the changes of an outcome's tick. Writes the chunk first if it has too little space.
fn write_changes<W: Sink>(
    dump: &mut PulseDump,
    outcome: &Result<Reply, EventFault>,
    chunk: &mut Chunk,
    sink: &mut W,
) -> Result<(), WriteFault>
    requires { dump.old.ticks ≤ 2 ^ 126 }
    ensures state { OnOk result (dump.new ≡ dump_after dump.old (outcome.now ∷ [])) }
    ensures text { OnOk result
        (WritesPrefix (W.written sink.old) (W.written sink.new)
        (chunk.old ++ dump_text dump.old (outcome.now ∷ [])) chunk.new) }
    ensures fault { OnErr result
        (AppendsPrefix (W.written sink.old) (W.written sink.new)
        (chunk.old ++ dump_text dump.old (outcome.now ∷ []))) }
    ensures failures { CountsFailure (W.failures sink.old) (W.failures sink.new) result }
{
    match chunk.make_space(sink) {
        Ok(()) => {}
        Err(fault) => return Err(fault),
    }
    add_changes(dump, outcome, chunk);
    Ok(())
}

// Adds the last time of a dump. Writes the chunk first if it has too little space.
fn close_dump<W: Sink>(dump: &PulseDump, chunk: &mut Chunk, sink: &mut W) -> Result<(), WriteFault>
    requires { dump.now.ticks ≤ 2 ^ 126 }
    ensures text { OnOk result
        (WritesPrefix (W.written sink.old) (W.written sink.new)
        (chunk.old ++ closing_text dump.now) chunk.new) }
    ensures fault { OnErr result
        (AppendsPrefix (W.written sink.old) (W.written sink.new)
        (chunk.old ++ closing_text dump.now)) }
    ensures failures { CountsFailure (W.failures sink.old) (W.failures sink.new) result }
{
    match chunk.make_space(sink) {
        Ok(()) => {}
        Err(fault) => return Err(fault),
    }
    dump.close(chunk);
    Ok(())
}

// Writes the bytes of a reply's tick, if it is one, with what is switched in it.
fn write_sample<W: Sink>(
    samples: &mut PulseSamples,
    switch: Switch,
    reply: &Reply,
    chunk: &mut Chunk,
    sink: &mut W,
) -> Result<(), WriteFault>
    requires { samples.old.resting ≤ 2 ^ 126 }
    ensures state { OnOk result
        (samples.new ≡ after_samples samples.old (sampled switch (Ok reply.now))) }
    ensures text { OnOk result
        (WritesPrefix (W.written sink.old) (W.written sink.new)
        (chunk.old ++ samples_text samples.old (sampled switch (Ok reply.now))) chunk.new) }
    ensures fault { OnErr result
        (AppendsPrefix (W.written sink.old) (W.written sink.new)
        (chunk.old ++ samples_text samples.old (sampled switch (Ok reply.now)))) }
    ensures failures { CountsFailure (W.failures sink.old) (W.failures sink.new) result }
{
    match reply {
        Reply::Ticked { position, .. } => samples.tick(*position, switch, chunk, sink),
        _ => Ok(()),
    }
}

// Writes the bytes of an outcome's tick, if it is one, with what is switched in it.
fn write_tick<W: Sink>(
    samples: &mut PulseSamples,
    switch: Switch,
    outcome: &Result<Reply, EventFault>,
    chunk: &mut Chunk,
    sink: &mut W,
) -> Result<(), WriteFault>
    requires { samples.old.resting ≤ 2 ^ 126 }
    ensures state { OnOk result
        (samples.new ≡ after_samples samples.old (sampled switch outcome.now)) }
    ensures text { OnOk result
        (WritesPrefix (W.written sink.old) (W.written sink.new)
        (chunk.old ++ samples_text samples.old (sampled switch outcome.now)) chunk.new) }
    ensures fault { OnErr result
        (AppendsPrefix (W.written sink.old) (W.written sink.new)
        (chunk.old ++ samples_text samples.old (sampled switch outcome.now))) }
    ensures failures { CountsFailure (W.failures sink.old) (W.failures sink.new) result }
{
    match outcome {
        Ok(reply) => write_sample(samples, switch, reply, chunk, sink),
        Err(_) => Ok(()),
    }
}

impl<'s> Trace<'s> {
    /// Returns the trace before the first event, for motors at these counts.
    pub fn new(
        form: Form,
        ticks_per_second: u32,
        position: StepPos,
        switches: Switches<'s>,
    ) -> Trace<'s>
        requires { IsRate ticks_per_second }
        ensures { result ≡ trace_of form ticks_per_second position switches.entry }
    {
        match form {
            Form::Log => Trace::Log,
            Form::Times => Trace::Times(0),
            Form::Pulses => Trace::Pulses(PulseDump::new(ticks_per_second, position)),
            Form::Samples(inverted) => {
                Trace::Samples(PulseSamples::new(inverted, position), switches)
            }
        }
    }

    /// Returns the trace after some events whose text is all written.
    pub fn going_on(paused: &TextState, switches: Switches<'s>) -> Trace<'s>
        ensures { result ≡ trace_from paused.now switches.entry }
    {
        match paused {
            TextState::Log => Trace::Log,
            TextState::Times(ticks) => Trace::Times(*ticks),
            TextState::Samples(samples) => Trace::Samples(samples.settled(), switches),
        }
    }

    /// Returns what is kept of the text once all of it is written.
    pub(crate) fn paused(&self) -> TextState
        ensures { result ≡ paused_at self.now }
    {
        match self {
            Trace::Log | Trace::Pulses(_) | Trace::NotReported => TextState::Log,
            Trace::Times(ticks) => TextState::Times(*ticks),
            Trace::Samples(samples, _) => TextState::Samples(samples.settled()),
        }
    }

    /// Adds the text before that of the first event.
    pub(crate) fn open(&self, chunk: &mut Chunk)
        requires { HasSpaceForLine chunk.old }
        ensures { chunk.new ≡ chunk.old ++ opening_text self.now }
    {
        match self {
            Trace::Log | Trace::Times(_) | Trace::Samples(_, _) | Trace::NotReported => {}
            Trace::Pulses(dump) => dump.open(chunk),
        }
    }

    /// Counts ticks in which nothing was commanded and nothing ended, which add no text yet.
    pub(crate) fn rest(&mut self, count: u64)
        requires { ticks_of self.old + count ≤ 2 ^ 126 + 1 }
        ensures { self.new ≡ trace_after self.old (replicate count (Ok (Ticked None None))) }
    {
        match self {
            Trace::Log | Trace::NotReported => {}
            Trace::Times(ticks) => *ticks = after_quiet(*ticks, count),
            Trace::Pulses(dump) => rest_for(dump, count),
            Trace::Samples(samples, _) => samples.rest(count),
        }
    }

    // Returns what is switched in an outcome's tick, if the form writes that.
    fn switched_by(&self, outcome: &Result<Reply, EventFault>) -> Switch
        ensures { result ≡ switched_by self.now outcome.now }
    {
        match (self, outcome) {
            (Trace::Samples(_, switches), Ok(Reply::Ticked { ending, .. })) => switches.by(ending),
            _ => Switch::Nothing,
        }
    }

    /// Adds the text of an outcome. Writes the chunk if it has too little space.
    pub(crate) fn tell<W: Sink>(
        &mut self,
        outcome: &Result<Reply, EventFault>,
        chunk: &mut Chunk,
        sink: &mut W,
    ) -> Result<(), WriteFault>
        requires few { ticks_of self.old ≤ 2 ^ 126 }
        ensures trace { OnOk result (self.new ≡ trace_after self.old (outcome.now ∷ [])) }
        ensures text { OnOk result
            (WritesPrefix (W.written sink.old) (W.written sink.new)
            (chunk.old ++ trace_text self.old (outcome.now ∷ [])) chunk.new) }
        ensures fault { OnErr result
            (AppendsPrefix (W.written sink.old) (W.written sink.new)
            (chunk.old ++ trace_text self.old (outcome.now ∷ []))) }
        ensures failures { CountsFailure (W.failures sink.old) (W.failures sink.new) result }
    {
        let switch = self.switched_by(outcome);
        match self {
            Trace::Log => write_outcome(outcome, chunk, sink),
            Trace::Times(ticks) => write_timed(ticks, outcome, chunk, sink),
            Trace::Pulses(dump) => write_changes(dump, outcome, chunk, sink),
            Trace::Samples(samples, _) => write_tick(samples, switch, outcome, chunk, sink),
            Trace::NotReported => Ok(()),
        }
    }

    /// Adds the text after that of the last event. Writes the chunk if it has too little space.
    pub(crate) fn close<W: Sink>(
        &mut self,
        chunk: &mut Chunk,
        sink: &mut W,
    ) -> Result<(), WriteFault>
        requires few { ticks_of self.old ≤ 2 ^ 126 }
        ensures text { OnOk result
            (WritesPrefix (W.written sink.old) (W.written sink.new)
            (chunk.old ++ last_text self.old) chunk.new) }
        ensures fault { OnErr result
            (AppendsPrefix (W.written sink.old) (W.written sink.new)
            (chunk.old ++ last_text self.old)) }
        ensures failures { CountsFailure (W.failures sink.old) (W.failures sink.new) result }
    {
        match self {
            Trace::Log | Trace::Times(_) | Trace::NotReported => Ok(()),
            Trace::Pulses(dump) => close_dump(dump, chunk, sink),
            Trace::Samples(samples, _) => samples.write_rests(chunk, sink),
        }
    }
}
