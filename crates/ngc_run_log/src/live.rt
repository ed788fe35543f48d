//! A run whose events arrive while it is in progress.
ghost use Rattle.std.specs.Prelude.{◌≡◌, ◌≢◌, ◌<◌, ◌≤◌, ◌+◌, ℕ, Err, List, [], ◌∷◌, ◌++◌, length, replicate};
ghost use Rattle.std.specs.Prelude.{Option, MatchOption, IfOk, IfErr, IfSome, OnOk, OnErr};
ghost use Rattle.ngc_machine_files.specs.MachineRanges.{IsMachine};
ghost use Rattle.ngc_machine_model.specs.Headline.{job_of};
ghost use Rattle.ngc_checker.specs.Accepted.{commands_at};
ghost use Rattle.ngc_events.specs.Arriving.{Ends, HaveArrived, MOST_TEXT, filled};
ghost use Rattle.ngc_events.specs.declared.event.EventLine.{EventLine as Line};
ghost use Rattle.ngc_run_log.specs.Feeding.{Processes};
ghost use Rattle.ngc_run_log.specs.Living.{FailsLive, FeedsLine, HasRun, IsCutRun, IsLive};
ghost use Rattle.ngc_run_log.specs.Living.{first_paused, form_of};
ghost use Rattle.ngc_run_log.specs.declared.live_form.LiveForm.{LiveForm as Written};
ghost use Rattle.ngc_text.specs.Failures.{CountsFailure};

use crate::feeding::send_line;
use crate::live_fault::LiveFault;
use crate::live_form::LiveForm;
use ngc_checker::Accepted;
use ngc_controller::Controller;
use ngc_events::{EventLine, EventLines, EventsFault};
use ngc_fixed_length::StepPos;
use ngc_pulses::{PulseSamples, Switch};
use ngc_run_through::{Form, Recorder, RunFault, Switches, TextState, Trace, switches_for};
use ngc_step_kernel::ArcPath;
use ngc_text::{Sink, WriteFault};
use std::alloc::Allocator;
use std::marker::Model;

/// A run of an accepted program whose events arrive while it is in progress.
///
/// It keeps no list of events, and its memory doesn't grow.
#[derive(Drop)]
pub struct LiveRun<A: Allocator> {
    controller: Controller<ArcPath, A>,
    lines: EventLines,
    switches: Vec<Switch, A>,
    paused: TextState,
    // Whether loads come before ticks while the ring has space.
    feeds_ring: bool,
}

impl<A: Allocator> Model for LiveRun<A> {
    ghost use Rattle.ngc_machine_files.specs.MachineRanges.{IsMachine};
    ghost use Rattle.ngc_run_log.specs.Living.{LiveData};

    ghost Value = { LiveData };

    ghost view = { λ l. record {
      job = l.controller.job;
      state = l.controller.state;
      arriving = l.lines;
      switches = l.switches.items;
      paused = l.paused;
      feeds = l.feeds_ring;
    } };

    ghost invariant = { λ l. IsMachine l.controller.job.machine };
}

fn form_of(form: LiveForm) -> Form
    ensures { result ≡ form_of form }
{
    match form {
        LiveForm::Log => Form::Log,
        LiveForm::Times => Form::Times,
        LiveForm::Samples(inverted) => Form::Samples(inverted),
    }
}

fn first_paused(form: LiveForm, position: StepPos) -> TextState
    ensures { result ≡ first_paused form position }
{
    match form {
        LiveForm::Log => TextState::Log,
        LiveForm::Times => TextState::Times(0),
        LiveForm::Samples(inverted) => { TextState::Samples(PulseSamples::new(inverted, position)) }
    }
}

impl<A: Allocator + Copy> LiveRun<A> {
    /// Returns a run of an accepted program, at a setting of block delete, to which nothing is fed
    /// yet. If `feeds_ring` is set, loads come before each tick while the ring has space for a
    /// command that is left. The run allocates all its memory here; if there is too little, that is
    /// 900.
    pub fn new(
        alloc: A,
        accepted: Accepted<A>,
        block_delete: bool,
        form: LiveForm,
        feeds_ring: bool,
    ) -> Result<LiveRun<A>, RunFault>
        ensures job { IfOk result
            (λ live. live.job ≡ job_of accepted.machine (commands_at block_delete accepted)) }
        ensures feeds { IfOk result (λ live. live.feeds ≡ feeds_ring) }
        ensures live { IfOk result
            (λ live. (written : Option (List ℕ)) → IsLive form live [] written written) }
        ensures memory { IfErr result (λ fault. fault ≡ RunFault.Memory) }
    {
        let _machine = accepted.machine();
        let switches = match switches_for(alloc, form_of(form), accepted.commands(block_delete)) {
            Ok(switches) => switches,
            Err(fault) => return Err(fault),
        };
        let controller = match Controller::<ArcPath, A>::new(alloc, accepted, block_delete) {
            Ok(controller) => controller,
            Err(_) => return Err(RunFault::Memory),
        };
        let first = controller.motors().counts(&controller.position());
        let paused = first_paused(form, first);
        Ok(LiveRun {
            controller,
            lines: EventLines::new(),
            switches,
            paused,
            feeds_ring,
        })
    }

    /// Takes the bytes of a piece up to the end of the first line that is complete now, processes
    /// the event of that line, and writes its whole result. Returns the bytes after the line. If the
    /// piece completes no line, it takes all bytes and returns `None`.
    ///
    /// Each line is an event as in an events file. Their number isn't limited. A line that isn't an
    /// event is 711 with its number, when its line feed or its 13th byte arrives. If a write fails
    /// (902), a prefix of the text is written. Feed nothing more after a fault.
    pub fn feed<'p, W: Sink>(
        &mut self,
        piece: &'p [u8],
        sink: &mut W,
    ) -> Result<Option<&'p [u8]>, LiveFault>
        // For any text of these lines that arrived before: the sink has the text of the run over
        // these lines and the one that was fed.
        ensures feeds { (form : Written) (text : List ℕ) (lines : List Line)
            (first : Option (List ℕ)) → HaveArrived text lines self.old.arriving →
            HasRun form self.old lines first (W.written sink.old) →
            FeedsLine form self.new text piece.now lines first (W.written sink.new) result }
        ensures job { self.new.job ≡ self.old.job }
        ensures feeds_ring { self.new.feeds ≡ self.old.feeds }
        ensures shorter { IfOk result (λ o. IfSome o (λ rest. length rest.now < length piece.now)) }
        // A text is no longer than its lines may be.
        ensures fills { IfOk result (λ o. MatchOption o
            (filled self.old.arriving + length piece.now ≤ filled self.new.arriving)
            (λ rest. filled self.old.arriving + length piece.now
            ≤ filled self.new.arriving + length rest.now)) }
        ensures bound { OnOk result (filled self.new.arriving ≤ MOST_TEXT) }
        ensures not_read { result ≢ Err LiveFault.Read }
        ensures failures { FailsLive result (W.failures sink.old) (W.failures sink.new) }
    {
        match self.lines.take(piece) {
            Ok(Some((line, rest))) => match self.send(&line, sink) {
                Ok(()) => Ok(Some(rest)),
                Err(fault) => Err(LiveFault::Write(fault)),
            },
            Ok(None) => Ok(None),
            Err(fault) => Err(LiveFault::Events(fault)),
        }
    }

    /// Processes the event of a line the number of times that the line says, and writes its whole
    /// result. The line needn't have arrived.
    pub(crate) fn send<W: Sink>(&mut self, line: &EventLine, sink: &mut W) -> Result<(), WriteFault>
        ensures runs { OnOk result ((form : Written) (lines : List Line) (first : Option (List ℕ)) →
            HasRun form self.old lines first (W.written sink.old) →
            HasRun form self.new (lines ++ line.now ∷ []) first (W.written sink.new)) }
        ensures processes { OnOk result
            (Processes self.old.feeds self.old.job self.old.state self.new.state
            (replicate line.now.times line.now.event)) }
        ensures cut { OnErr result ((form : Written) (lines : List Line) (first : Option (List ℕ)) →
            HasRun form self.old lines first (W.written sink.old) →
            IsCutRun form self.old.feeds self.old.job (lines ++ line.now ∷ []) first
            (W.written sink.new)) }
        ensures job { self.new.job ≡ self.old.job }
        ensures feeds_ring { self.new.feeds ≡ self.old.feeds }
        ensures arriving { self.new.arriving ≡ self.old.arriving }
        ensures failures { CountsFailure (W.failures sink.old) (W.failures sink.new) result }
    {
        let switches = Switches {
            list: self.switches.as_slice(),
        };
        let trace = Trace::going_on(&self.paused, switches);
        let mut recorder = Recorder::new(
            trace,
            self.controller.motors(),
            self.controller.position(),
        );
        match send_line(
            &mut self.controller,
            self.feeds_ring,
            line,
            &mut recorder,
            sink,
        ) {
            Ok(()) => {}
            Err(fault) => return Err(fault),
        }
        self.paused = recorder.paused();
        match recorder.finish(sink) {
            Ok(_) => {}
            Err(fault) => return Err(fault),
        }
        Ok(())
    }

    /// Returns the rate of the last tick, in millionths of a path step: 0 to 1,000,000, and 0 while
    /// the machine is at rest.
    pub fn rate(&self) -> u64
        ensures value { result ≡ self.now.state.rate }
        ensures machine { IsMachine self.now.job.machine }
    {
        self.controller.rate()
    }

    /// Returns whether the text of events is complete. A last line without its line feed is 711.
    pub fn finish(&self) -> Result<(), EventsFault>
        ensures { (text : List ℕ) (lines : List Line) → HaveArrived text lines self.now.arriving →
            Ends text lines result }
    {
        self.lines.finish()
    }
}
