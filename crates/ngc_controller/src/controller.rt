ghost use Rattle.std.specs.Prelude.{◌≡◌, ◌≤◌, ◌++◌, ◌∷◌, [], replicate, true, false, None, Ok};
ghost use Rattle.std.specs.Prelude.{IfOk, IfErr, IfSome, IsSome, OnErr, ◌↔◌};
ghost use Rattle.circular_buffer.specs.Buffer.{keep_last};
ghost use Rattle.ngc_machine_files.specs.Machine.{motors_of};
ghost use Rattle.ngc_machine_model.specs.Headline.{job_of};
ghost use Rattle.ngc_machine_model.specs.Progress.{GoesOn, TravelsAtLeast, is_free};
ghost use Rattle.ngc_machine_model.specs.State.{opening, command_at, loaded};
ghost use Rattle.ngc_machine_model.specs.Stretch.{Stretch};
ghost use Rattle.ngc_machine_model.specs.Step.{Step, LoadCommand, Rests, Serves, TickBy};
ghost use Rattle.ngc_checker.specs.Accepted.{commands_at};
ghost use Rattle.ngc_events.specs.declared.event.Event.TheVariants.{Tick};
ghost use Rattle.ngc_events.specs.declared.reply.Reply.TheVariants.{Ticked};
ghost use Rattle.ngc_controller.specs.Coasting.{coasted, CoastsFor};
ghost use Rattle.ngc_controller.specs.Controller.{KEPT, from_the_last};
ghost use Rattle.ngc_controller.specs.Drive.{is_head_by_place};
ghost use Rattle.ngc_controller.specs.Finishing.{FinishesMotion, MayFinish, TakePaths};
ghost use Rattle.ngc_controller.specs.Fields.{DWELL_LIMIT, TravelsOn, IsServed};
ghost use Rattle.ngc_controller.specs.Loaded.{AreShort, LoadsShort};
ghost use Rattle.ngc_controller.specs.Ring.{IsMoving};

use crate::ending::{dwell_left, dwells_on, ending_of, panel_after, tool_after};
use crate::leg_end::end_leg;
use crate::panel::Panel;
use crate::progress::Progress;
use crate::recent::{QUIET, Recent};
use crate::route::Loaded;
use ngc_checker::{Accepted, MemoryFault};
use ngc_commands::{Action, Command};
use ngc_events::{Ending, Event, EventFault, Reply};
use ngc_fixed_length::StepPos;
use ngc_machine_files::Tool;
use ngc_motors::Motors;
use ngc_step_kernel::ArcKernel;
use std::alloc::Allocator;
use std::marker::Model;

/// The ticks up to the end of a motion.
#[derive(Clone, Copy)]
pub struct Passed {
    /// Their number, at least 1.
    pub ticks: u64,
    /// The number of their pulses, at least 1.
    pub path_steps: u64,
}

/// A machine that runs an accepted program at a setting of block delete. Events drive it. `K`
/// computes its arcs on the grid.
#[derive(Drop)]
pub struct Controller<K: ArcKernel + Drop, A: Allocator> {
    accepted: Accepted<A>,
    block_delete: bool,
    progress: Progress<K, A>,
    position: StepPos,
    tool: Option<Tool>,
    panel: Panel,
    recent: Recent<A>,
}

impl<K: ArcKernel + Drop, A: Allocator> Model for Controller<K, A> {
    ghost use Rattle.std.specs.Prelude.{◌≡◌};
    ghost use Rattle.ngc_machine_model.specs.Headline.{job_of};
    ghost use Rattle.ngc_checker.specs.Accepted.{commands_at};
    ghost use Rattle.ngc_controller.specs.Controller.{ControllerData};
    ghost use Rattle.ngc_controller.specs.Fields.{state_of, IsInOrder};

    ghost Value = { ControllerData };

    ghost view = { λ c. record {
      job = job_of c.accepted.machine (commands_at c.block_delete c.accepted);
      state = state_of c.progress.done c.progress.ring c.progress.drive c.progress.dwelt c.position
          c.tool c.panel;
      recent = c.recent;
      accepted = c.accepted;
    } };

    ghost invariant = { λ c. IsInOrder
        (job_of c.accepted.machine (commands_at c.block_delete c.accepted)) c.progress.done
        c.progress.ring c.progress.drive c.progress.dwelt c.panel };
}

impl<K: ArcKernel + Drop, A: Allocator + Copy> Controller<K, A> {
    /// Returns a controller whose machine is at rest at the start point, with nothing loaded and no
    /// tool mounted. It allocates all its memory here. If there is too little (900), it returns the
    /// accepted program.
    pub fn new(
        alloc: A,
        accepted: Accepted<A>,
        block_delete: bool,
    ) -> Result<Controller<K, A>, (Accepted<A>, MemoryFault)>
        ensures made { IfOk result
            (λ c. (c.job ≡ job_of accepted.machine (commands_at block_delete accepted)) ×
            (c.state ≡ opening accepted.machine) × (c.recent ≡ []) ×
            (c.accepted ≡ accepted)) }
        ensures back { IfErr result (λ e. e.0 ≡ accepted) }
    {
        let machine = accepted.machine();
        let position = machine.start.to_grid(machine.step);
        let ring = machine.ring as usize;
        let progress = match Progress::new(alloc, ring) {
            Ok(progress) => progress,
            Err(_) => return Err((accepted, MemoryFault)),
        };
        let recent = match Recent::new(alloc) {
            Ok(recent) => recent,
            Err(_) => return Err((accepted, MemoryFault)),
        };
        Ok(Controller {
            accepted,
            block_delete,
            progress,
            position,
            tool: None,
            panel: Panel::new(),
            recent,
        })
    }

    /// Handles an event, and returns what the machine did. It allocates no memory. A refused event
    /// changes nothing, not even the latest replies. It refuses an override over 200 percent (701),
    /// a load while the machine's ring is full of loaded commands that are not done (702), and a
    /// load after the last command (703).
    pub fn event(&mut self, event: Event) -> Result<Reply, EventFault>
        ensures job { self.new.job ≡ self.old.job }
        ensures accepted { self.new.accepted ≡ self.old.accepted }
        ensures step { Step self.old.job self.old.state event result self.new.state }
        ensures goes_on { GoesOn self.old.job self.old.state event self.new.state }
        ensures short { LoadsShort event self.old.state self.new.state }
        ensures recent { IfOk result
            (λ reply. self.new.recent ≡ keep_last KEPT (self.old.recent ++ reply ∷ [])) }
        ensures refused { OnErr result (self.new ≡ self.old) }
    {
        let outcome = self.take(event);
        if let Ok(reply) = outcome {
            self.recent.push(reply);
        }
        outcome
    }

    /// Makes up to `most` ticks that have nothing to report: the motion at the head continues at
    /// the rate of the last tick and no pulse is due, or the dwell at the head continues. Returns
    /// the number of ticks, which is 0 if the next tick may report something. It allocates no
    /// memory.
    pub fn coast(&mut self, most: u64) -> u64
        ensures job { self.new.job ≡ self.old.job }
        ensures accepted { self.new.accepted ≡ self.old.accepted }
        ensures few { result ≤ most }
        ensures state { self.new.state ≡ coasted result self.old.state }
        ensures coasts { Stretch self.old.job self.old.state self.new.state (replicate result Tick)
            (replicate result (Ok (Ticked None None))) }
        ensures recent { self.new.recent ≡ keep_last KEPT
            (self.old.recent ++ replicate result (Ticked None None)) }
    {
        let ticks = self.go_on(most);
        self.recent.rest(ticks);
        ticks
    }

    /// Makes the ticks up to the end of the motion at the head, at once, and reports only their number
    /// and that of their pulses. They are ticks of [`Controller::event`], but not among the latest
    /// replies. It makes none and returns `None` exactly if the head is no motion with path steps, if
    /// its target depends on the place, if the machine is held or stopped, or if the override is 0.
    /// It allocates no memory.
    pub fn finish_motion(&mut self) -> Option<Passed>
        requires { TakePaths self.old.job self.old.state.ring }
        ensures job { self.new.job ≡ self.old.job }
        ensures accepted { self.new.accepted ≡ self.old.accepted }
        ensures recent { self.new.recent ≡ self.old.recent }
        ensures finishes { IfSome result
            (λ p. FinishesMotion p.ticks p.path_steps self.old.job self.old.state self.new.state) }
        ensures made { IsSome result ↔ MayFinish self.old.job self.old.state }
        ensures stays { result ≡ None → self.new ≡ self.old }
    {
        if !self.is_free() {
            return None;
        }
        if !self.progress.ring.moves() {
            return None;
        }
        if self.progress.is_by_place(self.accepted.machine()) {
            return None;
        }
        Some(self.pass())
    }

    // Returns whether the machine is free to travel.
    fn is_free(&self) -> bool
        ensures { result ≡ is_free self.now.state }
    {
        !self.panel.held && (!self.panel.stopped && self.panel.effective() > 0)
    }

    // Makes the ticks up to the end of the motion at the head.
    fn pass(&mut self) -> Passed
        requires takes { TakePaths self.old.job self.old.state.ring }
        requires moves { IsMoving self.old.state.ring }
        requires steady { is_head_by_place self.old.job.machine self.old.state.ring ≡ false }
        requires free { is_free self.old.state ≡ true }
        ensures job { self.new.job ≡ self.old.job }
        ensures accepted { self.new.accepted ≡ self.old.accepted }
        ensures recent { self.new.recent ≡ self.old.recent }
        ensures finishes { FinishesMotion result.ticks result.path_steps self.old.job
            self.old.state self.new.state }
    {
        let Some(head) = self.progress.ring.head() else {
            unreachable!();
        };
        // A path is short enough for its ticks to be counted.
        let _all = head.path_steps();
        let path_steps = head.steps_left();
        let end = head.end(self.accepted.machine().step);
        let target = self.progress.drive.target;
        let ticks = end_leg(&mut self.progress.drive.ramp, target);
        self.position = end;
        self.progress
            .leave(self.panel.effective(), self.accepted.machine());
        Passed { ticks, path_steps }
    }

    // Makes ticks, by the kind of the head.
    fn go_on(&mut self, most: u64) -> u64
        ensures job { self.new.job ≡ self.old.job }
        ensures accepted { self.new.accepted ≡ self.old.accepted }
        ensures recent { self.new.recent ≡ self.old.recent }
        ensures few { result ≤ most }
        ensures state { self.new.state ≡ coasted result self.old.state }
        ensures coasts { CoastsFor self.old.job self.old.state result }
    {
        if self.panel.stopped {
            return 0;
        }
        if self.progress.ring.moves() {
            return self.travel_on(most);
        }
        if self.panel.held {
            return 0;
        }
        match self.progress.action() {
            Some(action) => self.dwell_on(action, most),
            None => 0,
        }
    }

    // Makes ticks on a motion with path steps at the head, at the rate of the last tick.
    fn travel_on(&mut self, most: u64) -> u64
        requires moves { IsMoving self.old.state.ring }
        requires runs { self.old.state.stopped ≡ false }
        ensures job { self.new.job ≡ self.old.job }
        ensures accepted { self.new.accepted ≡ self.old.accepted }
        ensures recent { self.new.recent ≡ self.old.recent }
        ensures few { result ≤ most }
        ensures state { self.new.state ≡ coasted result self.old.state }
        ensures coasts { CoastsFor self.old.job self.old.state result }
    {
        let wish = self.panel.wish(self.progress.drive.target);
        let ticks = self.progress.drive.ramp.coast(wish, most);
        if ticks == 0 {
            return 0;
        }
        self.position = self.progress.ring.follow(false);
        ticks
    }

    // Makes ticks of a dwell at the head.
    fn dwell_on(&mut self, action: Action, most: u64) -> u64
        requires head { IsServed self.old.state.ring action }
        requires runs { self.old.state.stopped ≡ false }
        requires free { self.old.state.held ≡ false }
        ensures job { self.new.job ≡ self.old.job }
        ensures accepted { self.new.accepted ≡ self.old.accepted }
        ensures recent { self.new.recent ≡ self.old.recent }
        ensures few { result ≤ most }
        ensures state { self.new.state ≡ coasted result self.old.state }
        ensures coasts { CoastsFor self.old.job self.old.state result }
    {
        let machine = self.accepted.machine();
        let left = dwell_left(&action, self.progress.dwelt, machine.ticks_per_second);
        let ticks = left.min(u128::from(most)) as u64;
        if ticks == 0 {
            return 0;
        }
        self.progress.drive.halt();
        self.progress.dwelt += u128::from(ticks);
        ticks
    }

    // Does what an event requests.
    fn take(&mut self, event: Event) -> Result<Reply, EventFault>
        ensures job { self.new.job ≡ self.old.job }
        ensures accepted { self.new.accepted ≡ self.old.accepted }
        ensures recent { self.new.recent ≡ self.old.recent }
        ensures step { Step self.old.job self.old.state event result self.new.state }
        ensures goes_on { GoesOn self.old.job self.old.state event self.new.state }
        ensures short { LoadsShort event self.old.state self.new.state }
        ensures refused { OnErr result (self.new ≡ self.old) }
    {
        match event {
            Event::Load => self.load(),
            Event::Tick => Ok(self.tick()),
            Event::Hold => {
                self.panel.held = true;
                Ok(Reply::Held)
            }
            Event::Resume => {
                self.panel.held = false;
                Ok(Reply::Resumed)
            }
            Event::Override(percent) => self.override_by(percent),
            Event::StopSwitch(on) => {
                self.panel.stop_switch = on;
                Ok(Reply::Switched(on))
            }
            Event::Start => {
                self.panel.stopped = false;
                Ok(Reply::Started)
            }
        }
    }

    // Loads the next command into the ring.
    fn load(&mut self) -> Result<Reply, EventFault>
        ensures job { self.new.job ≡ self.old.job }
        ensures accepted { self.new.accepted ≡ self.old.accepted }
        ensures recent { self.new.recent ≡ self.old.recent }
        ensures loads { LoadCommand self.old.job self.old.state
            (command_at self.old.job (loaded self.old.state)) result self.new.state }
        ensures short { AreShort self.old.state.ring → AreShort self.new.state.ring }
        ensures refused { OnErr result (self.new ≡ self.old) }
    {
        let machine = self.accepted.machine();
        let commands = self.accepted.commands(self.block_delete);
        let index = self.progress.done + self.progress.ring.len();
        let Some(command) = commands.get(index as usize) else {
            return Err(EventFault::AllLoaded);
        };
        if self.progress.ring.len() >= machine.ring {
            return Err(EventFault::RingFull);
        }
        let loaded = Loaded::new(command, machine.step);
        self.progress
            .load(loaded, commands, self.panel.effective(), machine);
        Ok(Reply::Loaded(index))
    }

    // Makes one tick of the pulse clock.
    fn tick(&mut self) -> Reply
        ensures job { self.new.job ≡ self.old.job }
        ensures accepted { self.new.accepted ≡ self.old.accepted }
        ensures recent { self.new.recent ≡ self.old.recent }
        ensures ticks { TickBy self.old.job self.old.state.stopped self.old.state.ring
            self.old.state (Ok result) self.new.state }
        ensures goes_on { TravelsAtLeast self.old.job self.old.state.ring self.old.state
            self.new.state.rate }
    {
        if self.panel.stopped {
            return self.rest();
        }
        if self.progress.ring.moves() {
            return self.travel();
        }
        if self.panel.held {
            return self.rest();
        }
        match self.progress.action() {
            Some(action) => self.serve(action),
            None => self.rest(),
        }
    }

    // Makes a tick without travel, in which no command ends.
    fn rest(&mut self) -> Reply
        requires { IsMoving self.old.state.ring → self.old.state.stopped ≡ true }
        ensures job { self.new.job ≡ self.old.job }
        ensures accepted { self.new.accepted ≡ self.old.accepted }
        ensures recent { self.new.recent ≡ self.old.recent }
        ensures rests { Rests self.old.state (Ok result) self.new.state }
    {
        self.progress.drive.halt();
        QUIET
    }

    // Makes a tick on a motion with path steps at the head.
    fn travel(&mut self) -> Reply
        requires moves { IsMoving self.old.state.ring }
        requires runs { self.old.state.stopped ≡ false }
        ensures job { self.new.job ≡ self.old.job }
        ensures accepted { self.new.accepted ≡ self.old.accepted }
        ensures recent { self.new.recent ≡ self.old.recent }
        ensures travels { TravelsOn self.old.job self.old.state.ring self.old.state
            (Ok result) self.new.state }
    {
        let wish = self.panel.wish(self.progress.drive.target);
        let travel = self.progress.drive.ramp.tick(wish);
        let percent = self.panel.effective();
        self.position = self
            .progress
            .follow(travel.due, percent, self.accepted.machine());
        let position = travel.due.then_some(self.position);
        if !travel.ended {
            return Reply::Ticked {
                position,
                ending: None,
            };
        }
        let ending = Some(Ending::Done(self.progress.done));
        self.progress
            .leave(self.panel.effective(), self.accepted.machine());
        Reply::Ticked { position, ending }
    }

    // Makes a tick on a head without travel: it dwells, or it is done.
    fn serve(&mut self, action: Action) -> Reply
        requires head { IsServed self.old.state.ring action }
        requires runs { self.old.state.stopped ≡ false }
        ensures job { self.new.job ≡ self.old.job }
        ensures accepted { self.new.accepted ≡ self.old.accepted }
        ensures recent { self.new.recent ≡ self.old.recent }
        ensures serves { Serves self.old.job action self.old.state (Ok result) self.new.state }
    {
        let machine = self.accepted.machine();
        self.progress.drive.halt();
        if dwells_on(&action, self.progress.dwelt, machine.ticks_per_second) {
            self.progress.dwelt += 1;
            return QUIET;
        }
        let ending = Some(ending_of(&action, self.progress.done, self.panel.stop_switch));
        self.tool = tool_after(&action, self.tool);
        self.panel = panel_after(&action, self.panel);
        self.progress.leave(self.panel.effective(), machine);
        Reply::Ticked {
            position: None,
            ending,
        }
    }

    // Sets the override, in percent.
    fn override_by(&mut self, percent: u8) -> Result<Reply, EventFault>
        ensures job { self.new.job ≡ self.old.job }
        ensures accepted { self.new.accepted ≡ self.old.accepted }
        ensures recent { self.new.recent ≡ self.old.recent }
        ensures step { Step self.old.job self.old.state
            (Event.Override percent) result self.new.state }
        ensures refused { OnErr result (self.new ≡ self.old) }
    {
        if percent > 200 {
            return Err(EventFault::OverrideTooLarge);
        }
        self.panel.percent = percent;
        let effective = self.panel.effective();
        self.progress.aim(effective, self.accepted.machine());
        Ok(Reply::Overridden(percent))
    }

    /// Ends the run, and returns the accepted program that [`Controller::new`] took.
    pub fn into_accepted(self) -> Accepted<A>
        ensures { result ≡ self.accepted }
    {
        self.accepted
    }

    /// Returns the greatest number of commands that are loaded and not done: that of the machine
    /// file, 16 to 1,024.
    pub fn ring(&self) -> usize
        ensures value { result ≡ self.now.job.machine.ring }
        ensures least { 16 ≤ result }
        ensures greatest { result ≤ 1024 }
    {
        self.accepted.machine().ring as usize
    }

    /// Returns the commands that it runs.
    pub fn commands(&self) -> &[Command]
        ensures { result.now ≡ self.now.job.commands }
    {
        self.accepted.commands(self.block_delete)
    }

    /// Returns the machine's motors.
    pub fn motors(&self) -> Motors
        ensures { result ≡ motors_of self.now.job.machine }
    {
        self.accepted.machine().motors()
    }

    /// Returns the machine's position, in steps.
    pub fn position(&self) -> StepPos
        ensures { result ≡ self.now.state.position }
    {
        self.position
    }

    /// Returns the rate of the last tick, in millionths of a path step: 0 to 1,000,000, and 0
    /// before the first.
    pub fn rate(&self) -> u64
        ensures { result ≡ self.now.state.rate }
    {
        self.progress.drive.ramp.rate()
    }

    /// Returns how many ticks the command at the head has dwelt, at most 2^100.
    pub fn dwelt(&self) -> u128
        ensures value { result ≡ self.now.state.dwelt }
        ensures few { result ≤ DWELL_LIMIT }
    {
        self.progress.dwelt
    }

    /// Returns the mounted tool.
    pub fn tool(&self) -> Option<Tool>
        ensures { result ≡ self.now.state.tool }
    {
        self.tool
    }

    /// Returns the reply to the event that was handled `index` events before the last one; 0 is the
    /// last one. The replies to the last 256 events are stored, and refused events do not count.
    pub fn recent(&self, index: usize) -> Option<Reply>
        ensures { result ≡ from_the_last index self.now.recent }
    {
        self.recent.from_the_last(index)
    }
}
