//! The ramp, and how motions are loaded onto it.
ghost use Rattle.std.specs.Prelude.{◌≡◌, ◌≤◌, ◌<◌, ◌+◌, length};
ghost use Rattle.ngc_machine_files.specs.Machine.{file_of};
ghost use Rattle.ngc_planner.specs.Bounds.{bound_of};
ghost use Rattle.ngc_planner.specs.Components.{change_of};
ghost use Rattle.ngc_planner.specs.Trail.{joints_before};
ghost use Rattle.ngc_braking.specs.Leg.{IsLeg};
ghost use Rattle.ngc_machine_model.specs.Headline.{job_of};
ghost use Rattle.ngc_machine_model.specs.State.{path_steps, millionths};
ghost use Rattle.ngc_machine_model.specs.Reach.{stops};
ghost use Rattle.ngc_controller.specs.Drive.{continues_travel, with_one_more};

use crate::route::Loaded;
use ngc_braking::Leg;
use ngc_commands::{Action, Command};
use ngc_machine_files::Machine;
use ngc_planner::{Joints, Ramp, bound_of, change_of};
use ngc_step_kernel::ArcKernel;
use std::alloc::Allocator;

/// The ramp of the motions in the ring, and the target rate of the head.
#[derive(Drop)]
pub struct Drive<A: Allocator> {
    pub ramp: Ramp<A>,
    /// In millionths of a path step per tick. It is stored, so that a tick need not compute it.
    pub target: u64,
    /// The joints up to the command that was loaded last.
    pub joints: Joints<A>,
    /// Whether the last loaded command is a motion with path steps at whose end the axes need not
    /// stop.
    pub continues_travel: bool,
}

// Returns whether the axes stop at the end of an action that is a motion.
fn stops(action: &Action) -> bool
    ensures { result ≡ stops action.now }
{
    match action {
        Action::Move(motion) => motion.stop,
        _ => false,
    }
}

// Returns a motion as a leg of the ramp, between two joints. `joined` tells whether the axes reach
// it without a stop.
fn leg_between<K: ArcKernel + Drop, A: Allocator>(
    entry: u64,
    exit: u64,
    joined: bool,
    loaded: &Loaded<K>,
    machine: &Machine<A>,
) -> Leg
    requires some { 1 ≤ path_steps loaded.now.queued }
    requires entry { 1 ≤ entry }
    requires exit { 1 ≤ exit }
    ensures value { result ≡ record {
      millionths = millionths loaded.now.queued;
      change = change_of (file_of machine.now) loaded.now.queued.command.action
          (path_steps loaded.now.queued);
      bound = bound_of (file_of machine.now) loaded.now.queued.command.action
          (path_steps loaded.now.queued);
      entry = entry;
      exit = exit;
      joined = joined;
    } }
    ensures leg { IsLeg result }
{
    let command = loaded.command();
    let steps = loaded.path_steps();
    Leg {
        millionths: steps * 1_000_000,
        change: u64::from(change_of(&command.action, steps, machine)),
        bound: bound_of(&command.action, steps, machine),
        entry,
        exit,
        joined,
    }
}

impl<A: Allocator> Drive<A> {
    /// Loads one more command, with its index. A motion with path steps is added to the ramp, which
    /// must not be full.
    pub fn load<K: ArcKernel + Drop, B: Allocator>(
        &mut self,
        loaded: &Loaded<K>,
        index: u32,
        commands: &[Command],
        machine: &Machine<B>,
    )
        requires room { length self.old.ramp.legs < self.old.ramp.room }
        requires joints { self.old.joints ≡ joints_before (file_of machine.now) commands.now index }
        ensures ramp { self.new.ramp ≡ with_one_more
            (job_of (file_of machine.now) commands.now) index self.old.continues_travel loaded.now.queued
            self.old.ramp }
        ensures target { self.new.target ≡ self.old.target }
        ensures joints { self.new.joints
            ≡ joints_before (file_of machine.now) commands.now (index + 1) }
        ensures continues_travel { self.new.continues_travel ≡ continues_travel loaded.now.queued }
    {
        let moves = loaded.path_steps() > 0;
        let entry = self.joints.entry();
        let exit = self.joints.pass(commands, index, machine);
        if moves {
            let leg = leg_between(entry, exit, self.continues_travel, loaded, machine);
            self.ramp.load(leg);
        }
        self.continues_travel = moves && !stops(&loaded.command().action);
    }

    /// Makes a tick without travel. The last rate must be at most the change of the motion on which
    /// the last tick began.
    pub fn halt(&mut self)
        requires { self.old.ramp.rate ≤ self.old.ramp.last_change }
        ensures { self.new ≡ record self.old { ramp = record self.old.ramp { rate = 0 } } }
    {
        self.ramp.rest();
    }
}
