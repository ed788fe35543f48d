//! The machine's progress in its commands.
ghost use Rattle.std.specs.Prelude.{◌≡◌, ◌≤◌, ◌<◌, ◌+◌, ◌^◌, ◌++◌, ◌∷◌, [], length, drop, true};
ghost use Rattle.std.specs.Prelude.{IfOk};
ghost use Rattle.ngc_machine_files.specs.Machine.{file_of};
ghost use Rattle.ngc_machine_model.specs.Headline.{job_of};
ghost use Rattle.ngc_planner.specs.Trail.{joints_before};
ghost use Rattle.ngc_planner.specs.Ramp.{MOST_LEGS};
ghost use Rattle.ngc_controller.specs.Drive.{continues_travel, with_one_more, IsTarget, is_head_by_place};
ghost use Rattle.ngc_controller.specs.Loaded.{next_place};
ghost use Rattle.ngc_controller.specs.Opening.{IsOpening};
ghost use Rattle.ngc_controller.specs.Ring.{action_of, IsMoving, IsPointOn, HasNext};

use crate::drive::Drive;
use crate::ring::Ring;
use crate::route::Loaded;
use ngc_commands::{Action, Command};
use ngc_fixed_length::StepPos;
use ngc_machine_files::Machine;
use ngc_planner::{Joints, Ramp, is_by_place, target_on};
use ngc_step_kernel::ArcKernel;
use std::alloc::{AllocError, Allocator};

/// The commands that are done, those that are loaded, and the progress of the head.
#[derive(Drop)]
pub struct Progress<K: ArcKernel + Drop, A: Allocator> {
    pub ring: Ring<K, A>,
    pub drive: Drive<A>,
    /// The number of commands that are done.
    pub done: u32,
    /// How many ticks the head has dwelt.
    pub dwelt: u128,
}

impl<K: ArcKernel + Drop, A: Allocator + Copy> Progress<K, A> {
    /// Returns the progress with nothing loaded and nothing done. All memory is allocated here.
    /// `ring` is the greatest number of loaded commands, 1 to 1,024.
    pub fn new(alloc: A, ring: usize) -> Result<Progress<K, A>, AllocError>
        requires some { 1 ≤ ring }
        requires few { ring ≤ MOST_LEGS }
        ensures { IfOk result (IsOpening ring) }
    {
        let ramp = Ramp::with_ring(alloc, ring)?;
        let joints = Joints::new(alloc, ring)?;
        let ring = Ring::new(alloc, ring)?;
        Ok(Progress {
            ring,
            drive: Drive {
                ramp,
                target: 0,
                joints,
                continues_travel: false,
            },
            done: 0,
            dwelt: 0,
        })
    }

    /// Returns the action of the command at the head.
    pub fn action(&self) -> Option<Action>
        ensures { result ≡ action_of self.now.ring.loaded }
    {
        match self.ring.head() {
            Some(head) => Some(head.command().action),
            None => None,
        }
    }

    /// Adds a command to the ring, which must not be full.
    pub fn load<B: Allocator>(
        &mut self,
        loaded: Loaded<K>,
        commands: &[Command],
        percent: u8,
        machine: &Machine<B>,
    )
        requires room { length self.old.ring.loaded < self.old.ring.room }
        requires legs { length self.old.drive.ramp.legs < self.old.drive.ramp.room }
        requires few { self.old.done + length self.old.ring.loaded < 2 ^ 32 }
        requires beginning { loaded.place ≡ 0 }
        requires aimed { IsTarget (file_of machine.now) percent self.old.ring.loaded
            self.old.ring.place self.old.drive.target }
        requires joints { self.old.drive.joints ≡ joints_before (file_of machine.now) commands.now
            (self.old.done + length self.old.ring.loaded) }
        ensures loaded { self.new.ring.loaded ≡ self.old.ring.loaded ++ loaded.queued ∷ [] }
        ensures place { self.new.ring.place ≡ self.old.ring.place }
        ensures room { self.new.ring.room ≡ self.old.ring.room }
        ensures done { self.new.done ≡ self.old.done }
        ensures dwelt { self.new.dwelt ≡ self.old.dwelt }
        ensures ramp { self.new.drive.ramp ≡ with_one_more
            (job_of (file_of machine.now) commands.now)
            (self.old.done + length self.old.ring.loaded) self.old.drive.continues_travel loaded.queued
            self.old.drive.ramp }
        ensures joints { self.new.drive.joints ≡ joints_before (file_of machine.now) commands.now
            (self.old.done + length self.old.ring.loaded + 1) }
        ensures continues_travel { self.new.drive.continues_travel ≡ continues_travel loaded.queued }
        ensures target { IsTarget (file_of machine.now) percent self.new.ring.loaded
            self.new.ring.place self.new.drive.target }
    {
        let ahead = self.ring.len();
        self.drive
            .load(&loaded, self.done + ahead, commands, machine);
        self.ring.push(loaded);
        if ahead == 0 {
            self.aim(percent, machine);
        }
    }

    /// Removes the head, which is done; the next command becomes the head. The rest of a tick
    /// beyond the end is on the ramp.
    pub fn leave<B: Allocator>(&mut self, percent: u8, machine: &Machine<B>)
        requires { self.old.done + 1 < 2 ^ 32 }
        ensures loaded { self.new.ring.loaded ≡ drop 1 self.old.ring.loaded }
        ensures place { self.new.ring.place ≡ 0 }
        ensures room { self.new.ring.room ≡ self.old.ring.room }
        ensures done { self.new.done ≡ self.old.done + 1 }
        ensures dwelt { self.new.dwelt ≡ 0 }
        ensures ramp { self.new.drive.ramp ≡ self.old.drive.ramp }
        ensures joints { self.new.drive.joints ≡ self.old.drive.joints }
        ensures continues_travel { self.new.drive.continues_travel ≡ self.old.drive.continues_travel }
        ensures target { IsTarget (file_of machine.now) percent self.new.ring.loaded
            self.new.ring.place self.new.drive.target }
    {
        self.ring.leave();
        self.done += 1;
        self.dwelt = 0;
        self.aim(percent, machine);
    }

    /// Sets the target rate of the head to that of its place, at an override in percent.
    pub fn aim<B: Allocator>(&mut self, percent: u8, machine: &Machine<B>)
        ensures ring { self.new.ring ≡ self.old.ring }
        ensures done { self.new.done ≡ self.old.done }
        ensures dwelt { self.new.dwelt ≡ self.old.dwelt }
        ensures ramp { self.new.drive.ramp ≡ self.old.drive.ramp }
        ensures joints { self.new.drive.joints ≡ self.old.drive.joints }
        ensures continues_travel { self.new.drive.continues_travel ≡ self.old.drive.continues_travel }
        ensures target { IsTarget (file_of machine.now) percent self.old.ring.loaded
            self.old.ring.place self.new.drive.target }
    {
        if let Some(head) = self.ring.head() {
            self.drive.target = target_on(
                &head.command().action,
                head.path_steps(),
                head.helix_length(machine.step),
                percent,
                &head.position(),
                machine,
            );
        }
    }

    /// Returns whether the target of the head depends on the place.
    pub fn is_by_place<B: Allocator>(&self, machine: &Machine<B>) -> bool
        ensures { result ≡ is_head_by_place (file_of machine.now) self.now.ring.loaded }
    {
        match self.ring.head() {
            Some(head) => is_by_place(&head.command().action, machine),
            None => false,
        }
    }

    /// Goes to the next point of the head's path, if it is due, and returns the current point. The
    /// head must be a motion with path steps. The target is then that of the place, at an override
    /// in percent.
    pub fn follow<B: Allocator>(&mut self, due: bool, percent: u8, machine: &Machine<B>) -> StepPos
        requires moves { IsMoving self.old.ring.loaded }
        requires room { due ≡ true → HasNext self.old.ring.loaded self.old.ring.place }
        requires aimed { IsTarget (file_of machine.now) percent self.old.ring.loaded
            self.old.ring.place self.old.drive.target }
        ensures loaded { self.new.ring.loaded ≡ self.old.ring.loaded }
        ensures place { self.new.ring.place ≡ next_place self.old.ring.place due }
        ensures room { self.new.ring.room ≡ self.old.ring.room }
        ensures point { IsPointOn self.new.ring.loaded self.new.ring.place result }
        ensures done { self.new.done ≡ self.old.done }
        ensures dwelt { self.new.dwelt ≡ self.old.dwelt }
        ensures ramp { self.new.drive.ramp ≡ self.old.drive.ramp }
        ensures joints { self.new.drive.joints ≡ self.old.drive.joints }
        ensures continues_travel { self.new.drive.continues_travel ≡ self.old.drive.continues_travel }
        ensures target { IsTarget (file_of machine.now) percent self.new.ring.loaded
            self.new.ring.place self.new.drive.target }
    {
        let position = self.ring.follow(due);
        if due && self.is_by_place(machine) {
            self.aim(percent, machine);
        }
        position
    }
}
