//! A walk through the commands of a setting, from one motion to the next.
ghost use Rattle.std.specs.Prelude.{◌≡◌, ◌+◌, ◌-◌, ◌<◌, ◌≤◌, ◌∷◌, [], length, drop, List};
ghost use Rattle.std.specs.Prelude.{MatchOption, IfSome, Some, None};
ghost use Rattle.ngc_machine_files.specs.Machine.{file_of};
ghost use Rattle.ngc_commands.specs.Movement.{actions_of, motion_indices};
ghost use Rattle.ngc_commands.specs.Sequence.{COMMAND_LIMIT};
ghost use Rattle.ngc_certificate.specs.PieceFault.{◌or◌};
ghost use Rattle.ngc_checker.specs.Walking.{walk_from, with_motion};

use crate::fault::CheckFault;
use ngc_certificate::{Setting, place_fault};
use ngc_commands::{Action, Command, Motion};
use ngc_fixed_length::Point3;
use ngc_machine_files::{Machine, Tool};
use std::alloc::Allocator;

/// The state between two commands: the index of the next one, the mounted tool, the position of the
/// axes, and the first refusal of the commands so far.
#[derive(Clone, Copy)]
pub struct CommandWalk {
    pub index: u32,
    pub tool: Option<Tool>,
    pub place: Point3,
    pub refusal: Option<CheckFault>,
}

/// A motion of the program, with its index in the list of commands.
#[derive(Clone, Copy)]
pub struct NextMotion {
    pub index: u32,
    pub motion: Motion,
}

impl CommandWalk {
    ghost use Rattle.ngc_commands.specs.declared.command.Action.{Action};
    ghost use Rattle.ngc_commands.specs.declared.command.Action.TheVariants.{Mount};
    ghost use Rattle.ngc_certificate_text.specs.Certificate.{Entry};

    /// Returns the state before all commands.
    pub(crate) fn new(start: Point3) -> CommandWalk
        ensures { result ≡ record { index = 0; tool = None; place = start; refusal = None } }
    {
        CommandWalk {
            index: 0,
            tool: None,
            place: start,
            refusal: None,
        }
    }

    /// Sets the refusal, if there is none yet.
    pub(crate) fn refuse(&mut self, fault: CheckFault)
        ensures { self.new ≡ record self.old { refusal = self.old.refusal or Some fault } }
    {
        if self.refusal.is_none() {
            self.refusal = Some(fault);
        }
    }

    // Mounts the tool of command `index`.
    fn mount<A: Allocator>(
        &mut self,
        machine: &Machine<A>,
        setting: Setting,
        index: u32,
        tool: &Option<Tool>,
    )
        ensures walk { (rest : List Action) (entries : List Entry) →
            walk_from (file_of machine.now) setting index self.old (Mount tool.now ∷ rest) entries
            ≡ walk_from (file_of machine.now) setting (index + 1) self.new rest entries }
        ensures index { self.new.index ≡ self.old.index }
    {
        let place = self.place.to_grid(machine.step);
        if let Some(fixture) = place_fault(machine, *tool, &place) {
            self.refuse(CheckFault::ToolChange {
                setting,
                command: index,
                fixture,
            });
        }
        self.tool = *tool;
    }

    /// Goes to the next motion among the commands `ahead`, and past it; or past all of them.
    pub(crate) fn next_motion<A: Allocator>(
        &mut self,
        machine: &Machine<A>,
        setting: Setting,
        ahead: &[Command],
    ) -> Option<NextMotion>
        requires { self.old.index + length ahead.now ≤ COMMAND_LIMIT }
        ensures indices { MatchOption result
            (motion_indices self.old.index (actions_of ahead.now) ≡ [])
            (λ m. motion_indices self.old.index (actions_of ahead.now)
            ≡ m.index ∷ motion_indices self.new.index
            (actions_of (drop (self.new.index - self.old.index) ahead.now))) }
        ensures walk { MatchOption result ((entries : List Entry) →
            walk_from (file_of machine.now) setting self.old.index self.old
            (actions_of ahead.now) entries ≡ self.new.refusal)
            (λ m. (entry : Entry) (entries : List Entry) →
            walk_from (file_of machine.now) setting self.old.index self.old (actions_of ahead.now)
            (entry ∷ entries) ≡ with_motion (file_of machine.now) setting self.new m
            (actions_of (drop (self.new.index - self.old.index) ahead.now)) entry entries) }
        ensures on { IfSome result (λ m. self.old.index < self.new.index) }
        ensures afterwards { IfSome result (λ m. self.new.index ≡ m.index + 1) }
        ensures within { self.new.index ≤ self.old.index + length ahead.now }
    {
        for command in ahead {
            let index = self.index;
            self.index += 1;
            match &command.action {
                Action::Move(motion) => {
                    self.place = motion.way.end();
                    return Some(NextMotion {
                        index,
                        motion: *motion,
                    });
                }
                Action::Mount(tool) => self.mount(machine, setting, index, tool),
                _ => {}
            }
        }
        None
    }
}
