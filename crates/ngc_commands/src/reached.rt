ghost use Rattle.std.specs.Prelude.{◌≡◌};
ghost use Rattle.ngc_machine_files.specs.Machine.{file_of};
ghost use Rattle.ngc_commands.specs.Reached.{after, after_all, at_start};

use crate::command::{Action, Command};
use ngc_fixed_length::Point3;
use ngc_machine_files::{Machine, Tool};
use std::alloc::Allocator;

/// The mounted tool and the position of the axes, between two commands.
#[derive(Clone, Copy)]
pub struct Reached {
    pub tool: Option<Tool>,
    /// In nanometres of the machine.
    pub place: Point3,
}

impl Reached {
    /// Returns the state before the first command: at the machine's start, with no tool mounted.
    pub fn at_start<A: Allocator>(machine: &Machine<A>) -> Reached
        ensures { result ≡ at_start (file_of machine.now) }
    {
        Reached {
            tool: None,
            place: machine.start,
        }
    }

    /// Returns the state after an action.
    pub fn after(self, action: &Action) -> Reached
        ensures { result ≡ after self action.now }
    {
        match action {
            Action::Move(motion) => Reached {
                tool: self.tool,
                place: motion.way.end(),
            },
            Action::Mount(tool) => Reached {
                tool: *tool,
                place: self.place,
            },
            _ => self,
        }
    }

    /// Returns the state after some more commands.
    pub fn after_all(self, commands: &[Command]) -> Reached
        ensures { result ≡ after_all self commands.now }
    {
        let mut reached = self;
        for command in commands {
            reached = reached.after(&command.action);
        }
        reached
    }
}
