//! The scenes of commands in order.
ghost use Rattle.std.specs.Prelude.{◌≡◌, ◌≤◌, length, take};
ghost use Rattle.ngc_machine_files.specs.Machine.{file_of};
ghost use Rattle.ngc_findings.specs.Scenes.{StandsAfter, scene_at, standing as standing_behind};

use crate::scene::{Scene, scene_of, standing};
use ngc_commands::{Command, Reached};
use ngc_machine_files::Machine;
use std::alloc::Allocator;

/// The machine's state after the first of the commands.
#[derive(Clone, Copy)]
pub struct Standing {
    pub(crate) count: usize,
    pub(crate) reached: Reached,
}

impl Standing {
    /// Returns the state at the start.
    pub fn first<A: Allocator>(machine: &Machine<A>, commands: &[Command]) -> Standing
        ensures { StandsAfter (file_of machine.now) commands.now result }
    {
        Standing {
            count: 0,
            reached: standing(machine, &commands[..0]),
        }
    }

    /// Returns the state after `count` commands.
    fn at<A: Allocator>(&self, machine: &Machine<A>, commands: &[Command], count: usize) -> Standing
        requires last { StandsAfter (file_of machine.now) commands.now self.now }
        requires count { count ≤ length commands.now }
        ensures reached { result.reached ≡ standing_behind (file_of machine.now)
            (take count commands.now) }
        ensures stands { StandsAfter (file_of machine.now) commands.now result }
    {
        if count < self.count {
            let reached = standing(machine, &commands[..count]);
            return Standing { count, reached };
        }
        let reached = self.reached.after_all(&commands[self.count..count]);
        Standing { count, reached }
    }

    /// Returns the scene of a command, by its index from 0, or `None` if it is no motion and no
    /// tool change. The function is fastest if the indices rise from call to call.
    pub fn scene<A: Allocator>(
        &mut self,
        machine: &Machine<A>,
        commands: &[Command],
        command: usize,
    ) -> Option<Scene>
        requires { StandsAfter (file_of machine.now) commands.now self.old }
        ensures scene { result ≡ scene_at (file_of machine.now) commands.now command }
        ensures stands { StandsAfter (file_of machine.now) commands.now self.new }
    {
        match commands.get(command) {
            None => None,
            Some(here) => {
                *self = self.at(machine, commands, command);
                scene_of(machine, self.reached, here)
            }
        }
    }
}
