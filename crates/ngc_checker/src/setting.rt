//! The check of a setting of block delete.
ghost use Rattle.std.specs.Prelude.{◌≡◌, ◌≤◌, length};
ghost use Rattle.ngc_machine_files.specs.Machine.{file_of};
ghost use Rattle.ngc_commands.specs.Sequence.{COMMAND_LIMIT};
ghost use Rattle.ngc_checker.specs.FirstRefusal.{setting_fault, start_fault};

use crate::fault::CheckFault;
use crate::setting_judge::SettingJudge;
use ngc_certificate::{Setting, place_fault};
use ngc_certificate_text::MotionList;
use ngc_commands::Command;
use ngc_machine_files::Machine;
use std::alloc::Allocator;

/// Returns the fault of the start point, where no tool is mounted yet.
pub(crate) fn start_fault<A: Allocator>(machine: &Machine<A>) -> Option<CheckFault>
    ensures { result ≡ start_fault (file_of machine.now) }
{
    match place_fault(machine, None, &machine.start.to_grid(machine.step)) {
        Some(fixture) => Some(CheckFault::Start { fixture }),
        None => None,
    }
}

/// Returns the first fault of a setting: 312, 318, and then those of the commands.
pub fn setting_fault<A: Allocator, M: MotionList>(
    machine: &Machine<A>,
    setting: Setting,
    commands: &[Command],
    motions: &M,
) -> Option<CheckFault>
    requires { length commands.now ≤ COMMAND_LIMIT }
    ensures { result ≡ setting_fault (file_of machine.now) setting commands.now
        (M.entries motions.now) }
{
    let mut judge = SettingJudge::new(machine);
    for index in 0..motions.count() {
        judge.entry(machine, setting, commands, motions, index);
    }
    judge.finish(machine, setting, commands)
}
