ghost use Rattle.std.specs.Prelude.{◌≡◌, ◌≤◌};
ghost use Rattle.ngc_machine_files.specs.Machine.{file_of};
ghost use Rattle.ngc_place.specs.Shifts.{AreShifts};
ghost use Rattle.ngc_place.specs.Longest.{all_hold as each_holds};

use crate::fits::holds;
use ngc_commands::Command;
use ngc_fixed_length::GridBox;
use ngc_machine_files::Machine;
use std::alloc::Allocator;

/// The commands of a program at one setting of block delete. Each has a mark: whether the end of
/// the motion moves with the origin.
#[derive(Clone, Copy)]
pub struct Program<'a> {
    pub commands: &'a [Command],
    pub moving: &'a [bool],
}

/// Returns whether each of some programs fits the machine at each shift of its origin within a box
/// of shifts. Each program is judged as by `holds`. Shifts are at most 4,000,000 steps along each
/// axis, and `cuts` is at least 1.
pub fn all_hold<A: Allocator>(
    machine: &Machine<A>,
    programs: &[Program],
    shifts: &GridBox,
    cuts: u16,
) -> bool
    requires shifts { AreShifts shifts.now }
    requires cuts { 1 ≤ cuts }
    ensures { result ≡ each_holds (file_of machine.now) cuts shifts.now programs.now }
{
    for program in programs {
        if !holds(machine, program.commands, program.moving, shifts, cuts) {
            return false;
        }
    }
    true
}
