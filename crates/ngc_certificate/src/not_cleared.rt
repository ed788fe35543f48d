//! Finds the commands that aren't cleared.
ghost use Rattle.std.specs.Prelude.{◌≡◌, ℕ, ◌+◌, ◌≤◌, length, Err, IfOk};
ghost use Rattle.ngc_machine_files.specs.Machine.{file_of};
ghost use Rattle.ngc_commands.specs.Sequence.{COMMAND_LIMIT};
ghost use Rattle.ngc_certificate.specs.Made.{IsSettingMade};
ghost use Rattle.ngc_certificate.specs.Uncleared.{AreUncleared, BeginsWith, LeadsPast};

use crate::fault::MemoryFault;
use crate::finding::find_clear;
use crate::maker::is_clear_at;
use ngc_certificate_text::Piece;
use ngc_commands::{Action, Command, Reached};
use ngc_machine_files::Machine;
use std::alloc::{AllocError, Allocator};

// Returns whether a command is cleared in the machine's state: a tool change if the body meets no
// fixture, a motion if pieces are found for it. `pieces` is a buffer for them.
fn is_cleared<A: Allocator>(
    machine: &Machine<A>,
    reached: &Reached,
    action: &Action,
    most: u16,
    pieces: &mut Vec<Piece, A>,
) -> Result<bool, AllocError>
    requires { 1 ≤ most }
    ensures { IfOk result (λ clear. (k : ℕ) →
        LeadsPast (file_of machine.now) most k action.now reached.now clear) }
{
    match action {
        Action::Move(motion) => find_clear(machine, &reached.tool, motion, most, pieces),
        Action::Mount(tool) => Ok(is_clear_at(machine, tool, &reached.place)),
        _ => Ok(true),
    }
}

// Returns every command that isn't cleared. If `make` refuses command `k`, `passed` is `k + 1`: the
// commands before `k` are cleared and `k` is not, so none of them is tried again. Otherwise
// `passed` is 0.
fn find_uncleared<A: Allocator + Copy>(
    alloc: A,
    commands: &[Command],
    machine: &Machine<A>,
    cuts: u16,
    passed: u64,
) -> Result<Vec<u32, A>, MemoryFault>
    requires cuts { 1 ≤ cuts }
    requires count { length commands.now ≤ COMMAND_LIMIT }
    requires refused { (k : ℕ) → passed ≡ k + 1 →
        IsSettingMade (file_of machine.now) cuts commands.now (Err k) }
    ensures are { IfOk result
        (λ v. AreUncleared (file_of machine.now) cuts commands.now v.items) }
    ensures begins { (k : ℕ) → passed ≡ k + 1 → IfOk result (λ v. BeginsWith k v.items) }
{
    let mut reached = Reached::at_start(machine);
    let mut pieces = Vec::new(alloc);
    let mut indices = Vec::new(alloc);
    for (index, command) in commands.iter().enumerate() {
        let action = &command.action;
        let clear = if (index as u64) < passed {
            (index as u64) + 1 < passed
        } else {
            match is_cleared(machine, &reached, action, cuts, &mut pieces) {
                Ok(clear) => clear,
                Err(_) => return Err(MemoryFault),
            }
        };
        reached = reached.after(action);
        if clear {
            continue;
        }
        match indices.push(index as u32) {
            Ok(()) => {}
            Err(_) => return Err(MemoryFault),
        }
    }
    Ok(indices)
}

/// Returns every command that isn't cleared on a machine, by its index from 0, in order; or 900.
///
/// These are the motions for which no pieces are found, tried as `make` does with the same `cuts`,
/// and the tool changes at which the tool's body meets a fixture. After such a command the motion
/// still counts as made and the tool as mounted. A start point that isn't clear is no command, and
/// isn't in the list. `cuts` is at least 1, and there are at most a million commands.
///
/// Memory is allocated for the result and for the pieces of one motion.
pub fn uncleared<A: Allocator + Copy>(
    alloc: A,
    commands: &[Command],
    machine: &Machine<A>,
    cuts: u16,
) -> Result<Vec<u32, A>, MemoryFault>
    requires cuts { 1 ≤ cuts }
    requires count { length commands.now ≤ COMMAND_LIMIT }
    ensures { IfOk result (λ v. AreUncleared (file_of machine.now) cuts commands.now v.items) }
{
    find_uncleared(alloc, commands, machine, cuts, 0)
}

/// Returns the same as `uncleared`, after `make` refused these commands at the command `first` with
/// the same `cuts`: `first` is then the first of the list.
pub fn uncleared_from<A: Allocator + Copy>(
    alloc: A,
    commands: &[Command],
    machine: &Machine<A>,
    cuts: u16,
    first: u32,
) -> Result<Vec<u32, A>, MemoryFault>
    requires cuts { 1 ≤ cuts }
    requires count { length commands.now ≤ COMMAND_LIMIT }
    requires refused { IsSettingMade (file_of machine.now) cuts commands.now (Err first) }
    ensures are { IfOk result
        (λ v. AreUncleared (file_of machine.now) cuts commands.now v.items) }
    ensures begins { IfOk result (λ v. BeginsWith first v.items) }
{
    find_uncleared(alloc, commands, machine, cuts, u64::from(first) + 1)
}
