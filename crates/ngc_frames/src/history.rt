//! The frame at the start of a program, and each change of it.
ghost use Rattle.std.specs.Prelude.{◌≡◌, ◌≤◌, ◌++◌, List, length, IfOk, OnOk};
ghost use Rattle.ngc_canonical.specs.Interpreter.{setup_of, state_of};
ghost use Rattle.ngc_canonical.specs.Meaning.{MeaningIs, meaning, parsed_program, with_readings};
ghost use Rattle.ngc_commands.specs.Movement.{actions_of, ways_of, AreJoined};
ghost use Rattle.ngc_commands.specs.Sequence.{HaveEvenRadii, EndIsLast, HasEnd};
ghost use Rattle.ngc_machine_files.specs.Machine.{file_of};
ghost use Rattle.ngc_line_reader.specs.Grammar.{Reading};
ghost use Rattle.ngc_line_reader.specs.ProgramText.{AreReadings};
ghost use Rattle.ngc_line_reader.specs.ProgramView.{text_in};
ghost use Rattle.ngc_frames.specs.Changes.{change_at, frame_changes, frame_of, start_frame};

use crate::change::FrameChange;
use crate::frame::{Frame, is_same_frame};
use crate::in_force::{FrameInForce, frame_in_force};
use ngc_canonical::{Interpreter, ProgramFault, Work};
use ngc_commands::Command;
use ngc_line_reader::Program;
use ngc_machine_files::{Machine, Tools};
use std::alloc::{AllocError, Allocator};

/// The frame in force at the start of a program, and each change of it, in the order of execution.
#[derive(Drop)]
pub struct FrameHistory<A: Allocator> {
    pub start: Frame,
    pub changes: Vec<FrameChange, A>,
}

/// The commands of a program, with the frames by which they are executed.
#[derive(Drop)]
pub struct FramedCommands<A: Allocator> {
    pub commands: Vec<Command, A>,
    pub frames: FrameHistory<A>,
}

fn frame_of<A: Allocator>(interpreter: &Interpreter<A>) -> Frame
    ensures { result ≡ frame_of (state_of interpreter.now) }
{
    Frame {
        frames: *interpreter.frames(),
        unit: interpreter.length_unit(),
    }
}

// Returns the number of commands that were executed so far.
fn command_count<A: Allocator>(interpreter: &Interpreter<A>) -> usize
    ensures { result ≡ length (state_of interpreter.now).commands }
{
    interpreter.commands().len()
}

fn add_change<A: Allocator>(
    changes: &mut Vec<FrameChange, A>,
    line: u32,
    command: usize,
    old: &Frame,
    new: &Frame,
) -> Result<(), AllocError>
    ensures { OnOk result (changes.new.items ≡ changes.old.items ++ change_at line command old.now new.now) }
{
    if is_same_frame(old, new) {
        return Ok(());
    }
    let change = FrameChange {
        line,
        command,
        frame: *new,
    };
    match changes.push(change) {
        Ok(()) => Ok(()),
        Err(_) => Err(AllocError),
    }
}

/// Executes a program once, and returns its commands with the frame in force at its start and each
/// change of it, on a machine with its tools, at a setting of block delete. Otherwise it returns
/// the first fault with its line, or 900, as `interpret` of ngc_canonical does.
pub fn interpret_with_frames<A: Allocator + Copy>(
    alloc: A,
    program: &Program<A>,
    machine: &Machine<A>,
    tools: &Tools<A>,
    block_delete: bool,
) -> Result<FramedCommands<A>, ProgramFault>
    // For all readings of the lines. Each line has exactly one.
    ensures commands { (rs : List Reading) → AreReadings (text_in program.now).lines rs →
        MeaningIs (λ f. f.commands.items) result
        (meaning (parsed_program (text_in program.now) rs)
        (setup_of machine.now tools.now) block_delete) }
    ensures joined { IfOk result
        (λ f. AreJoined (file_of machine.now).start (ways_of (actions_of f.commands.items))) }
    ensures radii { IfOk result (λ f. HaveEvenRadii (ways_of (actions_of f.commands.items))) }
    ensures count { IfOk result (λ f. length f.commands.items ≤ 1000000) }
    ensures ended { IfOk result (λ f. EndIsLast f.commands.items) }
    ensures has_end { IfOk result (λ f. HasEnd f.commands.items) }
    ensures start { IfOk result
        (λ f. f.frames.start ≡ start_frame (setup_of machine.now tools.now)) }
    // For all readings of the lines.
    ensures changes { IfOk result (λ f. (rs : List Reading) →
        AreReadings (text_in program.now).lines rs →
        f.frames.changes.items ≡ frame_changes (setup_of machine.now tools.now)
        (with_readings (text_in program.now).lines rs) block_delete) }
{
    let Ok(mut interpreter) = Interpreter::new(alloc, machine) else {
        return Err(ProgramFault::Memory);
    };
    let start = frame_of(&interpreter);
    let mut changes = Vec::new(alloc);
    let mut work = Work::new();
    for index in 0..program.len() {
        let before = frame_of(&interpreter);
        let count = command_count(&interpreter);
        match interpreter.take_line(machine, tools, program, index, &mut work, block_delete) {
            Ok(()) => {}
            Err(fault) => return Err(fault),
        }
        let after = frame_of(&interpreter);
        match add_change(&mut changes, program.number(index), count, &before, &after) {
            Ok(()) => {}
            Err(_) => return Err(ProgramFault::Memory),
        }
        if interpreter.is_ended() {
            return Ok(FramedCommands {
                commands: interpreter.into_commands(),
                frames: FrameHistory { start, changes },
            });
        }
    }
    match interpreter.finish(program) {
        Ok(commands) => Ok(FramedCommands {
            commands,
            frames: FrameHistory { start, changes },
        }),
        Err(fault) => Err(fault),
    }
}

impl<A: Allocator> FrameHistory<A> {
    ghost use Rattle.ngc_frames.specs.InForce.{frame_in_force};

    /// Returns the frame by which a command is executed, counted from 0, with the lines that set its
    /// parts.
    pub fn in_force(&self, command: usize) -> FrameInForce
        ensures { result ≡ frame_in_force self.now.start self.now.changes.items command }
    {
        frame_in_force(&self.start, self.changes.as_slice(), command)
    }
}
