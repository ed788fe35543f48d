//! The program of a text, executed.
ghost use Rattle.std.specs.Prelude.{◌≡◌, ◌≤◌, [], length, IfOk, IfSome};
ghost use Rattle.ngc_line_reader.specs.Program.{split_lines};
ghost use Rattle.ngc_machine_files.specs.Machine.{file_of};
ghost use Rattle.ngc_machine_files.specs.Tools.{tools_of};
ghost use Rattle.ngc_canonical.specs.Interpreter.{setup_of};
ghost use Rattle.ngc_commands.specs.Movement.{actions_of, ways_of, AreJoined};
ghost use Rattle.ngc_commands.specs.Sequence.{HaveEvenRadii, EndIsLast, HasEnd};
ghost use Rattle.ngc_dialect_execution.specs.Faults.{ProgramSays, Says};
ghost use Rattle.ngc_dialect_execution.specs.Laws.{AreExecuted, LeadTo};
ghost use Rattle.ngc_dialect_execution.specs.Ending.{finished};
ghost use Rattle.ngc_dialect_execution.specs.Program.{changes_in, leaves_out, lines_taken, marked_taken, notes_in, plain_in, traced_in};
ghost use Rattle.ngc_dialect_execution.specs.Mounting.{first_number};
ghost use Rattle.ngc_dialect_execution.specs.Program.{meaning_in};
ghost use Rattle.ngc_frames.specs.Changes.{start_frame};
ghost use Rattle.ngc_dialect_execution.specs.Views.{framed_in, kept_in, progress_in, traced};
ghost use Rattle.ngc_dialect_execution.specs.Text as spec;

use crate::fault::{Cause, DialectFault, Refusal, at_line};
use crate::flow::take_flow;
use crate::framing::{Executed, add_change, framed, framed_by};
use crate::lines::{DialectInterpreter, Taken};
use crate::run::{KeptLine, Wanted};
use crate::text::{LinesBefore, Mark, first_line, has_deleted_lines, number_of};
use ngc_canonical::Fault::NoEnd;
use ngc_canonical::{Command, Machine, Tools};
use ngc_dialect_names::Dialect;
use ngc_dialect_notes::Notes;
use ngc_frames::{FrameHistory, FramedCommands};
use std::alloc::Allocator;

// Executes a line by its mark.
fn take_marked<A: Allocator + Copy>(
    interpreter: &mut DialectInterpreter<A>,
    machine: &Machine<A>,
    tools: &Tools<A>,
    block_delete: bool,
    line: u32,
    mark: Mark,
    bytes: &[u8],
) -> Result<Taken, Refusal>
    ensures { Says (λ taken. (taken, progress_in interpreter.new)) result (marked_taken
        (setup_of machine.now tools.now) block_delete line mark bytes.now
        (progress_in interpreter.old)) }
{
    match mark {
        Mark::Begins | Mark::Ends => Ok(Taken::Done),
        Mark::IsLine => interpreter.take_line(machine, tools, block_delete, line, bytes),
    }
}

/// Ends a program after its last line.
#[tactic(auto, unfolding(crate::specs::Ending::finished))]
pub(crate) fn finish<A: Allocator + Copy>(
    mut interpreter: DialectInterpreter<A>,
    machine: &Machine<A>,
    tools: &Tools<A>,
    line: u32,
) -> Result<DialectInterpreter<A>, DialectFault>
    ensures { ProgramSays (λ i. (progress_in i).between) result
        (finished (setup_of machine.now tools.now) line (progress_in interpreter)) }
{
    match interpreter.end_at(machine, tools, line) {
        Ok(()) => {}
        Err(refusal) => return Err(at_line(line, refusal)),
    }
    if interpreter.is_ended() {
        Ok(interpreter)
    } else {
        Err(DialectFault::At {
            line,
            cause: Cause::Plain(NoEnd),
        })
    }
}

// Executes the lines of a text.
fn take_lines<A: Allocator + Copy>(
    alloc: A,
    mut interpreter: DialectInterpreter<A>,
    dialect: Dialect,
    text: &[u8],
    machine: &Machine<A>,
    tools: &Tools<A>,
    block_delete: bool,
) -> Result<Executed<A>, DialectFault>
    ensures { ProgramSays framed_in result
        (lines_taken (setup_of machine.now tools.now) block_delete
        (spec.program_of dialect text.now) spec.no_lines
        (split_lines text.now) (progress_in interpreter) []) }
{
    let mut changes = Vec::new(alloc);
    let mut recorded = interpreter.frame();
    let mut lines = LinesBefore::none();
    let mut rest = text;
    while !rest.is_empty() {
        let (bytes, after) = first_line(rest);
        let index = lines.count;
        let mark = lines.pass(interpreter.dialect(), bytes);
        let line = number_of(lines.count);
        if mark.is_end() {
            return framed(finish(interpreter, machine, tools, line), changes);
        }
        let count = interpreter.command_count();
        match take_marked(
            &mut interpreter,
            machine,
            tools,
            block_delete,
            line,
            mark,
            bytes,
        ) {
            Ok(Taken::Done) => {}
            Ok(Taken::HasFlow) => {
                return take_flow(
                    alloc,
                    interpreter,
                    dialect,
                    text,
                    index,
                    changes,
                    machine,
                    tools,
                    block_delete,
                )
            }
            Err(refusal) => return Err(at_line(line, refusal)),
        }
        match add_change(&mut changes, &interpreter, line, count, &mut recorded) {
            Ok(()) => {}
            Err(_) => return Err(DialectFault::Memory),
        }
        if interpreter.is_ended() {
            return Ok(framed_by(interpreter, changes));
        }
        rest = after;
    }
    framed(
        finish(interpreter, machine, tools, number_of(lines.count)),
        changes,
    )
}

// Returns the number of the tool that is mounted before the first line.
fn first_number<A: Allocator>(dialect: Dialect, tools: &Tools<A>) -> Option<u32>
    ensures value { result ≡ first_number dialect (tools_of tools.now) }
    ensures range { IfSome result (λ n. n ≤ 9999) }
{
    match (dialect, tools.tools()) {
        (Dialect::Grbl, [only]) => Some(only.number),
        _ => None,
    }
}

/// A program that was executed: its commands with their frames, and what was wanted besides.
#[derive(Drop)]
pub struct Traced<A: Allocator> {
    pub framed: FramedCommands<A>,
    /// The notes on its lines, in the order of execution.
    pub notes: Option<Notes>,
    /// The plain lines that were executed, in order.
    pub lines: Option<Vec<KeptLine<A>, A>>,
}

// Returns whether lines are left out that begin with `/`, if there are any.
fn leaves_out(block_delete: bool, text: &[u8]) -> bool
    ensures { result ≡ leaves_out block_delete text.now }
{
    block_delete && has_deleted_lines(text)
}

// Executes the program of a text.
fn execute_text<A: Allocator + Copy>(
    alloc: A,
    wanted: Wanted,
    dialect: Dialect,
    text: &[u8],
    machine: &Machine<A>,
    tools: &Tools<A>,
    block_delete: bool,
) -> Result<Traced<A>, DialectFault>
    ensures says { ProgramSays traced result
        (traced_in wanted dialect (setup_of machine.now tools.now) block_delete text.now) }
    ensures start { IfOk result
        (λ t. t.framed.frames.start ≡ start_frame (setup_of machine.now tools.now)) }
{
    let Ok(mut interpreter) = DialectInterpreter::new(alloc, wanted, dialect, machine) else {
        return Err(DialectFault::Memory);
    };
    let start = interpreter.frame();
    match interpreter.mount(machine, tools, first_number(dialect, tools)) {
        Ok(()) => {}
        Err(refusal) => return Err(at_line(1, refusal)),
    }
    match take_lines(
        alloc,
        interpreter,
        dialect,
        text,
        machine,
        tools,
        leaves_out(block_delete, text),
    ) {
        Ok(executed) => {
            let Executed {
                commands,
                changes,
                notes,
                lines,
            } = executed;
            let frames = FrameHistory { start, changes };
            Ok(Traced {
                framed: FramedCommands { commands, frames },
                notes,
                lines,
            })
        }
        Err(fault) => Err(fault),
    }
}

/// Executes the program of a text as `interpret_dialect`, and also returns the frame in force at its
/// start and each change of it, in the order of execution, and what is wanted besides.
pub fn trace_dialect<A: Allocator + Copy>(
    alloc: A,
    wanted: Wanted,
    dialect: Dialect,
    text: &[u8],
    machine: &Machine<A>,
    tools: &Tools<A>,
    block_delete: bool,
) -> Result<Traced<A>, DialectFault>
    ensures commands { ProgramSays (λ t. t.framed.commands.items) result
        (meaning_in dialect (setup_of machine.now tools.now) block_delete text.now) }
    ensures executed { IfOk result
        (λ t. AreExecuted (setup_of machine.now tools.now) t.framed.commands.items) }
    ensures joined { IfOk result
        (λ t. AreJoined (file_of machine.now).start (ways_of (actions_of t.framed.commands.items))) }
    ensures radii { IfOk result (λ t. HaveEvenRadii (ways_of (actions_of t.framed.commands.items))) }
    ensures count { IfOk result (λ t. length t.framed.commands.items ≤ 1000000) }
    ensures ended { IfOk result (λ t. EndIsLast t.framed.commands.items) }
    ensures has_end { IfOk result (λ t. HasEnd t.framed.commands.items) }
    ensures start { IfOk result
        (λ t. t.framed.frames.start ≡ start_frame (setup_of machine.now tools.now)) }
    ensures changes { IfOk result (λ t. t.framed.frames.changes.items ≡
        changes_in dialect (setup_of machine.now tools.now) block_delete text.now) }
    ensures notes { IfOk result (λ t. t.notes ≡
        notes_in wanted dialect (setup_of machine.now tools.now) block_delete text.now) }
    ensures lines { IfOk result (λ t. kept_in t.lines ≡
        plain_in wanted dialect (setup_of machine.now tools.now) block_delete text.now) }
    // The plain lines, executed from the machine's start on, are the program.
    ensures lead { IfOk result (λ t. IfSome (kept_in t.lines)
        (λ lines. LeadTo (setup_of machine.now tools.now) lines t.framed.commands.items)) }
{
    execute_text(alloc, wanted, dialect, text, machine, tools, block_delete)
}

const NOTHING: Wanted = Wanted {
    notes: false,
    lines: false,
};

/// Executes the program of a text as `interpret_dialect`, and also returns the frame in force at its
/// start and each change of it, in the order of execution.
pub fn interpret_dialect_with_frames<A: Allocator + Copy>(
    alloc: A,
    dialect: Dialect,
    text: &[u8],
    machine: &Machine<A>,
    tools: &Tools<A>,
    block_delete: bool,
) -> Result<FramedCommands<A>, DialectFault>
    ensures commands { ProgramSays (λ f. f.commands.items) result
        (meaning_in dialect (setup_of machine.now tools.now) block_delete text.now) }
    ensures executed { IfOk result
        (λ f. AreExecuted (setup_of machine.now tools.now) f.commands.items) }
    ensures joined { IfOk result
        (λ f. AreJoined (file_of machine.now).start (ways_of (actions_of f.commands.items))) }
    ensures radii { IfOk result (λ f. HaveEvenRadii (ways_of (actions_of f.commands.items))) }
    ensures count { IfOk result (λ f. length f.commands.items ≤ 1000000) }
    ensures ended { IfOk result (λ f. EndIsLast f.commands.items) }
    ensures has_end { IfOk result (λ f. HasEnd f.commands.items) }
    ensures start { IfOk result
        (λ f. f.frames.start ≡ start_frame (setup_of machine.now tools.now)) }
    ensures changes { IfOk result (λ f. f.frames.changes.items ≡
        changes_in dialect (setup_of machine.now tools.now) block_delete text.now) }
{
    match trace_dialect(alloc, NOTHING, dialect, text, machine, tools, block_delete) {
        Ok(traced) => Ok(traced.framed),
        Err(fault) => Err(fault),
    }
}

/// Executes the program of a text on a machine with its tools, and returns its commands in order of
/// execution. A program that doesn't end by M2 or M30 ends after its last line, as by M2. From the first
/// line on that has an O word, M98 or M99, or one of Fanuc's WHILE, IF and GOTO, the flow decides which
/// line is next, and 2,000,000 lines are executed at most. Returns the first fault with its line.
///
/// Grbl changes no tools: a tool table with one tool has the one that is mounted before the first line.
///
/// With block delete on, lines that begin with `/` are left out before anything is evaluated.
pub fn interpret_dialect<A: Allocator + Copy>(
    alloc: A,
    dialect: Dialect,
    text: &[u8],
    machine: &Machine<A>,
    tools: &Tools<A>,
    block_delete: bool,
) -> Result<Vec<Command, A>, DialectFault>
    // The result is what the text means.
    ensures commands { ProgramSays (λ v. v.items) result
        (meaning_in dialect (setup_of machine.now tools.now) block_delete text.now) }
    // The commands are those of plain lines of our own language.
    ensures executed { IfOk result (λ v. AreExecuted (setup_of machine.now tools.now) v.items) }
    // The first motion begins at the machine's start point, and each further one where the motion
    // before it ends.
    ensures joined { IfOk result
        (λ v. AreJoined (file_of machine.now).start (ways_of (actions_of v.items))) }
    // Each arc has a radius in range, nearly the same at both ends.
    ensures radii { IfOk result (λ v. HaveEvenRadii (ways_of (actions_of v.items))) }
    ensures count { IfOk result (λ v. length v.items ≤ 1000000) }
    // Nothing follows the end.
    ensures ended { IfOk result (λ v. EndIsLast v.items) }
    // The last command is the end.
    ensures has_end { IfOk result (λ v. HasEnd v.items) }
{
    match interpret_dialect_with_frames(alloc, dialect, text, machine, tools, block_delete) {
        Ok(executed) => Ok(executed.commands),
        Err(fault) => Err(fault),
    }
}
