//! A program whose flow has begun.
ghost use Rattle.std.specs.Prelude.{◌≡◌, IfOk, map};
ghost use Rattle.ngc_canonical.specs.Interpreter.{setup_of};
ghost use Rattle.ngc_dialect_flow.specs.Places.{plan_of};
ghost use Rattle.ngc_dialect_flow.specs.State.{flow_of};
ghost use Rattle.ngc_dialect_execution.specs.Faults.{ProgramSays};
ghost use Rattle.ngc_dialect_execution.specs.Flow as spec;
ghost use Rattle.ngc_dialect_execution.specs.Text.{program_of};
ghost use Rattle.ngc_dialect_execution.specs.Views.{framed_in, progress_in};

use crate::fault::{Cause, DialectFault, at_line};
use crate::framing::{Executed, add_change, framed};
use crate::lines::DialectInterpreter;
use crate::program::finish;
use crate::text::{LinesBefore, first_line, number_of};
use ngc_canonical::{Machine, Tools};
use ngc_dialect_flow::Cause::TooManyLines;
use ngc_dialect_flow::{Effect, State, Table};
use ngc_dialect_names::Dialect;
use ngc_frames::FrameChange;
use std::alloc::{AllocError, Allocator};

// The lines of a program, and the number of the line after which it ends.
#[derive(Drop)]
pub(crate) struct ProgramLines<'a, A: Allocator> {
    pub(crate) lines: Vec<&'a [u8], A>,
    pub(crate) last: u32,
}

// Returns the lines of a text up to the percent sign that ends the program.
fn program_lines<'a, A: Allocator + Copy>(
    alloc: A,
    dialect: Dialect,
    text: &'a [u8],
) -> Result<ProgramLines<'a, A>, AllocError>
    ensures { IfOk result (λ p. record { dialect = dialect; lines = map (λ l. l.now) p.lines.items; last = p.last }
        ≡ program_of dialect text.now) }
{
    let mut lines = Vec::new(alloc);
    let mut before = LinesBefore::none();
    let mut rest = text;
    while !rest.is_empty() {
        let (bytes, after) = first_line(rest);
        if before.pass(dialect, bytes).is_end() {
            return Ok(ProgramLines {
                lines,
                last: number_of(before.count),
            });
        }
        if lines.push(bytes).is_err() {
            return Err(AllocError);
        }
        rest = after;
    }
    Ok(ProgramLines {
        lines,
        last: number_of(before.count),
    })
}

// Returns whether a step ends the program.
fn is_end(effect: &Effect) -> bool
    ensures { result ≡ spec.ends effect.now }
{
    matches!(effect, Effect::End)
}

// Executes a program from the line on that is next.
fn run_lines<A: Allocator + Copy>(
    mut interpreter: DialectInterpreter<A>,
    table: &Table<A>,
    lines: &[&[u8]],
    last: u32,
    mut state: State,
    mut changes: Vec<FrameChange, A>,
    machine: &Machine<A>,
    tools: &Tools<A>,
    block_delete: bool,
) -> Result<Executed<A>, DialectFault>
    ensures { ProgramSays framed_in result (spec.flow_taken (setup_of machine.now tools.now)
        block_delete (plan_of table.now)
        (record { dialect = (plan_of table.now).dialect; lines = map (λ l. l.now) lines.now; last = last })
        (flow_of state).fuel (record { progress = progress_in interpreter; flow = flow_of state })
        changes.items) }
{
    let mut recorded = interpreter.frame();
    while state.line() < lines.len() {
        let index = state.line();
        let bytes = lines[index];
        let line = number_of(index + 1);
        if !state.has_fuel() {
            return Err(DialectFault::At {
                line,
                cause: Cause::Flow(TooManyLines),
            });
        }
        let count = interpreter.command_count();
        let effect = match interpreter.take_flow_line(
            machine,
            tools,
            block_delete,
            table,
            &mut state,
            line,
            bytes,
        ) {
            Ok(effect) => effect,
            Err(refusal) => return Err(at_line(line, refusal)),
        };
        match add_change(&mut changes, &interpreter, line, count, &mut recorded) {
            Ok(()) => {}
            Err(_) => return Err(DialectFault::Memory),
        }
        if is_end(&effect) {
            return framed(finish(interpreter, machine, tools, line), changes);
        }
    }
    framed(finish(interpreter, machine, tools, last), changes)
}

/// Executes a program from a line on, counted from 0, at which its flow begins.
pub(crate) fn take_flow<A: Allocator + Copy>(
    alloc: A,
    interpreter: DialectInterpreter<A>,
    dialect: Dialect,
    text: &[u8],
    first: usize,
    changes: Vec<FrameChange, A>,
    machine: &Machine<A>,
    tools: &Tools<A>,
    block_delete: bool,
) -> Result<Executed<A>, DialectFault>
    ensures { ProgramSays framed_in result (spec.flow_from (setup_of machine.now tools.now)
        block_delete (program_of dialect text.now) first (progress_in interpreter) changes.items) }
{
    let Ok(program) = program_lines(alloc, dialect, text) else {
        return Err(DialectFault::Memory);
    };
    let Ok(table) = Table::new(alloc, dialect, program.lines.as_slice()) else {
        return Err(DialectFault::Memory);
    };
    run_lines(
        interpreter,
        &table,
        program.lines.as_slice(),
        program.last,
        State::new(first),
        changes,
        machine,
        tools,
        block_delete,
    )
}
