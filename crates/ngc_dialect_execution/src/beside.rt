//! Plain lines that wait for a held move of cutter compensation.
ghost use Rattle.std.specs.Prelude.{◌≡◌};
ghost use Rattle.ngc_canonical.specs.Interpreter.{setup_of};
ghost use Rattle.ngc_dialect_path.specs.Steps.{written_in};
ghost use Rattle.ngc_dialect_execution.specs.Faults.{Says};
ghost use Rattle.ngc_dialect_execution.specs.Taken as spec;
ghost use Rattle.ngc_dialect_execution.specs.Views.{run_in};

use crate::fault::{Cause, Refusal};
use crate::run::PlainRun;
use arrayvec::ArrayVec;
use ngc_canonical::{Machine, Tools};
use ngc_dialect_drilling::write_stop;
use ngc_dialect_path::{PathLines, PathStep};
use ngc_dialect_rules::{Cause as RuleCause, Code, PlainLines, about_code};
use std::alloc::Allocator;
use std::mem;

/// The plain lines of a line that wait for the held move, with the line's number.
#[derive(Drop)]
pub(crate) struct WaitingLine {
    pub(crate) line: u32,
    pub(crate) plain: PlainLines,
}

// Executes what waits, in order.
#[tactic(auto, unfolding(crate::specs::Taken::waiting_taken))]
fn execute_waiting<A: Allocator + Copy>(
    run: &mut PlainRun<A>,
    machine: &Machine<A>,
    tools: &Tools<A>,
    waiting: &[WaitingLine],
) -> Result<(), Refusal>
    ensures { Says (λ _. run_in run.new) result (spec.waiting_taken
        (setup_of machine.now tools.now) waiting.now (run_in run.old)) }
{
    let mut rest = waiting;
    while let [first, after @ ..] = rest {
        match run.execute(machine, tools, first.line, &first.plain) {
            Ok(()) => {}
            Err(refusal) => return Err(refusal),
        }
        rest = after;
    }
    Ok(())
}

/// Executes the held move, and then what waits for it.
pub(crate) fn release<A: Allocator + Copy>(
    run: &mut PlainRun<A>,
    machine: &Machine<A>,
    tools: &Tools<A>,
    held: u32,
    made: &PlainLines,
    waiting: &[WaitingLine],
) -> Result<(), Refusal>
    ensures { Says (λ _. run_in run.new) result (spec.released
        (setup_of machine.now tools.now) held made.now.items waiting.now
        (run_in run.old)) }
{
    match run.execute(machine, tools, held, made) {
        Ok(()) => execute_waiting(run, machine, tools, waiting),
        Err(refusal) => Err(refusal),
    }
}

/// The lines of a step: that of the held move, and its own.
#[derive(Clone, Copy)]
pub(crate) struct StepLines {
    pub(crate) held: u32,
    pub(crate) own: u32,
}

/// Executes the plain lines of a line beside a path: the held move with what waits for it, if it is made,
/// and the line's own, unless they wait.
pub(crate) fn execute_step<A: Allocator + Copy>(
    run: &mut PlainRun<A>,
    machine: &Machine<A>,
    tools: &Tools<A>,
    numbers: StepLines,
    step: &PathStep,
    lines: &PathLines,
    waiting: &[WaitingLine],
) -> Result<(), Refusal>
    ensures { Says (λ _. run_in run.new) result (spec.step_taken
        (setup_of machine.now tools.now) numbers step.now (written_in lines.now) waiting.now
        (run_in run.old)) }
{
    if step.releases {
        match release(run, machine, tools, numbers.held, &lines.made, waiting) {
            Ok(()) => {}
            Err(refusal) => return Err(refusal),
        }
    }
    if step.waits {
        return Ok(());
    }
    run.execute(machine, tools, numbers.own, &lines.own)
}

// Adds plain lines to those that wait.
fn wait<A: Allocator>(
    waiting: &mut Vec<WaitingLine, A>,
    line: u32,
    plain: PlainLines,
) -> Result<(), Refusal>
    ensures { Says (λ _. waiting.new.items) result
        (spec.with_waiting line plain.items waiting.old.items) }
{
    if plain.as_slice().is_empty() {
        return Ok(());
    }
    if waiting.len() >= 1_000 {
        let fault = about_code(RuleCause::TooManyKept, Code::G(410));
        return Err(Refusal::Because(Cause::Rule(fault)));
    }
    match waiting.push(WaitingLine { line, plain }) {
        Ok(()) => Ok(()),
        Err(_) => Err(Refusal::Memory),
    }
}

/// Puts off what waits after a line: the line's own plain lines, or its stop.
pub(crate) fn put_off<A: Allocator>(
    waiting: &mut Vec<WaitingLine, A>,
    line: u32,
    step: &PathStep,
    own: &mut PlainLines,
) -> Result<(), Refusal>
    ensures { Says (λ _. waiting.new.items) result
        (spec.put_off line step.now own.old.items waiting.old.items) }
{
    if step.releases {
        waiting.clear();
    }
    if !step.waits {
        write_stop(step.stop, own);
    }
    let plain = mem::replace(own, ArrayVec::new());
    wait(waiting, line, plain)
}
