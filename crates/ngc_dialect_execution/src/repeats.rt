//! Lines that are executed as lines of other words: polar words become X and Y, and a repeated polar
//! hole and an arc of several turns become several lines.
ghost use Rattle.std.specs.Prelude.{◌≡◌, false, None};
ghost use Rattle.ngc_canonical.specs.Interpreter.{setup_of};
ghost use Rattle.ngc_dialect_execution.specs.Faults.{Says, polar_caused};
ghost use Rattle.ngc_dialect_execution.specs.Taken as spec;
ghost use Rattle.ngc_dialect_execution.specs.Views.{between_of};

use crate::fault::{Cause, Refusal};
use crate::words::WordInterpreter;
use ngc_canonical::{Machine, Tools};
use ngc_dialect_notes::Kind;
use ngc_dialect_parameters::Word;
use ngc_dialect_repeats::{
    PolarFault, PolarLine, PolarRefusal, Turning, count_in, has_polar, polar_line, turning_on,
};
use std::alloc::{AllocError, Allocator};

/// Space for the words of the lines in place of a line.
#[derive(Drop)]
pub(crate) struct LineSpace<A: Allocator> {
    pub(crate) polar: Vec<Word, A>,
    pub(crate) turn: Vec<Word, A>,
}

fn because(refusal: PolarRefusal) -> Refusal
    ensures { result ≡ spec.because refusal }
{
    Refusal::Because(Cause::Polar(refusal))
}

// Executes a turn of an arc.
fn take_turn<A: Allocator + Copy>(
    interpreter: &mut WordInterpreter<A>,
    space: &mut Vec<Word, A>,
    machine: &Machine<A>,
    tools: &Tools<A>,
    line: u32,
    turning: &Turning,
    words: &[Word],
    left: u32,
) -> Result<(), Refusal>
    ensures { Says (λ _. between_of interpreter.new) result (spec.turn_taken
        (setup_of machine.now tools.now) line turning.now words.now left
        (between_of interpreter.old)) }
{
    let step = match turning.step(left) {
        Ok(step) => step,
        Err(refusal) => return Err(because(refusal)),
    };
    let Ok(()) = step.write(words, space) else {
        return Err(Refusal::Memory);
    };
    interpreter.take_words(machine, tools, line, space.as_slice())
}

// Executes the turns of an arc.
#[inline(never)]
fn take_turns<A: Allocator + Copy>(
    interpreter: &mut WordInterpreter<A>,
    space: &mut Vec<Word, A>,
    machine: &Machine<A>,
    tools: &Tools<A>,
    line: u32,
    turning: &Turning,
    words: &[Word],
) -> Result<(), Refusal>
    ensures { Says (λ _. between_of interpreter.new) result (spec.turns_taken
        (setup_of machine.now tools.now) line turning.now words.now turning.now.count
        (between_of interpreter.old)) }
{
    let mut left = u32::from(turning.count);
    while left > 0 {
        match take_turn(
            interpreter,
            space,
            machine,
            tools,
            line,
            turning,
            words,
            left,
        ) {
            Ok(()) => {}
            Err(refusal) => return Err(refusal),
        }
        left -= 1;
    }
    Ok(())
}

// Returns the turns of a line, unless cutter compensation is on.
fn turning_in<A: Allocator + Copy>(
    interpreter: &WordInterpreter<A>,
    words: &[Word],
) -> Option<Turning>
    ensures { result ≡ spec.turning_in words.now (between_of interpreter.now) }
{
    if interpreter.path.is_some() {
        return None;
    }
    match count_in(interpreter.before.dialect, words) {
        None => None,
        Some(count) => turning_on(&interpreter.known(), words, count),
    }
}

// Returns whether a line may have turns: cutter compensation is off, and its P names a number of
// turns. Other lines make no `Option<Turning>`, which takes longer than the rest of this test.
fn may_turn<A: Allocator + Copy>(interpreter: &WordInterpreter<A>, words: &[Word]) -> bool
    ensures { result ≡ false → spec.turning_in words.now (between_of interpreter.now) ≡ None }
{
    interpreter.path.is_none() && count_in(interpreter.before.dialect, words).is_some()
}

// Executes a line without polar words that may have turns.
#[inline(never)]
fn take_turning<A: Allocator + Copy>(
    interpreter: &mut WordInterpreter<A>,
    space: &mut Vec<Word, A>,
    machine: &Machine<A>,
    tools: &Tools<A>,
    line: u32,
    words: &[Word],
) -> Result<(), Refusal>
    ensures { Says (λ _. between_of interpreter.new) result (spec.turned_taken
        (setup_of machine.now tools.now) line words.now (between_of interpreter.old)) }
{
    match turning_in(interpreter, words) {
        None => interpreter.take_words(machine, tools, line, words),
        Some(turning) => {
            interpreter.note(line, Kind::SeveralTurns);
            take_turns(interpreter, space, machine, tools, line, &turning, words)
        }
    }
}

// Executes a line without polar words.
#[inline(always)]
fn take_turned<A: Allocator + Copy>(
    interpreter: &mut WordInterpreter<A>,
    space: &mut Vec<Word, A>,
    machine: &Machine<A>,
    tools: &Tools<A>,
    line: u32,
    words: &[Word],
) -> Result<(), Refusal>
    ensures { Says (λ _. between_of interpreter.new) result (spec.turned_taken
        (setup_of machine.now tools.now) line words.now (between_of interpreter.old)) }
{
    if may_turn(interpreter, words) {
        take_turning(interpreter, space, machine, tools, line, words)
    } else {
        interpreter.take_words(machine, tools, line, words)
    }
}

// Executes one of the lines in place of a line with polar words.
fn take_polar_step<A: Allocator + Copy>(
    interpreter: &mut WordInterpreter<A>,
    space: &mut LineSpace<A>,
    machine: &Machine<A>,
    tools: &Tools<A>,
    line: u32,
    polar: &PolarLine,
    words: &[Word],
    left: u32,
) -> Result<(), Refusal>
    ensures { Says (λ _. between_of interpreter.new) result (spec.polar_step_taken
        (setup_of machine.now tools.now) line polar.now words.now left
        (between_of interpreter.old)) }
{
    let step = match polar.step(left) {
        Ok(step) => step,
        Err(refusal) => return Err(because(refusal)),
    };
    let Ok(()) = step.write(words, &mut space.polar) else {
        return Err(Refusal::Memory);
    };
    take_turned(
        interpreter,
        &mut space.turn,
        machine,
        tools,
        line,
        space.polar.as_slice(),
    )
}

// Executes the lines in place of a line with polar words.
fn take_polar_steps<A: Allocator + Copy>(
    interpreter: &mut WordInterpreter<A>,
    space: &mut LineSpace<A>,
    machine: &Machine<A>,
    tools: &Tools<A>,
    line: u32,
    polar: &PolarLine,
    words: &[Word],
) -> Result<(), Refusal>
    ensures { Says (λ _. between_of interpreter.new) result (spec.polar_steps_taken
        (setup_of machine.now tools.now) line polar.now words.now polar.now.count
        (between_of interpreter.old)) }
{
    let mut left = polar.count;
    while left > 0 {
        match take_polar_step(interpreter, space, machine, tools, line, polar, words, left) {
            Ok(()) => {}
            Err(refusal) => return Err(refusal),
        }
        left -= 1;
    }
    Ok(())
}

// Returns where a line's polar words lead.
fn polar_in<A: Allocator + Copy>(
    interpreter: &WordInterpreter<A>,
    words: &[Word],
) -> Result<PolarLine, Refusal>
    ensures { Says (λ p. p) result (polar_caused
        (spec.polar_in words.now (between_of interpreter.now))) }
{
    match polar_line(&interpreter.programmed(), &interpreter.polar, words) {
        Ok(polar) => Ok(polar),
        Err(PolarFault::Rule(fault)) => Err(Refusal::Because(Cause::Rule(fault))),
        Err(PolarFault::Polar(refusal)) => Err(because(refusal)),
    }
}

// Executes a line with polar words.
#[inline(never)]
fn take_polar<A: Allocator + Copy>(
    interpreter: &mut WordInterpreter<A>,
    space: &mut LineSpace<A>,
    machine: &Machine<A>,
    tools: &Tools<A>,
    line: u32,
    words: &[Word],
) -> Result<(), Refusal>
    ensures { Says (λ _. between_of interpreter.new) result (spec.polar_taken
        (setup_of machine.now tools.now) line words.now (between_of interpreter.old)) }
{
    match polar_in(interpreter, words) {
        Ok(polar) => {
            interpreter.note(line, Kind::PolarWords);
            match take_polar_steps(interpreter, space, machine, tools, line, &polar, words) {
                Ok(()) => {}
                Err(refusal) => return Err(refusal),
            }
            interpreter.polar = polar.end();
            Ok(())
        }
        Err(refusal) => Err(refusal),
    }
}

/// Executes the words of a line with this number. A fault is the first one of polar words, of the rules
/// or of a plain line; nothing is then stated of what is known.
#[tactic(auto, unfolding(crate::specs::Taken::all_taken))]
pub(crate) fn take_all<A: Allocator + Copy>(
    interpreter: &mut WordInterpreter<A>,
    space: &mut LineSpace<A>,
    machine: &Machine<A>,
    tools: &Tools<A>,
    line: u32,
    words: &[Word],
) -> Result<(), Refusal>
    ensures { Says (λ _. between_of interpreter.new) result (spec.all_taken
        (setup_of machine.now tools.now) line words.now (between_of interpreter.old)) }
{
    if has_polar(words) {
        take_polar(interpreter, space, machine, tools, line, words)
    } else {
        take_turned(interpreter, &mut space.turn, machine, tools, line, words)
    }
}
