//! M70 to M73 of LinuxCNC, executed.
ghost use Rattle.std.specs.Prelude.{◌≡◌, Ok};
ghost use Rattle.ngc_canonical.specs.Interpreter.{setup_of};
ghost use Rattle.ngc_dialect_execution.specs.Faults.{Says};
ghost use Rattle.ngc_dialect_execution.specs.Taken as spec;
ghost use Rattle.ngc_dialect_execution.specs.Views.{between_of};

use crate::fault::{Cause, Refusal};
use crate::repeats::{LineSpace, take_all};
use crate::words::WordInterpreter;
use ngc_canonical::{Machine, Tools};
use ngc_dialect_parameters::Word;
use ngc_dialect_rules::{Cause as RuleCause, about_code};
use ngc_dialect_saved::{SavedModes, Saving, modes_now, restoring, saving_code, saving_in};
use std::alloc::Allocator;

// Returns the modes in force.
fn modes_in<A: Allocator + Copy>(interpreter: &WordInterpreter<A>) -> SavedModes
    ensures { result ≡ spec.modes_in (between_of interpreter.now) }
{
    modes_now(&interpreter.known(), &interpreter.switches)
}

// Keeps what a line has switched.
fn switch<A: Allocator + Copy>(interpreter: &mut WordInterpreter<A>, words: &[Word])
    ensures { between_of interpreter.new ≡ spec.switched words.now (between_of interpreter.old) }
{
    interpreter.switches = interpreter.switches.after(words);
}

// Executes a word that restores a mode, if there is one.
fn restore_word<A: Allocator + Copy>(
    interpreter: &mut WordInterpreter<A>,
    machine: &Machine<A>,
    tools: &Tools<A>,
    line: u32,
    word: &Option<Word>,
) -> Result<(), Refusal>
    ensures { Says (λ _. between_of interpreter.new) result (spec.word_restored
        (setup_of machine.now tools.now) line word.now (between_of interpreter.old)) }
{
    let Some(word) = word else {
        return Ok(());
    };
    let words = [*word];
    match interpreter.execute_words(machine, tools, line, &words) {
        Ok(()) => {}
        Err(refusal) => return Err(refusal),
    }
    switch(interpreter, &words);
    Ok(())
}

// Executes the words that restore modes, in order.
#[tactic(auto, unfolding(crate::specs::Taken::words_restored))]
fn restore_words<A: Allocator + Copy>(
    interpreter: &mut WordInterpreter<A>,
    machine: &Machine<A>,
    tools: &Tools<A>,
    line: u32,
    words: &[Option<Word>],
) -> Result<(), Refusal>
    ensures { Says (λ _. between_of interpreter.new) result (spec.words_restored
        (setup_of machine.now tools.now) line words.now (between_of interpreter.old)) }
{
    let mut rest = words;
    while let [first, after @ ..] = rest {
        match restore_word(interpreter, machine, tools, line, first) {
            Ok(()) => {}
            Err(refusal) => return Err(refusal),
        }
        rest = after;
    }
    Ok(())
}

// Restores modes.
fn restore<A: Allocator + Copy>(
    interpreter: &mut WordInterpreter<A>,
    machine: &Machine<A>,
    tools: &Tools<A>,
    line: u32,
    modes: &SavedModes,
) -> Result<(), Refusal>
    ensures { Says (λ _. between_of interpreter.new) result (spec.restored
        (setup_of machine.now tools.now) line modes.now (between_of interpreter.old)) }
{
    let words = restoring(modes, &modes_in(interpreter));
    restore_words(interpreter, machine, tools, line, &words)
}

// Executes M72.
fn restore_saved<A: Allocator + Copy>(
    interpreter: &mut WordInterpreter<A>,
    machine: &Machine<A>,
    tools: &Tools<A>,
    line: u32,
    modes: &Option<SavedModes>,
) -> Result<(), Refusal>
    ensures { Says (λ _. between_of interpreter.new) result (spec.restored_from
        (setup_of machine.now tools.now) line modes.now (between_of interpreter.old)) }
{
    match modes {
        None => Err(Refusal::Because(Cause::NothingSaved)),
        Some(modes) => restore(interpreter, machine, tools, line, modes),
    }
}

// Saves the modes in force.
fn save<A: Allocator + Copy>(interpreter: &mut WordInterpreter<A>, returns: bool)
    ensures { between_of interpreter.new ≡ spec.with_saved returns (between_of interpreter.old) }
{
    let modes = modes_in(interpreter);
    interpreter.saved.save(returns, modes);
}

// Executes one of M70 to M73.
fn take_saving<A: Allocator + Copy>(
    interpreter: &mut WordInterpreter<A>,
    machine: &Machine<A>,
    tools: &Tools<A>,
    line: u32,
    saving: Saving,
) -> Result<(), Refusal>
    ensures { Says (λ _. between_of interpreter.new) result (spec.saving_done
        (setup_of machine.now tools.now) line saving (between_of interpreter.old)) }
{
    match saving {
        Saving::Save => {
            save(interpreter, false);
            Ok(())
        }
        Saving::Forget => {
            interpreter.saved.forget();
            Ok(())
        }
        Saving::Restore => {
            let modes = interpreter.saved.here.modes;
            restore_saved(interpreter, machine, tools, line, &modes)
        }
        Saving::SaveToReturn => {
            save(interpreter, true);
            Ok(())
        }
    }
}

// Executes one of M70 to M73, unless cutter compensation is on.
#[inline(never)]
fn take_saving_line<A: Allocator + Copy>(
    interpreter: &mut WordInterpreter<A>,
    machine: &Machine<A>,
    tools: &Tools<A>,
    line: u32,
    saving: Saving,
) -> Result<(), Refusal>
    ensures { Says (λ _. between_of interpreter.new) result (spec.saving_taken
        (setup_of machine.now tools.now) line saving (between_of interpreter.old)) }
{
    if interpreter.path.is_some() {
        let fault = about_code(RuleCause::WhileCompensating, saving_code(saving));
        return Err(Refusal::Because(Cause::Rule(fault)));
    }
    take_saving(interpreter, machine, tools, line, saving)
}

// Executes the words of a line that isn't one of M70 to M73.
fn take_switched<A: Allocator + Copy>(
    interpreter: &mut WordInterpreter<A>,
    space: &mut LineSpace<A>,
    machine: &Machine<A>,
    tools: &Tools<A>,
    line: u32,
    words: &[Word],
) -> Result<(), Refusal>
    ensures { Says (λ _. between_of interpreter.new) result (spec.switched_taken
        (setup_of machine.now tools.now) line words.now (between_of interpreter.old)) }
{
    match take_all(interpreter, space, machine, tools, line, words) {
        Ok(()) => {}
        Err(refusal) => return Err(refusal),
    }
    switch(interpreter, words);
    Ok(())
}

/// Executes the words of a line with this number. A fault is the first one of saved modes, of polar
/// words, of the rules or of a plain line; nothing is then stated of what is known.
#[tactic(auto, unfolding(crate::specs::Taken::line_words_taken))]
pub(crate) fn take_line_words<A: Allocator + Copy>(
    interpreter: &mut WordInterpreter<A>,
    space: &mut LineSpace<A>,
    machine: &Machine<A>,
    tools: &Tools<A>,
    line: u32,
    words: &[Word],
) -> Result<(), Refusal>
    ensures { Says (λ _. between_of interpreter.new) result (spec.line_words_taken
        (setup_of machine.now tools.now) line words.now (between_of interpreter.old)) }
{
    match saving_in(interpreter.before.dialect, words) {
        None => take_switched(interpreter, space, machine, tools, line, words),
        Some(saving) => take_saving_line(interpreter, machine, tools, line, saving),
    }
}

/// Begins a call: nothing is saved in it yet.
pub(crate) fn begin_call<A: Allocator + Copy>(
    interpreter: &mut WordInterpreter<A>,
) -> Result<(), Refusal>
    ensures { Says (λ _. between_of interpreter.new) result (spec.call_begun (between_of interpreter.old)) }
{
    match interpreter.saved.enter() {
        Ok(()) => Ok(()),
        Err(_) => Err(Refusal::Memory),
    }
}

// Restores modes, if there are any.
fn restore_if<A: Allocator + Copy>(
    interpreter: &mut WordInterpreter<A>,
    machine: &Machine<A>,
    tools: &Tools<A>,
    line: u32,
    modes: &Option<SavedModes>,
) -> Result<(), Refusal>
    ensures { Says (λ _. between_of interpreter.new) result (spec.restored_if
        (setup_of machine.now tools.now) line modes.now (between_of interpreter.old)) }
{
    match modes {
        None => Ok(()),
        Some(modes) => restore(interpreter, machine, tools, line, modes),
    }
}

/// Ends a call at a line with this number: what M73 saved in it is restored.
pub(crate) fn end_call<A: Allocator + Copy>(
    interpreter: &mut WordInterpreter<A>,
    machine: &Machine<A>,
    tools: &Tools<A>,
    line: u32,
) -> Result<(), Refusal>
    ensures { Says (λ _. between_of interpreter.new) result (spec.call_ended
        (setup_of machine.now tools.now) line (between_of interpreter.old)) }
{
    let modes = interpreter.saved.returning();
    interpreter.saved.leave();
    restore_if(interpreter, machine, tools, line, &modes)
}
