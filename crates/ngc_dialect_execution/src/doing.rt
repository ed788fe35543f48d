//! What a line that was read does.
ghost use Rattle.std.specs.Prelude.{◌≡◌, IfOk};
ghost use Rattle.ngc_machine_files.specs.Machine.{file_of};
ghost use Rattle.ngc_canonical.specs.Interpreter.{setup_of};
ghost use Rattle.ngc_dialect_flow.specs.Places.{plan_of};
ghost use Rattle.ngc_dialect_flow.specs.State.{flow_of};
ghost use Rattle.ngc_dialect_execution.specs.Faults.{Says};
ghost use Rattle.ngc_dialect_execution.specs.Flow as flow;
ghost use Rattle.ngc_dialect_execution.specs.Taken as spec;
ghost use Rattle.ngc_dialect_execution.specs.Views.{progress_of, said_in};

use crate::fault::{Cause, Refusal, stored};
use crate::reading::is_m;
use crate::repeats::LineSpace;
use crate::run::Wanted;
use crate::saving::{begin_call, end_call, take_line_words};
use crate::words::WordInterpreter;
use ngc_canonical::{Machine, Tools};
use ngc_dialect_flow::{Effect, State, Table, leave_with};
use ngc_dialect_names::Dialect;
use ngc_dialect_parameters::{LineValues, Parameters, Statement, Word};
use ngc_dialect_reader::DialectLine;
use std::alloc::{AllocError, Allocator};

/// What is known between two lines: what the words did, and the parameters.
#[derive(Drop)]
pub(crate) struct Execution<A: Allocator> {
    pub(crate) words: WordInterpreter<A>,
    pub(crate) parameters: Parameters<A>,
    space: LineSpace<A>,
}

/// How many calls are open before a step and after it, and whether it is that of an M99.
#[derive(Clone, Copy)]
pub(crate) struct Depths {
    pub(crate) before: usize,
    pub(crate) after: usize,
    pub(crate) returns: bool,
}

fn is_m99(statement: &Statement) -> bool
    ensures { result ≡ flow.is_m99 statement.now }
{
    match statement {
        Statement::Word(word) => is_m(99, word),
        _ => false,
    }
}

// Returns whether a line has M99.
fn has_m99(statements: &[Statement]) -> bool
    ensures { result ≡ flow.has_m99 statements.now }
{
    statements.iter().any(|statement| is_m99(statement))
}

impl<A: Allocator + Copy> Execution<A> {
    /// Returns what is known before the first line. No parameter is set.
    pub(crate) fn new(
        alloc: A,
        wanted: Wanted,
        dialect: Dialect,
        machine: &Machine<A>,
    ) -> Result<Execution<A>, AllocError>
        ensures { IfOk result
            (λ e. progress_of e ≡ spec.start_progress wanted dialect (file_of machine.now)) }
    {
        let Ok(words) = WordInterpreter::new(alloc, wanted, dialect, machine) else {
            return Err(AllocError);
        };
        let Ok(parameters) = Parameters::new(alloc, dialect) else {
            return Err(AllocError);
        };
        let space = LineSpace {
            polar: Vec::new(alloc),
            turn: Vec::new(alloc),
        };
        Ok(Execution {
            words,
            parameters,
            space,
        })
    }

    /// Makes the settings of a line, and executes its words.
    #[tactic(auto, unfolding(crate::specs::Taken::done_at))]
    pub(crate) fn take(
        &mut self,
        machine: &Machine<A>,
        tools: &Tools<A>,
        number: u32,
        line: &DialectLine,
        values: &LineValues,
        words: &[Word],
    ) -> Result<(), Refusal>
        ensures { Says (λ _. progress_of self.new) result (spec.done_at
            (setup_of machine.now tools.now) number line.now.text.items
            values.now.statements.items words.now (progress_of self.old)) }
    {
        match stored(self.parameters.apply(line, values)) {
            Ok(()) => {}
            Err(refusal) => return Err(refusal),
        }
        self.words
            .note_statements(number, values.statements.as_slice());
        take_line_words(
            &mut self.words,
            &mut self.space,
            machine,
            tools,
            number,
            words,
        )
    }

    // Begins or ends a call, for the parameters.
    fn take_effect(&mut self, effect: &Effect, values: &LineValues) -> Result<(), Refusal>
        ensures { Says (λ _. progress_of self.new) result (flow.effect_taken effect.now
            values.now.arguments.items (progress_of self.old)) }
    {
        match effect {
            Effect::Stay | Effect::End => Ok(()),
            Effect::Enter => stored(self.parameters.enter(values.arguments.as_slice())),
            Effect::Return(value) => stored(leave_with(&mut self.parameters, *value)),
        }
    }

    // Ends a call and begins it again, for the saved modes.
    fn repeat_level(
        &mut self,
        machine: &Machine<A>,
        tools: &Tools<A>,
        number: u32,
    ) -> Result<(), Refusal>
        ensures { Says (λ _. progress_of self.new) result (flow.level_repeated
            (setup_of machine.now tools.now) number (progress_of self.old)) }
    {
        match end_call(&mut self.words, machine, tools, number) {
            Ok(()) => begin_call(&mut self.words),
            Err(refusal) => Err(refusal),
        }
    }

    // Begins or ends a call, for the saved modes.
    fn take_level(
        &mut self,
        machine: &Machine<A>,
        tools: &Tools<A>,
        number: u32,
        depths: &Depths,
    ) -> Result<(), Refusal>
        ensures { Says (λ _. progress_of self.new) result (flow.level_taken
            (setup_of machine.now tools.now) number depths.now (progress_of self.old)) }
    {
        if depths.before < depths.after {
            begin_call(&mut self.words)
        } else if depths.after < depths.before {
            end_call(&mut self.words, machine, tools, number)
        } else if depths.returns && depths.after > 0 {
            self.repeat_level(machine, tools, number)
        } else {
            Ok(())
        }
    }

    // Begins or ends a call, and returns the effect.
    fn take_step(
        &mut self,
        machine: &Machine<A>,
        tools: &Tools<A>,
        number: u32,
        depths: &Depths,
        effect: Effect,
        values: &LineValues,
    ) -> Result<Effect, Refusal>
        ensures { Says (λ e. (e, progress_of self.new)) result (flow.effect_done
            (setup_of machine.now tools.now) number depths.now effect values.now.arguments.items
            (progress_of self.old)) }
    {
        match self.take_effect(&effect, values) {
            Ok(()) => {}
            Err(refusal) => return Err(refusal),
        }
        match self.take_level(machine, tools, number, depths) {
            Ok(()) => Ok(effect),
            Err(refusal) => Err(refusal),
        }
    }

    // Goes on after a line that took effect.
    #[tactic(auto, unfolding(crate::specs::Flow::stepped))]
    fn step(
        &mut self,
        machine: &Machine<A>,
        tools: &Tools<A>,
        number: u32,
        table: &Table<A>,
        state: &mut State,
        line: &DialectLine,
        values: &LineValues,
    ) -> Result<Effect, Refusal>
        ensures { Says (λ effect. (effect, record { progress = progress_of self.new; flow = flow_of state.new }))
            result (flow.stepped (setup_of machine.now tools.now) number (plan_of table.now)
            line.now.text.items (said_in values.now) (flow_of state.old) (progress_of self.old)) }
    {
        let before = state.depth();
        match state.next(table, line, values) {
            Ok(effect) => {
                let depths = Depths {
                    before,
                    after: state.depth(),
                    returns: has_m99(values.statements.as_slice()),
                };
                self.take_step(machine, tools, number, &depths, effect, values)
            }
            Err(cause) => Err(Refusal::Because(Cause::Flow(cause))),
        }
    }

    /// Goes on after a line that took effect, unless that has ended the program.
    pub(crate) fn turn(
        &mut self,
        machine: &Machine<A>,
        tools: &Tools<A>,
        number: u32,
        table: &Table<A>,
        state: &mut State,
        line: &DialectLine,
        values: &LineValues,
    ) -> Result<Effect, Refusal>
        ensures { Says (λ effect. (effect, record { progress = progress_of self.new; flow = flow_of state.new }))
            result (flow.turned (setup_of machine.now tools.now) number (plan_of table.now)
            line.now.text.items (said_in values.now) (flow_of state.old) (progress_of self.old)) }
    {
        if self.words.is_ended() {
            return Ok(Effect::End);
        }
        self.step(machine, tools, number, table, state, line, values)
    }
}
