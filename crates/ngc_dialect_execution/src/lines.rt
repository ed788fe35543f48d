//! Lines of another control, executed.
ghost use Rattle.std.specs.Prelude.{◌≡◌, ◌≤◌, length, IfOk, IfSome};
ghost use Rattle.ngc_machine_files.specs.Machine.{file_of};
ghost use Rattle.ngc_canonical.specs.Interpreter.{setup_of};
ghost use Rattle.ngc_frames.specs.Changes.{frame_of};
ghost use Rattle.ngc_dialect_flow.specs.Places.{plan_of};
ghost use Rattle.ngc_dialect_flow.specs.State.{flow_of};
ghost use Rattle.ngc_dialect_execution.specs.Faults.{Says};
ghost use Rattle.ngc_dialect_execution.specs.Flow as flow;
ghost use Rattle.ngc_dialect_execution.specs.Mounting.{with_mounted};
ghost use Rattle.ngc_dialect_execution.specs.Taken as spec;
ghost use Rattle.ngc_dialect_execution.specs.Taken.{Progress};
ghost use Rattle.ngc_dialect_execution.specs.Views.{kept_in, progress_in, said_in};

use crate::doing::Execution;
use crate::fault::{Cause, Refusal};
use crate::reading::{find_others, find_words, has_flow, is_deleted, read_parts, said_at, said_if};
use crate::run::Wanted;
use crate::words::Collected;
use ngc_canonical::{Machine, Tools};
use ngc_dialect_flow::{Effect, State, Table};
use ngc_dialect_names::Dialect;
use ngc_dialect_parameters::{LineValues, Word};
use ngc_dialect_reader::DialectLine;
use ngc_frames::Frame;
use std::alloc::{AllocError, Allocator};

/// What was done with a line: it was executed or left out, or nothing, since it has flow.
#[derive(Clone, Copy)]
pub enum Taken {
    Done,
    HasFlow,
}

/// Executes lines of another control: what is known between two lines, and the commands so far.
#[derive(Drop)]
pub struct DialectInterpreter<A: Allocator> {
    pub(crate) execution: Execution<A>,
    line: DialectLine,
    values: LineValues,
    found: Vec<Word, A>,
    others: Vec<Word, A>,
}

impl<A: Allocator + Copy> DialectInterpreter<A> {
    /// Returns what is known before the first line. No parameter is set.
    pub fn new(
        alloc: A,
        wanted: Wanted,
        dialect: Dialect,
        machine: &Machine<A>,
    ) -> Result<DialectInterpreter<A>, AllocError>
        ensures { IfOk result (λ i.
            progress_in i ≡ spec.start_progress wanted dialect (file_of machine.now)) }
    {
        let Ok(execution) = Execution::new(alloc, wanted, dialect, machine) else {
            return Err(AllocError);
        };
        Ok(DialectInterpreter {
            execution,
            line: DialectLine::empty(),
            values: LineValues::empty(),
            found: Vec::new(alloc),
            others: Vec::new(alloc),
        })
    }

    /// Returns whether the program has ended. After that no plain line is executed.
    pub fn is_ended(&self) -> bool
        ensures { result ≡ (progress_in self.now).between.state.ended }
    {
        self.execution.words.is_ended()
    }

    /// Returns the frame: the coordinates that are in force, and the unit of lengths.
    pub(crate) fn frame(&self) -> Frame
        ensures { result ≡ frame_of (progress_in self.now).between.state }
    {
        self.execution.words.frame()
    }

    /// Returns the number of commands that were executed so far.
    pub(crate) fn command_count(&self) -> usize
        ensures { result ≡ length (progress_in self.now).between.state.commands }
    {
        self.execution.words.command_count()
    }

    /// Returns the dialect.
    pub fn dialect(&self) -> Dialect
        ensures { result ≡ (progress_in self.now).between.dialect }
    {
        self.execution.words.dialect()
    }

    // Executes the line that was read, unless it has flow.
    #[tactic(auto, unfolding(crate::specs::Taken::statements_taken))]
    fn take_parts(
        &mut self,
        machine: &Machine<A>,
        tools: &Tools<A>,
        line: u32,
    ) -> Result<Taken, Refusal>
        ensures { Says (λ taken. (taken, progress_in self.new)) result (spec.statements_taken
            (setup_of machine.now tools.now) line self.old.line.text.items
            self.old.line.parts.items (progress_in self.old)) }
    {
        match said_at(&self.execution.parameters, &self.line, &mut self.values) {
            Ok(()) => {}
            Err(refusal) => return Err(refusal),
        }
        if has_flow(self.dialect(), self.values.statements.as_slice()) {
            return Ok(Taken::HasFlow);
        }
        let Ok(()) = find_words(self.values.statements.as_slice(), &mut self.found) else {
            return Err(Refusal::Memory);
        };
        match self.execution.take(
            machine,
            tools,
            line,
            &self.line,
            &self.values,
            self.found.as_slice(),
        ) {
            Ok(()) => Ok(Taken::Done),
            Err(refusal) => Err(refusal),
        }
    }

    /// Executes a line with this number, without its line feed, unless it begins with `/` and block
    /// delete is on, or has flow. The first fault is one of reading, of a value, of the rules or of a
    /// plain line; nothing is then stated of what is known.
    #[tactic(auto, unfolding(crate::specs::Taken::line_taken))]
    pub fn take_line(
        &mut self,
        machine: &Machine<A>,
        tools: &Tools<A>,
        block_delete: bool,
        line: u32,
        bytes: &[u8],
    ) -> Result<Taken, Refusal>
        ensures { Says (λ taken. (taken, progress_in self.new)) result (spec.line_taken
            (setup_of machine.now tools.now) block_delete line bytes.now
            (progress_in self.old)) }
    {
        match read_parts(self.dialect(), bytes, &mut self.line) {
            Ok(()) => {}
            Err(refusal) => return Err(refusal),
        }
        if block_delete && is_deleted(self.line.parts.as_slice()) {
            return Ok(Taken::Done);
        }
        self.take_parts(machine, tools, line)
    }

    // Executes the words that the flow leaves of the line that was read, and then goes on.
    #[tactic(auto, unfolding(crate::specs::Flow::others_taken))]
    fn take_others(
        &mut self,
        machine: &Machine<A>,
        tools: &Tools<A>,
        table: &Table<A>,
        state: &mut State,
        line: u32,
    ) -> Result<Effect, Refusal>
        ensures { Says (λ effect. (effect, record { progress = progress_in self.new; flow = flow_of state.new }))
            result (flow.others_taken (setup_of machine.now tools.now) (plan_of table.now) line
            self.old.line.text.items (said_in self.old.values)
            (record { progress = progress_in self.old; flow = flow_of state.old })) }
    {
        let Ok(()) = find_words(self.values.statements.as_slice(), &mut self.found) else {
            return Err(Refusal::Memory);
        };
        let Ok(()) = find_others(self.found.as_slice(), &mut self.others) else {
            return Err(Refusal::Memory);
        };
        match self.execution.take(
            machine,
            tools,
            line,
            &self.line,
            &self.values,
            self.others.as_slice(),
        ) {
            Ok(()) => {}
            Err(refusal) => return Err(refusal),
        }
        self.execution.turn(machine, tools, line, table, state, &self.line, &self.values)
    }

    // Executes the line that was read, and goes on.
    #[tactic(auto, unfolding(crate::specs::Flow::flow_statements_taken))]
    fn take_flow_parts(
        &mut self,
        machine: &Machine<A>,
        tools: &Tools<A>,
        table: &Table<A>,
        state: &mut State,
        line: u32,
    ) -> Result<Effect, Refusal>
        ensures { Says (λ effect. (effect, record { progress = progress_in self.new; flow = flow_of state.new }))
            result (flow.flow_statements_taken (setup_of machine.now tools.now) (plan_of table.now)
            line self.old.line.text.items self.old.line.parts.items
            (record { progress = progress_in self.old; flow = flow_of state.old })) }
    {
        match said_if(
            state.needs_values(table),
            &self.execution.parameters,
            &self.line,
            &mut self.values,
        ) {
            Ok(()) => {}
            Err(refusal) => return Err(refusal),
        }
        self.take_others(machine, tools, table, state, line)
    }

    /// Executes a line with this number, of a program whose flow has begun, and goes on to the line
    /// that is next. Returns what else the step does: after an end nothing is next. The first fault is
    /// one of reading, of a value, of the rules, of a plain line or of the flow; nothing is then stated
    /// of what is known.
    #[tactic(auto, unfolding(crate::specs::Flow::flow_line_taken))]
    pub(crate) fn take_flow_line(
        &mut self,
        machine: &Machine<A>,
        tools: &Tools<A>,
        block_delete: bool,
        table: &Table<A>,
        state: &mut State,
        line: u32,
        bytes: &[u8],
    ) -> Result<Effect, Refusal>
        ensures { Says (λ effect. (effect, record { progress = progress_in self.new; flow = flow_of state.new }))
            result (flow.flow_line_taken (setup_of machine.now tools.now) block_delete
            (plan_of table.now) line bytes.now
            (record { progress = progress_in self.old; flow = flow_of state.old })) }
    {
        match read_parts(self.dialect(), bytes, &mut self.line) {
            Ok(()) => {}
            Err(refusal) => return Err(refusal),
        }
        if block_delete && is_deleted(self.line.parts.as_slice()) {
            return pass_over(state);
        }
        self.take_flow_parts(machine, tools, table, state, line)
    }

    /// Mounts a tool in the first line, before anything else.
    pub(crate) fn mount(
        &mut self,
        machine: &Machine<A>,
        tools: &Tools<A>,
        number: Option<u32>,
    ) -> Result<(), Refusal>
        requires { IfSome number (λ n. n ≤ 9999) }
        ensures { Says (λ _. progress_in self.new) result (with_mounted
            (setup_of machine.now tools.now) number (progress_in self.old)) }
    {
        self.execution.words.mount(machine, tools, number)
    }

    /// Ends the program after its last line, whose number is `line`, as by M2.
    pub fn end_at(
        &mut self,
        machine: &Machine<A>,
        tools: &Tools<A>,
        line: u32,
    ) -> Result<(), Refusal>
        ensures { Says (λ _. (progress_in self.new).between) result (spec.ended_at
            (setup_of machine.now tools.now) line (progress_in self.old).between) }
    {
        self.execution.words.end_at(machine, tools, line)
    }

    /// Returns the commands that were executed so far, and what was collected.
    pub(crate) fn into_collected(self) -> Collected<A>
        ensures commands { result.commands.items ≡ (progress_in self).between.state.commands }
        ensures notes { result.notes ≡ (progress_in self).between.notes }
        ensures lines { kept_in result.lines ≡ (progress_in self).between.kept }
    {
        let DialectInterpreter { execution, .. } = self;
        let Execution { words, .. } = execution;
        words.into_collected()
    }
}

// Goes on after a line that block delete takes out.
fn pass_over(state: &mut State) -> Result<Effect, Refusal>
    ensures { (p : Progress) → Says (λ effect. (effect, record { progress = p; flow = flow_of state.new }))
        result (flow.passed_over (record { progress = p; flow = flow_of state.old })) }
{
    match state.skip() {
        Ok(()) => Ok(Effect::Stay),
        Err(cause) => Err(Refusal::Because(Cause::Flow(cause))),
    }
}
