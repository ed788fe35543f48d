//! A program's lines, in order.
ghost use Rattle.std.specs.Prelude.{◌≡◌, ◌≤◌, ◌<◌, ℕ, List, length, slice_get, Some, IfOk};
ghost use Rattle.ngc_line_reader.specs.Grammar.{Reading};
ghost use Rattle.ngc_line_reader.specs.Held.{AllWithinLimit};
ghost use Rattle.ngc_line_reader.specs.Shown.{view_parts, items_of, parsed_items};
ghost use Rattle.ngc_line_reader.specs.Program.{Line as ProgramLine};
ghost use Rattle.ngc_line_reader.specs.Words.{pairs_of};
ghost use Rattle.ngc_line_reader.specs.ProgramText.{AreReadings};
ghost use Rattle.ngc_line_reader.specs.ProgramView.{text_in};
ghost use Rattle.ngc_machine_files.specs.Machine.{file_of};
ghost use Rattle.ngc_parameters.specs.Stored.{changes_of};
ghost use Rattle.ngc_canonical.specs.Meaning.{effects_of as effects_in, execute as executed};
ghost use Rattle.ngc_canonical.specs.Meaning.{at_line, execute_words as words_executed};
ghost use Rattle.ngc_canonical.specs.Meaning.{with_settings, past_last, past_text, commands_of};
ghost use Rattle.ngc_canonical.specs.Meaning.{MeaningIs, EffectsAre, meaning, parsed_program};
ghost use Rattle.ngc_canonical.specs.Meaning.{mark_of as marked_at};
ghost use Rattle.ngc_canonical.specs.Interpreter.{setup_of, state_of, Becomes, BecomesAt};
ghost use Rattle.ngc_canonical.specs.Taken.{IsExecuted, IsTaken};
ghost use Rattle.ngc_commands.specs.Movement.{actions_of, ways_of, AreJoined};
ghost use Rattle.ngc_commands.specs.Sequence.{HaveEvenRadii, EndIsLast, HasEnd};

use crate::fault::{Fault, ProgramFault};
use crate::state::{Interpreter, LineRefusal};
use arrayvec::ArrayVec;
use ngc_commands::{Action, Command};
use ngc_line_reader::{Line, LineView, Program, Word};
use ngc_machine_files::{Machine, Tools};
use ngc_modal_state::{Block, Effect};
use ngc_parameters::{Changes, LineValues};
use std::alloc::Allocator;

/// Buffers for the words, values and effects of a line. They are made once and used again for each
/// line.
#[derive(Drop)]
pub struct Work {
    pub(crate) line: Line,
    pub(crate) values: LineValues,
    pub(crate) effects: ArrayVec<Effect, 24>,
}

impl Work {
    /// Returns buffers that hold no line yet.
    pub fn new() -> Work {
        Work {
            line: Line::empty(),
            values: LineValues::empty(),
            effects: ArrayVec::new(),
        }
    }
}

impl<A: Allocator + Copy> Interpreter<A> {
    // Finds the effects of a line.
    fn effects(&self, words: &[Word], effects: &mut ArrayVec<Effect, 24>) -> Result<(), Fault>
        ensures { EffectsAre result effects.new.items
            (effects_in (state_of self.now).modes (pairs_of words.now)) }
    {
        let block = match Block::new(words) {
            Ok(block) => block,
            Err(fault) => return Err(Fault::Modal(fault)),
        };
        match block.effects(&self.modes, effects) {
            Ok(()) => Ok(()),
            Err(fault) => Err(Fault::Modal(fault)),
        }
    }

    // Makes settings, after all other effects of the line.
    fn set(&mut self, changes: &Changes)
        ensures { state_of self.new ≡ with_settings (changes_of changes.now) (state_of self.old) }
    {
        self.store.make(changes);
    }

    // Executes words with these values.
    fn execute_words(
        &mut self,
        machine: &Machine<A>,
        tools: &Tools<A>,
        words: &[Word],
        effects: &mut ArrayVec<Effect, 24>,
    ) -> Result<(), LineRefusal>
        ensures { Becomes result (state_of self.new)
            (words_executed (setup_of machine.now tools.now) (pairs_of words.now)
            (state_of self.old)) }
    {
        match self.effects(words, effects) {
            Ok(()) => self.run(machine, tools, effects.as_slice()),
            Err(fault) => Err(LineRefusal::Breaks(fault)),
        }
    }

    // Executes a line that was read.
    fn execute(
        &mut self,
        machine: &Machine<A>,
        tools: &Tools<A>,
        line: LineView<'_>,
        values: &mut LineValues,
        effects: &mut ArrayVec<Effect, 24>,
    ) -> Result<(), LineRefusal>
        ensures { (bytes : List ℕ) (r : Reading) →
            items_of (view_parts line.entry) ≡ parsed_items bytes r → AllWithinLimit r.items →
            Becomes result (state_of self.new)
            (executed (setup_of machine.now tools.now) r.items (state_of self.old)) }
    {
        match self.store.read(line, values) {
            Ok(()) => {}
            Err(fault) => return Err(LineRefusal::Breaks(Fault::Value(fault))),
        }
        match self.execute_words(machine, tools, values.words.as_slice(), effects) {
            Ok(()) => {
                self.set(&values.changes);
                Ok(())
            }
            Err(refusal) => Err(refusal),
        }
    }

    // Executes a line of the program. If its values are numbers, no expression is evaluated.
    fn execute_line(
        &mut self,
        machine: &Machine<A>,
        tools: &Tools<A>,
        program: &Program<A>,
        index: usize,
        work: &mut Work,
    ) -> Result<(), LineRefusal>
        requires { index < length (text_in program.now).lines }
        ensures { (line : ProgramLine) → slice_get (text_in program.now).lines index ≡ Some line →
            IsExecuted (setup_of machine.now tools.now) line result (state_of self.old)
            (state_of self.new) }
    {
        match program.numbers(index) {
            Some(words) => self.execute_words(machine, tools, words, &mut work.effects),
            None => {
                program.load(index, &mut work.line);
                self.execute(
                    machine,
                    tools,
                    work.line.view(),
                    &mut work.values,
                    &mut work.effects,
                )
            }
        }
    }

    fn at(&mut self, line: u32)
        ensures { state_of self.new ≡ record (state_of self.old) { line = line } }
    {
        self.line = line;
    }

    /// Executes a line of the program, by its index from 0, unless block delete takes it out. A
    /// fault is the program's first one, or 900. `work` holds the line's words, values and effects.
    pub fn take_line(
        &mut self,
        machine: &Machine<A>,
        tools: &Tools<A>,
        program: &Program<A>,
        index: usize,
        work: &mut Work,
        block_delete: bool,
    ) -> Result<(), ProgramFault>
        requires { index < length (text_in program.now).lines }
        ensures { (line : ProgramLine) → slice_get (text_in program.now).lines index ≡ Some line →
            IsTaken (setup_of machine.now tools.now) block_delete line result (state_of self.old)
            (state_of self.new) }
    {
        let deleted = program.is_deleted(index);
        if block_delete && deleted {
            return Ok(());
        }
        let line = program.number(index);
        self.at(line);
        match self.execute_line(machine, tools, program, index, work) {
            Ok(()) => Ok(()),
            Err(LineRefusal::Breaks(fault)) => Err(ProgramFault::At { line, fault }),
            Err(LineRefusal::Memory) => Err(ProgramFault::Memory),
        }
    }

    /// Executes words with these values as a line of the program with this number. A fault is that
    /// of the words, with this line, or 900. `work` holds the effects of the words.
    pub fn take_words(
        &mut self,
        machine: &Machine<A>,
        tools: &Tools<A>,
        line: u32,
        words: &[Word],
        work: &mut Work,
    ) -> Result<(), ProgramFault>
        ensures { BecomesAt result (state_of self.new) (at_line line
            (words_executed (setup_of machine.now tools.now) (pairs_of words.now)
            (record (state_of self.old) { line = line }))) }
    {
        self.at(line);
        match self.execute_words(machine, tools, words, &mut work.effects) {
            Ok(()) => Ok(()),
            Err(LineRefusal::Breaks(fault)) => Err(ProgramFault::At { line, fault }),
            Err(LineRefusal::Memory) => Err(ProgramFault::Memory),
        }
    }

    // Ends a program after its last line: a marked file ends at its second `%`, whose line is
    // `mark`.
    fn end_at(mut self, mark: Option<u32>, count: u32) -> Result<Vec<Command, A>, ProgramFault>
        ensures { MeaningIs (λ v. v.items) result
            (commands_of (past_last mark count (state_of self))) }
    {
        let Some(line) = mark else {
            return Err(ProgramFault::At {
                line: count,
                fault: Fault::NoEnd,
            });
        };
        self.at(line);
        match self.emit(Action::End) {
            Ok(()) => Ok(self.into_commands()),
            Err(LineRefusal::Breaks(fault)) => Err(ProgramFault::At { line, fault }),
            Err(LineRefusal::Memory) => Err(ProgramFault::Memory),
        }
    }

    /// Ends a program after its last line, and returns its commands: a marked file ends at its
    /// second `%`, as by M2. Any other file needs M2 or M30 (120 otherwise, with the last line).
    pub fn finish(self, program: &Program<A>) -> Result<Vec<Command, A>, ProgramFault>
        ensures { MeaningIs (λ v. v.items) result
            (commands_of (past_text (text_in program.now) (state_of self))) }
    {
        self.end_at(mark_of(program), program.len() as u32)
    }
}

// Returns the line of the second `%` of a marked file.
fn mark_of<A: Allocator>(program: &Program<A>) -> Option<u32>
    ensures { result ≡ marked_at (text_in program.now).marked (length (text_in program.now).lines) }
{
    if program.is_marked() {
        Some(program.len() as u32 + 2)
    } else {
        None
    }
}

/// Returns the commands of a program on a machine with its tools, at a setting of block delete, in
/// the order in which they are executed. Otherwise it returns the first fault with its line (101,
/// 102, 120, 131 to 133, 201 to 210, 221, 222, 231 to 236, 241 to 246, 251, 252), or 900.
///
/// With block delete on, lines that begin with `/` are left out before anything is evaluated.
pub fn interpret<A: Allocator + Copy>(
    alloc: A,
    program: &Program<A>,
    machine: &Machine<A>,
    tools: &Tools<A>,
    block_delete: bool,
) -> Result<Vec<Command, A>, ProgramFault>
    // For all readings of the lines (each line has exactly one), the result is what they mean.
    ensures commands { (rs : List Reading) → AreReadings (text_in program.now).lines rs →
        MeaningIs (λ v. v.items) result
        (meaning (parsed_program (text_in program.now) rs)
        (setup_of machine.now tools.now) block_delete) }
    // The first motion begins at the machine's start point, and each further one where the motion
    // before it ends.
    ensures joined { IfOk result
        (λ v. AreJoined (file_of machine.now).start (ways_of (actions_of v.items))) }
    // Each arc has a radius in range, nearly the same at both ends.
    ensures radii { IfOk result (λ v. HaveEvenRadii (ways_of (actions_of v.items))) }
    ensures count { IfOk result (λ v. length v.items ≤ 1000000) }
    // Nothing follows the end.
    ensures ended { IfOk result (λ v. EndIsLast v.items) }
    // The last command is the end.
    ensures has_end { IfOk result (λ v. HasEnd v.items) }
{
    let Ok(mut interpreter) = Interpreter::new(alloc, machine) else {
        return Err(ProgramFault::Memory);
    };
    let mut work = Work::new();
    for index in 0..program.len() {
        match interpreter.take_line(machine, tools, program, index, &mut work, block_delete) {
            Ok(()) => {}
            Err(fault) => return Err(fault),
        }
        if interpreter.ended {
            return Ok(interpreter.into_commands());
        }
    }
    interpreter.finish(program)
}
