//! Words of another control, executed.
ghost use Rattle.std.specs.Prelude.{◌≡◌, ◌≤◌, ◌*◌, [], length, pos, IfOk, IfSome};
ghost use Rattle.ngc_line_reader.specs.declared.letter.Letter.TheVariants as letters;
ghost use Rattle.ngc_machine_files.specs.Machine.{file_of};
ghost use Rattle.ngc_canonical.specs.Interpreter.{setup_of};
ghost use Rattle.ngc_frames.specs.Changes.{frame_of};
ghost use Rattle.ngc_dialect_execution.specs.Faults.{Says};
ghost use Rattle.ngc_dialect_execution.specs.Mounting.{mounted};
ghost use Rattle.ngc_dialect_path.specs.Paths.{programmed as programmed_of};
ghost use Rattle.ngc_dialect_rules.specs.Straight.{straight_front, straight_result};
ghost use Rattle.ngc_dialect_path.specs.Steps.{written_in};
ghost use Rattle.ngc_dialect_execution.specs.Taken as spec;
ghost use Rattle.ngc_dialect_execution.specs.Taken.{END};
ghost use Rattle.ngc_dialect_execution.specs.Views.{between_of, kept_in};
ghost use Rattle.ngc_dialect_notes.specs.Noted.{statements_noted};
ghost use Rattle.ngc_dialect_notes.specs.Notes.{counted};

use crate::beside::{StepLines, WaitingLine, execute_step, put_off, release};
use crate::fault::{Cause, Refusal};
use crate::run::{KeptLine, PlainRun, Wanted};
use arrayvec::ArrayVec;
use ngc_canned_cycles::CycleMove;
use ngc_canonical::{Command, Machine, Tools};
use ngc_dialect_cycles::CycleMoves;
use ngc_dialect_drilling::{CycleStart, cycle_of, write_move, write_stop};
use ngc_dialect_names::Dialect;
use ngc_dialect_notes::{Kind, Notes};
use ngc_dialect_parameters::{Statement, Word};
use ngc_dialect_path::{Path, PathLines, PathStep, held_line, path_end, path_step, programmed};
use ngc_dialect_repeats::PolarEnd;
use ngc_dialect_rules::{
    Code, Front, Known, LineCycle, LineResult, Plain, PlainLines, StraightLine, plain_lines,
    straight_motion,
};
use ngc_dialect_saved::{SavedStack, Switches};
use ngc_fixed_length::Value;
use ngc_frames::Frame;
use ngc_line_reader::{Letter, Word as PlainWord};
use std::alloc::{AllocError, Allocator};

/// Executes words of another control, line by line: what the dialect and our own interpreter know
/// between two lines, and the commands so far.
#[derive(Drop)]
pub struct WordInterpreter<A: Allocator> {
    // What the rules know. Only its dialect and its front are up to date between two lines: a straight
    // motion needs neither the origins nor the place of the axes, and a copy of them takes longer than
    // such a line.
    pub(crate) before: Known,
    pub(crate) run: PlainRun<A>,
    plain: PlainLines,
    pub(crate) notes: Option<Notes>,
    pub(crate) path: Option<Path>,
    pub(crate) waiting: Vec<WaitingLine, A>,
    path_lines: PathLines,
    pub(crate) polar: Option<PolarEnd>,
    pub(crate) saved: SavedStack<A>,
    pub(crate) switches: Switches,
}

/// The commands of a program, and what was collected while it was executed.
#[derive(Drop)]
pub(crate) struct Collected<A: Allocator> {
    pub(crate) commands: Vec<Command, A>,
    pub(crate) notes: Option<Notes>,
    pub(crate) lines: Option<Vec<KeptLine<A>, A>>,
}

// Returns no notes yet, where notes are wanted.
fn no_notes(wanted: bool) -> Option<Notes>
    ensures { result ≡ spec.start_notes wanted }
{
    if wanted { Some(Notes::none()) } else { None }
}

// Changes what the dialect knows, as a line of one straight motion does.
fn go_straight(front: &mut Front, made: StraightLine)
    ensures { front.new ≡ straight_front made front.old }
{
    front.motion = Some(made.code);
    front.feed = made.feed;
    if !made.keeps_series {
        front.series = None;
    }
}

// Returns the word M2.
fn end_word() -> PlainWord
    ensures { result ≡ record { letter = letters.M; value = pos 2000000 } }
{
    let value = match Value::from_millionths(2_000_000) {
        Ok(value) => value,
        Err(_) => Value::zero(),
    };
    PlainWord {
        letter: Letter::M,
        value,
    }
}

// Returns the word M6.
fn change_word() -> PlainWord
    ensures { result ≡ record { letter = letters.M; value = pos 6000000 } }
{
    let value = match Value::from_millionths(6_000_000) {
        Ok(value) => value,
        Err(_) => Value::zero(),
    };
    PlainWord {
        letter: Letter::M,
        value,
    }
}

// Returns the word T of a tool.
fn tool_word(number: u32) -> PlainWord
    requires { number ≤ 9999 }
    ensures { result ≡ record { letter = letters.T; value = pos (number * 1000000) } }
{
    let value = match Value::from_millionths(i128::from(number) * 1_000_000) {
        Ok(value) => value,
        Err(_) => Value::zero(),
    };
    PlainWord {
        letter: Letter::T,
        value,
    }
}

impl<A: Allocator + Copy> WordInterpreter<A> {
    /// Returns what is known before the first line.
    pub fn new(
        alloc: A,
        wanted: Wanted,
        dialect: Dialect,
        machine: &Machine<A>,
    ) -> Result<WordInterpreter<A>, AllocError>
        ensures { IfOk result
            (λ i. between_of i ≡ spec.start wanted dialect (file_of machine.now)) }
    {
        let Ok(run) = PlainRun::new(alloc, wanted.lines, machine) else {
            return Err(AllocError);
        };
        Ok(WordInterpreter {
            before: Known {
                dialect,
                front: Front::start(dialect, machine.home28, machine.home30),
                modes: run.interpreter.modes(),
                frames: *run.interpreter.frames(),
                place: run.interpreter.place(),
            },
            run,
            plain: ArrayVec::new(),
            notes: no_notes(wanted.notes),
            path: None,
            waiting: Vec::new(alloc),
            path_lines: PathLines {
                made: ArrayVec::new(),
                own: ArrayVec::new(),
            },
            polar: None,
            saved: SavedStack::new(alloc),
            switches: Switches::start(),
        })
    }

    /// Returns the dialect.
    pub fn dialect(&self) -> Dialect
        ensures { result ≡ (between_of self.now).dialect }
    {
        self.before.dialect
    }

    /// Returns what the rules know before a line.
    pub fn known(&self) -> Known
        ensures { result ≡ spec.known_of (between_of self.now) }
    {
        Known {
            dialect: self.before.dialect,
            front: self.before.front,
            modes: self.run.interpreter.modes(),
            frames: *self.run.interpreter.frames(),
            place: self.run.interpreter.place(),
        }
    }

    /// Returns whether the program has ended. After that no plain line is executed.
    pub fn is_ended(&self) -> bool
        ensures { result ≡ (between_of self.now).state.ended }
    {
        self.run.interpreter.is_ended()
    }

    /// Returns the frame: the coordinates that are in force, and the unit of lengths.
    pub(crate) fn frame(&self) -> Frame
        ensures { result ≡ frame_of (between_of self.now).state }
    {
        Frame {
            frames: *self.run.interpreter.frames(),
            unit: self.run.interpreter.length_unit(),
        }
    }

    /// Returns the number of commands that were executed so far.
    pub(crate) fn command_count(&self) -> usize
        ensures { result ≡ length (between_of self.now).state.commands }
    {
        self.run.interpreter.commands().len()
    }

    // Executes the plain lines.
    fn take_plain(
        &mut self,
        machine: &Machine<A>,
        tools: &Tools<A>,
        line: u32,
    ) -> Result<(), Refusal>
        ensures { Says (λ _. between_of self.new) result (spec.plain_taken
            (setup_of machine.now tools.now) line self.old.plain.items (between_of self.old)) }
    {
        self.run.execute(machine, tools, line, &self.plain)
    }

    // Executes a move of a cycle.
    fn take_move(
        &mut self,
        machine: &Machine<A>,
        tools: &Tools<A>,
        line: u32,
        taken: &CycleMove,
    ) -> Result<(), Refusal>
        ensures { Says (λ _. between_of self.new) result (spec.move_taken
            (setup_of machine.now tools.now) line taken.now (between_of self.old)) }
    {
        let known = self.known();
        match write_move(&known, taken, &mut self.plain) {
            Ok(()) => self.take_plain(machine, tools, line),
            Err(fault) => Err(Refusal::Because(Cause::Rule(fault))),
        }
    }

    // Executes the moves of a cycle, each as it is asked for.
    fn take_moves(
        &mut self,
        machine: &Machine<A>,
        tools: &Tools<A>,
        line: u32,
        mut moves: CycleMoves,
    ) -> Result<(), Refusal>
        ensures { Says (λ _. between_of self.new) result (spec.moves_taken
            (setup_of machine.now tools.now) line moves (between_of self.old)) }
    {
        while let Some(taken) = moves.next_move() {
            match self.take_move(machine, tools, line, &taken) {
                Ok(()) => {}
                Err(refusal) => return Err(refusal),
            }
        }
        Ok(())
    }

    // Executes the moves of a cycle that begins, and then the stop of its line.
    #[tactic(auto, unfolding(crate::specs::Taken::start_taken))]
    fn take_start(
        &mut self,
        machine: &Machine<A>,
        tools: &Tools<A>,
        line: u32,
        start: CycleStart,
        stop: Option<Code>,
    ) -> Result<(), Refusal>
        ensures { Says (λ _. between_of self.new) result (spec.start_taken
            (setup_of machine.now tools.now) line stop start.kept start.moves
            (between_of self.old)) }
    {
        self.before.front.series = Some(start.kept);
        match self.take_moves(machine, tools, line, start.moves) {
            Ok(()) => {}
            Err(refusal) => return Err(refusal),
        }
        write_stop(stop, &mut self.plain);
        self.take_plain(machine, tools, line)
    }

    // Executes the cycle of a line, after the line's plain lines.
    #[inline(never)]
    fn take_cycle(
        &mut self,
        machine: &Machine<A>,
        tools: &Tools<A>,
        line: u32,
        words: &[Word],
        cycle: &LineCycle,
    ) -> Result<(), Refusal>
        ensures { Says (λ _. between_of self.new) result (spec.cycle_taken
            (setup_of machine.now tools.now) line words.now cycle.now (between_of self.old)) }
    {
        let known = self.known();
        match cycle_of(&known, cycle.code, words) {
            Ok(start) => self.take_start(machine, tools, line, start, cycle.stop),
            Err(fault) => Err(Refusal::Because(Cause::Rule(fault))),
        }
    }

    // Executes the line's plain lines, and then the moves of its cycle.
    #[tactic(auto, unfolding(crate::specs::Taken::made_taken))]
    fn take_made(
        &mut self,
        machine: &Machine<A>,
        tools: &Tools<A>,
        line: u32,
        words: &[Word],
        made: &LineResult,
    ) -> Result<(), Refusal>
        ensures { Says (λ _. between_of self.new) result (spec.made_taken
            (setup_of machine.now tools.now) line words.now made.now self.old.plain.items
            (between_of self.old)) }
    {
        match self.run.execute(machine, tools, line, &self.plain) {
            Ok(()) => {}
            Err(refusal) => return Err(refusal),
        }
        self.before.front = made.front;
        match made.cycle {
            None => Ok(()),
            Some(cycle) => self.take_cycle(machine, tools, line, words, &cycle),
        }
    }

    // Executes the plain lines of a line beside a path, or puts them off.
    #[tactic(auto, unfolding(crate::specs::Taken::step_carried))]
    fn take_step(
        &mut self,
        machine: &Machine<A>,
        tools: &Tools<A>,
        numbers: StepLines,
        step: &PathStep,
    ) -> Result<(), Refusal>
        ensures { Says (λ _. between_of self.new) result (spec.step_carried
            (setup_of machine.now tools.now) numbers step.now (written_in self.old.path_lines)
            (between_of self.old)) }
    {
        match execute_step(
            &mut self.run,
            machine,
            tools,
            numbers,
            step,
            &self.path_lines,
            self.waiting.as_slice(),
        ) {
            Ok(()) => {}
            Err(refusal) => return Err(refusal),
        }
        match put_off(
            &mut self.waiting,
            numbers.own,
            step,
            &mut self.path_lines.own,
        ) {
            Ok(()) => {}
            Err(refusal) => return Err(refusal),
        }
        self.before.front = step.front;
        self.path = step.path;
        Ok(())
    }

    // Executes the words of a line where cutter compensation is on, begins or ends.
    #[inline(never)]
    #[tactic(auto, unfolding(crate::specs::Taken::path_taken))]
    fn take_path(
        &mut self,
        machine: &Machine<A>,
        tools: &Tools<A>,
        line: u32,
        words: &[Word],
    ) -> Result<(), Refusal>
        ensures { Says (λ _. between_of self.new) result (spec.path_taken
            (setup_of machine.now tools.now) line words.now (between_of self.old)) }
    {
        let known = self.known();
        let numbers = StepLines {
            held: held_line(&self.path),
            own: line,
        };
        match path_step(&known, tools, line, &self.path, words, &mut self.path_lines) {
            Ok(step) => self.take_step(machine, tools, numbers, &step),
            Err(fault) => Err(Refusal::Because(Cause::Rule(fault))),
        }
    }

    // Executes the plain line of a line of one straight motion.
    #[tactic(auto, unfolding(crate::specs::Taken::made_taken))]
    fn take_straight(
        &mut self,
        machine: &Machine<A>,
        tools: &Tools<A>,
        line: u32,
        made: StraightLine,
    ) -> Result<(), Refusal>
        ensures { Says (λ _. between_of self.new) result (spec.made_taken
            (setup_of machine.now tools.now) line [] (straight_result made (between_of self.old).front)
            self.old.plain.items (between_of self.old)) }
    {
        match self.run.execute(machine, tools, line, &self.plain) {
            Ok(()) => {}
            Err(refusal) => return Err(refusal),
        }
        go_straight(&mut self.before.front, made);
        Ok(())
    }

    // Executes the words of a line of any words where cutter compensation is off.
    #[inline(never)]
    #[tactic(auto, unfolding(crate::specs::Taken::plain_words_taken))]
    fn take_planned_words(
        &mut self,
        machine: &Machine<A>,
        tools: &Tools<A>,
        line: u32,
        words: &[Word],
    ) -> Result<(), Refusal>
        ensures { Says (λ _. between_of self.new) result (spec.plain_words_taken
            (setup_of machine.now tools.now) line words.now (between_of self.old)) }
    {
        let known = self.known();
        match plain_lines(&known, words, &mut self.plain) {
            Ok(made) => {
                if made.compensation.is_some() {
                    self.take_path(machine, tools, line, words)
                } else {
                    self.take_made(machine, tools, line, words, &made)
                }
            }
            Err(fault) => Err(Refusal::Because(Cause::Rule(fault))),
        }
    }

    // Executes the words of a line where cutter compensation is off.
    #[tactic(auto, unfolding(crate::specs::Taken::plain_words_taken))]
    fn take_plain_words(
        &mut self,
        machine: &Machine<A>,
        tools: &Tools<A>,
        line: u32,
        words: &[Word],
    ) -> Result<(), Refusal>
        ensures { Says (λ _. between_of self.new) result (spec.plain_words_taken
            (setup_of machine.now tools.now) line words.now (between_of self.old)) }
    {
        self.before.modes = self.run.interpreter.modes();
        match straight_motion(&self.before, words, &mut self.plain) {
            Ok(Some(made)) => self.take_straight(machine, tools, line, made),
            Ok(None) => self.take_planned_words(machine, tools, line, words),
            Err(fault) => Err(Refusal::Because(Cause::Rule(fault))),
        }
    }

    /// Executes the words of a line.
    #[tactic(auto, unfolding(crate::specs::Taken::words_executed))]
    pub(crate) fn execute_words(
        &mut self,
        machine: &Machine<A>,
        tools: &Tools<A>,
        line: u32,
        words: &[Word],
    ) -> Result<(), Refusal>
        ensures { Says (λ _. between_of self.new) result (spec.words_executed
            (setup_of machine.now tools.now) line words.now (between_of self.old)) }
    {
        if self.path.is_some() {
            self.take_path(machine, tools, line, words)
        } else {
            self.take_plain_words(machine, tools, line, words)
        }
    }

    /// Returns what the rules know before a line, with the programmed point if a path is beside it.
    pub(crate) fn programmed(&self) -> Known
        ensures { result ≡ programmed_of (spec.known_of (between_of self.now)) (between_of self.now).path }
    {
        programmed(&self.known(), &self.path)
    }

    // Notes a line by what its words are read by.
    #[inline(never)]
    fn note_read(&mut self, line: u32, words: &[Word])
        ensures { between_of self.new ≡ spec.words_noted line words.now (between_of self.old) }
    {
        let known = self.programmed();
        if let Some(notes) = &mut self.notes {
            notes.add(line, &known, words);
        }
    }

    // Notes a line by what its words are read by, where notes are wanted. Where they aren't, a line pays
    // for this test alone, and not for a call.
    #[inline(always)]
    fn note_words(&mut self, line: u32, words: &[Word])
        ensures { between_of self.new ≡ spec.words_noted line words.now (between_of self.old) }
    {
        if self.notes.is_some() {
            self.note_read(line, words);
        }
    }

    /// Notes what a line says besides words, where notes are wanted.
    pub(crate) fn note_statements(&mut self, line: u32, statements: &[Statement])
        ensures { between_of self.new ≡ spec.with_notes (statements_noted line statements.now)
            (between_of self.old) }
    {
        if let Some(notes) = &mut self.notes {
            notes.add_statements(line, statements);
        }
    }

    /// Notes a kind that occurred in a line.
    pub(crate) fn note(&mut self, line: u32, kind: Kind)
        ensures { between_of self.new ≡ spec.with_notes (counted line kind)
            (between_of self.old) }
    {
        if let Some(notes) = &mut self.notes {
            notes.count(line, kind);
        }
    }

    /// Executes the words of a line with this number, as their plain lines and the moves of their
    /// canned cycle, after it is noted. While cutter compensation holds a move back, plain lines wait
    /// with it. A fault is the first one of the rules or of a plain line; nothing is then stated of
    /// what is known.
    #[inline(always)]
    pub fn take_words(
        &mut self,
        machine: &Machine<A>,
        tools: &Tools<A>,
        line: u32,
        words: &[Word],
    ) -> Result<(), Refusal>
        ensures { Says (λ _. between_of self.new) result (spec.words_taken
            (setup_of machine.now tools.now) line words.now (between_of self.old)) }
    {
        self.note_words(line, words);
        self.execute_words(machine, tools, line, words)
    }

    /// Mounts a tool in the first line, before anything else, as by T and M6. A fault is that of a
    /// plain line; nothing is then stated of what is known.
    pub(crate) fn mount(
        &mut self,
        machine: &Machine<A>,
        tools: &Tools<A>,
        number: Option<u32>,
    ) -> Result<(), Refusal>
        requires { IfSome number (λ n. n ≤ 9999) }
        ensures { Says (λ _. between_of self.new) result (mounted
            (setup_of machine.now tools.now) number (between_of self.old)) }
    {
        let Some(number) = number else {
            return Ok(());
        };
        self.note(1, Kind::FirstTool);
        self.plain.clear();
        self.plain.push(Plain::Word(tool_word(number)));
        self.plain.push(Plain::Word(change_word()));
        self.plain.push(Plain::End);
        self.take_plain(machine, tools, 1)
    }

    // Executes M2.
    fn take_end(&mut self, machine: &Machine<A>, tools: &Tools<A>, line: u32) -> Result<(), Refusal>
        ensures { Says (λ _. between_of self.new) result (spec.plain_taken
            (setup_of machine.now tools.now) line END (between_of self.old)) }
    {
        self.plain.clear();
        self.plain.push(Plain::Word(end_word()));
        self.plain.push(Plain::End);
        self.take_plain(machine, tools, line)
    }

    // Executes the held move, if there is one, and what waits for it.
    #[tactic(auto, unfolding(crate::specs::Taken::path_ended))]
    fn take_path_end(&mut self, machine: &Machine<A>, tools: &Tools<A>) -> Result<(), Refusal>
        ensures { Says (λ _. between_of self.new) result (spec.path_ended
            (setup_of machine.now tools.now) (between_of self.old)) }
    {
        let known = self.known();
        let held = held_line(&self.path);
        match path_end(&known, &self.path, &mut self.path_lines) {
            Ok(false) => Ok(()),
            Ok(true) => release(
                &mut self.run,
                machine,
                tools,
                held,
                &self.path_lines.made,
                self.waiting.as_slice(),
            ),
            Err(fault) => Err(Refusal::Because(Cause::Rule(fault))),
        }
    }

    // Notes that a program ends after its last line, unless it has ended.
    fn note_end(&mut self, line: u32)
        ensures { between_of self.new ≡ spec.end_noted line (between_of self.old) }
    {
        if !self.is_ended() {
            self.note(line, Kind::ProgramEnd);
        }
    }

    /// Ends the program after its last line, whose number is `line`, as by M2. A move that cutter
    /// compensation holds back is made first. A fault is that of a held move or of too many commands;
    /// nothing is then stated of what is known.
    #[tactic(auto, unfolding(crate::specs::Taken::ended_at))]
    pub fn end_at(
        &mut self,
        machine: &Machine<A>,
        tools: &Tools<A>,
        line: u32,
    ) -> Result<(), Refusal>
        ensures { Says (λ _. between_of self.new) result (spec.ended_at
            (setup_of machine.now tools.now) line (between_of self.old)) }
    {
        self.note_end(line);
        match self.take_path_end(machine, tools) {
            Ok(()) => self.take_end(machine, tools, line),
            Err(refusal) => Err(refusal),
        }
    }

    /// Returns the commands that were executed so far, and what was collected.
    pub(crate) fn into_collected(self) -> Collected<A>
        ensures commands { result.commands.items ≡ (between_of self).state.commands }
        ensures notes { result.notes ≡ (between_of self).notes }
        ensures lines { kept_in result.lines ≡ (between_of self).kept }
    {
        let WordInterpreter { run, notes, .. } = self;
        let PlainRun {
            interpreter,
            kept,
            ..
        } = run;
        Collected {
            commands: interpreter.into_commands(),
            notes,
            lines: kept,
        }
    }
}
