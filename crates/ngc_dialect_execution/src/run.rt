//! Our own interpreter, and the plain lines that it executes.
ghost use Rattle.std.specs.Prelude.{◌≡◌, IfOk, OnOk};
ghost use Rattle.ngc_machine_files.specs.Machine.{file_of};
ghost use Rattle.ngc_canonical.specs.Interpreter.{setup_of};
ghost use Rattle.ngc_canonical.specs.State.{start_state};
ghost use Rattle.ngc_line_reader.specs.Words.{pairs_of};
ghost use Rattle.ngc_dialect_execution.specs.Executed as spec;
ghost use Rattle.ngc_dialect_execution.specs.Executed.{kept_with, line_run, lines_at};
ghost use Rattle.ngc_dialect_execution.specs.Faults.{Says, caused};
ghost use Rattle.ngc_dialect_execution.specs.Taken.{start_kept};
ghost use Rattle.ngc_dialect_execution.specs.Views.{kept_in, run_in};
ghost use Rattle.ngc_dialect_execution.specs.declared.fault.Cause.TheVariants as causes;

use crate::fault::{Cause, Refusal};
use arrayvec::ArrayVec;
use ngc_canonical::{Interpreter, Machine, ProgramFault, Tools, Work};
use ngc_dialect_rules::{Plain, PlainLines};
use ngc_line_reader::Word;
use std::alloc::{AllocError, Allocator};

/// What is collected while a program is executed.
#[derive(Clone, Copy)]
pub struct Wanted {
    /// The notes on what its lines leave out or mean otherwise.
    pub notes: bool,
    /// The plain lines that it becomes.
    pub lines: bool,
}

/// A plain line of our own language that was executed.
#[derive(Drop)]
pub struct KeptLine<A: Allocator> {
    /// The number of the source's line that it was made from.
    pub line: u32,
    pub words: Vec<Word, A>,
}

/// Our own interpreter, and the plain lines that it has executed, where they are kept.
#[derive(Drop)]
pub(crate) struct PlainRun<A: Allocator> {
    alloc: A,
    pub(crate) interpreter: Interpreter<A>,
    pub(crate) kept: Option<Vec<KeptLine<A>, A>>,
    // The words of the plain line that is next.
    words: ArrayVec<Word, 64>,
    work: Work,
}

// Keeps a plain line, where lines are kept.
fn keep<A: Allocator + Copy>(
    alloc: A,
    kept: &mut Option<Vec<KeptLine<A>, A>>,
    line: u32,
    words: &[Word],
) -> Result<(), AllocError>
    ensures { OnOk result (kept_in kept.new
        ≡ kept_with (record { line = line; words = pairs_of words.now }) (kept_in kept.old)) }
{
    let Some(lines) = kept else {
        return Ok(());
    };
    let words = Vec::from_slice(alloc, words)?;
    match lines.push(KeptLine { line, words }) {
        Ok(()) => Ok(()),
        Err(_) => Err(AllocError),
    }
}

// Returns no kept lines yet, where lines are to be kept.
fn none_kept<A: Allocator>(alloc: A, wanted: bool) -> Option<Vec<KeptLine<A>, A>>
    ensures { kept_in result ≡ start_kept wanted }
{
    if wanted { Some(Vec::new(alloc)) } else { None }
}

impl<A: Allocator + Copy> PlainRun<A> {
    /// Returns what is known before the first plain line.
    pub(crate) fn new(
        alloc: A,
        wanted: bool,
        machine: &Machine<A>,
    ) -> Result<PlainRun<A>, AllocError>
        ensures { IfOk result (λ r. run_in r
            ≡ record { state = start_state (file_of machine.now); kept = start_kept wanted }) }
    {
        let Ok(interpreter) = Interpreter::new(alloc, machine) else {
            return Err(AllocError);
        };
        Ok(PlainRun {
            alloc,
            interpreter,
            kept: none_kept(alloc, wanted),
            words: ArrayVec::new(),
            work: Work::new(),
        })
    }

    // Executes the plain line that is next, and keeps it.
    fn execute_line(
        &mut self,
        machine: &Machine<A>,
        tools: &Tools<A>,
        line: u32,
    ) -> Result<(), Refusal>
        ensures { Says (λ _. run_in self.new) result (caused causes.Plain
            (line_run (setup_of machine.now tools.now)
            (record { line = line; words = pairs_of self.old.words.items }) (run_in self.old))) }
    {
        let words = self.words.as_slice();
        match self
            .interpreter
            .take_words(machine, tools, line, words, &mut self.work)
        {
            Ok(()) => {}
            Err(ProgramFault::At { fault, .. }) => {
                return Err(Refusal::Because(Cause::Plain(fault)))
            }
            Err(ProgramFault::Memory) => return Err(Refusal::Memory),
        }
        match keep(self.alloc, &mut self.kept, line, words) {
            Ok(()) => Ok(()),
            Err(_) => Err(Refusal::Memory),
        }
    }

    /// Executes plain lines in order, each with this line number, and keeps those that it executes.
    /// After an end nothing is executed. Returns the first fault of a plain line.
    pub(crate) fn execute(
        &mut self,
        machine: &Machine<A>,
        tools: &Tools<A>,
        line: u32,
        plain: &PlainLines,
    ) -> Result<(), Refusal>
        ensures { Says (λ _. run_in self.new) result (caused causes.Plain
            (spec.run (setup_of machine.now tools.now) (lines_at line plain.now.items)
            (run_in self.old))) }
    {
        self.words.clear();
        for part in plain.as_slice() {
            match part {
                Plain::Word(word) => self.words.push(*word),
                Plain::End => {
                    if self.interpreter.is_ended() {
                        return Ok(());
                    }
                    match self.execute_line(machine, tools, line) {
                        Ok(()) => {}
                        Err(refusal) => return Err(refusal),
                    }
                    self.words.clear();
                }
            }
        }
        Ok(())
    }
}
