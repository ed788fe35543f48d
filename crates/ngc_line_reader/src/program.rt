ghost use Rattle.std.specs.Prelude.{ℕ, List, ◌≡◌, ◌<◌, ◌≤◌, IsOk, length, IfOk, IfSome, Some};
ghost use Rattle.std.specs.Prelude.{slice_get, IsTrue, ◌==◌};
ghost use Rattle.std.specs.Option.{option_map};
ghost use Rattle.ngc_text.specs.Failures.{Rises};
ghost use Rattle.ngc_line_reader.specs.ReadLine.{line_read};
ghost use Rattle.ngc_line_reader.specs.ScanLine.{parts_of};
ghost use Rattle.ngc_line_reader.specs.Shown.{ShowsReading};
ghost use Rattle.ngc_line_reader.specs.Words.{pairs_of, SaysNumbers, SaysDeleted};
ghost use Rattle.ngc_line_reader.specs.ProgramText.{program_of, HaveReadings};
ghost use Rattle.ngc_line_reader.specs.ProgramView.{text_in, lines_in, OutcomeIs};
ghost use Rattle.ngc_line_reader.specs.declared.program.fault.ReadFault.TheVariants.{Device};

use crate::line::Line;
use crate::program::stored::StoredLines;
use crate::word::Word;
use ngc_text::Source;
use std::alloc::Allocator;

mod fault;
mod loader;
mod parts;
mod phase;
mod reader;
mod stored;

pub use fault::ReadFault;
pub use reader::ProgramReader;

/// A part program: the lines that are executed.
#[derive(Drop)]
pub struct Program<A: Allocator> {
    lines: StoredLines<A>,
    marked: bool,
}

impl<A: Allocator> Program<A> {
    /// Returns the number of lines: at most 100,000.
    pub fn len(&self) -> usize
        ensures value { result ≡ length (text_in self.now).lines }
        ensures few { result ≤ 100000 }
    {
        self.lines.len()
    }

    /// Returns whether there are no lines.
    pub fn is_empty(&self) -> bool
        ensures { result ≡ (length (text_in self.now).lines == 0) }
    {
        self.lines.len() == 0
    }

    /// Returns whether `%` lines mark the file.
    pub fn is_marked(&self) -> bool
        ensures { result ≡ (text_in self.now).marked }
    {
        self.marked
    }

    /// Returns a line's number in the file, from 1.
    pub fn number(&self, index: usize) -> u32
        requires { index < length (text_in self.now).lines }
        ensures { option_map (λ l. l.number) (slice_get (text_in self.now).lines index)
            ≡ Some result }
    {
        self.lines.number(index)
    }

    /// Returns the bytes of a line, without its line feed. Reading them again returns no fault.
    pub fn bytes(&self, index: usize) -> &[u8]
        requires { index < length (text_in self.now).lines }
        ensures value { option_map (λ l. l.bytes) (slice_get (text_in self.now).lines index)
            ≡ Some result.now }
        ensures read { IsOk (line_read result.now) }
    {
        self.lines.bytes(index)
    }

    /// Returns whether a line begins with `/`, so that block delete skips it.
    pub fn is_deleted(&self, index: usize) -> bool
        requires { index < length (text_in self.now).lines }
        ensures { (bytes : List ℕ) →
            option_map (λ l. l.bytes) (slice_get (text_in self.now).lines index) ≡ Some bytes →
            SaysDeleted bytes result }
    {
        self.lines.is_deleted(index)
    }

    /// Returns the words of a line with their values, if each value is a number and the line sets
    /// no parameter; otherwise `None`.
    pub fn numbers(&self, index: usize) -> Option<&[Word]>
        requires { index < length (text_in self.now).lines }
        ensures { (bytes : List ℕ) →
            option_map (λ l. l.bytes) (slice_get (text_in self.now).lines index) ≡ Some bytes →
            SaysNumbers bytes (option_map (λ ws. pairs_of ws.now) result) }
    {
        self.lines.numbers(index)
    }

    /// Loads the contents of a line into `line`, as `Line::read` finds them in the line's bytes:
    /// whether block delete skips it, its words, its settings, and the symbols of its values. The
    /// columns of its tokens and the number after `N` are then unspecified.
    pub fn load(&self, index: usize, line: &mut Line)
        requires { index < length (text_in self.now).lines }
        ensures { (bytes : List ℕ) →
            option_map (λ l. l.bytes) (slice_get (text_in self.now).lines index) ≡ Some bytes →
            ShowsReading bytes line.new.deleted (parts_of line.new) }
    {
        self.lines.load(index, line)
    }

    #[tactic(auto, using(crate::proofs::LinesInStore::stored_readings))]
    fn new(lines: StoredLines<A>, marked: bool) -> Program<A>
        ensures text { text_in result ≡ record { lines = lines_in lines; marked = marked } }
        ensures readings { HaveReadings (text_in result).lines }
    {
        Program { lines, marked }
    }

    /// Reads the lines of a file up to the end of its text, or returns the first fault. It stops
    /// pulling after the end of the text or after a fault.
    pub fn read<R: Source>(alloc: A, source: &mut R) -> Result<Program<A>, ReadFault>
    where
        A: Copy,
        // If the source's bytes are known, the result is the one that they define, except for lack
        // of memory and a failure of the source.
        ensures text { IfSome (R.remaining source.old)
            (λ bytes. OutcomeIs result (program_of bytes)) }
        // Each line has a reading.
        ensures readings { IfOk result (λ p. HaveReadings (text_in p).lines) }
        // `Device` is returned only if the source failed.
        ensures device { result ≡ Err Device →
            Rises (R.failures source.old) (R.failures source.new) }
    {
        let mut reader = ProgramReader::new(alloc);
        let mut chunk = [0u8; 65_536];
        loop {
            let count = match source.pull(&mut chunk) {
                Ok(count) => count,
                Err(_) => return Err(ReadFault::Device),
            };
            if count == 0 {
                return reader.finish();
            }
            match reader.feed(&chunk[..count]) {
                Ok(()) => {}
                Err(fault) => return Err(fault),
            }
            if reader.has_ended() {
                break;
            }
        }
        reader.finish()
    }
}
