ghost use Rattle.std.specs.Prelude.{ℕ, List, ◌≡◌, ◌++◌, ◌∷◌, [], ◌<◌, ◌≤◌, length, slice_get};
ghost use Rattle.std.specs.Prelude.{slice_range, vec_len, Some, Ok, IsOk, IfOk, OnOk, IsTrue};
ghost use Rattle.std.specs.Option.{option_map};
ghost use Rattle.std.proofs.Props.{props};
ghost use Rattle.ngc_line_reader.specs.Stored.{is_stored, line_of, lines_from, start_from};
ghost use Rattle.ngc_line_reader.specs.ReadLine.{line_read};
ghost use Rattle.ngc_line_reader.specs.ScanLine.{parts_of, parsed_line_of};
ghost use Rattle.ngc_line_reader.specs.Kept.{parts_in, parts_at, stored_contents, LiesWithin, AreWithin};
ghost use Rattle.ngc_line_reader.specs.Kept.{AreKept};
ghost use Rattle.ngc_line_reader.specs.Words.{pairs_of, SaysNumbers, SaysDeleted};
ghost use Rattle.ngc_line_reader.specs.Shown.{ShowsReading};

use crate::line::Line;
use crate::program::parts::{Kept, LineParts, PartLists};
use crate::word::Word;
use std::alloc::{AllocError, Allocator};

/// The number of a line, the end of its bytes, and the position of its contents.
#[derive(Clone, Copy)]
pub struct LineEnd {
    pub number: u32,
    pub end: u32,
    pub parts: LineParts,
}

/// Lines that were read without a fault, in order.
#[derive(Drop)]
pub struct StoredLines<A: Allocator> {
    bytes: Vec<u8, A>,
    parts: PartLists<A>,
    ends: Vec<LineEnd, A>,
    ghost few: { vec_len ends ≤ 100000 },
    ghost stored: { IsTrue (is_stored bytes.items ends.items) },
    ghost within: { AreWithin (parts_in parts) ends.items } by { Prim.hlevel props },
    ghost kept: { AreKept (parts_in parts) (lines_from bytes.items 0 ends.items) ends.items },
}

impl<A: Allocator> StoredLines<A> {
    ghost use Rattle.ngc_line_reader.specs.ProgramView.{lines_in};

    pub(crate) fn new(alloc: A) -> StoredLines<A>
    where
        A: Copy,
        ensures { lines_in result ≡ [] }
    {
        StoredLines {
            bytes: Vec::new(alloc),
            parts: PartLists::new(alloc),
            ends: Vec::new(alloc),
        }
    }

    #[tactic(auto, using(crate::proofs::LinesInStore::counting_lines))]
    pub(crate) fn len(&self) -> usize
        ensures value { result ≡ length (lines_in self.now) }
        ensures few { result ≤ 100000 }
    {
        self.ends.len()
    }

    #[tactic(auto, using(crate::proofs::LinesInStore::counting_lines))]
    pub(crate) fn number(&self, index: usize) -> u32
        requires { index < length (lines_in self.now) }
        ensures { option_map (λ l. l.number) (slice_get (lines_in self.now) index) ≡ Some result }
    {
        self.ends[index].number
    }

    // Returns the start of a line's bytes.
    #[tactic(auto, using(crate::proofs::LinesInStore::counting_lines, crate::proofs::LinesInStore::start_first))]
    fn start(&self, index: usize) -> usize
        requires { index < length (lines_in self.now) }
        ensures { result ≡ start_from 0 self.now.ends.items index }
    {
        match index.checked_sub(1) {
            Some(before) => self.ends[before].end as usize,
            None => 0,
        }
    }

    // Returns the start and the end of a line's bytes.
    #[tactic(auto, using(crate::proofs::LinesInStore::counting_lines))]
    fn bounds(&self, index: usize) -> (usize, usize)
        requires { index < length (lines_in self.now) }
        ensures order { result.0 ≤ result.1 }
        ensures within { result.1 ≤ vec_len self.now.bytes }
        ensures value { option_map (λ l. l.bytes) (slice_get (lines_in self.now) index)
            ≡ Some (slice_range self.now.bytes.items result.0 result.1) }
        ensures read { IsOk (line_read (slice_range self.now.bytes.items result.0 result.1)) }
    {
        (self.start(index), self.ends[index].end as usize)
    }

    pub(crate) fn bytes(&self, index: usize) -> &[u8]
        requires { index < length (lines_in self.now) }
        ensures value { option_map (λ l. l.bytes) (slice_get (lines_in self.now) index)
            ≡ Some result.now }
        ensures read { IsOk (line_read result.now) }
    {
        let (start, end) = self.bounds(index);
        &self.bytes[start..end]
    }

    // Returns whether block delete skips a line.
    #[tactic(auto, using(crate::proofs::LinesInStore::counting_lines))]
    pub(crate) fn is_deleted(&self, index: usize) -> bool
        requires { index < length (lines_in self.now) }
        ensures { (bytes : List ℕ) → option_map (λ l. l.bytes) (slice_get (lines_in self.now) index)
            ≡ Some bytes → SaysDeleted bytes result }
    {
        self.ends[index].parts.deleted
    }

    // Returns the words of a line, if their values are numbers and it sets no parameter.
    #[tactic(auto, using(crate::proofs::LinesInStore::counting_lines))]
    pub(crate) fn numbers(&self, index: usize) -> Option<&[Word]>
        requires { index < length (lines_in self.now) }
        ensures { (bytes : List ℕ) → option_map (λ l. l.bytes) (slice_get (lines_in self.now) index)
            ≡ Some bytes → SaysNumbers bytes (option_map (λ ws. pairs_of ws.now) result) }
    {
        match self.ends[index].parts.kept {
            Kept::Numbers { first, count } => Some(self.parts.numbered(first, count)),
            Kept::Symbols(_) => None,
        }
    }

    // Loads the contents of a line into `line`.
    #[tactic(auto, using(crate::proofs::LinesInStore::counting_lines))]
    pub(crate) fn load(&self, index: usize, line: &mut Line)
        requires { index < length (lines_in self.now) }
        ensures { (bytes : List ℕ) → option_map (λ l. l.bytes) (slice_get (lines_in self.now) index)
            ≡ Some bytes → ShowsReading bytes line.new.deleted (parts_of line.new) }
    {
        let LineParts { deleted, kept } = self.ends[index].parts;
        match kept {
            Kept::Numbers { .. } => {
                // The bytes have the same contents as before.
                let _ = line.read(self.bytes(index));
            }
            Kept::Symbols(parts) => {
                self.parts.load(parts, line);
                line.deleted = deleted;
            }
        }
    }

    // Stores the contents of a line. If there is no memory, it returns a fault and all lines are
    // lost.
    fn keep(&mut self, reading: &Line) -> Result<LineParts, AllocError>
        ensures bytes { OnOk result (self.new.bytes ≡ self.old.bytes) }
        ensures ends { OnOk result (self.new.ends ≡ self.old.ends) }
        ensures within { IfOk result (λ p. LiesWithin (parts_in self.new.parts) p.kept) }
        ensures value { IfOk result
            (λ p. parts_at (parts_in self.new.parts) p.kept ≡ stored_contents (parts_of reading.now)) }
        ensures deleted { IfOk result (λ p. p.deleted ≡ reading.now.deleted) }
    {
        match self.parts.push(reading) {
            Ok(kept) => Ok(LineParts {
                deleted: reading.deleted,
                kept,
            }),
            Err(_) => {
                self.bytes.clear();
                self.ends.clear();
                Err(AllocError)
            }
        }
    }

    // Stores a line and its contents. If there is no memory, the remaining state is unspecified.
    pub(crate) fn push(
        &mut self,
        number: u32,
        bytes: &[u8],
        reading: &Line,
    ) -> Result<(), AllocError>
        requires few { length (lines_in self.old) < 100000 }
        requires short { length bytes.now ≤ 256 }
        requires read { line_read bytes.now ≡ Ok (parsed_line_of reading.now) }
        ensures pushed { OnOk result
            (lines_in self.new ≡ lines_in self.old ++ (line_of number bytes.now ∷ [])) }
    {
        let start = self.bytes.len();
        let parts = self.keep(reading)?;
        self.bytes.extend_from_slice(bytes)?;
        let end = self.bytes.len() as u32;
        match self.ends.push(LineEnd { number, end, parts }) {
            Ok(()) => Ok(()),
            Err(_) => {
                self.bytes.truncate(start);
                Err(AllocError)
            }
        }
    }
}
