ghost use Rattle.std.specs.Prelude.{◌≡◌, ◌==◌, ◌+◌, ℕ, List, [], ◌∷◌, ◌++◌, IfOk, OnOk, length, map};
ghost use Rattle.std.specs.Prelude.{option_map, slice_get};
ghost use Rattle.ngc_dialect_flow.specs.Marks.{Line, line_in};
ghost use Rattle.ngc_dialect_flow.specs.Places as spec;
ghost use Rattle.ngc_dialect_flow.specs.Places.{place_of, rows_of};

use crate::key::{Key, key_with};
use crate::mark::{LineKind, Mark, number_label, read_mark};
use crate::search::{Search, also_found_by, branch_of, end_of, found_by};
use ngc_dialect_names::Dialect;
use ngc_dialect_reader::DialectLine;
use std::alloc::{AllocError, Allocator};
use std::collections::BTreeMap;

/// Where the first line is that a search finds, and whether it finds another one.
#[derive(Clone, Copy)]
pub(crate) struct Place {
    pub(crate) line: usize,
    pub(crate) again: bool,
}

/// What the flow needs to know of a line.
#[derive(Clone, Copy)]
pub(crate) struct Row {
    pub(crate) kind: LineKind,
    /// The line that is next if the condition of IF or ELSEIF doesn't hold.
    pub(crate) branch: Option<usize>,
    /// The line at which the block ends.
    pub(crate) end: Option<usize>,
}

/// The lines of a program that the flow may go to. Lines count from 0.
#[derive(Drop)]
pub struct Table<A: Allocator> {
    pub(crate) dialect: Dialect,
    pub(crate) places: BTreeMap<Vec<u8, A>, Place, A>,
    pub(crate) rows: Vec<Row, A>,
}

impl<A: Allocator + Copy> Table<A> {
    /// Returns the place that a search finds.
    pub(crate) fn place(&self, key: &[u8]) -> Option<Place>
        ensures { result ≡ place_of self.now key.now }
    {
        self.places.get(key).copied()
    }

    fn target(&self, key: Option<Key>) -> Option<usize>
        ensures { (ls : List Line) (n : ℕ) → ((q : List ℕ) → place_of self.now q ≡ spec.place_in ls n q)
            → result ≡ spec.target (option_map (λ k. k.items) key) ls n }
    {
        let key = key?;
        match self.place(key.as_slice()) {
            Some(place) => Some(place.line),
            None => None,
        }
    }

    // Adds a key of a line that is before all lines so far.
    fn add_place(&mut self, alloc: A, line: usize, key: Option<Key>) -> Result<(), AllocError>
        ensures places { OnOk result ((q : List ℕ) → place_of self.new q
            ≡ spec.placed line (option_map (λ k. k.items) key) q (place_of self.old q)) }
        ensures rows { rows_of self.new ≡ rows_of self.old }
        ensures dialect { spec.dialect_of self.new ≡ spec.dialect_of self.old }
    {
        let Some(key) = key else {
            return Ok(());
        };
        let again = self.place(key.as_slice()).is_some();
        let Ok(bytes) = Vec::from_slice(alloc, key.as_slice()) else {
            return Err(AllocError);
        };
        match self.places.insert(bytes, Place { line, again }) {
            Ok(_) => Ok(()),
            Err(_) => Err(AllocError),
        }
    }

    // Adds a line that is before all lines so far.
    fn add_line(
        &mut self,
        alloc: A,
        line: &DialectLine,
        mark: Mark,
        index: usize,
    ) -> Result<(), AllocError>
        ensures places { OnOk result ((q : List ℕ) → place_of self.new q
            ≡ spec.placed_by (record { mark = mark; text = line.now.text.items }) index q
            (place_of self.old q)) }
        ensures rows { OnOk result ((ls : List Line) (n : ℕ)
            → ((q : List ℕ) → place_of self.old q ≡ spec.place_in ls n q)
            → rows_of self.new ≡ rows_of self.old
            ++ (spec.row_of (record { mark = mark; text = line.now.text.items }) ls n ∷ [])) }
        ensures dialect { spec.dialect_of self.new ≡ spec.dialect_of self.old }
    {
        let kind = mark.kind;
        let branch = self.target(key_with(line, branch_of(kind), mark.label));
        let end = self.target(key_with(line, end_of(kind), mark.label));
        if self.rows.push(Row { kind, branch, end }).is_err() {
            return Err(AllocError);
        }
        let number = number_label(mark.number);
        self.add_place(
            alloc,
            index,
            key_with(line, Some(Search::LineNumber), number),
        )?;
        self.add_place(
            alloc,
            index,
            key_with(line, also_found_by(kind), mark.label),
        )?;
        self.add_place(alloc, index, key_with(line, found_by(kind), mark.label))
    }

    // Reads a line that is before all lines so far, and adds it.
    fn read_line(
        &mut self,
        alloc: A,
        bytes: &[u8],
        line: &mut DialectLine,
        index: usize,
    ) -> Result<(), AllocError>
        ensures covers { OnOk result ((ls : List Line) → spec.Covers self.old ls (index + 1)
            → spec.Covers self.new (line_in (spec.dialect_of self.old) bytes.now ∷ ls) index) }
        ensures dialect { spec.dialect_of self.new ≡ spec.dialect_of self.old }
    {
        let mark = read_mark(self.dialect, bytes, line);
        self.add_line(alloc, line, mark, index)
    }

    /// Returns the table of a program's lines, without their line feeds, in one pass over them. The
    /// only error is refused memory.
    pub fn new(alloc: A, dialect: Dialect, lines: &[&[u8]]) -> Result<Table<A>, AllocError>
        ensures { IfOk result (λ t. spec.plan_of t ≡ spec.plan_in dialect (map (λ l. l.now) lines.now)) }
    {
        let mut table = Table {
            dialect,
            places: BTreeMap::new(alloc),
            rows: Vec::new(alloc),
        };
        let mut line = DialectLine::empty();
        let mut index = lines.len();
        while index > 0 {
            index -= 1;
            match table.read_line(alloc, lines[index], &mut line, index) {
                Ok(()) => {}
                Err(refused) => return Err(refused),
            }
        }
        table.rows.reverse();
        Ok(table)
    }

    /// Returns the number of lines.
    pub fn len(&self) -> usize
        ensures { result ≡ length (rows_of self.now) }
    {
        self.rows.len()
    }

    /// Returns whether there are no lines.
    pub fn is_empty(&self) -> bool
        ensures { result ≡ (length (rows_of self.now) == 0) }
    {
        self.rows.is_empty()
    }

    pub(crate) fn row(&self, line: usize) -> Option<Row>
        ensures { result ≡ slice_get (rows_of self.now) line }
    {
        self.rows.get(line).copied()
    }
}
