//! Notes that are collected while a program is executed.
ghost use Rattle.std.specs.Prelude.{◌≡◌};
ghost use Rattle.ngc_dialect_notes.specs.Noted.{noted, noted_by, statements_noted};
ghost use Rattle.ngc_dialect_notes.specs.Notes as spec;

use crate::kind::Kind;
use crate::motion::motion_on;
use arrayvec::ArrayVec;
use ngc_dialect_parameters::{Statement, Word};
use ngc_dialect_rules::{Code, Known, add_codes, codes, has};

/// The number of kinds.
pub const KIND_COUNT: usize = 52;

/// A kind that occurred.
#[derive(Clone, Copy)]
pub struct Note {
    pub kind: Kind,
    /// The number of the source's line that was executed first with it.
    pub line: u32,
    /// How often it occurred, at least 1. It stays at 4,294,967,295.
    pub count: u32,
}

/// What a program has said so far.
#[derive(Clone, Copy)]
pub struct Said {
    /// A motion code.
    pub motion: bool,
    /// G98 or G99.
    pub retract: bool,
    /// G90.1 or G91.1.
    pub centres: bool,
}

/// The notes on a program. They need no memory besides.
#[derive(Clone, Copy)]
pub struct Notes {
    /// One for each kind that occurred, in the order in which they occurred first, and then `None`.
    pub places: [Option<Note>; KIND_COUNT],
    pub said: Said,
}

fn is_of(kind: Kind, note: &Note) -> bool
    ensures { result ≡ spec.is_of kind note.now }
{
    note.kind.number() == kind.number()
}

fn first_note(line: u32, kind: Kind) -> Note
    ensures { result ≡ spec.first_note line kind }
{
    Note {
        kind,
        line,
        count: 1,
    }
}

fn again(note: &Note) -> Note
    ensures { result ≡ spec.again note.now }
{
    Note {
        kind: note.kind,
        line: note.line,
        count: note.count.saturating_add(1),
    }
}

fn count_in(places: &mut [Option<Note>; KIND_COUNT], line: u32, kind: Kind)
    ensures { places.new ≡ spec.counted_in line kind places.old }
{
    for i in 0..KIND_COUNT {
        match places[i] {
            None => {
                places[i] = Some(first_note(line, kind));
                return;
            }
            Some(note) => {
                if is_of(kind, &note) {
                    places[i] = Some(again(&note));
                    return;
                }
            }
        }
    }
}

fn said_with(line: &[Code], said: Said) -> Said
    ensures { result ≡ spec.said_with line.now said }
{
    Said {
        motion: said.motion || has(&codes::MOTIONS, line),
        retract: said.retract || has(&codes::RETRACTS, line),
        centres: said.centres || has(&codes::CENTRES, line),
    }
}

impl Notes {
    /// Returns the notes before the first line.
    pub fn none() -> Notes
        ensures { result ≡ spec.no_notes }
    {
        Notes {
            places: [None; KIND_COUNT],
            said: Said {
                motion: false,
                retract: false,
                centres: false,
            },
        }
    }

    /// Counts a kind that occurred in a line, by the line's number.
    pub fn count(&mut self, line: u32, kind: Kind)
        ensures { self.new ≡ spec.counted line kind self.old }
    {
        count_in(&mut self.places, line, kind);
    }

    pub(crate) fn note_if(&mut self, holds: bool, line: u32, kind: Kind)
        ensures { self.new ≡ spec.note_if holds line kind self.old }
    {
        if holds {
            self.count(line, kind);
        }
    }

    fn hear(&mut self, codes: &[Code])
        ensures { self.new ≡ spec.hearing codes.now self.old }
    {
        self.said = said_with(codes, self.said);
    }

    fn add_by(
        &mut self,
        line: u32,
        known: &Known,
        codes: &[Code],
        motion: Option<Code>,
        words: &[Word],
    )
        ensures { self.new ≡ noted_by line known.now codes.now motion words.now self.old }
    {
        self.hear(codes);
        self.add_codes(line, known, codes, words);
        self.add_words(line, known, codes, motion, words);
        self.add_motion(line, known, codes, words, motion);
    }

    /// Adds the notes on a line that the rules accept, by its number, what is known before it, and
    /// its words. If the rules refuse a code of it, there are none.
    #[tactic(auto, unfolding(crate::specs::Noted::noted))]
    pub fn add(&mut self, line: u32, known: &Known, words: &[Word])
        ensures { self.new ≡ noted line known.now words.now self.old }
    {
        let mut codes: ArrayVec<Code, 24> = ArrayVec::new();
        if add_codes(known.dialect, words, &mut codes).is_ok() {
            let motion = motion_on(known, codes.as_slice(), words);
            self.add_by(line, known, codes.as_slice(), motion, words);
        }
    }

    /// Adds the notes on what a line says besides words: `$H`, and levels of block delete.
    pub fn add_statements(&mut self, line: u32, statements: &[Statement])
        ensures { self.new ≡ statements_noted line statements.now self.old }
    {
        for statement in statements {
            match statement {
                Statement::Home => self.count(line, Kind::Homing),
                Statement::Delete(level) => self.note_if(*level > 1, line, Kind::DeleteLevel),
                _ => {}
            }
        }
    }
}
