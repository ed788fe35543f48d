//! What is noted of a line's words that aren't codes.
ghost use Rattle.std.specs.Prelude.{◌≡◌};
ghost use Rattle.ngc_dialect_rules.specs.Words.{is_other_axis};
ghost use Rattle.ngc_dialect_notes.specs.WordNotes as spec;

use crate::dialect::counts_turns;
use crate::in_force::{plane_on, third_offset};
use crate::kind::Kind;
use crate::motion::is_one_of;
use crate::noted;
use crate::notes::Notes;
use ngc_dialect_names::Dialect;
use ngc_dialect_parameters::Word;
use ngc_dialect_rules::{Code, Known, codes, has, is_fanuc};

// Returns the kind of a letter that may have no use.
#[tactic(auto, unfolding(crate::specs::WordNotes::idle_kind))]
fn idle_kind(letter: u8) -> Option<Kind>
    ensures { result ≡ spec.idle_kind letter }
{
    match letter {
        b'D' => Some(Kind::IdleD),
        b'E' => Some(Kind::IdleE),
        b'H' => Some(Kind::IdleH),
        b'I' => Some(Kind::IdleI),
        b'J' => Some(Kind::IdleJ),
        b'K' => Some(Kind::IdleK),
        b'L' => Some(Kind::IdleL),
        b'P' => Some(Kind::IdleP),
        b'Q' => Some(Kind::IdleQ),
        b'R' => Some(Kind::IdleR),
        _ => None,
    }
}

// Returns the codes that use such a letter.
#[tactic(auto, unfolding(crate::specs::WordNotes::users_of))]
fn users_of(dialect: Dialect, letter: u8) -> &'static [Code]
    ensures { result.now ≡ spec.users_of dialect letter }
{
    match letter {
        b'D' => &codes::D_USERS,
        b'E' => &noted::E_USERS,
        b'H' => &codes::H_USERS,
        b'K' => {
            if is_fanuc(dialect) {
                &noted::ARCS_AND_CYCLES
            } else {
                &codes::ARCS
            }
        }
        b'L' => &codes::L_USERS,
        b'P' => &noted::P_USERS,
        b'Q' => &noted::Q_USERS,
        b'R' => &noted::ARCS_AND_CYCLES,
        _ => &codes::ARCS,
    }
}

// Returns whether the line has a code of a table, or makes a motion by one.
fn is_on(table: &[Code], line: &[Code], motion: Option<Code>) -> bool
    ensures { result ≡ spec.is_on table.now line.now motion }
{
    has(table, line) || is_one_of(table, motion)
}

fn is_used(dialect: Dialect, line: &[Code], motion: Option<Code>, letter: u8) -> bool
    ensures { result ≡ spec.is_used dialect line.now motion letter }
{
    let users = users_of(dialect, letter);
    is_on(users, line, motion)
        || letter == b'P' && counts_turns(dialect) && is_on(&codes::ARCS, line, motion)
}

fn names_offset(letter: u8) -> bool
    ensures { result ≡ spec.names_offset letter }
{
    letter == b'D' || letter == b'H'
}

fn idle_as(word: &Word, kind: Kind) -> Kind
    ensures { result ≡ spec.idle_as word.now kind }
{
    if word.value.trillionths() == 0 && !names_offset(word.letter) {
        Kind::IdleZero
    } else {
        kind
    }
}

// Returns whether a letter is an offset along the third axis of an arc.
fn is_third(known: &Known, line: &[Code], motion: Option<Code>, letter: u8) -> bool
    ensures { result ≡ spec.is_third known.now line.now motion letter }
{
    is_one_of(&codes::ARCS, motion) && letter == third_offset(plane_on(known.modes.plane, line))
}

fn idle_by(
    known: &Known,
    line: &[Code],
    motion: Option<Code>,
    word: &Word,
    kind: Kind,
) -> Option<Kind>
    ensures { result ≡ spec.idle_by known.now line.now motion word.now kind }
{
    if !is_used(known.dialect, line, motion, word.letter) {
        Some(idle_as(word, kind))
    } else if is_third(known, line, motion, word.letter) {
        Some(idle_as(word, Kind::ThirdOffset))
    } else {
        None
    }
}

fn idle(known: &Known, line: &[Code], motion: Option<Code>, word: &Word) -> Option<Kind>
    ensures { result
        ≡ spec.idle known.now line.now motion word.now (spec.idle_kind word.now.letter) }
{
    match idle_kind(word.letter) {
        None => None,
        Some(kind) => idle_by(known, line, motion, word, kind),
    }
}

#[tactic(auto, unfolding(crate::specs::WordNotes::is_size))]
fn is_size(motion: Option<Code>, letter: u8) -> bool
    ensures { result ≡ spec.is_size motion letter }
{
    letter == b'U'
        || letter == b'X'
        || letter == b'Y'
        || letter == b'Z'
        || letter == b'I'
        || letter == b'J'
        || letter == b'R'
        || (letter == b'K' && is_one_of(&codes::ARCS, motion))
        || (letter == b'Q' && is_one_of(&codes::CYCLES, motion))
}

fn lacks_point(dialect: Dialect, motion: Option<Code>, word: &Word) -> bool
    ensures { result ≡ spec.lacks_point dialect motion word.now }
{
    is_fanuc(dialect)
        && !word.point
        && word.value.trillionths() != 0
        && is_size(motion, word.letter)
}

fn without_point(dialect: Dialect, motion: Option<Code>, word: &Word) -> Option<Kind>
    ensures { result ≡ spec.without_point dialect motion word.now }
{
    if lacks_point(dialect, motion, word) {
        Some(Kind::NoPoint)
    } else {
        None
    }
}

fn is_second_axis(letter: u8) -> bool
    ensures { result ≡ spec.is_second_axis letter }
{
    letter == b'U' || letter == b'V' || letter == b'W'
}

fn is_other_axis(letter: u8) -> bool
    ensures { result ≡ is_other_axis letter }
{
    letter == b'A' || letter == b'B' || letter == b'C' || is_second_axis(letter)
}

fn is_taken(dialect: Dialect, line: &[Code], letter: u8) -> bool
    ensures { result ≡ spec.is_taken dialect line.now letter }
{
    is_fanuc(dialect)
        && is_second_axis(letter)
        && (has(&codes::DWELL, line) || has(&codes::HOMES, line))
}

fn is_idle_axis(dialect: Dialect, line: &[Code], letter: u8) -> bool
    ensures { result ≡ spec.is_idle_axis dialect line.now letter }
{
    is_other_axis(letter) && !is_taken(dialect, line, letter)
}

// Returns what is noted of a word.
#[tactic(auto, unfolding(crate::specs::WordNotes::kind_of))]
fn kind_of(known: &Known, line: &[Code], motion: Option<Code>, word: &Word) -> Option<Kind>
    ensures { result ≡ spec.kind_of known.now line.now motion word.now }
{
    if is_idle_axis(known.dialect, line, word.letter) {
        return Some(Kind::IdleAxis);
    }
    match idle(known, line, motion, word) {
        Some(kind) => Some(kind),
        None => without_point(known.dialect, motion, word),
    }
}

impl Notes {
    fn add_kind(&mut self, line: u32, kind: Option<Kind>)
        ensures { self.new ≡ spec.with_kind line kind self.old }
    {
        if let Some(kind) = kind {
            self.count(line, kind);
        }
    }

    pub(crate) fn add_words(
        &mut self,
        line: u32,
        known: &Known,
        codes: &[Code],
        motion: Option<Code>,
        words: &[Word],
    )
        ensures { self.new
            ≡ spec.words_noted line known.now codes.now motion words.now self.old }
    {
        for word in words {
            self.add_kind(line, kind_of(known, codes, motion, word));
        }
    }
}
