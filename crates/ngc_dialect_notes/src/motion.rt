//! The motion that a line makes.
ghost use Rattle.std.specs.Prelude.{◌≡◌, ◌||◌};
ghost use Rattle.ngc_dialect_rules.specs.declared.codes.TheConstants as codes;
ghost use Rattle.ngc_dialect_rules.specs.Moves as moves;
ghost use Rattle.ngc_dialect_rules.specs.Tables.{has};
ghost use Rattle.ngc_dialect_notes.specs.Motions as spec;

use ngc_dialect_names::Dialect;
use ngc_dialect_parameters::Word;
use ngc_dialect_rules::{Code, Known, code_in, codes, has, has_letter, is_among, is_fanuc};

pub(crate) fn is_one_of(table: &[Code], code: Option<Code>) -> bool
    ensures { result ≡ moves.is_one_of table.now code }
{
    match code {
        None => false,
        Some(code) => is_among(table, code),
    }
}

pub(crate) fn dwells_by_axis(dialect: Dialect, line: &[Code], words: &[Word]) -> bool
    ensures { result ≡ moves.dwells_by_axis dialect line.now words.now }
{
    is_fanuc(dialect)
        && has(&codes::DWELL, line)
        && (has_letter(b'X', words) || has_letter(b'U', words))
}

/// Returns whether a line has axis words that aren't a dwell's.
#[tactic(auto, unfolding(ngc_dialect_rules::specs::Moves::has_axes))]
pub(crate) fn has_axes(dialect: Dialect, line: &[Code], words: &[Word]) -> bool
    ensures { result ≡ moves.has_axes dialect line.now words.now }
{
    !dwells_by_axis(dialect, line, words)
        && (has_letter(b'X', words) || has_letter(b'Y', words) || has_letter(b'Z', words))
}

pub(crate) fn has_offsets(words: &[Word]) -> bool
    ensures { result ≡ moves.has_offsets words.now }
{
    has_letter(b'I', words) || has_letter(b'J', words) || has_letter(b'K', words)
}

fn has_arc_words(code: Code, words: &[Word]) -> bool
    ensures { result ≡ moves.has_arc_words code words.now }
{
    is_among(&codes::ARCS, code) && (has_offsets(words) || has_letter(b'R', words))
}

#[tactic(auto, unfolding(ngc_dialect_rules::specs::Moves::goes_on))]
fn goes_on(known: &Known, line: &[Code], words: &[Word]) -> bool
    ensures { result ≡ moves.goes_on known.now line.now words.now }
{
    is_one_of(&codes::ARCS, known.front.motion)
        && has_offsets(words)
        && !has(&codes::MOTION_END, line)
        && !has(&codes::TAKE_AXES, line)
}

fn takes_axes(line: &[Code]) -> bool
    ensures { result ≡ (has codes.TAKE_AXES line.now || has codes.WORD_LENGTH line.now) }
{
    has(&codes::TAKE_AXES, line) || has(&codes::WORD_LENGTH, line)
}

// Returns the motion by the mode, where there are words for it.
fn moved_by_mode(known: &Known, line: &[Code], words: &[Word], axes: bool) -> Option<Code>
    ensures { result
        ≡ spec.accepted (moves.moved_without_code known.now line.now words.now axes) }
{
    if !axes || takes_axes(line) || has(&codes::MOTION_END, line) {
        return None;
    }
    known.front.motion
}

/// Returns the code of the motion that a line makes, if it makes one.
#[tactic(auto, unfolding(ngc_dialect_rules::specs::Moves::motion_of))]
pub(crate) fn motion_on(known: &Known, line: &[Code], words: &[Word]) -> Option<Code>
    ensures { result ≡ spec.motion_on known.now line.now words.now }
{
    let axes = has_axes(known.dialect, line, words);
    match code_in(&codes::MOTIONS, line) {
        None => moved_by_mode(known, line, words, axes || goes_on(known, line, words)),
        Some(code) => {
            if (axes || has_arc_words(code, words)) && !takes_axes(line) {
                Some(code)
            } else {
                None
            }
        }
    }
}
