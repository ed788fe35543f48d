//! The words of a line: letters, codes and values.
ghost use Rattle.std.specs.Prelude.{◌≡◌};
ghost use Rattle.std.specs.List.{list_any};
ghost use Rattle.ngc_dialect_rules.specs.Words as spec;
ghost use Rattle.ngc_line_reader.specs.Scan.{Gives};

use crate::code::Code;
use crate::codes;
use crate::fault::{Cause, Fault, LeftOut, about_letter};
use crate::table::{has, is_fanuc, join, known_code};
use arrayvec::ArrayVec;
use ngc_dialect_names::Dialect;
use ngc_dialect_numbers::Number;
use ngc_dialect_parameters::Word;
use ngc_fixed_length::Value;

// Returns a value as a number of tenths, if it is within 0.0001 of one that a code may have.
#[tactic(auto, unfolding(crate::specs::Words::tenths))]
fn tenths(value: Number) -> Option<u16>
    ensures { result ≡ spec.tenths value }
{
    let trillionths = value.trillionths();
    if trillionths < 0 {
        return None;
    }
    let added = trillionths.unsigned_abs() + 100_000_000;
    let tenths = added / 100_000_000_000;
    if added % 100_000_000_000 <= 200_000_000 && tenths < 10_000 {
        Some(tenths as u16)
    } else {
        None
    }
}

fn is_code_letter(letter: u8) -> bool
    ensures { result ≡ spec.is_code_letter letter }
{
    letter == b'G' || letter == b'M'
}

fn code_at(letter: u8, tenths: Option<u16>) -> Option<Code>
    ensures { result ≡ spec.code_at letter tenths }
{
    match tenths {
        None => None,
        Some(tenths) => {
            if letter == b'G' {
                Some(Code::G(tenths))
            } else if tenths % 10 == 0 {
                Some(Code::M(tenths / 10))
            } else {
                None
            }
        }
    }
}

// Returns the code of a G or M word, or why it is refused.
fn code_of(dialect: Dialect, word: &Word) -> Result<Code, Fault>
    ensures { result ≡ spec.known_or dialect word.now.letter
        (spec.code_at word.now.letter (spec.tenths word.now.value)) }
{
    match code_at(word.letter, tenths(word.value)) {
        Some(code) => known_code(dialect, code),
        None => Err(about_letter(Cause::UnknownCode, word.letter)),
    }
}

#[tactic(auto, unfolding(crate::specs::Words::with_word))]
fn add_code(dialect: Dialect, word: &Word, line: &mut ArrayVec<Code, 24>) -> Result<(), Fault>
    ensures { Gives (λ _. line.new.items) result
        (spec.with_word dialect word.now line.old.items) }
{
    if !is_code_letter(word.letter) {
        return Ok(());
    }
    let code = code_of(dialect, word)?;
    join(code, line)
}

/// Adds the codes of a line's words. Returns the first refusal from the left.
pub fn add_codes(
    dialect: Dialect,
    words: &[Word],
    line: &mut ArrayVec<Code, 24>,
) -> Result<(), Fault>
    ensures { Gives (λ _. line.new.items) result
        (spec.codes_of dialect words.now line.old.items) }
{
    for word in words {
        match add_code(dialect, word, line) {
            Ok(()) => {}
            Err(fault) => return Err(fault),
        }
    }
    Ok(())
}

pub(crate) fn is_letter(letter: u8, word: &Word) -> bool
    ensures { result ≡ spec.is_letter letter word.now }
{
    word.letter == letter
}

/// Returns a letter's word.
#[tactic(auto, unfolding(crate::specs::Words::word_of))]
pub fn word_of(letter: u8, words: &[Word]) -> Option<Word>
    ensures { result ≡ spec.word_of letter words.now }
{
    words.iter().copied().find(|word| is_letter(letter, word))
}

/// Returns a letter's value.
#[tactic(auto, unfolding(crate::specs::Words::value_of))]
pub fn value_of(letter: u8, words: &[Word]) -> Option<Number>
    ensures { result ≡ spec.value_of letter words.now }
{
    word_of(letter, words).map(|word| word.value)
}

/// Returns whether a letter is on the line.
pub fn has_letter(letter: u8, words: &[Word]) -> bool
    ensures { result ≡ spec.has_letter letter words.now }
{
    value_of(letter, words).is_some()
}

fn is_again(letter: u8, words: &[Word]) -> bool
    ensures { result ≡ list_any (λ v. spec.is_letter letter v) words.now }
{
    words.iter().any(|word| is_letter(letter, word))
}

// Returns whether a word's letter is on the line again. G and M may be.
fn repeats(word: &Word, after: &[Word]) -> bool
    ensures { result ≡ spec.repeats word.now after.now }
{
    !is_code_letter(word.letter) && is_again(word.letter, after)
}

/// Returns a letter that is on the line twice.
pub(crate) fn repeated(words: &[Word]) -> Option<u8>
    ensures { result ≡ spec.repeated words.now }
{
    let mut rest = words;
    while let [word, after @ ..] = rest {
        if repeats(word, after) {
            return Some(word.letter);
        }
        rest = after;
    }
    None
}

fn is_other_axis(letter: u8) -> bool
    ensures { result ≡ spec.is_other_axis letter }
{
    letter == b'A'
        || letter == b'B'
        || letter == b'C'
        || letter == b'U'
        || letter == b'V'
        || letter == b'W'
}

fn is_polar(letter: u8) -> bool
    ensures { result ≡ spec.is_polar letter }
{
    letter == b'@' || letter == b'^'
}

// Fanuc's dwell may have its time in U.
fn is_dwell_time(dialect: Dialect, line: &[Code], letter: u8) -> bool
    ensures { result ≡ spec.is_dwell_time dialect line.now letter }
{
    is_fanuc(dialect) && has(&codes::DWELL, line) && letter == b'U'
}

fn is_refused_axis(dialect: Dialect, line: &[Code], word: &Word) -> bool
    ensures { result ≡ spec.is_refused_axis dialect line.now word.now }
{
    is_other_axis(word.letter)
        && word.value.trillionths() != 0
        && !is_dwell_time(dialect, line, word.letter)
}

/// Returns the refusal of a word that can't be executed: a polar word, or one of another axis than
/// X, Y and Z that isn't 0.
pub(crate) fn refused_word(dialect: Dialect, line: &[Code], words: &[Word]) -> Option<Fault>
    ensures { result ≡ spec.refused_word dialect line.now words.now }
{
    for word in words {
        if is_polar(word.letter) {
            return Some(about_letter(Cause::LeftOut(LeftOut::Polar), word.letter));
        }
        if is_refused_axis(dialect, line, word) {
            return Some(about_letter(Cause::LeftOut(LeftOut::MoreAxes), word.letter));
        }
    }
    None
}

/// Returns a letter's value in millionths.
pub(crate) fn rounded(letter: u8, words: &[Word]) -> Option<Value>
    ensures { result ≡ spec.rounded letter words.now }
{
    match value_of(letter, words) {
        Some(value) => Some(value.to_value()),
        None => None,
    }
}

/// Returns a letter's value, which must be from 0 up.
#[tactic(auto, unfolding(crate::specs::Words::amount))]
pub(crate) fn amount(letter: u8, words: &[Word]) -> Result<Option<Value>, Fault>
    ensures { result ≡ spec.amount letter words.now }
{
    match rounded(letter, words) {
        Some(value) if value.millionths() < 0 => Err(about_letter(Cause::Negative, letter)),
        found => Ok(found),
    }
}

/// Returns a letter's value, which must be a whole number from 0 up.
#[tactic(auto, unfolding(crate::specs::Words::count))]
pub fn count(letter: u8, words: &[Word]) -> Result<Option<Value>, Fault>
    ensures { result ≡ spec.count letter words.now }
{
    match amount(letter, words)? {
        Some(value) if value.millionths().unsigned_abs() % 1_000_000 != 0 => {
            Err(about_letter(Cause::NotWhole, letter))
        }
        found => Ok(found),
    }
}
