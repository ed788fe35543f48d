//! The words of a program's line that are written as numbers.
ghost use Rattle.std.specs.Prelude.{◌≡◌, find};
ghost use Rattle.ngc_line_reader.specs.ScanLine.{parts_of};
ghost use Rattle.ngc_word_warnings.specs.Words.{axis_words, count_if, has_code, has_letter};
ghost use Rattle.ngc_word_warnings.specs.Words.{has_word, is_code, is_number, is_zero};
ghost use Rattle.ngc_word_warnings.specs.Words.{number_after, zero_words};

use ngc_line_reader::{Letter, Line, RawWord, Token};
use ngc_report::{letter_byte, written_number};

fn has_letter(letter: Letter, word: &RawWord) -> bool
    ensures { result ≡ has_letter letter word.now }
{
    letter_byte(word.letter) == letter_byte(letter)
}

fn is_number(number: i64, written: Option<i64>) -> bool
    ensures { result ≡ is_number number written }
{
    match written {
        Some(written) => written == number,
        None => false,
    }
}

fn is_code(letter: Letter, number: i64, tokens: &[Token], word: &RawWord) -> bool
    ensures { result ≡ is_code letter number tokens.now word.now }
{
    has_letter(letter, word) && is_number(number, written_number(tokens, word))
}

fn word_with(line: &Line, letter: Letter) -> Option<RawWord>
    ensures { result ≡ find (has_letter letter) line.now.words.items }
{
    line.words
        .as_slice()
        .iter()
        .find(|word| has_letter(letter, word))
        .copied()
}

// Returns whether the line has a word with a letter.
fn has_word(line: &Line, letter: Letter) -> bool
    ensures { result ≡ has_word letter (parts_of line.now) }
{
    line.words
        .as_slice()
        .iter()
        .any(|word| has_letter(letter, word))
}

/// Returns whether the line has a word that is written as this letter and number, in millionths.
pub(crate) fn has_code(line: &Line, letter: Letter, number: i64) -> bool
    ensures { result ≡ has_code letter number (parts_of line.now) }
{
    let tokens = line.tokens.as_slice();
    line.words
        .as_slice()
        .iter()
        .any(|word| is_code(letter, number, tokens, word))
}

fn count_if(is_so: bool) -> u8
    ensures { result ≡ count_if is_so }
{
    if is_so { 1 } else { 0 }
}

/// Returns the number of the words X, Y and Z in the line.
pub(crate) fn axis_words(line: &Line) -> u8
    ensures { result ≡ axis_words (parts_of line.now) }
{
    count_if(has_word(line, Letter::X))
        + count_if(has_word(line, Letter::Y))
        + count_if(has_word(line, Letter::Z))
}

/// Returns whether the line has a word with this letter that is written as 0.
pub(crate) fn is_zero(line: &Line, letter: Letter) -> bool
    ensures { result ≡ is_zero letter (parts_of line.now) }
{
    is_number(0, number_after(line, letter))
}

/// Returns the number of the words X, Y and Z in the line that are written as 0.
pub(crate) fn zero_words(line: &Line) -> u8
    ensures { result ≡ zero_words (parts_of line.now) }
{
    count_if(is_zero(line, Letter::X))
        + count_if(is_zero(line, Letter::Y))
        + count_if(is_zero(line, Letter::Z))
}

/// Returns the number after a letter in the line, in millionths, or `None` if no such word is
/// written as a number.
pub(crate) fn number_after(line: &Line, letter: Letter) -> Option<i64>
    ensures { result ≡ number_after letter (parts_of line.now) }
{
    match word_with(line, letter) {
        Some(word) => written_number(line.tokens.as_slice(), &word),
        None => None,
    }
}
