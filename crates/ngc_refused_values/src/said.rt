//! The words of a line.
ghost use Rattle.std.specs.Prelude.{◌≡◌};
ghost use Rattle.ngc_line_reader.specs.ScanLine.{parts_of};
ghost use Rattle.ngc_refused_values.specs.LastWords.{has_letter, has_word};
ghost use Rattle.ngc_refused_values.specs.Values.{changes_tool, is_change, is_number};

use ngc_line_reader::{Letter, Line, RawWord, Token};
use ngc_report::{letter_byte, written_number};

pub(crate) fn has_letter(letter: Letter, word: &RawWord) -> bool
    ensures { result ≡ has_letter letter word.now }
{
    letter_byte(word.letter) == letter_byte(letter)
}

/// Returns whether the line has a word with a letter.
pub(crate) fn has_word(line: &Line, letter: Letter) -> bool
    ensures { result ≡ has_word letter (parts_of line.now) }
{
    line.words
        .as_slice()
        .iter()
        .any(|word| has_letter(letter, word))
}

/// Returns whether a word is written as this number, in millionths.
pub(crate) fn is_number(number: i64, written: Option<i64>) -> bool
    ensures { result ≡ is_number number written }
{
    match written {
        Some(written) => written == number,
        None => false,
    }
}

fn is_change(tokens: &[Token], word: &RawWord) -> bool
    ensures { result ≡ is_change tokens.now word.now }
{
    has_letter(Letter::M, word) && is_number(6_000_000, written_number(tokens, word))
}

/// Returns whether the line has M6.
pub(crate) fn changes_tool(line: &Line) -> bool
    ensures { result ≡ changes_tool (parts_of line.now) }
{
    let tokens = line.tokens.as_slice();
    line.words
        .as_slice()
        .iter()
        .any(|word| is_change(tokens, word))
}
