//! Words, read from a row.

use arrayvec::ArrayVec;
use ngc_fixed_length::Value;
use ngc_line_reader::{Letter, Word};

/// The words of a row: one more than a line of our own language may have, and some.
pub type Words = ArrayVec<Word, 100>;

fn letter_of(byte: u8) -> Option<Letter> {
    match byte {
        b'A' => Some(Letter::A),
        b'B' => Some(Letter::B),
        b'C' => Some(Letter::C),
        b'D' => Some(Letter::D),
        b'F' => Some(Letter::F),
        b'G' => Some(Letter::G),
        b'H' => Some(Letter::H),
        b'I' => Some(Letter::I),
        b'J' => Some(Letter::J),
        b'K' => Some(Letter::K),
        b'L' => Some(Letter::L),
        b'M' => Some(Letter::M),
        b'P' => Some(Letter::P),
        b'Q' => Some(Letter::Q),
        b'R' => Some(Letter::R),
        b'S' => Some(Letter::S),
        b'T' => Some(Letter::T),
        b'X' => Some(Letter::X),
        b'Y' => Some(Letter::Y),
        b'Z' => Some(Letter::Z),
        _ => None,
    }
}

fn word_of(text: &str) -> Option<Word> {
    let letter = letter_of(*text.as_bytes().first()?)?;
    let millionths = text.get(1..)?.parse::<i64>().ok()?;
    let value = Value::from_millionths(i128::from(millionths)).ok()?;
    Some(Word { letter, value })
}

/// Returns the words of a row, which blanks separate, or `None` if one of them isn't a letter and a
/// number of millionths, or if there are over 100.
pub fn words_of(row: &str) -> Option<Words> {
    let mut words = Words::new();
    for text in row.split(' ') {
        if text.is_empty() {
            continue;
        }
        words.try_push(word_of(text)?).ok()?;
    }
    Some(words)
}
