//! A line in place of another one: new words, and which of the other line's words are kept.
ghost use Rattle.std.specs.Prelude.{◌≡◌, ◌++◌, ◌∷◌, [], OnOk};
ghost use Rattle.ngc_dialect_repeats.specs.Kept as spec;

use ngc_dialect_parameters::Word;
use std::alloc::{AllocError, Allocator};

/// Which words of a line are kept.
#[derive(Clone, Copy)]
pub enum Kept {
    /// All but `@` and `^`.
    NotPolar,
    /// All but `@`, `^` and L.
    NotPolarOrHoles,
    /// All but X, Y, Z, R and P.
    NotPlaces,
    /// I, J and K.
    Offsets,
    /// X, Y, Z, I, J, K and R.
    Places,
    /// The same but one letter.
    PlacesBut(u8),
    Nothing,
}

/// A line in place of another one: up to three words, and the words of the other line that are kept.
#[derive(Clone, Copy)]
pub struct WordLine {
    pub first: Option<Word>,
    pub second: Option<Word>,
    pub third: Option<Word>,
    pub kept: Kept,
}

pub(crate) fn is_polar(letter: u8) -> bool
    ensures { result ≡ spec.is_polar letter }
{
    letter == b'@' || letter == b'^'
}

fn is_axis(letter: u8) -> bool
    ensures { result ≡ spec.is_axis letter }
{
    letter == b'X' || letter == b'Y' || letter == b'Z'
}

fn is_offset(letter: u8) -> bool
    ensures { result ≡ spec.is_offset letter }
{
    letter == b'I' || letter == b'J' || letter == b'K'
}

fn is_place(letter: u8) -> bool
    ensures { result ≡ spec.is_place letter }
{
    is_axis(letter) || is_offset(letter) || letter == b'R'
}

// Returns whether words with a letter are kept.
fn keeps(kept: Kept, letter: u8) -> bool
    ensures { result ≡ spec.keeps kept letter }
{
    match kept {
        Kept::NotPolar => !is_polar(letter),
        Kept::NotPolarOrHoles => !(is_polar(letter) || letter == b'L'),
        Kept::NotPlaces => !(is_axis(letter) || letter == b'R' || letter == b'P'),
        Kept::Offsets => is_offset(letter),
        Kept::Places => is_place(letter),
        Kept::PlacesBut(other) => is_place(letter) && letter != other,
        Kept::Nothing => false,
    }
}

// Adds a word, if it is kept.
fn add_kept<A: Allocator>(
    kept: Kept,
    word: &Word,
    line: &mut Vec<Word, A>,
) -> Result<(), AllocError>
    ensures { OnOk result (line.new.items ≡ line.old.items ++ spec.kept_words kept (word.now ∷ [])) }
{
    if !keeps(kept, word.letter) {
        return Ok(());
    }
    if line.push(*word).is_err() {
        return Err(AllocError);
    }
    Ok(())
}

// Adds the words that are kept.
fn add_all_kept<A: Allocator>(
    kept: Kept,
    words: &[Word],
    line: &mut Vec<Word, A>,
) -> Result<(), AllocError>
    ensures { OnOk result (line.new.items ≡ line.old.items ++ spec.kept_words kept words.now) }
{
    for word in words {
        match add_kept(kept, word, line) {
            Ok(()) => {}
            Err(refused) => return Err(refused),
        }
    }
    Ok(())
}

// Adds a word, if there is one.
fn add_one<A: Allocator>(word: &Option<Word>, line: &mut Vec<Word, A>) -> Result<(), AllocError>
    ensures { OnOk result (line.new.items ≡ line.old.items ++ spec.one word.now) }
{
    let Some(word) = word else {
        return Ok(());
    };
    if line.push(*word).is_err() {
        return Err(AllocError);
    }
    Ok(())
}

impl WordLine {
    /// Puts the words of the line into `line`, in place of what was there. `words` are those of the
    /// other line.
    pub fn write<A: Allocator>(
        &self,
        words: &[Word],
        line: &mut Vec<Word, A>,
    ) -> Result<(), AllocError>
        ensures { OnOk result (line.new.items ≡ spec.line_words self.now words.now) }
    {
        line.clear();
        match add_one(&self.first, line) {
            Ok(()) => {}
            Err(refused) => return Err(refused),
        }
        match add_one(&self.second, line) {
            Ok(()) => {}
            Err(refused) => return Err(refused),
        }
        match add_one(&self.third, line) {
            Ok(()) => {}
            Err(refused) => return Err(refused),
        }
        add_all_kept(self.kept, words, line)
    }
}
