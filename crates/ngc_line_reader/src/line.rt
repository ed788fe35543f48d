ghost use Rattle.std.specs.Prelude.{◌≡◌, ◌≤◌, length};

use crate::letter::Letter;
use crate::token::Token;
use arrayvec::ArrayVec;

/// A word: its letter, its column, from 1, and the index in the line's tokens at which those of its
/// value begin.
#[derive(Clone, Copy, Default)]
pub struct RawWord {
    pub letter: Letter,
    pub column: u16,
    pub first: u16,
}

/// A setting: its column, from 1, and the indexes in the line's tokens at which those of its index
/// and of its value begin.
#[derive(Clone, Copy, Default)]
pub struct RawSetting {
    pub column: u16,
    pub index: u16,
    pub value: u16,
}

/// The contents of a line: whether block delete skips it, its number, and its words, settings and
/// tokens in the order in which they are written.
#[derive(Drop)]
pub struct Line {
    pub deleted: bool,
    pub number: Option<u32>,
    pub words: ArrayVec<RawWord, 64>,
    pub settings: ArrayVec<RawSetting, 64>,
    pub tokens: ArrayVec<Token, 256>,
}

/// The contents of a line without its number, as slices: at most 64 words, 64 settings and 256
/// tokens.
#[derive(Clone, Copy)]
pub struct LineView<'a> {
    pub deleted: bool,
    pub words: &'a [RawWord],
    pub settings: &'a [RawSetting],
    pub tokens: &'a [Token],
    pub ghost few_words: { length words.now ≤ 64 },
    pub ghost few_settings: { length settings.now ≤ 64 },
    pub ghost few_tokens: { length tokens.now ≤ 256 },
}

impl Line {
    ghost use Rattle.ngc_line_reader.specs.ScanLine.{parts_of};
    ghost use Rattle.ngc_line_reader.specs.Shown.{view_parts};

    /// Returns the line's contents without its number.
    pub fn view(&self) -> LineView<'_>
        ensures deleted { result.deleted ≡ self.now.deleted }
        ensures parts { view_parts result ≡ parts_of self.now }
    {
        LineView {
            deleted: self.deleted,
            words: self.words.as_slice(),
            settings: self.settings.as_slice(),
            tokens: self.tokens.as_slice(),
        }
    }
}

pub mod items;
pub mod reading;
