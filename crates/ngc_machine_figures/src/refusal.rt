//! Why a machine file or a tool table is refused.

use crate::key::Key;
use crate::key_word::KeyWord;
use crate::tool_key::ToolWrong;
use ngc_quantities::Fault;

/// What a text with a unit says.
#[derive(Clone, Copy)]
pub enum Form {
    /// A length, as `1 mm`.
    Length,
    /// A speed, as `8000 mm/min`.
    Speed,
    /// An acceleration, as `500 mm/s2`.
    Acceleration,
    /// A motor, as `100 steps/mm`.
    Motor,
    /// A range of lengths, as `0 mm to 600 mm`.
    Range,
    /// Three lengths, as `60, 40, -140 mm`.
    Place,
    /// Limits of feeds, as `100 to 1500 mm/min`.
    Feeds,
    /// Limits of spindle speeds, as `8000 to 24000 rpm`.
    Turning,
}

/// What is wrong with a key.
#[derive(Clone, Copy)]
pub enum Wrong {
    /// The key must be there.
    Missing,
    /// The table has a key that isn't known, maybe in place of the key in `meant`. The refusal's key is
    /// that of the table.
    Unknown { word: KeyWord, meant: Option<Key> },
    /// A number is where a text with a unit must be.
    Bare(Form),
    /// Another value is where a text with a unit must be.
    NoText(Form),
    /// The text with a unit is refused.
    Text(Fault),
    /// A length of the place is over 4,000 mm in size.
    Far,
    /// The version isn't 3.
    NoVersion,
    /// The value isn't the name of a language.
    NoDialect,
    /// The value isn't `true` or `false`.
    NoBool,
    /// The value isn't a whole number in this range.
    NoWhole { low: u32, high: u32 },
    /// The value isn't `straight` or `free`.
    NoRapids,
    /// The value isn't a text of at least one character, without control characters.
    NoPath,
    /// The value isn't a text of 1 to 40 printable ASCII characters.
    NoName,
    /// The value isn't the name of a coordinate system, `G54` to `G59.3`.
    NoSystem,
    /// The value isn't a table.
    NoTable,
    /// The value isn't an array.
    NoArray,
    /// There are more than 256 fixtures.
    ManyFixtures,
    /// A job file has more than 16 fixtures.
    ManyClamps,
    /// A box has neither `to` nor `size`. The refusal's key is that of its table.
    NoEnd,
    /// A box has `to` and `size`. The refusal's key is that of `size`.
    TwoEnds,
    /// What only a tool table may have wrong.
    Tool(ToolWrong),
}

/// The first mistake of a file, and the key that it is about.
#[derive(Clone, Copy)]
pub struct FileRefusal {
    pub key: Key,
    pub wrong: Wrong,
}

/// Why there is no sheet of a file.
#[derive(Clone, Copy)]
pub enum SheetFault {
    /// Memory was refused.
    Memory,
    /// The file has a mistake.
    Refused(FileRefusal),
}
