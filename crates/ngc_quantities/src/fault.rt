//! The reasons why a text is refused.

use crate::unit::{Ending, Kind, Unit};

/// What is wrong in a text, with what may be there.
#[derive(Clone, Copy)]
pub enum Cause {
    /// The text is longer than 256 bytes.
    LongText,
    /// The number is missing or badly written.
    NoNumber,
    /// A sign between two lengths hasn't a blank on each side. The column is that of the sign.
    NoBlanks,
    /// The number has 10^12 or more before its point, or more than 12 decimals, or a part of a
    /// fraction is 10^12 or more.
    ManyDigits,
    /// The fraction is over zero.
    ZeroBelow,
    /// The number has no unit. A unit of this kind is wanted.
    NoUnit(Kind),
    /// A comma is in place of a point, or there are more parts than wanted.
    Comma,
    /// The unit isn't known. A unit of the kind is wanted. `meant` is the one that the word means by
    /// another name, or nearly is.
    UnknownUnit { kind: Kind, meant: Option<Unit> },
    /// The unit is known, but it isn't of this kind.
    OtherKind { kind: Kind, unit: Unit },
    /// A fraction is before a unit that isn't the inch.
    FractionUnit,
    /// After the unit is more text, or this word of a motor's chain is missing.
    OtherEnding(Ending),
    /// A minus sign is before what can't be negative.
    Negative,
    /// Zero is where more must be.
    Zero,
    /// The amount is greater than the greatest of its kind.
    TooLarge(Kind),
    /// The amount is no whole number of base units. It is between these two.
    Between { low: i64, high: i64 },
    /// A range has no word `to`.
    NoTo,
    /// The high end of a range is below its low end.
    Reversed,
    /// The last part of a chain is no gear as `24 teeth drive 60 teeth`.
    NoGear,
}

/// A refusal of a text: why it is refused, and the column, from 1, where the part at fault begins.
#[derive(Clone, Copy)]
pub struct Fault {
    pub column: usize,
    pub cause: Cause,
}
