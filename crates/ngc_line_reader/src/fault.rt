ghost use Rattle.std.specs.Prelude.{◌≡◌};

use thiserror::Error;

/// The reasons why a line is refused.
#[derive(Clone, Copy, Debug, PartialEq, Eq, Error)]
pub enum FaultKind {
    /// A number is over 1,000,000,000 in size.
    #[error("number too large")]
    TooLarge,
    #[error("line longer than 256 characters")]
    LineTooLong,
    #[error("unknown character")]
    UnknownCharacter,
    #[error("number missing or badly written")]
    BadNumber,
    #[error("letter that begins no word here")]
    BadWord,
    #[error("line number is not one to five digits")]
    BadLineNumber,
    #[error("comment not closed")]
    CommentNotClosed,
    #[error("comment inside a comment")]
    CommentNested,
    #[error("bracket missing or out of place")]
    Bracket,
    #[error("more than 64 words on a line")]
    TooManyWords,
}

/// A refusal of a line: why it is refused, and the column, from 1, of the first byte of the item at
/// fault.
#[derive(Clone, Copy, Debug, PartialEq, Eq, Error)]
#[error("{kind}, column {column}")]
pub struct LineFault {
    pub kind: FaultKind,
    pub column: u16,
}

impl LineFault {
    ghost use Rattle.ngc_line_reader.specs.Fault.{number_of};

    /// Returns the fault's number, which listings and messages print.
    pub fn number(&self) -> u16
        ensures { result ≡ number_of self.now.kind }
    {
        match self.kind {
            FaultKind::TooLarge => 101,
            FaultKind::LineTooLong => 111,
            FaultKind::UnknownCharacter => 112,
            FaultKind::BadNumber => 113,
            FaultKind::BadWord => 114,
            FaultKind::BadLineNumber => 115,
            FaultKind::CommentNotClosed => 116,
            FaultKind::CommentNested => 117,
            FaultKind::Bracket => 118,
            FaultKind::TooManyWords => 119,
        }
    }
}

/// A refusal of an item: for the item itself, or for an unknown character, with the number of bytes
/// from it on.
#[derive(Clone, Copy)]
pub enum ItemRefusal {
    OfItem(FaultKind),
    AtByte(usize),
}
