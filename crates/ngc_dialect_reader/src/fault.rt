ghost use Rattle.std.specs.Prelude.{◌≡◌};

/// The reasons why a line can't be read.
#[derive(Clone, Copy, Debug, PartialEq, Eq)]
pub enum Cause {
    /// The line is longer than 256 characters.
    LineTooLong,
    /// There is a control character.
    ControlCharacter,
    /// A comment is not closed.
    CommentNotClosed,
    /// A comment begins inside a comment.
    CommentInComment,
    /// A character belongs nowhere here.
    UnexpectedCharacter,
    /// A number has no digits.
    NumberWithoutDigits,
    /// A number has a second point.
    SecondPoint,
    /// A number is over 1,000,000,000 in size.
    NumberTooLarge,
    /// A word has no value.
    WordWithoutValue,
    /// A value is missing.
    ValueMissing,
    /// No function has this name.
    UnknownFunction,
    /// A bracket is not closed.
    BracketNotClosed,
    /// An opening bracket is missing.
    BracketMissing,
    /// A name is not closed, or is empty.
    NameNotClosed,
    /// A name is missing.
    NameMissing,
    /// The equals sign is missing.
    EqualsMissing,
    /// The slash between the arguments of ATAN is missing.
    SlashMissing,
    /// Values are nested over 32 deep.
    TooDeep,
    /// The line has over 128 parts.
    TooManyParts,
    /// The dialect has no such construct.
    NotInDialect,
    /// No keyword has the name after a label.
    UnknownKeyword,
    /// The number of arguments is wrong.
    WrongArguments,
    /// Nothing may follow here.
    TextAfterEnd,
    /// GOTO, THEN or DO is missing.
    JumpMissing,
}

impl Cause {
    ghost use Rattle.ngc_dialect_reader.specs.Faults.{fault_number};

    /// Returns the fault's number, which messages print.
    pub fn number(self) -> u16
        ensures { result ≡ fault_number self }
    {
        match self {
            Cause::LineTooLong => 111,
            Cause::ControlCharacter => 112,
            _ => 123,
        }
    }
}

/// A refusal of a line: why, and the column, from 1, from which it can't be read. At the line's end
/// that is the column after its last byte.
#[derive(Clone, Copy, Debug, PartialEq, Eq)]
pub struct LineFault {
    pub cause: Cause,
    pub column: usize,
}

/// A refusal within a line's text: why, and the number of bytes of the text from there on.
#[derive(Clone, Copy)]
pub(crate) struct Refusal {
    pub(crate) cause: Cause,
    pub(crate) left: usize,
}
