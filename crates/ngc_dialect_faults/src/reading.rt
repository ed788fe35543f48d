//! Why a line or a part of it has no value, in words.
ghost use Rattle.std.specs.Prelude.{◌≡◌};
ghost use Rattle.ngc_dialect_faults.specs.Values.{no_value_words, reading_words, value_words};

use ngc_dialect_numbers::NoValue;
use ngc_dialect_parameters::Cause as ValueCause;
use ngc_dialect_reader::Cause as ReadingCause;

pub(crate) fn reading_words(cause: ReadingCause) -> &'static [u8]
    ensures { result.now ≡ reading_words cause }
{
    match cause {
        ReadingCause::LineTooLong => b"line longer than 256 characters",
        ReadingCause::ControlCharacter => b"control character",
        ReadingCause::CommentNotClosed => b"comment not closed",
        ReadingCause::CommentInComment => b"comment inside a comment",
        ReadingCause::UnexpectedCharacter => b"character that belongs nowhere here",
        ReadingCause::NumberWithoutDigits => b"number without digits",
        ReadingCause::SecondPoint => b"second point in a number",
        ReadingCause::NumberTooLarge => b"number too large",
        ReadingCause::WordWithoutValue => b"word without a value",
        ReadingCause::ValueMissing => b"value missing",
        ReadingCause::UnknownFunction => b"unknown function",
        ReadingCause::BracketNotClosed => b"bracket not closed",
        ReadingCause::BracketMissing => b"opening bracket missing",
        ReadingCause::NameNotClosed => b"name not closed or empty",
        ReadingCause::NameMissing => b"name missing",
        ReadingCause::EqualsMissing => b"equals sign missing",
        ReadingCause::SlashMissing => b"slash missing between the arguments of ATAN",
        ReadingCause::TooDeep => b"nested over 32 deep",
        ReadingCause::TooManyParts => b"over 128 parts",
        ReadingCause::NotInDialect => b"this dialect has no such construct",
        ReadingCause::UnknownKeyword => b"unknown word after a label",
        ReadingCause::WrongArguments => b"wrong number of arguments",
        ReadingCause::TextAfterEnd => b"nothing may follow here",
        ReadingCause::JumpMissing => b"GOTO, THEN or DO missing",
    }
}

fn no_value_words(value: NoValue) -> &'static [u8]
    ensures { result.now ≡ no_value_words value }
{
    match value {
        NoValue::OutOfRange => b"a value is over 1,000,000,000",
        NoValue::DivisionByZero => b"division by zero",
        NoValue::NegativeRoot => b"square root of a negative number",
        NoValue::BeyondOne => b"arc sine or arc cosine beyond 1",
        NoValue::NotAboveZero => b"logarithm of a number that is not above 0",
        NoValue::NegativeBase => b"a negative number to a power that is not whole",
        NoValue::ZeroBase => b"0 to a power below 0",
        NoValue::RightAngle => b"tangent of a right angle",
    }
}

pub(crate) fn value_words(cause: ValueCause) -> &'static [u8]
    ensures { result.now ≡ value_words cause }
{
    match cause {
        ValueCause::IndexNotWhole => b"parameter number is not whole",
        ValueCause::IndexOutOfRange => b"no parameter has this number",
        ValueCause::Unset => b"parameter is not set, or only the control knows it",
        ValueCause::ReadOnly => b"only the control sets this parameter",
        ValueCause::Value(value) => no_value_words(value),
    }
}
