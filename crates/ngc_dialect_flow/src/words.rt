//! What the flow takes from the values of a line.
ghost use Rattle.std.specs.Prelude.{◌≡◌, filter, length, slice_get};
ghost use Rattle.std.specs.List.{list_any};
ghost use Rattle.ngc_dialect_flow.specs.Words as spec;

use crate::fault::Cause;
use crate::mark::{Label, number_label, whole_of};
use ngc_dialect_numbers::Number;
use ngc_dialect_parameters::Statement;

/// The number of units in 1.
const ONE: i128 = 1_000_000_000_000;

/// Returns the first argument of what an O word does.
pub(crate) fn argument(arguments: &[Option<Number>]) -> Option<Number>
    ensures { result ≡ spec.argument_in (slice_get arguments.now 0) }
{
    match arguments.first() {
        Some(value) => *value,
        None => None,
    }
}

/// Returns the number that a value counts as.
pub(crate) fn or_zero(value: Option<Number>) -> Number
    ensures { result ≡ spec.or_zero value }
{
    match value {
        Some(number) => number,
        None => Number::truth(false),
    }
}

/// Returns the label of a line, from its values.
pub(crate) fn label_in(statements: &[Statement]) -> Option<Label>
    ensures { result ≡ spec.label_in statements.now }
{
    for statement in statements {
        match statement {
            Statement::Label(number) => return number_label(whole_of(number.trillionths())),
            Statement::LabelNamed(name) => return Some(Label::Name(*name)),
            _ => {}
        }
    }
    None
}

/// Returns the value of the first word with a letter.
pub(crate) fn word_in(letter: u8, statements: &[Statement]) -> Option<Number>
    ensures { result ≡ spec.word_in letter statements.now }
{
    for statement in statements {
        match statement {
            Statement::Word(word) if word.letter == letter => return Some(word.value),
            _ => {}
        }
    }
    None
}

fn is_word(letter: u8, statement: &Statement) -> bool
    ensures { result ≡ spec.is_word letter statement.now }
{
    match statement {
        Statement::Word(word) => word.letter == letter,
        _ => false,
    }
}

fn count_words(letter: u8, statements: &[Statement]) -> usize
    ensures { result ≡ length (filter (spec.is_word letter) statements.now) }
{
    statements
        .iter()
        .filter(|statement| is_word(letter, statement))
        .count()
}

/// Returns the value of the only word with a letter, if there is one.
pub(crate) fn only_word(letter: u8, statements: &[Statement]) -> Result<Option<Number>, Cause>
    ensures { result ≡ spec.only_word letter statements.now }
{
    if count_words(letter, statements) > 1 {
        return Err(Cause::WordTwice);
    }
    Ok(word_in(letter, statements))
}

// Returns whether a statement is the code with this letter and number.
fn is_code(letter: u8, number: u8, statement: &Statement) -> bool
    ensures { result ≡ spec.is_code letter number statement.now }
{
    match statement {
        Statement::Word(word) => {
            word.letter == letter && word.value.trillionths() == i128::from(number) * ONE
        }
        _ => false,
    }
}

/// Returns whether a line has an M code.
pub(crate) fn has_m(number: u8, statements: &[Statement]) -> bool
    ensures { result ≡ list_any (spec.is_code 77 number) statements.now }
{
    statements
        .iter()
        .any(|statement| is_code(b'M', number, statement))
}

/// Returns the number of the line to which a line goes.
pub(crate) fn jump_in(statements: &[Statement]) -> Option<Number>
    ensures { result ≡ spec.jump_in statements.now }
{
    for statement in statements {
        match statement {
            Statement::GoTo(number) => return Some(*number),
            _ => {}
        }
    }
    None
}

/// Returns whether the condition of one of Fanuc's loops holds.
pub(crate) fn loop_holds(statements: &[Statement]) -> bool
    ensures { result ≡ spec.loop_holds statements.now }
{
    for statement in statements {
        match statement {
            Statement::Loop(holds, _) => return *holds,
            _ => {}
        }
    }
    false
}

/// Returns the whole number of a word that must be there.
pub(crate) fn needed(value: Option<Number>) -> Result<u128, Cause>
    ensures { result ≡ spec.needed value }
{
    let Some(number) = value else {
        return Err(Cause::WordMissing);
    };
    match whole_of(number.trillionths()) {
        Some(whole) => Ok(whole),
        None => Err(Cause::NotWhole),
    }
}
