//! What a line says, with its values.
ghost use Rattle.std.specs.Prelude.{◌≡◌, ◌∷◌, ◌++◌, None, OnOk, []};
ghost use Rattle.std.specs.List.{list_any};
ghost use Rattle.ngc_dialect_parameters.specs.Stored.{stored_in};
ghost use Rattle.ngc_dialect_reader.specs.Line.{line_of};
ghost use Rattle.ngc_dialect_reader.specs.Text.{text};
ghost use Rattle.ngc_dialect_execution.specs.Faults.{Says, caused};
ghost use Rattle.ngc_dialect_execution.specs.Flow as flow;
ghost use Rattle.ngc_dialect_execution.specs.Taken as spec;
ghost use Rattle.ngc_dialect_execution.specs.Views.{said_in};
ghost use Rattle.ngc_dialect_execution.specs.declared.fault.Cause.TheVariants as causes;

use crate::fault::{Cause, Refusal};
use ngc_dialect_names::Dialect;
use ngc_dialect_numbers::Number;
use ngc_dialect_parameters::{Control, LineValues, Parameters, Statement, Word};
use ngc_dialect_reader::{DialectLine, Part, PartKind, Switches};
use std::alloc::{AllocError, Allocator};

/// The number of units in 1.
const ONE: i128 = 1_000_000_000_000;

/// A control that has no parameters of its own.
#[derive(Clone, Copy)]
pub(crate) struct NoControl;

impl Control for NoControl {
    ghost number = { λ _ _. None };

    ghost name = { λ _ _. None };

    fn numbered(&self, _index: usize) -> Option<Number> {
        None
    }

    fn named(&self, _bytes: &[u8]) -> Option<Number> {
        None
    }
}

/// Reads the parts of a line.
pub(crate) fn read_parts(
    dialect: Dialect,
    bytes: &[u8],
    line: &mut DialectLine,
) -> Result<(), Refusal>
    ensures parts { Says (λ _. line.new.parts.items) result
        (caused causes.Reading (line_of dialect bytes.now)) }
    ensures text { OnOk result (line.new.text.items ≡ text bytes.now) }
{
    match line.read(dialect, bytes) {
        Ok(()) => Ok(()),
        Err(fault) => Err(Refusal::Because(Cause::Reading(fault))),
    }
}

fn is_delete(kind: PartKind) -> bool
    ensures { result ≡ spec.is_delete kind }
{
    matches!(kind, PartKind::Delete(_))
}

/// Returns whether a line begins with `/`.
pub(crate) fn is_deleted(parts: &[Part]) -> bool
    ensures { result ≡ spec.is_deleted parts.now }
{
    match parts {
        [first, ..] => is_delete(first.kind),
        [] => false,
    }
}

// Adds the word of a statement.
fn add_statement<A: Allocator>(
    statement: &Statement,
    words: &mut Vec<Word, A>,
) -> Result<(), AllocError>
    ensures { OnOk result (words.new.items ≡ words.old.items ++ spec.words_of (statement.now ∷ [])) }
{
    match statement {
        Statement::Word(word) => {
            if words.push(*word).is_err() {
                return Err(AllocError);
            }
            Ok(())
        }
        _ => Ok(()),
    }
}

/// Puts the words of statements into `words`, in place of what was there.
pub(crate) fn find_words<A: Allocator>(
    statements: &[Statement],
    words: &mut Vec<Word, A>,
) -> Result<(), AllocError>
    ensures { OnOk result (words.new.items ≡ spec.words_of statements.now) }
{
    words.clear();
    for statement in statements {
        match add_statement(statement, words) {
            Ok(()) => {}
            Err(refused) => return Err(refused),
        }
    }
    Ok(())
}

/// Computes what a line that was read says, with its values, in place of what was in `values`.
#[tactic(auto, unfolding(crate::specs::Taken::said_at))]
pub(crate) fn said_at<A: Allocator + Copy>(
    parameters: &Parameters<A>,
    line: &DialectLine,
    values: &mut LineValues,
) -> Result<(), Refusal>
    ensures { Says (λ _. said_in values.new) result
        (spec.said_at (stored_in parameters.now) line.now.text.items line.now.parts.items) }
{
    match parameters.evaluate(&NoControl, line, values) {
        Ok(()) => Ok(()),
        Err(fault) => Err(Refusal::Because(Cause::Value(fault.cause))),
    }
}

/// Computes what a line says if that is needed. Otherwise it says nothing.
pub(crate) fn said_if<A: Allocator + Copy>(
    needed: bool,
    parameters: &Parameters<A>,
    line: &DialectLine,
    values: &mut LineValues,
) -> Result<(), Refusal>
    ensures { Says (λ _. said_in values.new) result
        (flow.said_if needed (stored_in parameters.now) line.now.text.items line.now.parts.items) }
{
    if needed {
        said_at(parameters, line, values)
    } else {
        *values = LineValues::empty();
        Ok(())
    }
}

/// Returns whether a word is the M code with this number.
pub(crate) fn is_m(number: u8, word: &Word) -> bool
    ensures { result ≡ spec.is_m number word.now }
{
    word.letter == b'M' && word.value.trillionths() == i128::from(number) * ONE
}

// Returns whether a statement decides which line is next.
fn decides(dialect: Dialect, statement: &Statement) -> bool
    ensures { result ≡ spec.decides dialect statement.now }
{
    match statement {
        Statement::Word(word) => Switches::of(dialect).labels && (is_m(98, word) || is_m(99, word)),
        Statement::Flow(..) | Statement::GoTo(_) | Statement::Loop(..) | Statement::EndLoop(_) => {
            true
        }
        _ => false,
    }
}

/// Returns whether a line that says this has flow.
pub(crate) fn has_flow(dialect: Dialect, statements: &[Statement]) -> bool
    ensures { result ≡ spec.has_flow dialect statements.now }
{
    statements
        .iter()
        .any(|statement| decides(dialect, statement))
}

// Returns whether a word is the flow's, where `calls` says that an M98 is beside it.
fn is_flow_word(calls: bool, word: &Word) -> bool
    ensures { result ≡ flow.is_flow_word calls word.now }
{
    is_m(98, word) || is_m(99, word) || (calls && (word.letter == b'P' || word.letter == b'L'))
}

fn has_m98(words: &[Word]) -> bool
    ensures { result ≡ list_any (spec.is_m 98) words.now }
{
    words.iter().any(|word| is_m(98, word))
}

// Adds a word, unless it is the flow's.
fn add_other<A: Allocator>(
    calls: bool,
    word: &Word,
    others: &mut Vec<Word, A>,
) -> Result<(), AllocError>
    ensures { OnOk result (others.new.items ≡ others.old.items ++ flow.others_in calls (word.now ∷ [])) }
{
    if is_flow_word(calls, word) {
        return Ok(());
    }
    if others.push(*word).is_err() {
        return Err(AllocError);
    }
    Ok(())
}

/// Puts the words that the flow leaves into `others`, in place of what was there.
pub(crate) fn find_others<A: Allocator>(
    words: &[Word],
    others: &mut Vec<Word, A>,
) -> Result<(), AllocError>
    ensures { OnOk result (others.new.items ≡ flow.other_words words.now) }
{
    others.clear();
    let calls = has_m98(words);
    for word in words {
        match add_other(calls, word, others) {
            Ok(()) => {}
            Err(refused) => return Err(refused),
        }
    }
    Ok(())
}
