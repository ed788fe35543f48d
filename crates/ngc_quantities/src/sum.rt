//! Sums of lengths.
ghost use Rattle.std.specs.Prelude.{◌≡◌, ◌≤◌, ◌<◌, ◌+◌, ◌*◌, true, IfOk, IfSome, drop, length, unsigned_abs};
ghost use Rattle.std.specs.List.{prefix_len};
ghost use Rattle.ngc_quantities.specs.Sums as spec;
ghost use Rattle.ngc_quantities.specs.Written.{is_sign};

use crate::fault::{Cause, Fault};
use crate::text::{begins, blank_count, is_blank, unblanked, without_first};
use crate::unit::{Ending, Kind, Unit};
use crate::written::{Wanted, Whole, whole_in};

fn is_sign(byte: u8) -> bool
    ensures { result ≡ is_sign byte }
{
    matches!(byte, b'+' | b'-')
}

// Returns whether a text begins with an operator and the blanks next to it.
fn begins_operator(text: &[u8]) -> bool
    ensures value { result ≡ spec.begins_operator text.now }
    ensures long { result ≡ true → 3 ≤ length text.now }
{
    match text {
        [before, sign, after, ..] => is_blank(*before) && is_sign(*sign) && is_blank(*after),
        _ => false,
    }
}

// Returns whether an operator and the blanks next to it begin at an index.
fn begins_at(index: usize, text: &[u8]) -> bool
    requires { index ≤ length text.now }
    ensures value { result ≡ spec.begins_operator (drop index text.now) }
    ensures long { result ≡ true → index + 3 ≤ length text.now }
{
    begins_operator(&text[index..])
}

// Returns the index of the last operator, or 0 if there is none.
fn last_operator(text: &[u8]) -> usize
    ensures value { result ≡ spec.last_operator text.now }
    ensures within { 0 < result → result < length text.now }
{
    let mut index = text.len();
    while 0 < index {
        index -= 1;
        if begins_at(index, text) {
            return index + 1;
        }
    }
    0
}

fn ends_length(byte: u8) -> bool
    ensures { result ≡ spec.ends_length byte }
{
    is_blank(byte) || byte.is_ascii_alphabetic()
}

fn is_no_sign(byte: u8) -> bool
    ensures { result ≡ spec.is_no_sign byte }
{
    !is_sign(byte)
}

// Returns the number of bytes before the first sign, which is all of them if there is none.
#[tactic(auto, using(crate::proofs::Counts::counted))]
fn unsigned_length(text: &[u8]) -> usize
    ensures count { result ≡ prefix_len spec.is_no_sign text.now }
    ensures within { result ≤ length text.now }
{
    text.iter().take_while(|byte| is_no_sign(**byte)).count()
}

// Returns the index of the first sign after the first byte, or at least the length if there is none.
fn sign_index(text: &[u8]) -> usize
    requires { length text.now ≤ 256 }
    ensures { result ≡ spec.sign_index text.now }
{
    unsigned_length(without_first(text)) + 1
}

// Returns the index of the first sign if it is between two lengths.
fn loose_sign(text: &[u8]) -> Option<usize>
    requires { length text.now ≤ 256 }
    ensures value { result ≡ spec.loose_sign text.now }
    ensures within { IfSome result (λ i. i < length text.now) }
{
    let index = sign_index(text);
    if index < text.len() && ends_length(text[index - 1]) {
        return Some(index);
    }
    None
}

#[tactic(auto, unfolding(crate::specs::Sums::term_by))]
fn term_by(
    loose: Option<usize>,
    otherwise: Option<Unit>,
    at: usize,
    text: &[u8],
) -> Result<Whole, Fault>
    requires loose { IfSome loose (λ i. i ≤ 256) }
    requires at { at ≤ 5000 }
    requires text { length text.now ≤ 256 }
    ensures value { result ≡ spec.term_by loose otherwise at text.now }
    ensures bound { IfOk result (λ w. unsigned_abs w.amount ≤ 1000000000000) }
{
    if let Some(index) = loose {
        return Err(Fault {
            column: at + blank_count(text) + 1 + index,
            cause: Cause::NoBlanks,
        });
    }
    let wanted = Wanted {
        kind: Kind::Length,
        otherwise,
        ending: Ending::Nothing,
    };
    whole_in(&wanted, at, text)
}

// Returns the length of a term, in which no sign is between two lengths.
#[tactic(auto, unfolding(crate::specs::Sums::term_in))]
fn term_in(otherwise: Option<Unit>, at: usize, text: &[u8]) -> Result<Whole, Fault>
    requires at { at ≤ 5000 }
    requires text { length text.now ≤ 256 }
    ensures value { result ≡ spec.term_in otherwise at text.now }
    ensures bound { IfOk result (λ w. unsigned_abs w.amount ≤ 1000000000000) }
{
    let loose = loose_sign(unblanked(text));
    term_by(loose, otherwise, at, text)
}

// Returns a term after an operator, which has no sign of its own.
#[tactic(auto, unfolding(crate::specs::Sums::later_term))]
fn later_term(otherwise: Option<Unit>, at: usize, text: &[u8]) -> Result<Whole, Fault>
    requires at { at ≤ 5000 }
    requires text { length text.now ≤ 256 }
    ensures value { result ≡ spec.later_term otherwise at text.now }
    ensures bound { IfOk result (λ w. unsigned_abs w.amount ≤ 1000000000000) }
{
    let number = unblanked(text);
    if begins(b'+', number) || begins(b'-', number) {
        return Err(Fault {
            column: at + blank_count(text) + 1,
            cause: Cause::NoNumber,
        });
    }
    term_in(otherwise, at, text)
}

fn same_unit(first: Unit, last: Unit) -> Option<Unit>
    ensures { result ≡ spec.same_unit first last }
{
    if first.size() == last.size() {
        Some(first)
    } else {
        None
    }
}

// Returns the unit of both, or none.
fn common(first: Option<Unit>, last: Option<Unit>) -> Option<Unit>
    ensures { result ≡ spec.common first last }
{
    match (first, last) {
        (Some(first), Some(last)) => same_unit(first, last),
        _ => None,
    }
}

// Adds the last amount to the one before it, or subtracts it.
fn joined_amount(is_minus: bool, first: &Whole, last: &Whole) -> i64
    requires first { unsigned_abs first.now.amount ≤ 1000000000000000000 }
    requires last { unsigned_abs last.now.amount ≤ 1000000000000 }
    ensures value { result ≡ spec.joined_amount is_minus first.now last.now }
    ensures bound { unsigned_abs result
        ≤ unsigned_abs first.now.amount + unsigned_abs last.now.amount }
{
    if is_minus {
        first.amount - last.amount
    } else {
        first.amount + last.amount
    }
}

fn joined(is_minus: bool, first: &Whole, last: &Whole) -> Whole
    requires first { unsigned_abs first.now.amount ≤ 1000000000000000000 }
    requires last { unsigned_abs last.now.amount ≤ 1000000000000 }
    ensures value { result ≡ spec.joined is_minus first.now last.now }
    ensures bound { unsigned_abs result.amount
        ≤ unsigned_abs first.now.amount + unsigned_abs last.now.amount }
{
    Whole {
        amount: joined_amount(is_minus, first, last),
        unit: common(first.unit, last.unit),
        column: first.column,
    }
}

fn is_minus_at(index: usize, text: &[u8]) -> bool
    requires { index < length text.now }
    ensures { result ≡ spec.is_minus_at index text.now }
{
    text[index] == b'-'
}

// Returns the sum of the terms of a text, of which there are at most `more` after the first.
fn sum_by(more: usize, otherwise: Option<Unit>, at: usize, text: &[u8]) -> Result<Whole, Fault>
    requires at { at ≤ 4000 }
    requires text { length text.now ≤ 256 }
    requires more { more ≤ 256 }
    ensures value { result ≡ spec.sum_by more otherwise at text.now }
    ensures bound { IfOk result (λ w. unsigned_abs w.amount ≤ 1000000000000 * (more + 1)) }
{
    let index = last_operator(text);
    if more == 0 || index == 0 {
        return term_in(otherwise, at, text);
    }
    let last = later_term(otherwise, at + (index + 1), &text[index + 1..])?;
    let first = sum_by(more - 1, last.unit, at, &text[..index])?;
    Ok(joined(is_minus_at(index, text), &first, &last))
}

// Refuses a sum above the greatest length.
fn not_too_large(sum: Whole) -> Result<Whole, Fault>
    ensures { result ≡ spec.not_too_large sum }
{
    let kind = Kind::Length;
    if kind.most() < sum.amount.unsigned_abs() {
        return Err(Fault {
            column: sum.column,
            cause: Cause::TooLarge(kind),
        });
    }
    Ok(sum)
}

/// Returns the length that a text says, whose first byte is in the column after `at`: a term, or a
/// sum of terms. If its last term has no unit, `otherwise` counts.
#[tactic(auto, unfolding(crate::specs::Sums::sum_in))]
pub(crate) fn sum_in(otherwise: Option<Unit>, at: usize, text: &[u8]) -> Result<Whole, Fault>
    requires at { at ≤ 4000 }
    requires text { length text.now ≤ 256 }
    ensures { result ≡ spec.sum_in otherwise at text.now }
{
    let sum = sum_by(text.len(), otherwise, at, text)?;
    not_too_large(sum)
}
