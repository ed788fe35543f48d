//! A text with one unit.
ghost use Rattle.std.specs.Prelude.{◌≡◌, ◌≤◌, ◌<◌, ◌*◌, ◌/◌, IfOk, length, unsigned_abs};
ghost use Rattle.ngc_quantities.specs.Numbers.{IsRatio};
ghost use Rattle.ngc_quantities.specs.Units.{most_of};
ghost use Rattle.ngc_quantities.specs.Written as spec;

use crate::fault::{Cause, Fault};
use crate::near::meant;
use crate::number::{Number, number_in};
use crate::text::{begins, blank_count, has, split_word, unblanked};
use crate::unit::{ALL, Ending, Kind, Unit, named};

/// What a text is to be.
#[derive(Clone, Copy)]
pub struct Wanted {
    pub kind: Kind,
    /// The unit that counts if the text has none.
    pub otherwise: Option<Unit>,
    pub ending: Ending,
}

/// What a text says.
#[derive(Clone, Copy)]
pub struct Written {
    pub number: Number,
    pub unit: Unit,
    /// The column where the number begins.
    pub column: usize,
}

/// A whole number of base units.
#[derive(Clone, Copy)]
pub struct Whole {
    pub amount: i64,
    /// The unit in which it is written, or `None` if it is a sum of terms with different ones.
    pub unit: Option<Unit>,
    /// The column where the number begins.
    pub column: usize,
}

/// Returns a result whose refusal gets a column.
pub(crate) fn placed<T>(column: usize, found: Result<T, Cause>) -> Result<T, Fault>
    ensures { result ≡ spec.placed column found }
{
    match found {
        Ok(value) => Ok(value),
        Err(cause) => Err(Fault { column, cause }),
    }
}

fn is_of_number(byte: u8) -> bool
    ensures { result ≡ spec.is_of_number byte }
{
    byte.is_ascii_digit() || matches!(byte, b' ' | b'\t' | b'+' | b'-' | b'.' | b'/')
}

#[tactic(auto, using(crate::proofs::Counts::counted))]
fn number_length(text: &[u8]) -> usize
    ensures count { result ≡ spec.number_length text.now }
    ensures within { result ≤ length text.now }
{
    text.iter().take_while(|byte| is_of_number(**byte)).count()
}

/// Returns the text of the number, and the unit with what is after it.
pub(crate) fn split_number(text: &[u8]) -> (&[u8], &[u8])
    ensures number { result.0.now ≡ spec.number_text text.now }
    ensures unit { result.1.now ≡ spec.unit_text text.now }
{
    let (number, rest) = text.split_at(number_length(text));
    (unblanked(number), rest)
}

fn unit_missing(kind: Kind, otherwise: Option<Unit>) -> Result<Unit, Cause>
    ensures { result ≡ spec.unit_missing kind otherwise }
{
    match otherwise {
        Some(unit) => Ok(unit),
        None => Err(Cause::NoUnit(kind)),
    }
}

fn unit_unknown(kind: Kind, word: &[u8], other: Option<Unit>) -> Result<Unit, Cause>
    ensures { result ≡ spec.unit_unknown kind word.now other }
{
    match other {
        Some(unit) => Err(Cause::OtherKind { kind, unit }),
        None => {
            let meant = meant(word, kind.units());
            Err(Cause::UnknownUnit { kind, meant })
        }
    }
}

#[tactic(auto, unfolding(crate::specs::Written::unit_in))]
fn unit_in(kind: Kind, otherwise: Option<Unit>, word: &[u8]) -> Result<Unit, Cause>
    ensures { result ≡ spec.unit_in kind otherwise word.now }
{
    if word.is_empty() {
        return unit_missing(kind, otherwise);
    }
    if begins(b',', word) {
        return Err(Cause::Comma);
    }
    match named(word, kind.units()) {
        Some(unit) => Ok(unit),
        None => unit_unknown(kind, word, named(word, &ALL)),
    }
}

fn fraction_of(is_fraction: bool, unit: Unit) -> Result<Unit, Cause>
    ensures { result ≡ spec.fraction_of is_fraction unit }
{
    if is_fraction && !unit.is_inch() {
        return Err(Cause::FractionUnit);
    }
    Ok(unit)
}

// Returns whether the word follows, and after it blanks at most.
fn ends_with(word: &[u8], rest: &[u8]) -> bool
    ensures { result ≡ spec.ends_with word.now rest.now }
{
    let (found, more) = split_word(unblanked(rest));
    found == word && unblanked(more).is_empty()
}

fn ending_in(ending: Ending, rest: &[u8]) -> Result<Ending, Cause>
    ensures { result ≡ spec.ending_in ending rest.now }
{
    if !ends_with(ending.text(), rest) {
        return Err(Cause::OtherEnding(ending));
    }
    Ok(ending)
}

/// Returns the number and the unit of a text, whose first byte is in the column after `at`.
#[tactic(auto, unfolding(crate::specs::Written::written_in))]
pub(crate) fn written_in(wanted: &Wanted, at: usize, text: &[u8]) -> Result<Written, Fault>
    requires at { at ≤ 5000 }
    requires text { length text.now ≤ 256 }
    ensures value { result ≡ spec.written_in wanted.now at text.now }
    ensures ratio { IfOk result (λ w. IsRatio w.number.ratio) }
{
    let (number_text, rest) = split_number(text);
    let column = at + blank_count(text) + 1;
    let unit_column = at + number_length(text) + 1;
    let (word, after) = split_word(rest);
    let number = placed(column, number_in(number_text))?;
    let unit = placed(unit_column, unit_in(wanted.kind, wanted.otherwise, word))?;
    placed(unit_column, fraction_of(has(b'/', number_text), unit))?;
    placed(unit_column + word.len(), ending_in(wanted.ending, after))?;
    Ok(Written {
        number,
        unit,
        column,
    })
}

/// Returns a number by its sign and its size.
fn signed(negative: bool, size: u64) -> i64
    requires { size ≤ 1000000000001 }
    ensures value { result ≡ spec.signed negative size }
    ensures size { unsigned_abs result ≡ size }
{
    let size = size as i64;
    if negative { -size } else { size }
}

fn between(negative: bool, size: u64) -> Cause
    requires { size ≤ 1000000000000 }
    ensures { result ≡ spec.between negative size }
{
    let nearer = signed(negative, size);
    let farther = signed(negative, size + 1);
    if negative {
        Cause::Between {
            low: farther,
            high: nearer,
        }
    } else {
        Cause::Between {
            low: nearer,
            high: farther,
        }
    }
}

// Returns the whole part of a ratio that is at most `most`.
#[tactic(auto, using(crate::proofs::Counts::quotient_within))]
fn quotient(top: u128, bottom: u128, most: u64) -> u64
    requires some { 0 < bottom }
    requires limit { top ≤ bottom * most }
    ensures value { result ≡ top / bottom }
    ensures bound { result ≤ most }
{
    (top / bottom) as u64
}

fn amount_of(negative: bool, top: u128, bottom: u128, most: u64) -> Result<i64, Cause>
    requires some { 0 < bottom }
    requires limit { top ≤ bottom * most }
    requires most { most ≤ 1000000000000 }
    ensures value { result ≡ spec.amount_of negative top bottom }
    ensures bound { IfOk result (λ n. unsigned_abs n ≤ most) }
{
    let size = quotient(top, bottom, most);
    if top % bottom != 0 {
        return Err(between(negative, size));
    }
    Ok(signed(negative, size))
}

#[tactic(auto, unfolding(crate::specs::Written::whole_of))]
fn whole_of(kind: Kind, w: &Written) -> Result<i64, Cause>
    requires { IsRatio w.now.number.ratio }
    ensures value { result ≡ spec.whole_of kind w.now }
    ensures bound { IfOk result (λ n. unsigned_abs n ≤ most_of kind) }
{
    let top = w.number.ratio.top * u128::from(w.unit.size());
    let bottom = u128::from(w.number.ratio.bottom);
    let most = kind.most();
    if u128::from(most) * bottom < top {
        return Err(Cause::TooLarge(kind));
    }
    amount_of(w.number.negative, top, bottom, most)
}

/// Returns the amount of a text, whose first byte is in the column after `at`.
#[tactic(auto, unfolding(crate::specs::Written::whole_in))]
pub(crate) fn whole_in(wanted: &Wanted, at: usize, text: &[u8]) -> Result<Whole, Fault>
    requires at { at ≤ 5000 }
    requires text { length text.now ≤ 256 }
    ensures value { result ≡ spec.whole_in wanted.now at text.now }
    ensures bound { IfOk result (λ w. unsigned_abs w.amount ≤ most_of wanted.now.kind) }
{
    let written = written_in(wanted, at, text)?;
    let amount = placed(written.column, whole_of(wanted.kind, &written))?;
    Ok(Whole {
        amount,
        unit: Some(written.unit),
        column: written.column,
    })
}
