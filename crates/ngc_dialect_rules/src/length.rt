//! Lengths of a line's words, and how they are written again.
ghost use Rattle.std.specs.Prelude.{◌≡◌, ◌≤◌, ◌^◌, pos, ◌+ℤ◌, ◌*ℤ◌, unsigned_abs};
ghost use Rattle.ngc_fixed_length.specs.Length.{nanometres_in};
ghost use Rattle.ngc_fixed_length.specs.declared.units.Units.TheVariants as units;
ghost use Rattle.ngc_dialect_rules.specs.Lengths as spec;

use crate::fault::{Cause, Fault, about_letter};
use crate::word::value_of;
use ngc_dialect_numbers::Number;
use ngc_dialect_parameters::Word;
use ngc_fixed_length::{Nm, Units, Value, rounded_quotient};
use ngc_offsets::AxisLengths;

/// Returns a length in nanometres, or refuses it over 100 metres.
pub fn limited(letter: u8, nanometres: i128) -> Result<Nm, Fault>
    ensures { result ≡ spec.limited letter nanometres }
{
    match Nm::from_nanometres(nanometres) {
        Ok(length) => Ok(length),
        Err(_) => Err(about_letter(Cause::LengthTooLarge, letter)),
    }
}

// Returns the length of a value in a unit, in 10^-12 nm.
fn scaled(units: Units, number: Number) -> i128
    ensures value { result ≡ number *ℤ nanometres_in units }
    ensures bound { unsigned_abs result ≤ 10 ^ 29 }
{
    match units {
        Units::Millimetres => number.trillionths() * 1_000_000,
        Units::Inches => number.trillionths() * 25_400_000,
    }
}

/// Returns the length of a value in a unit.
#[tactic(auto, unfolding(crate::specs::Lengths::length_in))]
pub fn length_in(units: Units, letter: u8, value: Number) -> Result<Nm, Fault>
    ensures { result ≡ spec.length_in units letter value }
{
    let nanometres = rounded_quotient(scaled(units, value), 1_000_000_000_000);
    limited(letter, nanometres)
}

/// Returns the length of a letter's word, if it is on the line.
#[tactic(auto, unfolding(crate::specs::Lengths::word_length))]
pub fn word_length(units: Units, letter: u8, words: &[Word]) -> Result<Option<Nm>, Fault>
    ensures { result ≡ spec.word_length units letter words.now }
{
    match value_of(letter, words) {
        None => Ok(None),
        Some(value) => match length_in(units, letter, value) {
            Ok(length) => Ok(Some(length)),
            Err(fault) => Err(fault),
        },
    }
}

/// Returns the lengths of X, Y and Z.
#[tactic(auto, unfolding(crate::specs::Lengths::axis_lengths))]
pub(crate) fn axis_lengths(units: Units, words: &[Word]) -> Result<AxisLengths, Fault>
    ensures { result ≡ spec.axis_lengths units words.now }
{
    let x = word_length(units, b'X', words)?;
    let y = word_length(units, b'Y', words)?;
    let z = word_length(units, b'Z', words)?;
    Ok(AxisLengths { x, y, z })
}

/// Returns a length with another one added, if it is present.
pub(crate) fn moved_length(letter: u8, by: Nm, length: Option<Nm>) -> Result<Option<Nm>, Fault>
    ensures { result ≡ spec.moved_length letter by length }
{
    match length {
        None => Ok(None),
        Some(length) => {
            let sum = i128::from(length.nanometres()) + i128::from(by.nanometres());
            match limited(letter, sum) {
                Ok(sum) => Ok(Some(sum)),
                Err(fault) => Err(fault),
            }
        }
    }
}

// Returns a length in millionths of a millimetre.
fn in_millimetres(length: Nm) -> Value
    ensures { result ≡ length }
{
    match Value::from_millionths(i128::from(length.nanometres())) {
        Ok(value) => value,
        Err(_) => Value::zero(),
    }
}

// Returns a length in millionths of an inch, rounded.
fn in_inches(length: Nm) -> Value
    ensures { result ≡ spec.in_inches length }
{
    match Value::from_millionths(rounded_quotient(i128::from(length.nanometres()) * 10, 254)) {
        Ok(value) => value,
        Err(_) => Value::zero(),
    }
}

// Returns whether a value in inches is read as a length.
fn are_inches(value: Value, length: Nm) -> bool
    ensures { result ≡ spec.are_inches value length }
{
    value.nanometres(Units::Inches) == length.nanometres()
}

/// Returns a length as a program has it, in millionths of the unit. Returns `None` if no such value
/// is the length.
#[tactic(auto, unfolding(crate::specs::Lengths::written_in))]
pub(crate) fn written_in(units: Units, length: Nm) -> Option<Value>
    ensures { result ≡ spec.written_in units length }
{
    match units {
        Units::Millimetres => Some(in_millimetres(length)),
        Units::Inches => {
            let inches = in_inches(length);
            if are_inches(inches, length) {
                Some(inches)
            } else {
                None
            }
        }
    }
}

fn is_exact_length(units: Units, length: Option<Nm>) -> bool
    ensures { result ≡ spec.is_exact_length units length }
{
    match length {
        None => true,
        Some(length) => written_in(units, length).is_some(),
    }
}

// Returns whether inches can write the lengths. This is a function of its own, so that lengths in
// millimetres take no call.
#[inline(never)]
#[tactic(auto, unfolding(crate::specs::Lengths::is_exact))]
fn is_exact_in_inches(axes: &AxisLengths) -> bool
    ensures { result ≡ spec.is_exact units.Inches axes.now }
{
    is_exact_length(Units::Inches, axes.x)
        && is_exact_length(Units::Inches, axes.y)
        && is_exact_length(Units::Inches, axes.z)
}

/// Returns whether a unit can write the lengths. Millimetres can write all.
#[tactic(auto, using(crate::proofs::ExactLengths::exact_in_millimetres))]
pub fn is_exact(units: Units, axes: &AxisLengths) -> bool
    ensures { result ≡ spec.is_exact units axes.now }
{
    match units {
        Units::Millimetres => true,
        Units::Inches => is_exact_in_inches(axes),
    }
}
