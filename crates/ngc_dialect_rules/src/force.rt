//! What is in force after a line's modes.
ghost use Rattle.std.specs.Prelude.{◌≡◌};
ghost use Rattle.ngc_dialect_rules.specs.Force as spec;

use crate::code::Code;
use crate::codes;
use crate::fault::{Cause, Fault, about_code};
use crate::front::Known;
use crate::length::length_in;
use crate::plan::InForce;
use crate::table::{code_in, has, is_among, is_linuxcnc};
use crate::word::value_of;
use ngc_dialect_numbers::Number;
use ngc_dialect_parameters::Word;
use ngc_fixed_length::{Distance, FeedMode, Nm, RetractMode, Units, Value};

fn units_by(before: Units, code: Option<Code>) -> Units
    ensures { result ≡ spec.units_by before code }
{
    match code {
        None => before,
        Some(code) => {
            if is_among(&codes::INCHES, code) {
                Units::Inches
            } else {
                Units::Millimetres
            }
        }
    }
}

fn distance_by(before: Distance, code: Option<Code>) -> Distance
    ensures { result ≡ spec.distance_by before code }
{
    match code {
        None => before,
        Some(code) => {
            if is_among(&codes::INCREMENTAL, code) {
                Distance::Incremental
            } else {
                Distance::Absolute
            }
        }
    }
}

fn feed_mode_by(before: FeedMode, code: Option<Code>) -> FeedMode
    ensures { result ≡ spec.feed_mode_by before code }
{
    match code {
        None => before,
        Some(code) => {
            if is_among(&codes::INVERSE_TIME, code) {
                FeedMode::InverseTime
            } else {
                FeedMode::PerMinute
            }
        }
    }
}

pub(crate) fn retract_by(before: RetractMode, code: Option<Code>) -> RetractMode
    ensures { result ≡ spec.retract_by before code }
{
    match code {
        None => before,
        Some(code) => {
            if is_among(&codes::SERIES_RETRACT, code) {
                RetractMode::Series
            } else {
                RetractMode::Retract
            }
        }
    }
}

pub(crate) fn centres_by(before: bool, code: Option<Code>) -> bool
    ensures { result ≡ spec.centres_by before code }
{
    match code {
        None => before,
        Some(code) => is_among(&codes::ABSOLUTE_CENTRES, code),
    }
}

fn feed_by(known: &Known, line: &[Code], f: Option<Value>) -> Option<Value>
    ensures { result ≡ spec.feed_by known.now line.now f }
{
    match f {
        Some(f) => Some(f),
        None => {
            if is_linuxcnc(known.dialect) && has(&codes::FEED_MODES, line) {
                None
            } else {
                known.front.feed
            }
        }
    }
}

pub(crate) fn is_moved(value: Option<Number>) -> bool
    ensures { result ≡ spec.is_moved value }
{
    match value {
        None => false,
        Some(value) => value.trillionths() != 0,
    }
}

fn length_on_z(known: &Known, units: Units, words: &[Word]) -> Result<Nm, Fault>
    ensures { result ≡ spec.length_on_z known.now units words.now }
{
    if is_moved(value_of(b'X', words)) || is_moved(value_of(b'Y', words)) {
        return Err(about_code(Cause::LengthOnOtherAxis, Code::G(431)));
    }
    match value_of(b'Z', words) {
        None => Ok(known.front.length),
        Some(value) => length_in(units, b'Z', value),
    }
}

#[tactic(auto, unfolding(crate::specs::Force::length_after))]
fn length_after(known: &Known, units: Units, line: &[Code], words: &[Word]) -> Result<Nm, Fault>
    ensures { result ≡ spec.length_after known.now units line.now words.now }
{
    if has(&codes::WORD_LENGTH, line) {
        length_on_z(known, units, words)
    } else if has(&codes::LENGTHS, line) {
        Ok(Nm::zero())
    } else {
        Ok(known.front.length)
    }
}

fn units_after(known: &Known, line: &[Code]) -> Units
    ensures { result ≡ spec.units_after known.now line.now }
{
    units_by(known.modes.units, code_in(&codes::UNITS, line))
}

/// Returns what is in force after a line's modes, if F of the line is `f`. Refuses a tool length of G43.1
/// over 100 metres.
#[tactic(auto, unfolding(crate::specs::Force::force_of))]
pub fn force_of(
    known: &Known,
    line: &[Code],
    words: &[Word],
    f: Option<Value>,
) -> Result<InForce, Fault>
    ensures { result ≡ spec.force_of known.now line.now words.now f }
{
    let units = units_after(known, line);
    let length = length_after(known, units, line, words)?;
    Ok(InForce {
        units,
        distance: distance_by(known.modes.distance, code_in(&codes::DISTANCES, line)),
        feed_mode: feed_mode_by(known.modes.feed_mode, code_in(&codes::FEED_MODES, line)),
        feed: feed_by(known, line, f),
        length,
    })
}
