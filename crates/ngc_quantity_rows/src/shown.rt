//! The result of a call as a text, and the calls by their names.

use ngc_quantities::{
    Cause, Ending, Fault, Kind, Place, Range, Step, Unit, acceleration_of, length_of,
    length_range_of, motor_of, place_of, speed_limits_of, speed_of, speed_range_of,
    turning_limits_of, turning_of, turning_range_of,
};
use std::alloc::{AllocError, Global};

fn kind_word(kind: Kind) -> &'static str {
    match kind {
        Kind::Length => "length",
        Kind::Speed => "speed",
        Kind::Acceleration => "acceleration",
        Kind::Turning => "turning",
        Kind::Steps => "steps",
        Kind::Angle => "angle",
        Kind::Microsteps => "microsteps",
        Kind::Teeth => "teeth",
    }
}

fn unit_word(unit: Option<Unit>) -> &'static str {
    match unit {
        None => "nothing",
        Some(unit) => str::from_utf8(unit.name()).unwrap_or("?"),
    }
}

fn ending_word(ending: Ending) -> &'static str {
    match ending {
        Ending::Nothing => "nothing",
        Ending::Pitch => "pitch",
        Ending::Belt => "belt",
    }
}

fn plain_cause(cause: Cause) -> &'static str {
    match cause {
        Cause::LongText => "long text",
        Cause::NoNumber => "no number",
        Cause::NoBlanks => "no blanks",
        Cause::ManyDigits => "many digits",
        Cause::ZeroBelow => "over zero",
        Cause::Comma => "comma",
        Cause::FractionUnit => "fraction",
        Cause::Negative => "negative",
        Cause::Zero => "zero",
        Cause::NoTo => "no to",
        Cause::Reversed => "reversed",
        Cause::NoGear => "no gear",
        _ => "?",
    }
}

fn fault_text(alloc: Global, fault: &Fault) -> Result<String, AllocError> {
    let column = fault.column;
    match fault.cause {
        Cause::NoUnit(kind) => {
            let kind = kind_word(kind);
            format!(in alloc; "{column}: no unit of {kind}")
        }
        Cause::UnknownUnit { kind, meant } => {
            let (kind, meant) = (kind_word(kind), unit_word(meant));
            format!(in alloc; "{column}: unknown unit of {kind}, meant {meant}")
        }
        Cause::OtherKind { kind, unit } => {
            let (kind, unit) = (kind_word(kind), unit_word(Some(unit)));
            format!(in alloc; "{column}: {unit} is not of {kind}")
        }
        Cause::OtherEnding(ending) => {
            let ending = ending_word(ending);
            format!(in alloc; "{column}: {ending} wanted after the unit")
        }
        Cause::TooLarge(kind) => {
            let kind = kind_word(kind);
            format!(in alloc; "{column}: large {kind}")
        }
        Cause::Between { low, high } => format!(in alloc; "{column}: between {low} and {high}"),
        cause => {
            let cause = plain_cause(cause);
            format!(in alloc; "{column}: {cause}")
        }
    }
}

fn signed_text(alloc: Global, found: Result<i64, Fault>) -> Result<String, AllocError> {
    match found {
        Ok(n) => format!(in alloc; "{n}"),
        Err(fault) => fault_text(alloc, &fault),
    }
}

fn size_text(alloc: Global, found: Result<u64, Fault>) -> Result<String, AllocError> {
    match found {
        Ok(n) => format!(in alloc; "{n}"),
        Err(fault) => fault_text(alloc, &fault),
    }
}

fn range_text(alloc: Global, found: Result<Range, Fault>) -> Result<String, AllocError> {
    match found {
        Ok(Range { low, high }) => format!(in alloc; "{low} {high}"),
        Err(fault) => fault_text(alloc, &fault),
    }
}

fn place_text(alloc: Global, found: Result<Place, Fault>) -> Result<String, AllocError> {
    match found {
        Ok(Place { x, y, z }) => format!(in alloc; "{x} {y} {z}"),
        Err(fault) => fault_text(alloc, &fault),
    }
}

// Returns whether a ratio is that of an expected text, as 1000000/189.
fn is_ratio(step: &Step, expected: &str) -> bool {
    let Some((top, bottom)) = expected.split_once('/') else {
        return false;
    };
    let (Ok(top), Ok(bottom)) = (top.parse::<u64>(), bottom.parse::<u64>()) else {
        return false;
    };
    match (
        step.nanometres.checked_mul(u128::from(bottom)),
        step.steps.checked_mul(u128::from(top)),
    ) {
        (Some(left), Some(right)) => left == right,
        _ => false,
    }
}

fn step_text(
    alloc: Global,
    found: Result<Step, Fault>,
    expected: &str,
) -> Result<String, AllocError> {
    match found {
        Ok(step) => {
            if is_ratio(&step, expected) {
                return format!(in alloc; "{expected}");
            }
            let (nanometres, steps) = (step.nanometres, step.steps);
            format!(in alloc; "{nanometres}/{steps}")
        }
        Err(fault) => fault_text(alloc, &fault),
    }
}

fn found_text(
    alloc: Global,
    call: &str,
    text: &[u8],
    expected: &str,
) -> Result<String, AllocError> {
    match call {
        "length" => signed_text(alloc, length_of(text)),
        "speed" => size_text(alloc, speed_of(text)),
        "acceleration" => size_text(alloc, acceleration_of(text)),
        "turning" => size_text(alloc, turning_of(text)),
        "lengths" => range_text(alloc, length_range_of(text)),
        "speeds" => range_text(alloc, speed_range_of(text)),
        "turnings" => range_text(alloc, turning_range_of(text)),
        "speed limits" => range_text(alloc, speed_limits_of(text)),
        "turning limits" => range_text(alloc, turning_limits_of(text)),
        "place" => place_text(alloc, place_of(text)),
        "motor" => step_text(alloc, motor_of(text), expected),
        _ => format!(in alloc; "no call"),
    }
}

/// Returns the result of a call as a text, or `None` if it is the expected one.
pub(crate) fn shown(
    alloc: Global,
    call: &str,
    text: &[u8],
    expected: &str,
) -> Result<Option<String>, AllocError> {
    let found = found_text(alloc, call, text, expected)?;
    if found.as_str() == expected {
        return Ok(None);
    }
    Ok(Some(found))
}
