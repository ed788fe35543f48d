//! Keys and mistakes as texts.

use ngc_machine_figures::{AxisName, FileRefusal, Form, Key, Wrong};
use ngc_quantities::{Cause, Fault, Unit};
use std::alloc::{AllocError, Global};

fn axis_key(alloc: Global, axis: AxisName, key: Key) -> Result<String, AllocError> {
    let (axis, key) = (axis.name(), key.name());
    format!(in alloc; "axis.{axis}.{key}")
}

fn fixture_key(alloc: Global, number: u16, key: Key) -> Result<String, AllocError> {
    let key = key.name();
    format!(in alloc; "fixture {number} {key}")
}

/// Returns a key with the table that it is in.
pub(crate) fn key_text(alloc: Global, key: Key) -> Result<String, AllocError> {
    match key {
        Key::File => format!(in alloc; "file"),
        Key::Axis(axis) => {
            let axis = axis.name();
            format!(in alloc; "axis.{axis}")
        }
        Key::Motor(axis) | Key::Travel(axis) | Key::Speed(axis) | Key::Acceleration(axis) => {
            axis_key(alloc, axis, key)
        }
        Key::Origin(_) => {
            let key = key.name();
            format!(in alloc; "origin.{key}")
        }
        Key::Fixture(number) => format!(in alloc; "fixture {number}"),
        Key::FixtureName(number)
        | Key::FixtureIn(number)
        | Key::FixtureFrom(number)
        | Key::FixtureTo(number)
        | Key::FixtureSize(number) => fixture_key(alloc, number, key),
        Key::StockIn | Key::StockFrom | Key::StockTo | Key::StockSize => {
            let key = key.name();
            format!(in alloc; "stock.{key}")
        }
        key => {
            let key = key.name();
            format!(in alloc; "{key}")
        }
    }
}

fn form_word(form: Form) -> &'static str {
    match form {
        Form::Length => "length",
        Form::Speed => "speed",
        Form::Acceleration => "acceleration",
        Form::Motor => "motor",
        Form::Range => "range",
        Form::Place => "place",
        Form::Feeds => "feeds",
        Form::Turning => "turning",
    }
}

fn unit_word(unit: Option<Unit>) -> &'static str {
    match unit {
        None => "nothing",
        Some(unit) => str::from_utf8(unit.name()).unwrap_or("?"),
    }
}

fn fault_text(alloc: Global, fault: &Fault) -> Result<String, AllocError> {
    let column = fault.column;
    match fault.cause {
        Cause::NoNumber => format!(in alloc; "column {column} no number"),
        Cause::NoUnit(_) => format!(in alloc; "column {column} no unit"),
        Cause::UnknownUnit { kind: _, meant } => {
            let meant = unit_word(meant);
            format!(in alloc; "column {column} unknown unit, meant {meant}")
        }
        Cause::OtherKind { kind: _, unit } => {
            let unit = unit_word(Some(unit));
            format!(in alloc; "column {column} another kind, {unit}")
        }
        Cause::Reversed => format!(in alloc; "column {column} reversed"),
        Cause::Negative => format!(in alloc; "column {column} negative"),
        Cause::NoTo => format!(in alloc; "column {column} no to"),
        _ => format!(in alloc; "column {column} other"),
    }
}

fn plain_word(wrong: &Wrong) -> &'static str {
    match wrong {
        Wrong::Missing => "missing",
        Wrong::Far => "far",
        Wrong::NoVersion => "no version",
        Wrong::NoDialect => "no dialect",
        Wrong::NoBool => "no bool",
        Wrong::NoRapids => "no rapids",
        Wrong::NoName => "no name",
        Wrong::NoSystem => "no system",
        Wrong::NoTable => "no table",
        Wrong::NoArray => "no array",
        Wrong::ManyFixtures => "many fixtures",
        Wrong::NoEnd => "no end",
        Wrong::TwoEnds => "two ends",
        _ => "?",
    }
}

fn wrong_text(alloc: Global, wrong: &Wrong) -> Result<String, AllocError> {
    match wrong {
        Wrong::Unknown { word, meant } => {
            let word = str::from_utf8(word.as_bytes()).unwrap_or("?");
            match meant {
                Some(key) => {
                    let key = key_text(alloc, *key)?;
                    format!(in alloc; "unknown {word}, meant {key}")
                }
                None => format!(in alloc; "unknown {word}"),
            }
        }
        Wrong::Bare(form) => {
            let form = form_word(*form);
            format!(in alloc; "bare {form}")
        }
        Wrong::NoText(form) => {
            let form = form_word(*form);
            format!(in alloc; "no text of {form}")
        }
        Wrong::Text(fault) => fault_text(alloc, fault),
        Wrong::NoWhole { low, high } => format!(in alloc; "no whole number {low} to {high}"),
        wrong => {
            let word = plain_word(wrong);
            format!(in alloc; "{word}")
        }
    }
}

/// Returns a refusal: the key, and what is wrong.
pub(crate) fn refusal_text(alloc: Global, refusal: &FileRefusal) -> Result<String, AllocError> {
    let key = key_text(alloc, refusal.key)?;
    let wrong = wrong_text(alloc, &refusal.wrong)?;
    format!(in alloc; "{key}: {wrong}")
}
