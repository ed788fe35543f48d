//! The kinds of values.
ghost use Rattle.std.specs.Prelude.{◌≡◌, find};
ghost use Rattle.toml.specs.View.{view};
ghost use Rattle.ngc_machine_files.specs.Tree.{rapids_named};
ghost use Rattle.ngc_machine_figures.specs.Kinds as spec;

use crate::key::{Key, SYSTEMS, system_name};
use crate::refusal::{FileRefusal, Form, Wrong};
use crate::sheet::{Acceleration, Length, Speed, System};
use crate::written::{Written, found, no_text, said};
use ngc_dialect_names::Dialect;
use ngc_machine_files::{Name, Rapids};
use ngc_quantities::{
    Fault, Place, Range, Step, acceleration_of, length_of, length_range_of, motor_of, place_of,
    speed_of,
};
use toml::Value;

// ---- texts with a unit

#[tactic(auto, unfolding(crate::specs::Kinds::length_in))]
fn length_in(text: &str) -> Result<Length, Fault>
    ensures { result ≡ spec.length_in text.now }
{
    Ok(Length {
        nanometres: length_of(text.as_bytes())?,
    })
}

impl Written for Length {
    ghost reading = { spec.length_value };

    #[tactic(auto, unfolding(crate::specs::Kinds::length_value))]
    fn read(key: Key, value: &Value) -> Result<Length, FileRefusal> {
        match value.as_str() {
            Some(text) => said(key, length_in(text)),
            None => Err(no_text(key, Form::Length, value)),
        }
    }
}

#[tactic(auto, unfolding(crate::specs::Kinds::speed_in))]
fn speed_in(text: &str) -> Result<Speed, Fault>
    ensures { result ≡ spec.speed_in text.now }
{
    Ok(Speed {
        nanometres_a_minute: speed_of(text.as_bytes())?,
    })
}

impl Written for Speed {
    ghost reading = { spec.speed_value };

    #[tactic(auto, unfolding(crate::specs::Kinds::speed_value))]
    fn read(key: Key, value: &Value) -> Result<Speed, FileRefusal> {
        match value.as_str() {
            Some(text) => said(key, speed_in(text)),
            None => Err(no_text(key, Form::Speed, value)),
        }
    }
}

#[tactic(auto, unfolding(crate::specs::Kinds::acceleration_in))]
fn acceleration_in(text: &str) -> Result<Acceleration, Fault>
    ensures { result ≡ spec.acceleration_in text.now }
{
    Ok(Acceleration {
        nanometres_a_second_squared: acceleration_of(text.as_bytes())?,
    })
}

impl Written for Acceleration {
    ghost reading = { spec.acceleration_value };

    #[tactic(auto, unfolding(crate::specs::Kinds::acceleration_value))]
    fn read(key: Key, value: &Value) -> Result<Acceleration, FileRefusal> {
        match value.as_str() {
            Some(text) => said(key, acceleration_in(text)),
            None => Err(no_text(key, Form::Acceleration, value)),
        }
    }
}

impl Written for Step {
    ghost reading = { spec.motor_value };

    #[tactic(auto, unfolding(crate::specs::Kinds::motor_value))]
    fn read(key: Key, value: &Value) -> Result<Step, FileRefusal> {
        match value.as_str() {
            Some(text) => said(key, motor_of(text.as_bytes())),
            None => Err(no_text(key, Form::Motor, value)),
        }
    }
}

impl Written for Range {
    ghost reading = { spec.range_value };

    #[tactic(auto, unfolding(crate::specs::Kinds::range_value))]
    fn read(key: Key, value: &Value) -> Result<Range, FileRefusal> {
        match value.as_str() {
            Some(text) => said(key, length_range_of(text.as_bytes())),
            None => Err(no_text(key, Form::Range, value)),
        }
    }
}

impl Written for Place {
    ghost reading = { spec.place_value };

    #[tactic(auto, unfolding(crate::specs::Kinds::place_value))]
    fn read(key: Key, value: &Value) -> Result<Place, FileRefusal> {
        match value.as_str() {
            Some(text) => said(key, place_of(text.as_bytes())),
            None => Err(no_text(key, Form::Place, value)),
        }
    }
}

// ---- words

fn dialect_in(value: &Value) -> Option<Dialect>
    ensures { result ≡ spec.dialect_in (view value.now) }
{
    Dialect::named(value.as_str()?)
}

impl Written for Dialect {
    ghost reading = { spec.dialect_value };

    #[tactic(auto, unfolding(crate::specs::Kinds::dialect_value))]
    fn read(key: Key, value: &Value) -> Result<Dialect, FileRefusal> {
        found(key, Wrong::NoDialect, dialect_in(value))
    }
}

fn rapids_named(text: &str) -> Option<Rapids>
    ensures { result ≡ rapids_named text.now }
{
    match text {
        "straight" => Some(Rapids::Straight),
        "free" => Some(Rapids::Free),
        _ => None,
    }
}

fn rapids_in(value: &Value) -> Option<Rapids>
    ensures { result ≡ spec.rapids_in (view value.now) }
{
    rapids_named(value.as_str()?)
}

impl Written for Rapids {
    ghost reading = { spec.rapids_value };

    #[tactic(auto, unfolding(crate::specs::Kinds::rapids_value))]
    fn read(key: Key, value: &Value) -> Result<Rapids, FileRefusal> {
        found(key, Wrong::NoRapids, rapids_in(value))
    }
}

fn name_in(value: &Value) -> Option<Name>
    ensures { result ≡ spec.name_in (view value.now) }
{
    Name::of(value.as_str()?)
}

impl Written for Name {
    ghost reading = { spec.name_value };

    #[tactic(auto, unfolding(crate::specs::Kinds::name_value))]
    fn read(key: Key, value: &Value) -> Result<Name, FileRefusal> {
        found(key, Wrong::NoName, name_in(value))
    }
}

#[tactic(auto, unfolding(crate::specs::Kinds::system_number))]
fn system_number(text: &str) -> Option<u8>
    ensures { result ≡ spec.system_number text.now }
{
    SYSTEMS
        .iter()
        .copied()
        .find(|number| text == system_name(*number))
}

fn system_in(value: &Value) -> Option<System>
    ensures { result ≡ spec.system_in (view value.now) }
{
    let number = system_number(value.as_str()?)?;
    Some(System { number })
}

impl Written for System {
    ghost reading = { spec.system_value };

    #[tactic(auto, unfolding(crate::specs::Kinds::system_value))]
    fn read(key: Key, value: &Value) -> Result<System, FileRefusal> {
        found(key, Wrong::NoSystem, system_in(value))
    }
}

// ---- flags and whole numbers

impl Written for bool {
    ghost reading = { spec.flag_value };

    #[tactic(auto, unfolding(crate::specs::Kinds::flag_value))]
    fn read(key: Key, value: &Value) -> Result<bool, FileRefusal> {
        found(key, Wrong::NoBool, value.as_bool())
    }
}

// Returns the least and the greatest number that a key may have.
fn bounds_of(key: Key) -> (u32, u32)
    ensures { result ≡ spec.bounds_of key }
{
    match key {
        Key::Ticks => (1, 1_000_000),
        Key::Ring => (16, 1_024),
        _ => (0, 2),
    }
}

fn whole_from(low: u32, high: u32, number: i64) -> Option<u32>
    ensures { result ≡ spec.whole_from low high number }
{
    if i64::from(low) <= number && number <= i64::from(high) {
        Some(number as u32)
    } else {
        None
    }
}

fn whole_in(low: u32, high: u32, value: &Value) -> Option<u32>
    ensures { result ≡ spec.whole_in low high (view value.now) }
{
    whole_from(low, high, value.as_integer()?)
}

impl Written for u32 {
    ghost reading = { spec.whole_value };

    #[tactic(auto, unfolding(crate::specs::Kinds::whole_value))]
    fn read(key: Key, value: &Value) -> Result<u32, FileRefusal> {
        let (low, high) = bounds_of(key);
        found(
            key,
            Wrong::NoWhole { low, high },
            whole_in(low, high, value),
        )
    }
}
