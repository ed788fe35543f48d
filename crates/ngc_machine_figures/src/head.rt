//! What is written before the fixtures.
ghost use Rattle.std.specs.Prelude.{◌≡◌};
ghost use Rattle.toml.specs.View.{view};
ghost use Rattle.ngc_machine_figures.specs.Sheets as spec;

use crate::axes::axes_at;
use crate::found::only_known;
use crate::key::{FILE_KEYS, Key};
use crate::origins::origins_at;
use crate::refusal::{FileRefusal, Wrong};
use crate::sheet::{ControlSheet, HeadSheet, PlaceSheet};
use crate::written::optional;
use toml::Value;

/// Refuses a version that isn't 3.
pub fn third(value: &Value) -> Result<(), FileRefusal>
    ensures { result ≡ spec.third (view value.now) }
{
    match value.as_integer() {
        Some(3) => Ok(()),
        _ => Err(FileRefusal {
            key: Key::Version,
            wrong: Wrong::NoVersion,
        }),
    }
}

#[tactic(auto, unfolding(crate::specs::Sheets::version_at))]
fn version_at(tree: &Value) -> Result<(), FileRefusal>
    ensures { result ≡ spec.version_at (view tree.now) }
{
    match tree.get("version") {
        Some(value) => third(value),
        None => Err(FileRefusal {
            key: Key::Version,
            wrong: Wrong::Missing,
        }),
    }
}

#[tactic(auto, unfolding(crate::specs::Sheets::control_of))]
fn control_of(tree: &Value) -> Result<ControlSheet, FileRefusal>
    ensures { result ≡ spec.control_of (view tree.now) }
{
    let dialect = optional(Key::Dialect, tree)?;
    let changer = optional(Key::Changer, tree)?;
    let ticks = optional(Key::Ticks, tree)?;
    let ring = optional(Key::Ring, tree)?;
    let corner = optional(Key::Corner, tree)?;
    let jump = optional(Key::Jump, tree)?;
    let arc_feed = optional(Key::ArcFeed, tree)?;
    let turn = optional(Key::Turn, tree)?;
    Ok(ControlSheet {
        dialect,
        changer,
        ticks,
        ring,
        corner,
        jump,
        arc_feed,
        turn,
    })
}

#[tactic(auto, unfolding(crate::specs::Sheets::places_of))]
fn places_of(tree: &Value) -> Result<PlaceSheet, FileRefusal>
    ensures { result ≡ spec.places_of (view tree.now) }
{
    let margin = optional(Key::Margin, tree)?;
    let travel_margin = optional(Key::TravelMargin, tree)?;
    let rapids = optional(Key::Rapids, tree)?;
    let start = optional(Key::Start, tree)?;
    let home28 = optional(Key::Home28, tree)?;
    let home30 = optional(Key::Home30, tree)?;
    Ok(PlaceSheet {
        margin,
        travel_margin,
        rapids,
        start,
        home28,
        home30,
    })
}

/// Reads what is written before the fixtures.
#[tactic(auto, unfolding(crate::specs::Sheets::head_of))]
pub(crate) fn head_of(tree: &Value) -> Result<HeadSheet, FileRefusal>
    ensures { result ≡ spec.head_of (view tree.now) }
{
    version_at(tree)?;
    only_known(Key::File, &FILE_KEYS, tree)?;
    let control = control_of(tree)?;
    let places = places_of(tree)?;
    let axes = axes_at(tree)?;
    let origins = origins_at(tree)?;
    Ok(HeadSheet {
        control,
        places,
        axes,
        origins,
    })
}
