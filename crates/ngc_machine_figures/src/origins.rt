//! The origins of the coordinate systems.
ghost use Rattle.std.specs.Prelude.{◌≡◌, None, replicate};
ghost use Rattle.toml.specs.View.{view};
ghost use Rattle.ngc_machine_figures.specs.Sheets as spec;

use crate::found::only_known;
use crate::key::{Key, ORIGIN_KEYS};
use crate::refusal::FileRefusal;
use crate::written::optional;
use ngc_quantities::Place;
use toml::Value;

#[tactic(auto, unfolding(crate::specs::Sheets::first_origins))]
fn first_origins(table: &Value) -> Result<[Option<Place>; 5], FileRefusal>
    ensures { result ≡ spec.first_origins (view table.now) }
{
    let g54 = optional(Key::Origin(1), table)?;
    let g55 = optional(Key::Origin(2), table)?;
    let g56 = optional(Key::Origin(3), table)?;
    let g57 = optional(Key::Origin(4), table)?;
    let g58 = optional(Key::Origin(5), table)?;
    Ok([g54, g55, g56, g57, g58])
}

#[tactic(auto, unfolding(crate::specs::Sheets::last_origins))]
fn last_origins(table: &Value) -> Result<[Option<Place>; 4], FileRefusal>
    ensures { result ≡ spec.last_origins (view table.now) }
{
    let g59 = optional(Key::Origin(6), table)?;
    let g59_1 = optional(Key::Origin(7), table)?;
    let g59_2 = optional(Key::Origin(8), table)?;
    let g59_3 = optional(Key::Origin(9), table)?;
    Ok([g59, g59_1, g59_2, g59_3])
}

#[tactic(auto, unfolding(crate::specs::Sheets::origins_of))]
fn origins_of(table: &Value) -> Result<[Option<Place>; 9], FileRefusal>
    ensures { result ≡ spec.origins_of (view table.now) }
{
    only_known(Key::Origins, &ORIGIN_KEYS, table)?;
    let first = first_origins(table)?;
    let last = last_origins(table)?;
    Ok([
        first[0], first[1], first[2], first[3], first[4], last[0], last[1], last[2], last[3],
    ])
}

/// Reads the origins of a file.
#[tactic(auto, unfolding(crate::specs::Sheets::origins_at))]
pub fn origins_at(tree: &Value) -> Result<[Option<Place>; 9], FileRefusal>
    ensures { result ≡ spec.origins_at (view tree.now) }
{
    match tree.get("origin") {
        Some(table) => origins_of(table),
        None => Ok([None; 9]),
    }
}
