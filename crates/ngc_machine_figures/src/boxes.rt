//! Boxes, each with two corners.
ghost use Rattle.std.specs.Prelude.{◌≡◌, IfOk};
ghost use Rattle.toml.specs.View.{view};
ghost use Rattle.ngc_machine_figures.specs.Boxes as spec;

use crate::key::Key;
use crate::refusal::{FileRefusal, Wrong};
use crate::sheet::BoxSheet;
use crate::written::{optional, required};
use ngc_quantities::Place;
use toml::Value;

// A length of a corner is at most this, in nanometres.
const MOST: i64 = 4_000_000_000;

/// The keys of a box, and the table that has them.
#[derive(Clone, Copy)]
pub struct BoxKeys {
    pub table: Key,
    pub from: Key,
    pub to: Key,
    pub size: Key,
}

fn is_near(length: i64) -> bool
    ensures { result ≡ spec.is_near length }
{
    -MOST <= length && length <= MOST
}

/// Returns a place whose lengths are at most 4,000 mm in size.
pub(crate) fn near(key: Key, place: &Place) -> Result<Place, FileRefusal>
    ensures value { result ≡ spec.near key place.now }
    ensures near { IfOk result spec.IsNear }
{
    if is_near(place.x) && is_near(place.y) && is_near(place.z) {
        Ok(*place)
    } else {
        Err(FileRefusal {
            key,
            wrong: Wrong::Far,
        })
    }
}

// Returns the sum of two places.
fn sum(place: &Place, other: &Place) -> Place
    requires place { spec.IsNear place.now }
    requires other { spec.IsNear other.now }
    ensures { result ≡ spec.sum place.now other.now }
{
    Place {
        x: place.x + other.x,
        y: place.y + other.y,
        z: place.z + other.z,
    }
}

/// Returns the sum of two places, whose lengths are at most 4,000 mm in size again.
#[tactic(auto, unfolding(crate::specs::Boxes::near_sum))]
pub(crate) fn near_sum(key: Key, place: &Place, other: &Place) -> Result<Place, FileRefusal>
    requires place { spec.IsNear place.now }
    requires other { spec.IsNear other.now }
    ensures value { result ≡ spec.near_sum key place.now other.now }
    ensures near { IfOk result spec.IsNear }
{
    near(key, &sum(place, other))
}

fn end_of(
    keys: &BoxKeys,
    from: &Place,
    to: Option<Place>,
    size: Option<Place>,
) -> Result<Place, FileRefusal>
    requires { spec.IsNear from.now }
    ensures value { result ≡ spec.end_of keys.now from.now to size }
    ensures near { IfOk result spec.IsNear }
{
    match (to, size) {
        (Some(to), None) => near(keys.to, &to),
        (None, Some(size)) => {
            let size = near(keys.size, &size)?;
            near_sum(keys.size, from, &size)
        }
        (None, None) => Err(FileRefusal {
            key: keys.table,
            wrong: Wrong::NoEnd,
        }),
        (Some(_), Some(_)) => Err(FileRefusal {
            key: keys.size,
            wrong: Wrong::TwoEnds,
        }),
    }
}

/// Reads the corners of a box.
#[tactic(auto, unfolding(crate::specs::Boxes::corners_of))]
pub fn corners_of(keys: &BoxKeys, table: &Value) -> Result<BoxSheet, FileRefusal>
    ensures value { result ≡ spec.corners_of keys.now (view table.now) }
    ensures near { IfOk result spec.AreNear }
{
    let from = required(keys.from, table)?;
    let from = near(keys.from, &from)?;
    let to = optional(keys.to, table)?;
    let size = optional(keys.size, table)?;
    let end = end_of(keys, &from, to, size)?;
    Ok(BoxSheet { from, to: end })
}
