//! The fixtures.
ghost use Rattle.std.specs.Prelude.{◌≡◌, ◌≤◌, length, IfOk, IfErr, IsSome, IsTrue, codes};
ghost use Rattle.toml.specs.Data.{get};
ghost use Rattle.toml.specs.View.{view, items_view};
ghost use Rattle.ngc_machine_figures.specs.Reading.{ok_map};
ghost use Rattle.ngc_machine_figures.specs.Boxes as boxes;
ghost use Rattle.ngc_machine_figures.specs.Fixtures as spec;

use crate::array::{Numbered, each};
use crate::boxes::{BoxKeys, corners_of, near, near_sum};
use crate::found::only_known;
use crate::key::{Key, fixture_keys};
use crate::refusal::{FileRefusal, Wrong};
use crate::sheet::{BoxSheet, FixtureSheet, System};
use crate::written::optional;
use ngc_quantities::Place;
use std::alloc::{AllocError, Global};
use toml::Value;

/// Returns the keys of a fixture's box.
pub fn fixture_box(number: u16) -> BoxKeys
    ensures { result ≡ spec.fixture_box number }
{
    BoxKeys {
        table: Key::Fixture(number),
        from: Key::FixtureFrom(number),
        to: Key::FixtureTo(number),
        size: Key::FixtureSize(number),
    }
}

#[tactic(auto, unfolding(crate::specs::Fixtures::origin_of))]
fn origin_of(origins: &[Option<Place>; 9], system: System) -> Place
    ensures { result ≡ spec.origin_of origins.now system }
{
    match origins.get(usize::from(system.number).saturating_sub(1)) {
        Some(Some(place)) => *place,
        _ => Place { x: 0, y: 0, z: 0 },
    }
}

#[tactic(auto, unfolding(crate::specs::Fixtures::moved))]
fn moved(number: u16, origin: &Place, corners: &BoxSheet) -> Result<BoxSheet, FileRefusal>
    requires origin { boxes.IsNear origin.now }
    requires corners { boxes.AreNear corners.now }
    ensures { result ≡ spec.moved number origin.now corners.now }
{
    let from = near_sum(Key::FixtureFrom(number), &corners.from, origin)?;
    let to = near_sum(Key::Fixture(number), &corners.to, origin)?;
    Ok(BoxSheet { from, to })
}

// Returns the corners in the machine's coordinates.
fn in_machine(
    number: u16,
    origins: &[Option<Place>; 9],
    system: Option<System>,
    corners: &BoxSheet,
) -> Result<BoxSheet, FileRefusal>
    requires { boxes.AreNear corners.now }
    ensures { result ≡ spec.in_machine number origins.now system corners.now }
{
    match system {
        Some(system) => {
            let origin = origin_of(origins, system);
            let origin = near(Key::Origin(system.number), &origin)?;
            moved(number, &origin, corners)
        }
        None => Ok(*corners),
    }
}

#[tactic(auto, unfolding(crate::specs::Fixtures::fixture_of))]
fn fixture_of(
    number: u16,
    origins: &[Option<Place>; 9],
    table: &Value,
) -> Result<FixtureSheet, FileRefusal>
    ensures { result ≡ spec.fixture_of origins.now number (view table.now) }
{
    only_known(Key::Fixture(number), &fixture_keys(number), table)?;
    let name = optional(Key::FixtureName(number), table)?;
    let system = optional(Key::FixtureIn(number), table)?;
    let corners = corners_of(&fixture_box(number), table)?;
    let corners = in_machine(number, origins, system, &corners)?;
    Ok(FixtureSheet {
        name,
        system,
        corners,
    })
}

impl Numbered<[Option<Place>; 9]> for FixtureSheet {
    ghost reading = { spec.fixture_of };

    fn read(
        origins: &[Option<Place>; 9],
        number: u16,
        value: &Value,
    ) -> Result<FixtureSheet, FileRefusal> {
        fixture_of(number, origins, value)
    }
}

#[tactic(auto, unfolding(crate::specs::Fixtures::is_few))]
fn is_few(values: &[Value]) -> bool
    ensures value { result ≡ spec.is_few (items_view values.now) }
    ensures few { IsTrue result → length values.now ≤ 256 }
{
    values.len() <= 256
}

#[tactic(auto, unfolding(crate::specs::Fixtures::few_fixtures))]
fn few_fixtures(
    alloc: Global,
    origins: &[Option<Place>; 9],
    values: &[Value],
) -> Result<Result<Vec<FixtureSheet>, FileRefusal>, AllocError>
    ensures { IfOk result (λ said. ok_map (λ v. v.items) said
        ≡ spec.few_fixtures origins.now (items_view values.now)) }
{
    if is_few(values) {
        each(alloc, origins, values)
    } else {
        Ok(Err(FileRefusal {
            key: Key::Fixtures,
            wrong: Wrong::ManyFixtures,
        }))
    }
}

fn fixtures_of(
    alloc: Global,
    origins: &[Option<Place>; 9],
    value: &Value,
) -> Result<Result<Vec<FixtureSheet>, FileRefusal>, AllocError>
    ensures { IfOk result (λ said. ok_map (λ v. v.items) said
        ≡ spec.fixtures_of origins.now (view value.now)) }
{
    match value.as_array() {
        Some(array) => few_fixtures(alloc, origins, array.as_slice()),
        None => Ok(Err(FileRefusal {
            key: Key::Fixtures,
            wrong: Wrong::NoArray,
        })),
    }
}

/// Reads the fixtures of a file, in its order. If the key is missing, nothing is allocated.
#[tactic(auto, unfolding(crate::specs::Fixtures::fixtures_at))]
pub(crate) fn fixtures_at(
    alloc: Global,
    origins: &[Option<Place>; 9],
    tree: &Value,
) -> Result<Result<Vec<FixtureSheet>, FileRefusal>, AllocError>
    ensures fixtures { IfOk result (λ said. ok_map (λ v. v.items) said
        ≡ spec.fixtures_at origins.now (view tree.now)) }
    ensures memory { IfErr result (λ _. IsSome (get (codes "fixture") (view tree.now))) }
{
    match tree.get("fixture") {
        Some(value) => fixtures_of(alloc, origins, value),
        None => Ok(Ok(Vec::new(alloc))),
    }
}
