//! The fixtures of a job.
ghost use Rattle.std.specs.Prelude.{◌≡◌, ◌≤◌, length, IfOk, IsTrue};
ghost use Rattle.toml.specs.View.{view, items_view};
ghost use Rattle.ngc_machine_figures.specs.Reading.{ok_map};
ghost use Rattle.ngc_job_files.specs.Clamps as spec;

use crate::job::JobFixture;
use ngc_machine_figures::{
    FileRefusal, Key, Numbered, Wrong, corners_of, each, fixture_box, fixture_keys, only_known,
    optional,
};
use std::alloc::{AllocError, Global};
use toml::Value;

#[tactic(auto, unfolding(crate::specs::Clamps::clamp_of))]
fn fixture_of(number: u16, table: &Value) -> Result<JobFixture, FileRefusal>
    ensures { result ≡ spec.clamp_of number (view table.now) }
{
    only_known(Key::Fixture(number), &fixture_keys(number), table)?;
    let name = optional(Key::FixtureName(number), table)?;
    let system = optional(Key::FixtureIn(number), table)?;
    let corners = corners_of(&fixture_box(number), table)?;
    Ok(JobFixture {
        name,
        system,
        corners,
    })
}

impl Numbered<()> for JobFixture {
    ghost reading = { λ _. spec.clamp_of };

    fn read(_context: &(), number: u16, value: &Value) -> Result<JobFixture, FileRefusal> {
        fixture_of(number, value)
    }
}

#[tactic(auto, unfolding(crate::specs::Clamps::is_few))]
fn is_few(values: &[Value]) -> bool
    ensures value { result ≡ spec.is_few (items_view values.now) }
    ensures few { IsTrue result → length values.now ≤ 16 }
{
    values.len() <= 16
}

#[tactic(auto, unfolding(crate::specs::Clamps::few_clamps))]
fn few_fixtures(
    alloc: Global,
    values: &[Value],
) -> Result<Result<Vec<JobFixture>, FileRefusal>, AllocError>
    ensures { IfOk result (λ said. ok_map (λ v. v.items) said
        ≡ spec.few_clamps (items_view values.now)) }
{
    if is_few(values) {
        each(alloc, &(), values)
    } else {
        Ok(Err(FileRefusal {
            key: Key::Fixtures,
            wrong: Wrong::ManyClamps,
        }))
    }
}

fn fixtures_of(
    alloc: Global,
    value: &Value,
) -> Result<Result<Vec<JobFixture>, FileRefusal>, AllocError>
    ensures { IfOk result (λ said. ok_map (λ v. v.items) said ≡ spec.clamps_of (view value.now)) }
{
    match value.as_array() {
        Some(array) => few_fixtures(alloc, array.as_slice()),
        None => Ok(Err(FileRefusal {
            key: Key::Fixtures,
            wrong: Wrong::NoArray,
        })),
    }
}

/// Reads the fixtures of a job file, in its order.
#[tactic(auto, unfolding(crate::specs::Clamps::clamps_at))]
pub(crate) fn fixtures_at(
    alloc: Global,
    tree: &Value,
) -> Result<Result<Vec<JobFixture>, FileRefusal>, AllocError>
    ensures { IfOk result (λ said. ok_map (λ v. v.items) said ≡ spec.clamps_at (view tree.now)) }
{
    match tree.get("fixture") {
        Some(value) => fixtures_of(alloc, value),
        None => Ok(Ok(Vec::new(alloc))),
    }
}
