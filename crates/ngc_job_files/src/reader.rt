//! Reading a job file.
ghost use Rattle.std.specs.Prelude.{◌≡◌, IfOk};
ghost use Rattle.toml.specs.View.{view};
ghost use Rattle.ngc_machine_figures.specs.Reading.{ok_map};
ghost use Rattle.ngc_job_files.specs.Jobs as spec;

use crate::fixtures::fixtures_at;
use crate::job::{JobFault, JobHead, JobSheet};
use crate::keys::JOB_KEYS;
use crate::path::paths_of;
use ngc_machine_figures::{FileRefusal, Key, only_known, optional, origins_at, stock_at, third};
use std::alloc::{AllocError, Global};
use toml::Value;

#[tactic(auto, unfolding(crate::specs::Jobs::version_at))]
fn version_at(tree: &Value) -> Result<(), FileRefusal>
    ensures { result ≡ spec.version_at (view tree.now) }
{
    match tree.get("version") {
        Some(value) => third(value),
        None => Ok(()),
    }
}

#[tactic(auto, unfolding(crate::specs::Jobs::head_of))]
fn head_of(tree: &Value) -> Result<JobHead, FileRefusal>
    ensures { result ≡ spec.head_of (view tree.now) }
{
    let dialect = optional(Key::Dialect, tree)?;
    let margin = optional(Key::Margin, tree)?;
    let travel_margin = optional(Key::TravelMargin, tree)?;
    let rapids = optional(Key::Rapids, tree)?;
    let origins = origins_at(tree)?;
    let stock = stock_at(tree)?;
    Ok(JobHead {
        dialect,
        margin,
        travel_margin,
        rapids,
        origins,
        stock,
    })
}

#[tactic(auto, unfolding(crate::specs::Jobs::known_at))]
fn known_at(tree: &Value) -> Result<(), FileRefusal>
    ensures { result ≡ spec.known_at (view tree.now) }
{
    version_at(tree)?;
    only_known(Key::File, &JOB_KEYS, tree)
}

#[tactic(auto, unfolding(crate::specs::Jobs::job_of))]
fn sheet_in(alloc: Global, tree: &Value) -> Result<Result<JobSheet<'_>, FileRefusal>, AllocError>
    ensures { IfOk result (λ said. ok_map spec.values_of said ≡ spec.job_of (view tree.now)) }
{
    if let Err(refusal) = known_at(tree) {
        return Ok(Err(refusal));
    }
    let paths = match paths_of(tree) {
        Ok(paths) => paths,
        Err(refusal) => return Ok(Err(refusal)),
    };
    let head = match head_of(tree) {
        Ok(head) => head,
        Err(refusal) => return Ok(Err(refusal)),
    };
    match fixtures_at(alloc, tree)? {
        Ok(fixtures) => Ok(Ok(JobSheet {
            paths,
            head,
            fixtures,
        })),
        Err(refusal) => Ok(Err(refusal)),
    }
}

/// Reads the tree of a job file. Returns the first mistake if it has one, and an error if memory is
/// refused.
pub fn read_job(alloc: Global, tree: &Value) -> Result<JobSheet<'_>, JobFault>
    ensures { spec.SaysJob result (spec.job_of (view tree.now)) }
{
    match sheet_in(alloc, tree) {
        Ok(Ok(job)) => Ok(job),
        Ok(Err(refusal)) => Err(JobFault::Refused(refusal)),
        Err(_) => Err(JobFault::Memory),
    }
}
