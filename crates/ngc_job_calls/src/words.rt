//! The words that the bytes of a job file add.
ghost use Rattle.std.specs.Prelude.{map, string_bytes};
ghost use Rattle.toml.specs.View.{view};
ghost use Rattle.ngc_refused_files.specs.Stops.{StopsWhere};
ghost use Rattle.ngc_job_calls.specs.Said as spec;

use crate::bytes::without_mark;
use crate::fault::CallFault;
use crate::refusal::{no_document_text, refused_text};
use ngc_job_files::{JobFault, JobSheet, read_job};
use ngc_job_words::{added_words, folder_of};
use ngc_machine_figures::FileRefusal;
use ngc_refused_files::read_document;
use std::alloc::Global;
use toml::Value;
use toml::de::Error;

// Returns the words that a job adds.
fn words_of(
    alloc: Global,
    name: &str,
    job: &JobSheet<'_>,
    words: &[&str],
) -> Result<Vec<String>, CallFault>
    ensures { spec.ResultIs (λ added. map string_bytes added.items) result (spec.words_of name.now (spec.job_in job.now) (map (λ w. w.now) words.now)) }
{
    match added_words(alloc, folder_of(name), job, words) {
        Ok(added) => Ok(added),
        Err(_) => Err(CallFault::Memory),
    }
}

fn refused(alloc: Global, name: &str, bytes: &[u8], refusal: &FileRefusal) -> CallFault
    ensures { spec.FaultIs result (spec.refused name.now bytes.now refusal.now) }
{
    match refused_text(alloc, name.as_bytes(), bytes, refusal) {
        Ok(text) => CallFault::Refused(text),
        Err(_) => CallFault::Memory,
    }
}

fn words_in(
    alloc: Global,
    name: &str,
    bytes: &[u8],
    tree: &Value,
    words: &[&str],
) -> Result<Vec<String>, CallFault>
    ensures { spec.ResultIs (λ added. map string_bytes added.items) result
        (spec.words_in name.now bytes.now (view tree.now) (map (λ w. w.now) words.now)) }
{
    match read_job(alloc, tree) {
        Ok(job) => words_of(alloc, name, &job, words),
        Err(JobFault::Refused(refusal)) => Err(refused(alloc, name, bytes, &refusal)),
        Err(JobFault::Memory) => Err(CallFault::Memory),
    }
}

fn no_document(alloc: Global, name: &str, bytes: &[u8], error: &Error) -> CallFault
    ensures { StopsWhere bytes.now (λ stop.
        spec.FaultIs result (spec.no_document name.now bytes.now stop)) }
{
    match no_document_text(alloc, name.as_bytes(), bytes, error) {
        Ok(text) => CallFault::Refused(text),
        Err(_) => CallFault::Memory,
    }
}

fn words_by(
    alloc: Global,
    name: &str,
    bytes: &[u8],
    words: &[&str],
) -> Result<Vec<String>, CallFault>
    ensures { StopsWhere bytes.now (λ stop. spec.ResultIs (λ added. map string_bytes added.items)
        result (spec.words_by name.now bytes.now (map (λ w. w.now) words.now) stop)) }
{
    match read_document(alloc, bytes) {
        Ok(tree) => words_in(alloc, name, bytes, &tree, words),
        Err(error) if error.is_memory() => Err(CallFault::Memory),
        Err(error) => Err(no_document(alloc, name, bytes, &error)),
    }
}

/// Returns the words that a job file with this name and these bytes adds to the words of a call, or
/// what is printed if it is refused.
pub fn job_words(
    alloc: Global,
    name: &str,
    bytes: &[u8],
    words: &[&str],
) -> Result<Vec<String>, CallFault>
    ensures { spec.SaysJob name.now bytes.now (map (λ w. w.now) words.now)
        (spec.ResultIs (λ added. map string_bytes added.items) result) }
{
    words_by(alloc, name, without_mark(bytes), words)
}
