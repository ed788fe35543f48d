//! The names of files.
ghost use Rattle.std.specs.Prelude.{◌≡◌, option_map};
ghost use Rattle.std.specs.List.{list_all};
ghost use Rattle.toml.specs.View.{view};
ghost use Rattle.ngc_machine_figures.specs.Reading.{ok_map};
ghost use Rattle.ngc_job_files.specs.Paths as spec;

use crate::job::JobPaths;
use ngc_machine_figures::{FileRefusal, Key, Wrong};
use toml::Value;

fn is_of_path(byte: u8) -> bool
    ensures { result ≡ spec.is_of_path byte }
{
    byte >= 32 && byte != 127
}

fn are_of_path(text: &[u8]) -> bool
    ensures { result ≡ list_all spec.is_of_path text.now }
{
    text.iter().all(|byte| is_of_path(*byte))
}

fn is_path(text: &str) -> bool
    ensures { result ≡ spec.is_path text.now }
{
    !text.is_empty() && are_of_path(text.as_bytes())
}

fn path_in(value: &Value) -> Option<&str>
    ensures { option_map (λ p. p.now) result ≡ spec.path_in (view value.now) }
{
    match value.as_str() {
        Some(text) if is_path(text) => Some(text),
        _ => None,
    }
}

fn path_value(key: Key, value: &Value) -> Result<&str, FileRefusal>
    ensures { ok_map (λ p. p.now) result ≡ spec.path_value key (view value.now) }
{
    match path_in(value) {
        Some(path) => Ok(path),
        None => Err(FileRefusal {
            key,
            wrong: Wrong::NoPath,
        }),
    }
}

#[tactic(auto, unfolding(crate::specs::Paths::path_at))]
fn path_at(key: Key, tree: &Value) -> Result<Option<&str>, FileRefusal>
    ensures { ok_map (option_map (λ p. p.now)) result ≡ spec.path_at key (view tree.now) }
{
    match tree.get(key.name()) {
        Some(value) => Ok(Some(path_value(key, value)?)),
        None => Ok(None),
    }
}

/// Reads the names of the machine file and of the tool table.
#[tactic(auto, unfolding(crate::specs::Paths::paths_of))]
pub(crate) fn paths_of(tree: &Value) -> Result<JobPaths<'_>, FileRefusal>
    ensures { ok_map spec.paths_in result ≡ spec.paths_of (view tree.now) }
{
    let machine = path_at(Key::Machine, tree)?;
    let tools = path_at(Key::Tools, tree)?;
    Ok(JobPaths { machine, tools })
}
