//! The folder of a file, and the job file of a call.
ghost use Rattle.std.specs.Prelude.{◌≡◌, IfOk, option_map, string_bytes};
ghost use Rattle.ngc_job_words.specs.Folders as spec;

use crate::call::Asked;
use std::alloc::{AllocError, Global};

/// The job file of a call.
#[derive(Drop)]
pub struct JobFile {
    pub name: String,
    /// Whether the call names it. Another one may be missing.
    pub is_named: bool,
}

fn is_separator(byte: u8) -> bool
    ensures { result ≡ spec.is_separator byte }
{
    byte == b'/' || byte == b'\\'
}

/// Returns the part of a file's name up to its last slash or backslash, with it; nothing for a file of
/// the current folder.
pub fn folder_of(name: &str) -> &str
    ensures { result.now ≡ spec.folder_of name.now }
{
    let bytes = name.as_bytes();
    let mut end = bytes.len();
    while end > 0 && !is_separator(bytes[end - 1]) {
        end -= 1;
    }
    &name[..end]
}

fn is_absolute(path: &[u8]) -> bool
    ensures { result ≡ spec.is_absolute path.now }
{
    match path {
        [first, second, ..] => is_separator(*first) || *second == b':',
        [first] => is_separator(*first),
        [] => false,
    }
}

fn joined(alloc: Global, folder: &str, path: &str) -> Result<String, AllocError>
    ensures { IfOk result (λ text. string_bytes text ≡ spec.joined folder.now path.now) }
{
    let mut text = String::from_str(alloc, folder)?;
    text.push_str(path)?;
    Ok(text)
}

/// Returns a path of a job file in this folder, as the program opens it.
pub(crate) fn path_in(alloc: Global, folder: &str, path: &str) -> Result<String, AllocError>
    ensures { IfOk result (λ text. string_bytes text ≡ spec.path_in folder.now path.now) }
{
    if is_absolute(path.as_bytes()) {
        String::from_str(alloc, path)
    } else {
        joined(alloc, folder, path)
    }
}

fn default_file(alloc: Global, program: &str) -> Result<JobFile, AllocError>
    ensures { IfOk result (λ file. spec.file_in file ≡ spec.default_file program.now) }
{
    Ok(JobFile {
        name: joined(alloc, folder_of(program), "ngc.toml")?,
        is_named: false,
    })
}

fn named_file(alloc: Global, name: &str) -> Result<JobFile, AllocError>
    ensures { IfOk result (λ file. spec.file_in file ≡ spec.named_file name.now) }
{
    Ok(JobFile {
        name: String::from_str(alloc, name)?,
        is_named: true,
    })
}

/// Returns the job file of a call: the one that it names, or `ngc.toml` in the program's folder.
pub fn job_file(alloc: Global, asked: &Asked<'_>) -> Result<Option<JobFile>, AllocError>
    ensures { IfOk result (λ file. option_map spec.file_in file
        ≡ spec.job_file (option_map (λ j. j.now) asked.now.job) (option_map (λ p. p.now) asked.now.program)) }
{
    match (asked.job, asked.program) {
        (Some(name), _) => Ok(Some(named_file(alloc, name)?)),
        (None, Some(program)) => Ok(Some(default_file(alloc, program)?)),
        (None, None) => Ok(None),
    }
}
