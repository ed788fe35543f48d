//! A call with its job file.
ghost use Rattle.std.specs.Prelude.{◌≡◌, IfOk, map, option_map};
ghost use Rattle.ngc_inputs.specs.Setups.{KeepsFiles};
ghost use Rattle.ngc_inputs.specs.Unread.{SourceFails};
ghost use Rattle.ngc_job_calls.specs.Calls as spec;
ghost use Rattle.ngc_machine_figures.specs.Reading.{ok_map};
ghost use Rattle.ngc_job_words.specs.Folders.{file_in};

use crate::fault::CallFault;
use crate::note::note_of;
use crate::words::job_words;
use ngc_inputs::{FILE_LIMIT, Files};
use ngc_job_words::{AskedFault, JobFile, job_file, read_call};
use ngc_text::{InputFault, read_whole};
use std::alloc::{AllocError, Global};

/// The words of a call with its job file.
#[derive(Drop)]
pub struct JobCall<'a> {
    /// The words without `--job`, and with the program as an option.
    pub words: Vec<&'a str>,
    /// What the job file adds.
    pub added: Vec<String>,
    /// The line on it for standard error, or nothing.
    pub note: Vec<u8>,
}

impl JobCall<'_> {
    /// Returns all words for `read_options`.
    pub fn all_words(&self, alloc: Global) -> Result<Vec<&str>, AllocError>
        ensures { IfOk result (λ words. map (λ w. w.now) words.items
            ≡ spec.all_words (spec.call_in self.now)) }
    {
        let mut words = Vec::new(alloc);
        for word in &self.words {
            words.push(*word)?;
        }
        for word in &self.added {
            words.push(word.as_str())?;
        }
        Ok(words)
    }
}

fn read_fault(fault: InputFault) -> CallFault
    ensures { result ≡ spec.read_fault fault }
{
    match fault {
        InputFault::Memory => CallFault::Memory,
        InputFault::Device | InputFault::TooLong => CallFault::Unread,
    }
}

// Returns the bytes of a job file. There are none of one that the words don't name, if it can't be
// opened.
fn bytes_of<F: Files>(
    alloc: Global,
    file: &JobFile,
    files: &mut F,
) -> Result<Option<Vec<u8>>, CallFault>
    ensures text { spec.TextIs (SourceFails F.R.remaining F.R.failures) (F.bytes files.old)
        (record { old = F.failures files.old; new = F.failures files.new }) (file_in file.now)
        (ok_map (option_map (λ v. v.items)) result) }
    ensures keeps { KeepsFiles (F.bytes files.old) (F.bytes files.new) }
{
    let mut source = match files.source(Some(file.name.as_str())) {
        Ok(source) => source,
        Err(_) if file.is_named => return Err(CallFault::Unread),
        Err(_) => return Ok(None),
    };
    match read_whole(alloc, &mut source, FILE_LIMIT) {
        Ok(bytes) => Ok(Some(bytes)),
        Err(fault) => Err(read_fault(fault)),
    }
}

fn usage(fault: AskedFault) -> CallFault
    ensures { spec.IsUsageBy fault result }
{
    match fault {
        AskedFault::Memory => CallFault::Memory,
        AskedFault::Twice | AskedFault::NoFile => CallFault::Usage(fault.text()),
    }
}

// Returns the words of a call that has no job file.
fn without_job<'a>(alloc: Global, words: Vec<&'a str>) -> JobCall<'a>
    ensures { spec.call_in result ≡ spec.without_job (map (λ w. w.now) words.entry.items) }
{
    JobCall {
        words,
        added: Vec::new(alloc),
        note: Vec::new(alloc),
    }
}

fn with_words<'a>(
    alloc: Global,
    name: &str,
    bytes: &[u8],
    words: Vec<&'a str>,
) -> Result<JobCall<'a>, CallFault>
    ensures { spec.IsWithText name.now bytes.now (map (λ w. w.now) words.entry.items) result }
{
    let added = match job_words(alloc, name, bytes, words.as_slice()) {
        Ok(added) => added,
        Err(fault) => return Err(fault),
    };
    match note_of(alloc, name.as_bytes(), added.as_slice()) {
        Ok(note) => Ok(JobCall { words, added, note }),
        Err(_) => Err(CallFault::Memory),
    }
}

fn with_file<'a, F: Files>(
    alloc: Global,
    file: &JobFile,
    words: Vec<&'a str>,
    files: &mut F,
) -> Result<JobCall<'a>, CallFault>
    ensures call { spec.IsWithFile (SourceFails F.R.remaining F.R.failures) (F.bytes files.old)
        (record { old = F.failures files.old; new = F.failures files.new }) (file_in file.now)
        (map (λ w. w.now) words.entry.items) result }
    ensures keeps { KeepsFiles (F.bytes files.old) (F.bytes files.new) }
{
    match bytes_of(alloc, file, files) {
        Ok(Some(bytes)) => with_words(alloc, file.name.as_str(), bytes.as_slice(), words),
        Ok(None) => Ok(without_job(alloc, words)),
        Err(fault) => Err(fault),
    }
}

/// Reads the job file of a call, and returns the words with those that it adds. The job file is the one
/// that `--job` names, or `ngc.toml` in the program's folder, which may be missing.
///
/// Refuses `--job` that is there twice or without a file, a job file with a mistake (269), and one that
/// `--job` names and that can't be opened, or that can't be read or is longer than 20 MB (901).
pub fn with_job<'a, F: Files>(
    alloc: Global,
    all: &[&'a str],
    files: &mut F,
) -> Result<JobCall<'a>, CallFault>
    ensures call { spec.IsCall (SourceFails F.R.remaining F.R.failures) (F.bytes files.old)
        (record { old = F.failures files.old; new = F.failures files.new }) (map (λ w. w.now) all.now)
        result }
    ensures keeps { KeepsFiles (F.bytes files.old) (F.bytes files.new) }
{
    let asked = match read_call(alloc, all) {
        Ok(asked) => asked,
        Err(fault) => return Err(usage(fault)),
    };
    match job_file(alloc, &asked) {
        Ok(Some(file)) => with_file(alloc, &file, asked.words, files),
        Ok(None) => Ok(without_job(alloc, asked.words)),
        Err(_) => Err(CallFault::Memory),
    }
}
