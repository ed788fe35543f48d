use crate::directive::Role;
use crate::files::RowFiles;
use crate::outputs::RowOutputs;
use crate::text::{Text, around};
use ngc_job_calls::{CallFault, JobCall, with_job};
use ngc_output_answers::answer_to;
use ngc_output_words::{CallWords, WordsFault, call_words};
use ngc_saved_files::{SavedFiles, note_wide};
use ngc_simulator::{Options, UsageFault, read_options};
use ngc_test_devices::FailingSink;
use serde_json::Value;
use std::alloc::{AllocError, Global};
use std::cell::Cell;

/// The output of the program, and its status.
#[derive(Drop)]
pub struct Outcome {
    pub status: u8,
    pub output: Vec<u8>,
    pub errors: Vec<u8>,
}

/// A device that fails, by its name.
#[derive(Drop)]
struct Failing {
    name: String,
    place: usize,
}

/// The words of a command line, the files that they name, and the wanted result.
#[derive(Drop)]
pub struct Row {
    /// The line on which the row begins.
    pub line: u32,
    pub words: String,
    pub texts: Vec<Text>,
    pub status: u8,
    pub is_json: bool,
    /// The name under which the row's output is stored.
    pub kept: Option<String>,
    failing: Vec<Failing>,
    once: Vec<String>,
}

// Calls `answer_to`, as the program does, without its clauses: they would make the proofs of its callers longer. The
// output of a row with `--out` is what that file gets, after a line with its name.
fn outcome_of(
    alloc: Global,
    row: &Row,
    shared: &[Text],
    options: &Options<'_>,
    out: Option<&str>,
) -> Outcome {
    let is_wide = Cell::new(false);
    let mut files = SavedFiles::new(RowFiles::new(alloc, row, shared), options, &is_wide);
    let mut outputs = RowOutputs::new(alloc, row.failing("draft"));
    let mut output = sink(alloc, row.failing("output"));
    let mut errors = sink(alloc, row.failing("errors"));
    let status = answer_to(
        alloc,
        options,
        out,
        &mut files,
        &mut outputs,
        &mut output,
        &mut errors,
    );
    note_wide(is_wide.get(), status, &mut errors);
    let output = match out {
        Some(_) => outputs.written,
        None => output.taken,
    };
    Outcome {
        status,
        output,
        errors: errors.taken,
    }
}

// Returns the outcome of words that are refused.
fn refused(alloc: Global, fault: UsageFault) -> Result<Outcome, AllocError> {
    match fault {
        UsageFault::Usage(text) => Ok(Outcome {
            status: 2,
            output: Vec::new(alloc),
            errors: text.as_bytes().to_vec(alloc)?,
        }),
        UsageFault::Memory => Err(AllocError),
    }
}

// Returns the outcome of a call that isn't begun.
fn not_begun(alloc: Global, fault: &CallFault) -> Result<Outcome, AllocError> {
    match fault {
        CallFault::Memory => Err(AllocError),
        _ => Ok(Outcome {
            status: fault.status(),
            output: Vec::new(alloc),
            errors: fault.text().to_vec(alloc)?,
        }),
    }
}

// Returns a sink that accepts this number of bytes and then fails.
fn sink(alloc: Global, bytes: usize) -> FailingSink {
    let most = if bytes == usize::MAX { bytes } else { 1 };
    FailingSink::new(alloc, bytes, most)
}

// Returns whether each line of a text is in the output, or none is, as wanted.
fn has_lines(found: &[u8], lines: &[u8], wanted: bool) -> bool {
    let lines = lines.strip_suffix(b"\n").unwrap_or(lines);
    lines
        .split(|byte| *byte == b'\n')
        .all(|line| around(found, line).is_some() == wanted)
}

impl Row {
    /// Returns a row that begins in this line, with the words of its command.
    pub fn new(alloc: Global, line: u32, words: &str) -> Result<Row, AllocError> {
        Ok(Row {
            line,
            words: words.to_string(alloc)?,
            texts: Vec::new(alloc),
            status: 0,
            is_json: false,
            kept: None,
            failing: Vec::new(alloc),
            once: Vec::new(alloc),
        })
    }

    /// Makes the device with that name fail at a byte.
    pub fn fail(&mut self, alloc: Global, name: &str, place: usize) -> Result<(), AllocError> {
        let name = name.to_string(alloc)?;
        self.failing.push(Failing { name, place })?;
        Ok(())
    }

    /// Makes the file with that name open only once.
    pub fn open_once(&mut self, alloc: Global, name: &str) -> Result<(), AllocError> {
        self.once.push(name.to_string(alloc)?)?;
        Ok(())
    }

    /// Returns the byte at which the device with that name fails.
    pub fn failing(&self, name: &str) -> usize {
        self.failing
            .iter()
            .find(|failing| failing.name.as_str() == name)
            .map_or(usize::MAX, |failing| failing.place)
    }

    /// Returns whether the file with that name opens only once.
    pub fn is_once(&self, name: &str) -> bool {
        self.once.iter().any(|once| once.as_str() == name)
    }

    // Runs the program with the words of its command.
    fn outcome_with(
        &self,
        alloc: Global,
        shared: &[Text],
        words: &[&str],
        out: Option<&str>,
    ) -> Result<Outcome, AllocError> {
        match read_options(alloc, words) {
            Ok(options) => Ok(outcome_of(alloc, self, shared, &options, out)),
            Err(fault) => refused(alloc, fault),
        }
    }

    // Runs the program with those words, and with those of its job file.
    fn outcome_of_job(
        &self,
        alloc: Global,
        shared: &[Text],
        job: &JobCall<'_>,
        out: Option<&str>,
    ) -> Result<Outcome, AllocError> {
        let words = job.all_words(alloc)?;
        let outcome = self.outcome_with(alloc, shared, words.as_slice(), out)?;
        let mut errors = job.note.as_slice().to_vec(alloc)?;
        errors.extend_from_slice(outcome.errors.as_slice())?;
        Ok(Outcome {
            status: outcome.status,
            output: outcome.output,
            errors,
        })
    }

    fn outcome_of_call(
        &self,
        alloc: Global,
        shared: &[Text],
        call: &CallWords<'_>,
    ) -> Result<Outcome, AllocError> {
        let mut files = RowFiles::new(alloc, self, shared);
        match with_job(alloc, call.words.as_slice(), &mut files) {
            Ok(job) => self.outcome_of_job(alloc, shared, &job, call.out),
            Err(fault) => not_begun(alloc, &fault),
        }
    }

    /// Runs the program on the row's files, and on those that rows share.
    pub fn outcome(&self, alloc: Global, shared: &[Text]) -> Result<Outcome, AllocError> {
        let words: Vec<&str> = self.words.as_str().split_whitespace().collect(alloc)?;
        match call_words(alloc, words.as_slice()) {
            Ok(call) => self.outcome_of_call(alloc, shared, &call),
            Err(WordsFault::Memory) => Err(AllocError),
            Err(fault) => refused(alloc, UsageFault::Usage(fault.text().to_string(alloc)?)),
        }
    }

    /// Returns whether a stream is what the row wants.
    pub fn is_wanted(&self, name: &str, found: &[u8]) -> bool {
        let mut is_named = found.is_empty();
        for text in self.texts.iter().filter(|text| text.name.as_str() == name) {
            let bytes = text.bytes.as_slice();
            let holds = match text.role {
                Role::Is => found == bytes,
                Role::Has => has_lines(found, bytes, true),
                Role::Lacks => has_lines(found, bytes, false),
                Role::File | Role::Shared => true,
            };
            if !holds {
                return false;
            }
            is_named = is_named || matches!(text.role, Role::Is | Role::Has);
        }
        is_named
    }

    /// Returns whether the output is a document, if the row wants one.
    pub fn is_document(&self, alloc: Global, found: &[u8]) -> bool {
        !self.is_json
            || std::str::from_utf8(found).is_ok_and(|text| Value::from_str(alloc, text).is_ok())
    }
}
