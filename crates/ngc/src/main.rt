//! The program `ngc`: it starts `answer_to` on the real files, as editors save them, standard output and standard
//! error.
#![tactic(auto)]

mod host;
mod meaning;
mod output;
mod outputs;

use crate::host::HostFiles;
use crate::meaning::meaning_of;
use crate::output::Output;
use crate::outputs::HostOutputs;
use ngc_job_calls::{CallFault, JobCall, with_job};
use ngc_output_answers::answer_to;
use ngc_output_words::{CallWords, WordsFault, call_words};
use ngc_saved_files::{SavedFiles, note_wide};
use ngc_simulator::{Options, UsageFault, read_options};
use ngc_text::{Device, write_all};
use std::cell::Cell;
use std::process::ExitCode;
use std::{env, io};

// Returns the words after the program's name.
fn words_of(rt: &HostRuntime) -> Result<Vec<String>, UsageFault> {
    let words = match env::args(rt) {
        Ok(words) => words,
        Err(fault) if fault.kind() == io::ErrorKind::InvalidData => {
            let text = "error: a word of the command line is no UTF-8 text\n"
                .to_string(rt.alloc())
                .map_err(|_| UsageFault::Memory)?;
            return Err(UsageFault::Usage(text));
        }
        Err(_) => return Err(UsageFault::Memory),
    };
    words
        .skip(1)
        .collect(rt.alloc())
        .map_err(|_| UsageFault::Memory)
}

fn usage_fault(rt: &HostRuntime, fault: WordsFault) -> UsageFault {
    match fault.text().to_string(rt.alloc()) {
        Ok(text) if fault != WordsFault::Memory => UsageFault::Usage(text),
        _ => UsageFault::Memory,
    }
}

fn tell(rt: &HostRuntime, text: &[u8]) {
    let _ = write_all(&mut Device::new(rt.stderr()), text);
}

// Prints what is wrong, in one line.
fn tell_meaning(rt: &HostRuntime, meaning: &str) {
    tell(rt, b"ngc:");
    for line in meaning.lines() {
        tell(rt, b" ");
        tell(rt, line.as_bytes());
    }
    tell(rt, b"\n");
}

// Prints a fault's line. Below it is what is wrong with the command line, or for 901 the name of the file.
fn tell_fault(rt: &HostRuntime, line: &[u8], file: &str) {
    tell(rt, line);
    if let Some(meaning) = meaning_of(line) {
        tell_meaning(rt, meaning.trim_end());
    }
    if line == b"ngc: fault 901\n".as_slice() && !file.is_empty() {
        tell(rt, b"ngc: ");
        tell(rt, file.as_bytes());
        tell(rt, b" can't be opened or read, or is too long\n");
    }
}

// Prints why a call isn't begun, and returns the status.
fn refuse(rt: &HostRuntime, fault: &CallFault, files: &HostFiles<'_>) -> u8 {
    tell_fault(rt, fault.text(), files.asked());
    fault.status()
}

// Returns whether a fault of this command is one line alone.
fn is_one_line(options: &Options<'_>) -> bool {
    matches!(
        options,
        Options::List(_)
            | Options::Certify(_)
            | Options::Check(_)
            | Options::Run(_)
            | Options::RunThrough(_)
    )
}

// Executes the command with these options, and returns the status. With a job file a fault may have more
// than one line.
fn answer_options(
    rt: &HostRuntime,
    options: &Options<'_>,
    out: Option<&str>,
    has_job: bool,
) -> Result<u8, UsageFault> {
    let is_wide = Cell::new(false);
    let mut files = SavedFiles::new(HostFiles::new(rt), options, &is_wide);
    let mut outputs = HostOutputs::new(rt);
    let mut output = Output::new(rt.stdout());
    // Printed only if somebody still reads the output. The space for a fault's line exists from the
    // beginning, also if memory runs out.
    let room = Vec::with_capacity(rt.alloc(), 512).map_err(|_| UsageFault::Memory)?;
    let mut told = Device::new(room);
    let status = answer_to(
        rt.alloc(),
        options,
        out,
        &mut files,
        &mut outputs,
        &mut output,
        &mut told,
    );
    note_wide(is_wide.get(), status, &mut told);
    let names_file = has_job || !is_one_line(options);
    let file = if names_file { files.inner.asked() } else { "" };
    if !output.is_closed() {
        tell_fault(rt, told.into_inner().as_slice(), file);
    }
    Ok(status)
}

// Executes the command in the words, with those of its job file.
fn answer_job(rt: &HostRuntime, job: &JobCall<'_>, out: Option<&str>) -> Result<u8, UsageFault> {
    let words = job.all_words(rt.alloc()).map_err(|_| UsageFault::Memory)?;
    tell(rt, job.note.as_slice());
    let options = read_options(rt.alloc(), words.as_slice())?;
    answer_options(rt, &options, out, !job.note.as_slice().is_empty())
}

fn answer_call(rt: &HostRuntime, call: &CallWords<'_>) -> Result<u8, UsageFault> {
    let mut files = HostFiles::new(rt);
    match with_job(rt.alloc(), call.words.as_slice(), &mut files) {
        Ok(job) => answer_job(rt, &job, call.out),
        Err(fault) => Ok(refuse(rt, &fault, &files)),
    }
}

// Executes the command in the words, and returns the status.
fn answer_words(rt: &HostRuntime) -> Result<u8, UsageFault> {
    let words = words_of(rt)?;
    let mut names = Vec::new(rt.alloc());
    for word in words.iter() {
        names.push(word.as_str()).map_err(|_| UsageFault::Memory)?;
    }
    match call_words(rt.alloc(), names.as_slice()) {
        Ok(call) => answer_call(rt, &call),
        Err(fault) => Err(usage_fault(rt, fault)),
    }
}

fn main(rt: HostRuntime) -> ExitCode {
    match answer_words(&rt) {
        Ok(status) => ExitCode::from(status),
        Err(UsageFault::Usage(text)) => {
            let _ = write_all(&mut Device::new(rt.stderr()), text.as_bytes());
            ExitCode::from(2)
        }
        Err(UsageFault::Memory) => {
            let _ = write_all(&mut Device::new(rt.stderr()), b"ngc: fault 900\n");
            ExitCode::from(1)
        }
    }
}
