//! The words of a call with its job file.
ghost use Rattle.std.specs.Prelude.{◌≡◌, IfOk, map};
ghost use Rattle.std.specs.List.{list_any};
ghost use Rattle.ngc_job_calls.specs.Calls.{call_in};
ghost use Rattle.ngc_page.specs.Answered.{space};
ghost use Rattle.ngc_page.specs.JobCalls as spec;
ghost use Rattle.ngc_page.specs.Files.{job_bytes_of};

use crate::answering::{Lengths, hand_over};
use crate::commanding::{tell_only, tell_unread, words_in};
use crate::files::PassedJob;
use ngc_job_calls::{CallFault, JobCall, with_job};
use std::alloc::{AllocError, Global};

fn is_break(byte: u8) -> bool
    ensures { result ≡ spec.is_break byte }
{
    byte == b'\n' || byte == b'\r'
}

fn has_break(word: &[u8]) -> bool
    ensures { result ≡ spec.has_break word.now }
{
    word.iter().any(|byte| is_break(*byte))
}

fn have_break_in(words: &[&str]) -> bool
    ensures { result ≡ list_any (λ w. spec.has_break w.now) words.now }
{
    words.iter().any(|word| has_break(word.as_bytes()))
}

fn have_break(words: &[&str]) -> bool
    ensures { result ≡ list_any spec.has_break (map (λ w. w.now) words.now) }
{
    have_break_in(words)
}

// Returns a text with the words as its lines.
fn lines_text(alloc: Global, words: &[&str]) -> Result<Vec<u8>, AllocError>
    ensures { IfOk result (λ text. text.items ≡ spec.lines_text (map (λ w. w.now) words.now)) }
{
    let mut text = Vec::new(alloc);
    for word in words {
        text.extend_from_slice(word.as_bytes())?;
        text.extend_from_slice(b"\n")?;
    }
    Ok(text)
}

// Hands over the words of a call, unless one of them can't be a line.
fn hand_words(
    alloc: Global,
    call: &JobCall<'_>,
    output: &mut [u8],
    errors: &mut [u8],
    lengths: &mut Lengths,
) -> u32
    ensures { spec.HandsWords (call_in call.now) (space output.old output.new lengths.new.output)
        (space errors.old errors.new lengths.new.errors) result }
{
    let Ok(words) = call.all_words(alloc) else {
        return tell_unread(output, errors, lengths);
    };
    if have_break(words.as_slice()) {
        let fault = b"error: a word of the call has a line break\n";
        tell_only(fault, output, errors, lengths);
        return 2;
    }
    let Ok(text) = lines_text(alloc, words.as_slice()) else {
        return tell_unread(output, errors, lengths);
    };
    hand_over(
        text.as_slice(),
        call.note.as_slice(),
        output,
        errors,
        lengths,
    );
    0
}

// Hands over why a call isn't begun.
fn hand_fault(fault: &CallFault, output: &mut [u8], errors: &mut [u8], lengths: &mut Lengths) -> u32
    ensures { spec.IsRefused fault.now (space output.old output.new lengths.new.output)
        (space errors.old errors.new lengths.new.errors) result }
{
    tell_only(fault.text(), output, errors, lengths);
    u32::from(fault.status())
}

// Reads the words of a call, with those that a job file of this name adds.
fn read_with(
    alloc: Global,
    words: &[&str],
    mut job: PassedJob<'_>,
    output: &mut [u8],
    errors: &mut [u8],
    lengths: &mut Lengths,
) -> u32
    ensures { spec.IsReadWith (job_bytes_of job.entry) (map (λ w. w.now) words.now)
        (space output.old output.new lengths.new.output)
        (space errors.old errors.new lengths.new.errors) result }
{
    match with_job(alloc, words, &mut job) {
        Ok(call) => hand_words(alloc, &call, output, errors, lengths),
        Err(fault) => hand_fault(&fault, output, errors, lengths),
    }
}

// Reads the words of a call, which are the lines of a text, with those that a job file of this name adds.
fn read_text(
    alloc: Global,
    text: &str,
    job: PassedJob<'_>,
    output: &mut [u8],
    errors: &mut [u8],
    lengths: &mut Lengths,
) -> u32
    ensures { spec.ReadsText (job_bytes_of job.entry) text.now
        (space output.old output.new lengths.new.output)
        (space errors.old errors.new lengths.new.errors) result }
{
    let Ok(words) = words_in(alloc, text) else {
        return tell_unread(output, errors, lengths);
    };
    read_with(alloc, words.as_slice(), job, output, errors, lengths)
}

fn tell_no_text(output: &mut [u8], errors: &mut [u8], lengths: &mut Lengths) -> u32
    ensures { spec.TellsNoText (space output.old output.new lengths.new.output)
        (space errors.old errors.new lengths.new.errors) result }
{
    let fault = b"error: a word of the command line is no UTF-8 text\n";
    tell_only(fault, output, errors, lengths);
    2
}

/// Reads the words of a call, which are the lines of a text, with those that a job file of this name
/// adds. It writes them to the front of the output, a line each, and the line on the job file to the
/// front of the errors, as far as there is space, and returns the status.
pub fn job_into(
    alloc: Global,
    text: &[u8],
    name: &[u8],
    job: &[u8],
    output: &mut [u8],
    errors: &mut [u8],
    lengths: &mut Lengths,
) -> u32
    ensures { spec.CalledWith name.now job.now text.now
        (space output.old output.new lengths.new.output)
        (space errors.old errors.new lengths.new.errors) result }
{
    let Ok(text) = str::from_utf8(text) else {
        return tell_no_text(output, errors, lengths);
    };
    let Ok(name) = str::from_utf8(name) else {
        return tell_no_text(output, errors, lengths);
    };
    let job = PassedJob { name, job };
    read_text(alloc, text, job, output, errors, lengths)
}
