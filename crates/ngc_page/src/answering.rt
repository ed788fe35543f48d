//! The common part of every call, after its options are known.
ghost use Rattle.std.specs.Prelude.{◌≡◌, length};
ghost use Rattle.ngc_page.specs.Answered.{Holds, IsResult, IsResultIn, Receives, space};
ghost use Rattle.ngc_page.specs.Files.{bytes_of};

use crate::files::PassedFiles;
use crate::lines::Lines;
use ngc_command_line::Options;
use ngc_dialect_choice::answer_by_machine;
use ngc_saved_files::{SavedFiles, note_wide};
use ngc_text::Device;
use std::alloc::Global;
use std::cell::Cell;

/// The lengths of the two texts in bytes, which may exceed the space for them.
#[repr(C)]
#[derive(Drop)]
pub struct Lengths {
    pub output: usize,
    pub errors: usize,
}

/// The output of a command, and its exit status.
#[derive(Drop)]
struct Answer {
    output: Vec<u8>,
    errors: Lines,
    status: u8,
}

fn answer_in_memory(alloc: Global, options: &Options<'_>, files: PassedFiles<'_>) -> Answer
    ensures { IsResult (bytes_of files.entry) options.now result.output.items result.errors.taken.items
        result.status }
{
    let is_wide = Cell::new(false);
    let mut saved = SavedFiles::new(files, options, &is_wide);
    let mut output = Device::new(Vec::new(alloc));
    let mut errors = Lines::new();
    let status = answer_by_machine(alloc, options, &mut saved, &mut output, &mut errors);
    note_wide(is_wide.get(), status, &mut errors);
    Answer {
        output: output.into_inner(),
        errors,
        status,
    }
}

// Copies the front of the text, as far as there is space.
fn copy_front(text: &[u8], space: &mut [u8])
    ensures { Holds space.old space.new text.now }
{
    let count = text.len().min(space.len());
    space[..count].copy_from_slice(&text[..count]);
}

/// Hands over a text as the output and lines as those of standard error: as much of each as there is
/// space for, and their whole lengths.
pub fn hand_over(
    text: &[u8],
    lines: &[u8],
    output: &mut [u8],
    errors: &mut [u8],
    lengths: &mut Lengths,
)
    ensures output { Receives (space output.old output.new lengths.new.output) text.now }
    ensures errors { Receives (space errors.old errors.new lengths.new.errors) lines.now }
{
    copy_front(text, output);
    copy_front(lines, errors);
    lengths.output = text.len();
    lengths.errors = lines.len();
}

/// Executes a command. It writes its output and the lines of its standard error to the front of the
/// two slices, as far as there is space, and returns the exit status.
pub fn answer_into(
    alloc: Global,
    options: &Options<'_>,
    files: PassedFiles<'_>,
    output: &mut [u8],
    errors: &mut [u8],
    lengths: &mut Lengths,
) -> u32
    ensures { IsResultIn (bytes_of files.entry) options.now
        (space output.old output.new lengths.new.output)
        (space errors.old errors.new lengths.new.errors) result }
{
    let answer = answer_in_memory(alloc, options, files);
    let (text, lines) = (answer.output.as_slice(), answer.errors.taken.as_slice());
    hand_over(text, lines, output, errors, lengths);
    u32::from(answer.status)
}
