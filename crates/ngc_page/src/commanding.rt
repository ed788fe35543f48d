//! A command line as the call of a command.
ghost use Rattle.std.specs.Prelude.{◌≡◌, IfErr, IfOk, codes, map};
ghost use Rattle.std.specs.Str.{IsUtf8};
ghost use Rattle.std.specs.Str.Lines.{lines};
ghost use Rattle.ngc_page.specs.Answered.{space};
ghost use Rattle.ngc_page.specs.Commanded.{Commanded, IsUnread, TellsOnly};
ghost use Rattle.ngc_page.specs.Files.{bytes_of};

use crate::answering::{Lengths, answer_into, hand_over};
use crate::files::PassedFiles;
use ngc_command_line::{UsageFault, read_options};
use std::alloc::{AllocError, Global};

/// Returns the lines of a text.
pub fn words_in(alloc: Global, text: &str) -> Result<Vec<&str>, AllocError>
    ensures { IfOk result (λ words. map (λ word. word.now) words.items ≡ lines text.now) }
{
    text.lines().collect(alloc)
}

/// Hands over lines of standard error, and no output.
pub fn tell_only(text: &[u8], output: &mut [u8], errors: &mut [u8], lengths: &mut Lengths)
    ensures { TellsOnly text.now (space output.old output.new lengths.new.output)
        (space errors.old errors.new lengths.new.errors) }
{
    hand_over(b"", text, output, errors, lengths);
}

/// Hands over that memory ran out.
pub fn tell_unread(output: &mut [u8], errors: &mut [u8], lengths: &mut Lengths) -> u32
    ensures { IsUnread (space output.old output.new lengths.new.output)
        (space errors.old errors.new lengths.new.errors) result }
{
    tell_only(b"ngc: fault 900\n", output, errors, lengths);
    1
}

/// Executes the command whose words are the lines of a text. It writes its output and the lines of
/// its standard error to the front of the two slices, as far as there is space, and returns the exit
/// status.
pub fn command_into(
    alloc: Global,
    text: &[u8],
    files: PassedFiles<'_>,
    output: &mut [u8],
    errors: &mut [u8],
    lengths: &mut Lengths,
) -> u32
    ensures { Commanded (bytes_of files.entry) text.now
        (space output.old output.new lengths.new.output)
        (space errors.old errors.new lengths.new.errors) result }
{
    let Ok(text) = str::from_utf8(text) else {
        let fault = b"error: a word of the command line is no UTF-8 text\n";
        tell_only(fault, output, errors, lengths);
        return 2;
    };
    let Ok(words) = words_in(alloc, text) else {
        return tell_unread(output, errors, lengths);
    };
    match read_options(alloc, words.as_slice()) {
        Ok(options) => answer_into(alloc, &options, files, output, errors, lengths),
        Err(UsageFault::Usage(fault)) => {
            tell_only(fault.as_bytes(), output, errors, lengths);
            2
        }
        Err(UsageFault::Memory) => tell_unread(output, errors, lengths),
    }
}
