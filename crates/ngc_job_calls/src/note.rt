//! The line that says what a job file added.
ghost use Rattle.std.specs.Prelude.{◌≡◌, ◌++◌, IfOk, OnOk, map, string_bytes};
ghost use Rattle.std.specs.List.{list_any};
ghost use Rattle.ngc_job_calls.specs.Notes as spec;

use ngc_text::shown_bytes;
use std::alloc::{AllocError, Global};

fn is_blank(byte: u8) -> bool
    ensures { result ≡ spec.is_blank byte }
{
    byte == b' '
}

fn has_blank(word: &[u8]) -> bool
    ensures { result ≡ list_any spec.is_blank word.now }
{
    word.iter().any(|byte| is_blank(*byte))
}

fn mark_of(word: &[u8]) -> &'static [u8]
    ensures { result.now ≡ spec.mark_of word.now }
{
    if has_blank(word) { b"\"" } else { b"" }
}

// Adds a word after a blank, in quotation marks if it has a blank of its own.
fn add_word(line: &mut Vec<u8>, word: &[u8]) -> Result<(), AllocError>
    ensures { OnOk result (line.new.items ≡ line.old.items ++ spec.word_text word.now) }
{
    line.extend_from_slice(b" ")?;
    line.extend_from_slice(mark_of(word))?;
    line.extend_from_slice(shown_bytes(word).as_slice())?;
    line.extend_from_slice(mark_of(word))?;
    Ok(())
}

fn add_words(line: &mut Vec<u8>, added: &[String]) -> Result<(), AllocError>
    ensures { OnOk result (line.new.items ≡ line.old.items ++ spec.words_text (map string_bytes added.now)) }
{
    for word in added {
        add_word(line, word.as_bytes())?;
    }
    Ok(())
}

fn line_of(alloc: Global, name: &[u8], added: &[String]) -> Result<Vec<u8>, AllocError>
    ensures { IfOk result (λ line. line.items ≡ spec.line_text name.now (map string_bytes added.now)) }
{
    let mut line = Vec::from_slice(alloc, b"ngc: ")?;
    line.extend_from_slice(shown_bytes(name).as_slice())?;
    line.extend_from_slice(b" adds")?;
    add_words(&mut line, added)?;
    line.extend_from_slice(b"\n")?;
    Ok(line)
}

/// Returns the line that says what a job file added, and nothing if it added nothing.
pub(crate) fn note_of(alloc: Global, name: &[u8], added: &[String]) -> Result<Vec<u8>, AllocError>
    ensures { IfOk result (λ line. line.items ≡ spec.note_text name.now (map string_bytes added.now)) }
{
    match added {
        [] => Ok(Vec::new(alloc)),
        [_, ..] => line_of(alloc, name, added),
    }
}
