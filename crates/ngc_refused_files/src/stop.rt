//! What is printed of a file that isn't a TOML document.
ghost use Rattle.std.specs.Prelude.{◌≡◌, ◌≤◌, IfOk, IfErr, None, OnOk, OnErr, Some, length};
ghost use Rattle.std.specs.Io.KnownBytes.{Appends};
ghost use Rattle.std.specs.List.{list_any};
ghost use Rattle.toml.specs.Errors.{IsBlank, IsMemory, IsWithin};
ghost use Rattle.toml.specs.View.{view};
ghost use Rattle.ngc_text.specs.Failures.{CountsFailure};
ghost use Rattle.ngc_text.specs.Written.{AppendsPrefix};
ghost use Rattle.ngc_sentences.specs.Saying.{Says};
ghost use Rattle.ngc_file_lines.specs.Places.{place_of};
ghost use Rattle.ngc_machine_files.specs.Tree.{tree_of};
ghost use Rattle.ngc_refused_files.specs.Stops as spec;

use crate::refusal::say_below;
use ngc_file_lines::{FilePlace, place_after};
use ngc_sentences::{Page, Part, say};
use ngc_text::{Sink, WriteFault};
use std::alloc::Global;
use toml::Value;
use toml::de::Error;

/// Reads a TOML document. Returns why and where the reader stopped if the bytes are not a document in
/// UTF-8, or that memory is refused.
pub fn read_document(alloc: Global, bytes: &[u8]) -> Result<Value, Error>
    ensures tree { IfOk result (λ tree. tree_of bytes.now ≡ Some (view tree)) }
    ensures refused { IfErr result (λ error. ¬ IsMemory error → tree_of bytes.now ≡ None) }
    // A file with only white space and comments takes no memory.
    ensures memory { IfErr result (λ error. IsMemory error → ¬ IsBlank bytes.now) }
    ensures inside { IfErr result (IsWithin bytes.now) }
{
    match toml::table_from_slice(alloc, bytes) {
        Ok(table) => Ok(Value::Table(table)),
        Err(error) => Err(error),
    }
}

fn is_of_value(why: &[u8]) -> bool
    ensures { result ≡ spec.is_of_value why.now }
{
    why.starts_with(b"invalid value") || why.starts_with(b"unexpected key or value")
}

fn is_quoted(line: &[u8]) -> bool
    ensures { result ≡ list_any spec.is_quote line.now }
{
    line.iter().any(|byte| *byte == b'"' || *byte == b'\'')
}

fn lacks_quotes(why: &[u8], line: &[u8]) -> bool
    ensures { result ≡ spec.lacks_quotes why.now line.now }
{
    is_of_value(why) && !is_quoted(line)
}

fn say_hint<W: Sink>(lacks: bool, page: &mut Page, output: &mut W)
    ensures { Says (W.written output.old) (W.written output.new)
        (W.failures output.old) (W.failures output.new) page.old page.new
        (spec.hint_text lacks) }
{
    if lacks {
        say!(page, output; b"; write a text in quotes, like \"60 mm\"");
    }
}

fn mark_at(before: usize) -> Option<usize>
    ensures { result ≡ spec.mark_at before }
{
    if before < 95 { Some(before + 1) } else { None }
}

#[tactic(auto, unfolding(crate::specs::Stops::cause_text))]
fn say_cause<W: Sink>(why: &[u8], line: &[u8], page: &mut Page, output: &mut W)
    ensures { Says (W.written output.old) (W.written output.new)
        (W.failures output.old) (W.failures output.new) page.old page.new
        (spec.cause_text why.now line.now) }
{
    say!(page, output; Part::Text(why));
    say_hint(lacks_quotes(why, line), page, output);
    say!(page, output; b"\n");
}

#[tactic(auto, unfolding(crate::specs::Stops::text_at))]
fn say_stop<W: Sink>(name: &[u8], why: &[u8], place: &FilePlace, page: &mut Page, output: &mut W)
    ensures { Says (W.written output.old) (W.written output.new)
        (W.failures output.old) (W.failures output.new) page.old page.new
        (spec.text_at name.now why.now (place_of place.now)) }
{
    say!(page, output; Part::Text(name), b":", Part::Number(place.line.number as u128), b": ");
    say_cause(why, place.line.text, page, output);
    say_below(place.line.text, mark_at(place.before), page, output);
}

// Returns the number of bytes before the place at which the reader stopped.
fn place_in(bytes: &[u8], error: &Error) -> usize
    ensures { result ≤ length bytes.now }
{
    match error.span() {
        Some(span) => span.start.min(bytes.len()),
        None => 0,
    }
}

/// Writes where the reader of a TOML document stopped, and why, in its own words. Below it are the
/// line, if it has at most 94 bytes, and a mark at the place.
///
/// ```text
/// tools.toml:4: unexpected key or value, expected newline, `#`; write a text in quotes, like "60 mm"
///   diameter = 1/8 in
///               ^
/// ```
///
/// After a fault (902, only if the sink failed) a prefix of the text is written.
pub fn write_stop<W: Sink>(
    name: &[u8],
    bytes: &[u8],
    error: &Error,
    sink: &mut W,
) -> Result<(), WriteFault>
    ensures ok { OnOk result (spec.StopsWhere bytes.now (λ stop.
        Appends (W.written sink.old) (W.written sink.new) (spec.stop_text name.now bytes.now stop))) }
    ensures fault { OnErr result (spec.StopsWhere bytes.now (λ stop.
        AppendsPrefix (W.written sink.old) (W.written sink.new)
        (spec.stop_text name.now bytes.now stop))) }
    ensures counts { CountsFailure (W.failures sink.old) (W.failures sink.new) result }
{
    let at = place_in(bytes, error);
    let mut page = Page::new();
    say_stop(
        name,
        error.message().as_bytes(),
        &place_after(bytes, at),
        &mut page,
        sink,
    );
    page.finish(sink)
}
