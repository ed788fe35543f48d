//! A line of a program as a report shows it.
ghost use Rattle.std.specs.Prelude.{◌≡◌, flat_map, OnOk, OnErr, Some};
ghost use Rattle.std.specs.Option.{option_map};
ghost use Rattle.std.specs.Io.KnownBytes.{Appends};
ghost use Rattle.ngc_text.specs.Failures.{CountsFailure};
ghost use Rattle.ngc_text.specs.Written.{AppendsPrefix};
ghost use Rattle.ngc_line_reader.specs.ProgramView.{text_in};
ghost use Rattle.ngc_text.specs.Shown.{shown_line};
ghost use Rattle.ngc_sentences.specs.Saying.{Says};
ghost use Rattle.ngc_report.specs.Quotes.{line_with, escaped, fact_quote, quote, quoted};

use crate::form::Form;
use ngc_line_reader::Program;
use ngc_sentences::{Page, Part, say};
use ngc_text::{Sink, WriteFault, shown_bytes};
use std::alloc::Allocator;

/// Returns the bytes of the line with this number in the file.
pub(crate) fn line_bytes<A: Allocator>(program: &Program<A>, number: u32) -> Option<&[u8]>
    ensures { option_map (λ b. b.now) result
        ≡ option_map (λ l. l.bytes) (line_with number (text_in program.now).lines) }
{
    for index in 0..program.len() {
        if program.number(index) == number {
            return Some(program.bytes(index));
        }
    }
    None
}

/// Says a byte of a JSON string: a quotation mark or a backslash after a backslash, any other as it is.
pub fn say_escaped<W: Sink>(byte: u8, page: &mut Page, output: &mut W)
    ensures { Says (W.written output.old) (W.written output.new)
        (W.failures output.old) (W.failures output.new) page.old page.new (escaped byte) }
{
    if byte == b'"' || byte == b'\\' {
        say!(page, output; Part::Text(&[b'\\', byte]));
    } else {
        say!(page, output; Part::Text(&[byte]));
    }
}

/// Says a text whose quotation marks and backslashes are escaped.
pub(crate) fn say_string<W: Sink>(text: &[u8], page: &mut Page, output: &mut W)
    ensures { Says (W.written output.old) (W.written output.new)
        (W.failures output.old) (W.failures output.new) page.old page.new
        (flat_map escaped text.now) }
{
    for byte in text {
        say_escaped(*byte, page, output);
    }
}

fn say_shown<W: Sink>(number: u32, bytes: &[u8], page: &mut Page, output: &mut W)
    ensures { Says (W.written output.old) (W.written output.new)
        (W.failures output.old) (W.failures output.new) page.old page.new
        (shown_line number bytes.now) }
{
    let shown = shown_bytes(bytes);
    say!(page, output; b"Line ", Part::Number(u128::from(number)), b": ", Part::Text(shown.as_slice()), b"\n");
}

fn say_fact<W: Sink>(number: u32, bytes: &[u8], page: &mut Page, output: &mut W)
    ensures { Says (W.written output.old) (W.written output.new)
        (W.failures output.old) (W.failures output.new) page.old page.new
        (fact_quote number bytes.now) }
{
    let shown = shown_bytes(bytes);
    say!(page, output; b",\n{\"fact\":\"line\",\"number\":", Part::Number(u128::from(number)), b",\"text\":\"");
    say_string(shown.as_slice(), page, output);
    say!(page, output; b"\"}");
}

#[tactic(auto, unfolding(crate::specs::Quotes::quote))]
pub(crate) fn say_quote<W: Sink>(
    form: Form,
    number: u32,
    bytes: &[u8],
    page: &mut Page,
    output: &mut W,
)
    ensures { Says (W.written output.old) (W.written output.new)
        (W.failures output.old) (W.failures output.new) page.old page.new
        (quote form number (Some bytes.now)) }
{
    match form {
        Form::Words => say_shown(number, bytes, page, output),
        Form::Json => say_fact(number, bytes, page, output),
    }
}

#[tactic(auto, unfolding(crate::specs::Quotes::quote))]
pub(crate) fn say_quote_if<W: Sink>(
    form: Form,
    number: u32,
    bytes: Option<&[u8]>,
    page: &mut Page,
    output: &mut W,
)
    ensures { Says (W.written output.old) (W.written output.new)
        (W.failures output.old) (W.failures output.new) page.old page.new
        (quote form number (option_map (λ b. b.now) bytes.entry)) }
{
    if let Some(bytes) = bytes {
        say_quote(form, number, bytes, page, output);
    }
}

/// Writes a line of a program as `Line 3: G0 X400`, by its number in the file, from 1. Bytes that a
/// terminal doesn't print are shown as `?`, and tabs as spaces. If the program has no such line,
/// nothing is written.
///
/// After a fault (902, only if the sink failed) a prefix of the text is written.
pub fn write_line<A: Allocator, W: Sink>(
    form: Form,
    program: &Program<A>,
    number: u32,
    sink: &mut W,
) -> Result<(), WriteFault>
    ensures ok { OnOk result
        (Appends (W.written sink.old) (W.written sink.new)
        (quoted form number (text_in program.now).lines)) }
    ensures fault { OnErr result
        (AppendsPrefix (W.written sink.old) (W.written sink.new)
        (quoted form number (text_in program.now).lines)) }
    ensures counts { CountsFailure (W.failures sink.old) (W.failures sink.new) result }
{
    let mut page = Page::new();
    say_quote_if(form, number, line_bytes(program, number), &mut page, sink);
    page.finish(sink)
}
