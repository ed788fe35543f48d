//! A line of a program's file as a report shows it, even if the file can't be read as a program.
ghost use Rattle.std.specs.Prelude.{◌≡◌, ◌∷◌, ◌≤◌, ◌<◌, length, OnOk, OnErr};
ghost use Rattle.std.specs.Option.{option_map};
ghost use Rattle.std.specs.Io.KnownBytes.{Appends};
ghost use Rattle.ngc_text.specs.Failures.{CountsFailure};
ghost use Rattle.ngc_text.specs.Written.{AppendsPrefix};
ghost use Rattle.ngc_line_reader.specs.Program.{lines_of, split_lines};
ghost use Rattle.ngc_sentences.specs.Saying.{Says};
ghost use Rattle.ngc_report.specs.Quotes.{bytes_with, fact_mark, indent, mark, marked, quoted};
ghost use Rattle.ngc_report.specs.Quotes.{words_mark};

use crate::form::Form;
use crate::quotes::{say_quote, say_quote_if};
use itoa::Buffer;
use memchr::memchr;
use ngc_sentences::{Page, Part, say};
use ngc_text::{Sink, WriteFault};

/// Returns the first line and the bytes after its line feed.
fn cut_line(bytes: &[u8]) -> (&[u8], &[u8])
    requires { 1 ≤ length bytes.now }
    ensures parts { split_lines bytes.now ≡ result.0.now ∷ split_lines result.1.now }
    ensures shorter { length result.1.now < length bytes.now }
{
    match memchr(b'\n', bytes) {
        Some(end) => (&bytes[..end], &bytes[end + 1..]),
        None => (bytes, &bytes[bytes.len()..]),
    }
}

/// Returns the bytes of the line with this number, from 1.
pub(crate) fn source_line(bytes: &[u8], number: u32) -> Option<&[u8]>
    ensures { option_map (λ b. b.now) result ≡ bytes_with number (lines_of bytes.now) }
{
    let mut left = number;
    let mut rest = bytes;
    while left > 0 && !rest.is_empty() {
        let (line, afterwards) = cut_line(rest);
        if left == 1 {
            return Some(line);
        }
        left -= 1;
        rest = afterwards;
    }
    None
}

// Returns the number of columns before a column of a line that is shown after its number.
fn indent(number: u32, column: u16) -> usize
    ensures value { result ≡ indent number column }
    ensures few { result ≤ 320 }
{
    let mut buffer = Buffer::new();
    buffer.format(number).len() + usize::from(column.min(257)) + 6
}

#[tactic(auto, unfolding(crate::specs::Quotes::words_mark))]
fn say_words_mark<W: Sink>(number: u32, column: u16, page: &mut Page, output: &mut W)
    ensures { Says (W.written output.old) (W.written output.new)
        (W.failures output.old) (W.failures output.new) page.old page.new
        (words_mark number column) }
{
    let spaces = [b' '; 320];
    say!(page, output; Part::Text(&spaces[..indent(number, column)]), b"^\n");
}

fn say_fact_mark<W: Sink>(number: u32, column: u16, page: &mut Page, output: &mut W)
    ensures { Says (W.written output.old) (W.written output.new)
        (W.failures output.old) (W.failures output.new) page.old page.new
        (fact_mark number column) }
{
    say!(page, output; b",\n{\"fact\":\"mark\",\"line\":", Part::Number(u128::from(number)), b",\"column\":", Part::Number(u128::from(column)), b"}");
}

/// Says a mark below a column of the line that is shown above it.
#[tactic(auto, unfolding(crate::specs::Quotes::mark))]
pub(crate) fn say_mark<W: Sink>(
    form: Form,
    number: u32,
    column: u16,
    page: &mut Page,
    output: &mut W,
)
    ensures { Says (W.written output.old) (W.written output.new)
        (W.failures output.old) (W.failures output.new) page.old page.new
        (mark form number column) }
{
    match form {
        Form::Words => say_words_mark(number, column, page, output),
        Form::Json => say_fact_mark(number, column, page, output),
    }
}

#[tactic(auto, unfolding(crate::specs::Quotes::marked))]
fn say_marked<W: Sink>(
    form: Form,
    number: u32,
    column: u16,
    bytes: Option<&[u8]>,
    page: &mut Page,
    output: &mut W,
)
    ensures { Says (W.written output.old) (W.written output.new)
        (W.failures output.old) (W.failures output.new) page.old page.new
        (marked form number column (option_map (λ b. b.now) bytes.entry)) }
{
    if let Some(bytes) = bytes {
        say_quote(form, number, bytes, page, output);
        say_mark(form, number, column, page, output);
    }
}

/// Writes a line of a program's text, by its number from 1, with a mark below the column, from 1,
/// at which it is refused. Of a line of more than 256 bytes the first 256 are shown. If there is no
/// such line, nothing is written.
///
/// After a fault (902, only if the sink failed) a prefix of the text is written.
pub fn write_source_line<W: Sink>(
    form: Form,
    text: &[u8],
    number: u32,
    column: u16,
    sink: &mut W,
) -> Result<(), WriteFault>
    ensures ok { OnOk result
        (Appends (W.written sink.old) (W.written sink.new)
        (marked form number column (bytes_with number (lines_of text.now)))) }
    ensures fault { OnErr result
        (AppendsPrefix (W.written sink.old) (W.written sink.new)
        (marked form number column (bytes_with number (lines_of text.now)))) }
    ensures counts { CountsFailure (W.failures sink.old) (W.failures sink.new) result }
{
    let mut page = Page::new();
    let bytes = source_line(text, number);
    say_marked(form, number, column, bytes, &mut page, sink);
    page.finish(sink)
}

/// Writes a line of a text as `write_line` does, by its number from 1. A line ends at a line feed,
/// and the last may lack it. If there is no such line, nothing is written.
///
/// After a fault (902, only if the sink failed) a prefix of the text is written.
pub fn write_text_line<W: Sink>(
    form: Form,
    text: &[u8],
    number: u32,
    sink: &mut W,
) -> Result<(), WriteFault>
    ensures ok { OnOk result
        (Appends (W.written sink.old) (W.written sink.new)
        (quoted form number (lines_of text.now))) }
    ensures fault { OnErr result
        (AppendsPrefix (W.written sink.old) (W.written sink.new)
        (quoted form number (lines_of text.now))) }
    ensures counts { CountsFailure (W.failures sink.old) (W.failures sink.new) result }
{
    let mut page = Page::new();
    say_quote_if(form, number, source_line(text, number), &mut page, sink);
    page.finish(sink)
}
