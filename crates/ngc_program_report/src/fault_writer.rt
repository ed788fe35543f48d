//! How all faults of a program are written.
ghost use Rattle.std.specs.Prelude.{◌≡◌, ◌++◌, [], OnOk, OnErr, true, false};
ghost use Rattle.std.specs.List.{list_any};
ghost use Rattle.std.specs.Io.KnownBytes.{Appends};
ghost use Rattle.ngc_text.specs.Failures.{CountsFailure};
ghost use Rattle.ngc_text.specs.Written.{AppendsPrefix};
ghost use Rattle.ngc_sentences.specs.Parts.{part_text};
ghost use Rattle.ngc_sentences.specs.Saying.{Says};
ghost use Rattle.ngc_program_report.specs.FaultTexts.{earlier_words, delete_words, fault_words};
ghost use Rattle.ngc_program_report.specs.FaultTexts.{line_value, truth, fault_fact, fault_line};
ghost use Rattle.ngc_program_report.specs.FaultTexts.{fault_quote, same_line, is_same, fault_text};
ghost use Rattle.ngc_program_report.specs.FaultTexts.{list_text, faulty_line, faults_text};
ghost use Rattle.ngc_program_report.specs.Writing.{Writes};

use crate::refusal_writer::refused_line;
use crate::report_frame::{opening, write_ending};
use ngc_all_faults::TextFault;
use ngc_line_reader::ReadFault;
use ngc_report::{Form, write_named_source, write_source_line};
use ngc_sentences::{Page, Part, say};
use ngc_text::{Sink, WriteFault, write_all};

// Writes the line of a fault, with a mark below its column or word.
fn write_quote<W: Sink>(
    form: Form,
    text: &[u8],
    fault: &TextFault,
    output: &mut W,
) -> Result<(), WriteFault>
    ensures { Writes (W.written output.old) (W.written output.new) (W.failures output.old)
        (W.failures output.new) result (fault_quote form text.now fault.now) }
{
    match fault {
        TextFault::Unread(ReadFault::Line(line, fault)) => {
            write_source_line(form, text, *line, fault.column, output)
        }
        TextFault::Unread(_) => write_all(output, b""),
        TextFault::Refused { line, fault } => {
            write_named_source(form, text, *line, fault, output)
        }
    }
}

fn earlier_words(earlier: bool) -> Part<'static>
    ensures { part_text result ≡ earlier_words earlier }
{
    if earlier {
        Part::Text(b", after earlier faults")
    } else {
        Part::Text(b"")
    }
}

fn delete_words(only_on: bool) -> Part<'static>
    ensures { part_text result ≡ delete_words only_on }
{
    if only_on {
        Part::Text(b", with block delete on")
    } else {
        Part::Text(b"")
    }
}

fn truth(holds: bool) -> Part<'static>
    ensures { part_text result ≡ truth holds }
{
    if holds {
        Part::Text(b"true")
    } else {
        Part::Text(b"false")
    }
}

#[tactic(auto, unfolding(crate::specs::FaultTexts::line_value))]
fn line_value(line: Option<u32>) -> Part<'static>
    ensures { part_text result ≡ line_value line }
{
    match line {
        None => Part::Text(b"null"),
        Some(line) => Part::Number(u128::from(line)),
    }
}

fn say_words<W: Sink>(number: u16, earlier: bool, only_on: bool, page: &mut Page, output: &mut W)
    ensures { Says (W.written output.old) (W.written output.new)
        (W.failures output.old) (W.failures output.new) page.old page.new
        (fault_words number earlier only_on) }
{
    say!(page, output; b"Fault ", Part::Number(u128::from(number)), earlier_words(earlier), delete_words(only_on), b".\n");
}

fn say_fact<W: Sink>(
    line: Option<u32>,
    number: u16,
    earlier: bool,
    only_on: bool,
    page: &mut Page,
    output: &mut W,
)
    ensures { Says (W.written output.old) (W.written output.new)
        (W.failures output.old) (W.failures output.new) page.old page.new
        (fault_fact line number earlier only_on) }
{
    say!(page, output; b",\n{\"fact\":\"fault_in\",\"line\":", line_value(line), b",\"number\":", Part::Number(u128::from(number)), b",\"after_earlier_faults\":", truth(earlier), b",\"only_with_block_delete\":", truth(only_on), b"}");
}

// Says the number of a fault. The flags are whether others come before it, and whether it occurs
// only with block delete on.
fn say_fault<W: Sink>(
    form: Form,
    fault: &TextFault,
    earlier: bool,
    only_on: bool,
    page: &mut Page,
    output: &mut W,
)
    ensures { Says (W.written output.old) (W.written output.new)
        (W.failures output.old) (W.failures output.new) page.old page.new
        (fault_line form fault.now earlier only_on) }
{
    let number = fault.number();
    match form {
        Form::Words => say_words(number, earlier, only_on, page, output),
        Form::Json => say_fact(fault.line(), number, earlier, only_on, page, output),
    }
}

fn write_fault<W: Sink>(
    form: Form,
    text: &[u8],
    only_on: bool,
    fault: &TextFault,
    earlier: bool,
    output: &mut W,
) -> Result<(), WriteFault>
    ensures { Writes (W.written output.old) (W.written output.new) (W.failures output.old)
        (W.failures output.new) result
        (fault_quote form text.now fault.now ++ fault_line form fault.now earlier only_on) }
{
    write_quote(form, text, fault, output)?;
    let mut page = Page::new();
    say_fault(form, fault, earlier, only_on, &mut page, output);
    page.finish(output)
}

fn same_line(one: Option<u32>, other: Option<u32>) -> bool
    ensures { result ≡ same_line one other }
{
    match (one, other) {
        (None, None) => true,
        (Some(one), Some(other)) => one == other,
        (None, Some(_)) | (Some(_), None) => false,
    }
}

// Returns whether two faults are in the same line and have the same number.
fn is_same(one: &TextFault, other: &TextFault) -> bool
    ensures { result ≡ is_same one.now other.now }
{
    same_line(one.line(), other.line()) && one.number() == other.number()
}

fn is_among(fault: &TextFault, others: &[TextFault]) -> bool
    ensures { result ≡ list_any (is_same fault.now) others.now }
{
    others.iter().any(|other| is_same(fault, other))
}

fn write_new<W: Sink>(
    form: Form,
    text: &[u8],
    only_on: bool,
    others: &[TextFault],
    fault: &TextFault,
    earlier: bool,
    output: &mut W,
) -> Result<(), WriteFault>
    ensures { Writes (W.written output.old) (W.written output.new) (W.failures output.old)
        (W.failures output.new) result
        (fault_text form text.now only_on others.now fault.now earlier) }
{
    if is_among(fault, others) {
        write_all(output, b"")
    } else {
        write_fault(form, text, only_on, fault, earlier, output)
    }
}

// Writes the faults of a setting that aren't in the other list.
fn write_list<W: Sink>(
    form: Form,
    text: &[u8],
    only_on: bool,
    others: &[TextFault],
    faults: &[TextFault],
    output: &mut W,
) -> Result<(), WriteFault>
    ensures { Writes (W.written output.old) (W.written output.new) (W.failures output.old)
        (W.failures output.new) result
        (list_text form text.now only_on others.now false faults.now) }
{
    let mut earlier = false;
    let mut left = faults;
    while let Some((one, later)) = left.split_first() {
        write_new(form, text, only_on, others, one, earlier, output)?;
        earlier = true;
        left = later;
    }
    Ok(())
}

fn faulty_line(form: Form, first: &TextFault) -> &'static [u8]
    ensures { result.now ≡ faulty_line form first.now }
{
    match (form, first) {
        (_, TextFault::Refused { .. }) => refused_line(form),
        (Form::Words, TextFault::Unread(_)) => b"The program can't be read.\n",
        (Form::Json, TextFault::Unread(_)) => b",\n{\"fact\":\"unreadable\"}",
    }
}

/// Writes the report of all faults of a program's text: those with block delete off, and then those
/// that occur only with block delete on, in another line or with another number. Each has its line,
/// with a mark, and its number. The report ends with the number of the first.
///
/// After a fault (902, only if the sink failed) a prefix of the text is written.
pub fn write_faults<W: Sink>(
    form: Form,
    text: &[u8],
    first: &TextFault,
    off: &[TextFault],
    on: &[TextFault],
    output: &mut W,
) -> Result<(), WriteFault>
    ensures ok { OnOk result
        (Appends (W.written output.old) (W.written output.new)
        (faults_text form text.now first.now off.now on.now)) }
    ensures fault { OnErr result
        (AppendsPrefix (W.written output.old) (W.written output.new)
        (faults_text form text.now first.now off.now on.now)) }
    ensures counts { CountsFailure (W.failures output.old) (W.failures output.new) result }
{
    write_all(output, opening(form))?;
    write_all(output, faulty_line(form, first))?;
    write_list(form, text, false, &[], off, output)?;
    write_list(form, text, true, off, on, output)?;
    write_ending(form, first.number(), output)
}
