//! How the values of a refused line's fault are said.
ghost use Rattle.std.specs.Prelude.{◌≡◌, codes, OnOk, OnErr};
ghost use Rattle.std.specs.Fmt.{signed_decimal};
ghost use Rattle.std.specs.Io.KnownBytes.{Appends};
ghost use Rattle.ngc_text.specs.Failures.{CountsFailure};
ghost use Rattle.ngc_text.specs.Millimetres.{sign_text};
ghost use Rattle.ngc_text.specs.Written.{AppendsPrefix};
ghost use Rattle.ngc_line_reader.specs.ProgramView.{text_in};
ghost use Rattle.ngc_report.specs.Words.{shift_text};
ghost use Rattle.ngc_sentences.specs.Parts.{part_text, parts_text};
ghost use Rattle.ngc_sentences.specs.Saying.{Says};
ghost use Rattle.ngc_refused_values.specs.Texts.{arc_line, axis_text, cycle_line, cycle_phrase};
ghost use Rattle.ngc_refused_values.specs.Texts.{cycle_text};
ghost use Rattle.ngc_refused_values.specs.Texts.{fact_of, far_phrase, far_text, far_values, words_of};
ghost use Rattle.ngc_refused_values.specs.Texts.{frame_line, inches_fact, inches_phrase, quantity_text};
ghost use Rattle.ngc_refused_values.specs.Texts.{near_text, radii_phrase, radii_values};
ghost use Rattle.ngc_refused_values.specs.Texts.{selection_phrase, selection_text};
ghost use Rattle.ngc_refused_values.specs.Texts.{selection_values, value_line};

use crate::last_words::LastWord;
use crate::values::{inches_since, selected_tool};
use ngc_arc_geometry::ArcFault;
use ngc_canonical::Fault;
use ngc_line_reader::Program;
use ngc_offsets::{Axis, CoordinateRange, FrameFault, Quantity};
use ngc_report::Form;
use ngc_sentences::{Page, Part, say};
use ngc_text::{Sink, WriteFault};
use std::alloc::Allocator;

fn begin_fact<W: Sink>(page: &mut Page, output: &mut W)
    ensures { Says (W.written output.old) (W.written output.new)
        (W.failures output.old) (W.failures output.new) page.old page.new
        (codes ",\n{\"fact\":\"reason\",\"text\":\"") }
{
    say!(page, output; b",\n{\"fact\":\"reason\",\"text\":\"");
}

// Says a phrase on a line of its own.
fn say_line<W: Sink>(phrase: &[Part], page: &mut Page, output: &mut W)
    ensures { Says (W.written output.old) (W.written output.new)
        (W.failures output.old) (W.failures output.new) page.old page.new
        (words_of (parts_text phrase.now)) }
{
    page.say(output, phrase);
    say!(page, output; b"\n");
}

// Says a phrase as a fact, and what it says as numbers.
fn say_fact<W: Sink>(phrase: &[Part], values: &[Part], page: &mut Page, output: &mut W)
    ensures { Says (W.written output.old) (W.written output.new)
        (W.failures output.old) (W.failures output.new) page.old page.new
        (fact_of (parts_text phrase.now) (parts_text values.now)) }
{
    begin_fact(page, output);
    page.say(output, phrase);
    say!(page, output; b"\"");
    page.say(output, values);
    say!(page, output; b"}");
}

#[tactic(auto, unfolding(crate::specs::Texts::selection_phrase))]
fn selection_phrase(line: u32) -> [Part<'static>; 3]
    ensures { parts_text result ≡ selection_phrase line }
{
    [
        Part::Text(b"Line "),
        Part::Number(u128::from(line)),
        Part::Text(b" selects it."),
    ]
}

fn selection_values(line: u32, tool: u32) -> [Part<'static>; 4]
    ensures { parts_text result ≡ selection_values line tool }
{
    [
        Part::Text(b",\"tool\":"),
        Part::Number(u128::from(tool)),
        Part::Text(b",\"line\":"),
        Part::Number(u128::from(line)),
    ]
}

#[tactic(auto, unfolding(crate::specs::Texts::selection_text))]
fn say_selection<W: Sink>(
    form: Form,
    tool: u32,
    selection: &Option<LastWord>,
    page: &mut Page,
    output: &mut W,
)
    ensures { Says (W.written output.old) (W.written output.new)
        (W.failures output.old) (W.failures output.new) page.old page.new
        (selection_text form tool selection.now) }
{
    let Some(word) = selection else { return };
    let phrase = selection_phrase(word.line);
    match form {
        Form::Words => say_line(&phrase, page, output),
        Form::Json => say_fact(&phrase, &selection_values(word.line, tool), page, output),
    }
}

// Returns a distance with at most three decimals, rounded up.
#[tactic(auto, unfolding(ngc_report::specs::Words::shift_text))]
fn size(size: u64) -> Part<'static>
    ensures { part_text result ≡ shift_text size }
{
    Part::Thousandths(u128::from(size.div_ceil(1000)))
}

fn sign(length: &i64) -> &'static [u8]
    ensures { result.now ≡ sign_text length.now }
{
    if *length < 0 { b"-" } else { b"" }
}

#[tactic(auto, unfolding(crate::specs::Texts::far_text))]
fn far(at: &i64) -> [Part<'static>; 2]
    ensures { parts_text result ≡ far_text at.now }
{
    [Part::Text(sign(at)), size(at.unsigned_abs())]
}

fn axis_name(axis: Axis) -> &'static [u8]
    ensures { result.now ≡ axis_text axis }
{
    match axis {
        Axis::X => b"X",
        Axis::Y => b"Y",
        Axis::Z => b"Z",
    }
}

fn quantity_name(quantity: Quantity) -> &'static [u8]
    ensures { result.now ≡ quantity_text quantity }
{
    match quantity {
        Quantity::Coordinate(_) => b"",
        Quantity::Offset => b"The origin or offset of ",
    }
}

#[tactic(auto, unfolding(crate::specs::Texts::inches_phrase))]
fn say_inches_phrase<W: Sink>(inches: Option<u32>, page: &mut Page, output: &mut W)
    ensures { Says (W.written output.old) (W.written output.new)
        (W.failures output.old) (W.failures output.new) page.old page.new
        (inches_phrase inches) }
{
    match inches {
        None => {}
        Some(line) =>
            say!(page, output; b" Lengths are in inches since line ", Part::Number(u128::from(line)), b"."),
    }
}

#[tactic(auto, unfolding(crate::specs::Texts::far_phrase))]
fn say_far_phrase<W: Sink>(
    inches: Option<u32>,
    axis: Axis,
    quantity: Quantity,
    at: &i64,
    page: &mut Page,
    output: &mut W,
)
    ensures { Says (W.written output.old) (W.written output.new)
        (W.failures output.old) (W.failures output.new) page.old page.new
        (far_phrase inches axis quantity at.now) }
{
    say!(page, output; Part::Text(quantity_name(quantity)), Part::Text(axis_name(axis)), b" is at ");
    page.say(output, &far(at));
    say!(page, output; b" mm, but the limit is ", size(quantity.limit()), b" mm either way.");
    say_inches_phrase(inches, page, output);
}

fn nanometres(length: &i64) -> Part<'static>
    ensures { part_text result ≡ signed_decimal length.now }
{
    Part::Signed(*length)
}

#[tactic(auto, unfolding(crate::specs::Texts::inches_fact))]
fn say_inches_fact<W: Sink>(inches: Option<u32>, page: &mut Page, output: &mut W)
    ensures { Says (W.written output.old) (W.written output.new)
        (W.failures output.old) (W.failures output.new) page.old page.new
        (inches_fact inches) }
{
    match inches {
        None => {}
        Some(line) => say!(page, output; b",\"inches_since\":", Part::Number(u128::from(line))),
    }
}

#[tactic(auto, unfolding(crate::specs::Texts::far_values))]
fn say_far_values<W: Sink>(
    inches: Option<u32>,
    axis: Axis,
    quantity: Quantity,
    at: &i64,
    page: &mut Page,
    output: &mut W,
)
    ensures { Says (W.written output.old) (W.written output.new)
        (W.failures output.old) (W.failures output.new) page.old page.new
        (far_values inches axis quantity at.now) }
{
    say!(page, output; b",\"axis\":\"", Part::Text(axis_name(axis)), b"\",\"at\":", nanometres(at), b",\"limit\":", Part::Number(u128::from(quantity.limit())));
    say_inches_fact(inches, page, output);
}

fn say_frame_line<W: Sink>(
    form: Form,
    inches: Option<u32>,
    fault: &FrameFault,
    page: &mut Page,
    output: &mut W,
)
    ensures { Says (W.written output.old) (W.written output.new)
        (W.failures output.old) (W.failures output.new) page.old page.new
        (frame_line form inches fault.now) }
{
    let FrameFault::BeyondRange { axis, quantity, at } = fault else {
        return;
    };
    match form {
        Form::Words => {
            say_far_phrase(inches, *axis, *quantity, at, page, output);
            say!(page, output; b"\n");
        }
        Form::Json => {
            begin_fact(page, output);
            say_far_phrase(inches, *axis, *quantity, at, page, output);
            say!(page, output; b"\"");
            say_far_values(inches, *axis, *quantity, at, page, output);
            say!(page, output; b"}");
        }
    }
}

fn cycle_words(reach: CoordinateRange) -> &'static [u8]
    ensures { result.now ≡ cycle_text reach }
{
    match reach {
        CoordinateRange::Near => b"A height or a hole of the cycle is over 1000 mm from zero.",
        CoordinateRange::Far => b"A height or a hole of the cycle is over 4000 mm from zero.",
    }
}

#[tactic(auto, unfolding(crate::specs::Texts::cycle_phrase))]
fn say_cycle_phrase<W: Sink>(
    reach: CoordinateRange,
    inches: Option<u32>,
    page: &mut Page,
    output: &mut W,
)
    ensures { Says (W.written output.old) (W.written output.new)
        (W.failures output.old) (W.failures output.new) page.old page.new
        (cycle_phrase reach inches) }
{
    say!(page, output; Part::Text(cycle_words(reach)));
    say_inches_phrase(inches, page, output);
}

fn say_cycle_line<W: Sink>(
    form: Form,
    reach: CoordinateRange,
    inches: Option<u32>,
    page: &mut Page,
    output: &mut W,
)
    ensures { Says (W.written output.old) (W.written output.new)
        (W.failures output.old) (W.failures output.new) page.old page.new
        (cycle_line form reach inches) }
{
    match form {
        Form::Words => {
            say_cycle_phrase(reach, inches, page, output);
            say!(page, output; b"\n");
        }
        Form::Json => {
            begin_fact(page, output);
            say_cycle_phrase(reach, inches, page, output);
            say!(page, output; b"\"");
            say_inches_fact(inches, page, output);
            say!(page, output; b"}");
        }
    }
}

// Returns a length with at most three decimals, the nearest one.
#[tactic(auto, unfolding(crate::specs::Texts::near_text))]
fn near(nanometres: u64) -> Part<'static>
    ensures { part_text result ≡ near_text nanometres }
{
    Part::Thousandths((u128::from(nanometres) + 500) / 1000)
}

#[tactic(auto, unfolding(crate::specs::Texts::radii_phrase))]
fn radii_phrase(at_start: u64, at_end: u64) -> [Part<'static>; 7]
    ensures { parts_text result ≡ radii_phrase at_start at_end }
{
    [
        Part::Text(b"The radius is "),
        near(at_start),
        Part::Text(b" mm at the start and "),
        near(at_end),
        Part::Text(b" mm at the end: they differ by "),
        size(at_start.abs_diff(at_end)),
        Part::Text(b" mm."),
    ]
}

#[tactic(auto, unfolding(crate::specs::Texts::radii_values))]
fn radii_values(at_start: u64, at_end: u64) -> [Part<'static>; 6]
    ensures { parts_text result ≡ radii_values at_start at_end }
{
    [
        Part::Text(b",\"start_radius\":"),
        Part::Number(u128::from(at_start)),
        Part::Text(b",\"end_radius\":"),
        Part::Number(u128::from(at_end)),
        Part::Text(b",\"difference\":"),
        Part::Number(u128::from(at_start.abs_diff(at_end))),
    ]
}

fn say_arc_line<W: Sink>(form: Form, fault: &ArcFault, page: &mut Page, output: &mut W)
    ensures { Says (W.written output.old) (W.written output.new)
        (W.failures output.old) (W.failures output.new) page.old page.new
        (arc_line form fault.now) }
{
    let ArcFault::RadiiDiffer { at_start, at_end } = fault else {
        return;
    };
    let phrase = radii_phrase(*at_start, *at_end);
    match form {
        Form::Words => say_line(&phrase, page, output),
        Form::Json => say_fact(&phrase, &radii_values(*at_start, *at_end), page, output),
    }
}

fn say_value_line<A: Allocator, W: Sink>(
    form: Form,
    deletes: bool,
    program: &Program<A>,
    number: u32,
    fault: &Fault,
    page: &mut Page,
    output: &mut W,
)
    ensures { Says (W.written output.old) (W.written output.new)
        (W.failures output.old) (W.failures output.new) page.old page.new
        (value_line form deletes number fault.now (text_in program.now).lines) }
{
    match fault {
        Fault::NoSuchTool(tool) => {
            let selection = selected_tool(deletes, program, number);
            say_selection(form, *tool, &selection, page, output);
        }
        Fault::Frame(fault) => {
            let inches = inches_since(deletes, program, number);
            say_frame_line(form, inches, fault, page, output);
        }
        Fault::CycleBeyondRange(reach) => {
            let inches = inches_since(deletes, program, number);
            say_cycle_line(form, *reach, inches, page, output);
        }
        Fault::Arc(fault) => say_arc_line(form, fault, page, output),
        _ => {}
    }
}

/// Writes the values of a fault, below what `write_line` writes of its line, by its number in the
/// file, from 1, and at a setting of block delete: the line that selects a tool that isn't in the
/// tool table (222), a coordinate, origin or offset out of range (221), and the radii of an arc
/// where they differ (243).
///
/// ```text
/// Line 5: M6
/// Tool 9 isn't in the tool table.
/// Line 3 selects it.
/// ```
///
/// Nothing is written for any other fault, and for a tool that the refused line itself names.
///
/// After a fault (902, only if the sink failed) a prefix of the text is written.
pub fn write_values<A: Allocator, W: Sink>(
    form: Form,
    deletes: bool,
    program: &Program<A>,
    number: u32,
    fault: &Fault,
    sink: &mut W,
) -> Result<(), WriteFault>
    ensures ok { OnOk result
        (Appends (W.written sink.old) (W.written sink.new)
        (value_line form deletes number fault.now (text_in program.now).lines)) }
    ensures fault { OnErr result
        (AppendsPrefix (W.written sink.old) (W.written sink.new)
        (value_line form deletes number fault.now (text_in program.now).lines)) }
    ensures counts { CountsFailure (W.failures sink.old) (W.failures sink.new) result }
{
    let mut page = Page::new();
    say_value_line(form, deletes, program, number, fault, &mut page, sink);
    page.finish(sink)
}
