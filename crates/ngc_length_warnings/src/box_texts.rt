//! How boxes are warned of that count from a coordinate system in which the program cuts with no tool
//! length offset: in words, or as facts of a JSON document.
ghost use Rattle.std.specs.Prelude.{◌≡◌, ◌++◌};
ghost use Rattle.ngc_sentences.specs.Saying.{Says};
ghost use Rattle.ngc_report.specs.Words.{bracketed};
ghost use Rattle.ngc_length_warnings.specs.BoxTexts.{block_fact, block_line, block_words, cut_facts};
ghost use Rattle.ngc_length_warnings.specs.BoxTexts.{cut_line, cut_words, each_words, first_fact};
ghost use Rattle.ngc_length_warnings.specs.BoxTexts.{first_words, fixture_fact, fixture_line, fixture_words};
ghost use Rattle.ngc_length_warnings.specs.BoxTexts.{line_of, lower_words, more_words, number_words};

use crate::boxes::first_from;
use crate::cut::{BareCut, Boxes, FirstFixture};
use ngc_frames::system_name;
use ngc_machine_files::{Fixture, Name};
use ngc_report::Form;
use ngc_sentences::{Page, Part, say};
use ngc_text::Sink;

#[tactic(auto, unfolding(ngc_report::specs::Words::bracketed))]
fn say_bracketed<W: Sink>(name: &Name, page: &mut Page, output: &mut W)
    ensures { Says (W.written output.old) (W.written output.new)
        (W.failures output.old) (W.failures output.new) page.old page.new (bracketed name.now) }
{
    let name = name.as_bytes();
    if !name.is_empty() {
        say!(page, output; b" (", Part::Text(name), b")");
    }
}

#[tactic(auto, unfolding(crate::specs::BoxTexts::more_words))]
fn say_more<W: Sink>(more: usize, page: &mut Page, output: &mut W)
    ensures { Says (W.written output.old) (W.written output.new)
        (W.failures output.old) (W.failures output.new) page.old page.new (more_words more) }
{
    if more == 0 {
        say!(page, output; b" counts");
    } else {
        say!(page, output; b" and ", Part::Number(more as u128), b" more count");
    }
}

#[tactic(auto, unfolding(crate::specs::BoxTexts::each_words))]
fn each_words(more: usize) -> &'static [u8]
    ensures { result.now ≡ each_words more }
{
    if more == 0 {
        b"the fixture"
    } else {
        b"each fixture"
    }
}

#[tactic(auto, unfolding(crate::specs::BoxTexts::number_words))]
fn say_number<W: Sink>(first: &FirstFixture, page: &mut Page, output: &mut W)
    ensures { Says (W.written output.old) (W.written output.new)
        (W.failures output.old) (W.failures output.new) page.old page.new (number_words first.now) }
{
    say!(page, output; b"warning: fixture ", Part::Number(first.number as u128));
}

fn say_first<W: Sink>(first: &FirstFixture, page: &mut Page, output: &mut W)
    ensures { Says (W.written output.old) (W.written output.new)
        (W.failures output.old) (W.failures output.new) page.old page.new (first_words first.now) }
{
    say_number(first, page, output);
    say_bracketed(&first.name, page, output);
    say_more(first.more, page, output);
}

#[tactic(auto, unfolding(crate::specs::BoxTexts::cut_words))]
fn say_cut<W: Sink>(cut: &BareCut, page: &mut Page, output: &mut W)
    ensures { Says (W.written output.old) (W.written output.new)
        (W.failures output.old) (W.failures output.new) page.old page.new (cut_words cut.now) }
{
    let name = system_name(cut.system);
    say!(page, output; b" from ", Part::Text(name), b", but line ", Part::Number(u128::from(cut.line)), b" cuts there without a tool length offset. ");
}

// Says how much lower a box is, and what to do. `each` names the box.
#[tactic(auto, unfolding(crate::specs::BoxTexts::lower_words))]
fn say_lower<W: Sink>(cut: &BareCut, each: &[u8], page: &mut Page, output: &mut W)
    ensures { Says (W.written output.old) (W.written output.new)
        (W.failures output.old) (W.failures output.new) page.old page.new
        (lower_words cut.now each.now) }
{
    say!(page, output; b"If the part was touched off with tool ", Part::Number(u128::from(cut.tool)), b", ", Part::Text(each), b" is ", Part::Size(u128::from(cut.reach)), b" mm lower than it is tested: write its corners that much lower, in machine coordinates.\n");
}

fn say_fixture_words<W: Sink>(cut: &BareCut, first: &FirstFixture, page: &mut Page, output: &mut W)
    ensures { Says (W.written output.old) (W.written output.new)
        (W.failures output.old) (W.failures output.new) page.old page.new
        (fixture_words cut.now first.now) }
{
    say_first(first, page, output);
    say_cut(cut, page, output);
    say_lower(cut, each_words(first.more), page, output);
}

fn say_block_words<W: Sink>(cut: &BareCut, page: &mut Page, output: &mut W)
    ensures { Says (W.written output.old) (W.written output.new)
        (W.failures output.old) (W.failures output.new) page.old page.new (block_words cut.now) }
{
    say!(page, output; b"warning: the block of material counts");
    say_cut(cut, page, output);
    say_lower(cut, b"the block", page, output);
}

#[tactic(auto, unfolding(crate::specs::BoxTexts::cut_facts))]
fn say_cut_facts<W: Sink>(cut: &BareCut, page: &mut Page, output: &mut W)
    ensures { Says (W.written output.old) (W.written output.new)
        (W.failures output.old) (W.failures output.new) page.old page.new (cut_facts cut.now) }
{
    let name = system_name(cut.system);
    say!(page, output; b",\"line\":", Part::Number(u128::from(cut.line)), b",\"system\":\"", Part::Text(name), b"\",\"tool\":", Part::Number(u128::from(cut.tool)), b",\"lower\":", Part::Number(u128::from(cut.reach)), b"}");
}

#[tactic(auto, unfolding(crate::specs::BoxTexts::first_fact))]
fn say_first_fact<W: Sink>(first: &FirstFixture, page: &mut Page, output: &mut W)
    ensures { Says (W.written output.old) (W.written output.new)
        (W.failures output.old) (W.failures output.new) page.old page.new (first_fact first.now) }
{
    say!(page, output; b",\n{\"fact\":\"warning\",\"text\":\"a fixture counts from a system in which the program cuts without a tool length offset\",\"count\":", Part::Number(first.more as u128 + 1), b",\"fixture\":", Part::Number(first.number as u128));
}

fn say_fixture_fact<W: Sink>(cut: &BareCut, first: &FirstFixture, page: &mut Page, output: &mut W)
    ensures { Says (W.written output.old) (W.written output.new)
        (W.failures output.old) (W.failures output.new) page.old page.new
        (fixture_fact cut.now first.now) }
{
    say_first_fact(first, page, output);
    say_cut_facts(cut, page, output);
}

fn say_block_fact<W: Sink>(cut: &BareCut, page: &mut Page, output: &mut W)
    ensures { Says (W.written output.old) (W.written output.new)
        (W.failures output.old) (W.failures output.new) page.old page.new (block_fact cut.now) }
{
    say!(page, output; b",\n{\"fact\":\"warning\",\"text\":\"the block of material counts from a system in which the program cuts without a tool length offset\"");
    say_cut_facts(cut, page, output);
}

fn say_fixture_line<W: Sink>(
    form: Form,
    cut: &BareCut,
    first: &Option<FirstFixture>,
    page: &mut Page,
    output: &mut W,
)
    ensures { Says (W.written output.old) (W.written output.new)
        (W.failures output.old) (W.failures output.new) page.old page.new
        (fixture_line form cut.now first.now) }
{
    match (form, first) {
        (_, None) => {}
        (Form::Words, Some(first)) => say_fixture_words(cut, first, page, output),
        (Form::Json, Some(first)) => say_fixture_fact(cut, first, page, output),
    }
}

fn say_block_line<W: Sink>(form: Form, cut: &BareCut, page: &mut Page, output: &mut W)
    ensures { Says (W.written output.old) (W.written output.new)
        (W.failures output.old) (W.failures output.new) page.old page.new
        (block_line form cut.now) }
{
    match form {
        Form::Words => say_block_words(cut, page, output),
        Form::Json => say_block_fact(cut, page, output),
    }
}

fn say_cut_line<W: Sink>(
    form: Form,
    boxes: Boxes,
    fixtures: &[Fixture],
    cut: &BareCut,
    page: &mut Page,
    output: &mut W,
)
    ensures { Says (W.written output.old) (W.written output.new)
        (W.failures output.old) (W.failures output.new) page.old page.new
        (cut_line form boxes fixtures.now cut.now) }
{
    match boxes {
        Boxes::Fixtures => {
            let first = first_from(cut.system, fixtures);
            say_fixture_line(form, cut, &first, page, output);
        }
        Boxes::Block => say_block_line(form, cut, page, output),
    }
}

/// Says the line of the boxes that count from the coordinate system of a cut, or nothing without a
/// cut. `fixtures` are the machine's.
pub(crate) fn say_boxes<W: Sink>(
    form: Form,
    boxes: Boxes,
    fixtures: &[Fixture],
    cut: &Option<BareCut>,
    page: &mut Page,
    output: &mut W,
)
    ensures { Says (W.written output.old) (W.written output.new)
        (W.failures output.old) (W.failures output.new) page.old page.new
        (line_of form boxes fixtures.now cut.now) }
{
    match cut {
        None => {}
        Some(cut) => say_cut_line(form, boxes, fixtures, cut, page, output),
    }
}
