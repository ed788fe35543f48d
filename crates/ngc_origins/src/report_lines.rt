//! The lines of a report that name the replaced origins.
ghost use Rattle.std.specs.Prelude.{◌≡◌};
ghost use Rattle.ngc_origins.specs.Lines.{code_text, line_of, origin_fact, origin_words};
ghost use Rattle.ngc_origins.specs.Lines.{origins_facts, origins_words, place_fact};
ghost use Rattle.ngc_sentences.specs.Parts.{parts_text};
ghost use Rattle.ngc_sentences.specs.Saying.{Says};

use crate::origins::Origins;
use ngc_fixed_length::Point3;
use ngc_sentences::{Page, Part, say};
use ngc_text::Sink;

#[tactic(auto, unfolding(crate::specs::Lines::code_text))]
fn code(system: usize) -> &'static [u8]
    ensures { result.now ≡ code_text system }
{
    match system {
        0 => b"G54",
        1 => b"G55",
        2 => b"G56",
        3 => b"G57",
        4 => b"G58",
        5 => b"G59",
        6 => b"G59.1",
        7 => b"G59.2",
        _ => b"G59.3",
    }
}

fn say_words<W: Sink>(system: usize, place: &Point3, page: &mut Page, output: &mut W)
    ensures { Says (W.written output.old) (W.written output.new)
        (W.failures output.old) (W.failures output.new) page.old page.new (origin_words system place.now) }
{
    say!(page, output; Part::Text(code(system)), b" at X ", Part::Millimetres(place.x.nanometres()), b", Y ", Part::Millimetres(place.y.nanometres()), b", Z ", Part::Millimetres(place.z.nanometres()), b" by --origin.\n");
}

#[tactic(auto, unfolding(crate::specs::Lines::place_fact))]
fn place(place: &Point3) -> [Part<'static>; 7]
    ensures { parts_text result ≡ place_fact place.now }
{
    [
        Part::Text(b"["),
        Part::Signed(place.x.nanometres()),
        Part::Text(b","),
        Part::Signed(place.y.nanometres()),
        Part::Text(b","),
        Part::Signed(place.z.nanometres()),
        Part::Text(b"]"),
    ]
}

#[tactic(auto, unfolding(crate::specs::Lines::origin_fact))]
fn say_fact<W: Sink>(system: usize, origin: &Point3, page: &mut Page, output: &mut W)
    ensures { Says (W.written output.old) (W.written output.new)
        (W.failures output.old) (W.failures output.new) page.old page.new
        (origin_fact system origin.now) }
{
    say!(page, output; b",\n{\"fact\":\"origin\",\"system\":\"", Part::Text(code(system)), b"\",\"at\":");
    page.say(output, &place(origin));
    say!(page, output; b"}");
}

fn say_words_if<W: Sink>(system: usize, origin: &Option<Point3>, page: &mut Page, output: &mut W)
    ensures { Says (W.written output.old) (W.written output.new)
        (W.failures output.old) (W.failures output.new) page.old page.new (line_of origin_words system origin.now) }
{
    match origin {
        Some(place) => say_words(system, place, page, output),
        None => {}
    }
}

fn say_fact_if<W: Sink>(system: usize, origin: &Option<Point3>, page: &mut Page, output: &mut W)
    ensures { Says (W.written output.old) (W.written output.new)
        (W.failures output.old) (W.failures output.new) page.old page.new (line_of origin_fact system origin.now) }
{
    match origin {
        Some(place) => say_fact(system, place, page, output),
        None => {}
    }
}

/// Says a sentence for each origin that replaces one of the machine file, in millimetres.
pub fn say_origin_words<W: Sink>(origins: &Origins, page: &mut Page, output: &mut W)
    ensures { Says (W.written output.old) (W.written output.new)
        (W.failures output.old) (W.failures output.new) page.old page.new (origins_words origins.now) }
{
    for (i, origin) in origins.systems().iter().enumerate() {
        say_words_if(i, origin, page, output);
    }
}

/// Says a fact of a JSON document for each origin that replaces one of the machine file, in
/// nanometres.
pub fn say_origin_facts<W: Sink>(origins: &Origins, page: &mut Page, output: &mut W)
    ensures { Says (W.written output.old) (W.written output.new)
        (W.failures output.old) (W.failures output.new) page.old page.new (origins_facts origins.now) }
{
    for (i, origin) in origins.systems().iter().enumerate() {
        say_fact_if(i, origin, page, output);
    }
}
