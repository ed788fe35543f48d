//! How an origin outside of the travel is warned of, in words and as a fact of a JSON document.
ghost use Rattle.std.specs.Prelude.{◌≡◌, ◌+◌, ◌≤◌, ◌++◌, length};
ghost use Rattle.ngc_text.specs.Collected.{CHUNK_SIZE, HasSpaceForLine};
ghost use Rattle.ngc_origin_warnings.specs.Texts.{kind_text, lacking_text, origin_fact};
ghost use Rattle.ngc_origin_warnings.specs.Texts.{origin_text, origin_words, place_fact};
ghost use Rattle.ngc_origin_warnings.specs.Texts.{put_text, warning_text};

use crate::origin::Origin;
use ngc_frames::{add_place, add_triple, system_name};
use ngc_report::Form;
use ngc_text::Chunk;

// Adds that a line puts an origin outside of the travel.
#[tactic(auto, unfolding(crate::specs::Texts::put_text))]
fn add_put(chunk: &mut Chunk, origin: &Origin)
    requires { length chunk.old + 360 ≤ CHUNK_SIZE }
    ensures text { chunk.new ≡ chunk.old ++ put_text origin.now }
    ensures short { length chunk.new ≤ length chunk.old + 360 }
{
    chunk.add_text(b"warning: line ");
    chunk.add_number(origin.line);
    chunk.add_text(b" puts the origin of ");
    chunk.add_text(system_name(origin.system));
    chunk.add_text(b" at ");
    add_place(chunk, &origin.at);
    chunk.add_text(b", ");
    chunk.add_millimetres(i128::from(origin.beyond));
    chunk.add_text(b" beyond the travel: the first motion");
}

// Adds that the machine file has no such origin, and its zero is outside of the travel.
#[tactic(auto, unfolding(crate::specs::Texts::lacking_text))]
fn add_lacking(chunk: &mut Chunk, origin: &Origin)
    requires { length chunk.old + 360 ≤ CHUNK_SIZE }
    ensures text { chunk.new ≡ chunk.old ++ lacking_text origin.now }
    ensures short { length chunk.new ≤ length chunk.old + 360 }
{
    chunk.add_text(b"warning: the machine file has no origin of ");
    chunk.add_text(system_name(origin.system));
    chunk.add_text(b", and the machine's zero is ");
    chunk.add_millimetres(i128::from(origin.beyond));
    chunk.add_text(b" beyond the travel: the first feed");
}

fn add_origin(chunk: &mut Chunk, origin: &Origin)
    requires { length chunk.old + 360 ≤ CHUNK_SIZE }
    ensures text { chunk.new ≡ chunk.old ++ origin_text origin.now }
    ensures short { length chunk.new ≤ length chunk.old + 360 }
{
    if origin.line == 0 {
        add_lacking(chunk, origin);
    } else {
        add_put(chunk, origin);
    }
}

fn add_words(chunk: &mut Chunk, line: u32, origin: &Origin)
    requires { HasSpaceForLine chunk.old }
    ensures { chunk.new ≡ chunk.old ++ origin_words line origin.now }
{
    add_origin(chunk, origin);
    chunk.add_text(b" from it is in line ");
    chunk.add_number(line);
    chunk.add_text(b".\n");
}

#[tactic(auto, unfolding(crate::specs::Texts::kind_text))]
fn kind_text(set_by: u32) -> &'static [u8]
    ensures text { result.now ≡ kind_text set_by }
    ensures short { length result.now ≤ 70 }
{
    if set_by == 0 {
        b"no origin in the machine file, and its zero is beyond the travel"
    } else {
        b"an origin beyond the travel"
    }
}

#[tactic(auto, unfolding(crate::specs::Texts::place_fact))]
fn add_place_fact(chunk: &mut Chunk, origin: &Origin)
    requires { length chunk.old + 210 ≤ CHUNK_SIZE }
    ensures text { chunk.new ≡ chunk.old ++ place_fact origin.now }
    ensures short { length chunk.new ≤ length chunk.old + 210 }
{
    chunk.add_text(b"\",\"system\":\"");
    chunk.add_text(system_name(origin.system));
    chunk.add_text(b"\",\"at\":");
    add_triple(chunk, &origin.at);
    chunk.add_text(b",\"beyond\":");
    chunk.add_number(origin.beyond);
}

fn add_fact(chunk: &mut Chunk, line: u32, origin: &Origin)
    requires { HasSpaceForLine chunk.old }
    ensures { chunk.new ≡ chunk.old ++ origin_fact line origin.now }
{
    chunk.add_text(b",\n{\"fact\":\"warning\",\"text\":\"");
    chunk.add_text(kind_text(origin.line));
    add_place_fact(chunk, origin);
    chunk.add_text(b",\"set_by\":");
    chunk.add_number(origin.line);
    chunk.add_text(b",\"line\":");
    chunk.add_number(line);
    chunk.add_text(b"}");
}

/// Adds the warning of a line's motion from an origin, or nothing without one.
#[tactic(auto, unfolding(crate::specs::Texts::warning_text))]
pub(crate) fn add_warning(chunk: &mut Chunk, form: Form, line: u32, origin: &Option<Origin>)
    requires { HasSpaceForLine chunk.old }
    ensures { chunk.new ≡ chunk.old ++ warning_text form line origin.now }
{
    match (form, origin) {
        (_, None) => {}
        (Form::Words, Some(origin)) => add_words(chunk, line, origin),
        (Form::Json, Some(origin)) => add_fact(chunk, line, origin),
    }
}
