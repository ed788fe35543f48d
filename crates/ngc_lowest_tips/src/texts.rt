//! How a lowest height is written, in words and as a fact of a JSON document.
ghost use Rattle.std.specs.Prelude.{◌≡◌, ◌+◌, ◌≤◌, ◌++◌, length};
ghost use Rattle.std.specs.Fmt.{signed_decimal};
ghost use Rattle.ngc_text.specs.Collected.{CHUNK_SIZE, HasSpaceForLine};
ghost use Rattle.ngc_text.specs.Millimetres.{mm_text};
ghost use Rattle.ngc_lowest_tips.specs.Texts.{by_fact, by_words, height_fact, height_words};
ghost use Rattle.ngc_lowest_tips.specs.Texts.{pair_fact, pair_words};
ghost use Rattle.ngc_lowest_tips.specs.Texts.{tip_fact, tip_text, tip_words, tool_value, tool_words};

use crate::tip::LowestTip;
use ngc_frames::system_name;
use ngc_report::Form;
use ngc_text::Chunk;

fn add_millimetres(chunk: &mut Chunk, nanometres: i64)
    requires { length chunk.old + 51 ≤ CHUNK_SIZE }
    ensures text { chunk.new ≡ chunk.old ++ mm_text nanometres }
    ensures short { length chunk.new ≤ length chunk.old + 51 }
{
    chunk.add_millimetres(i128::from(nanometres));
}

fn add_nanometres(chunk: &mut Chunk, nanometres: i64)
    requires { length chunk.old + 40 ≤ CHUNK_SIZE }
    ensures text { chunk.new ≡ chunk.old ++ signed_decimal nanometres }
    ensures short { length chunk.new ≤ length chunk.old + 40 }
{
    chunk.add_number(nanometres);
}

#[tactic(auto, unfolding(crate::specs::Texts::tool_words))]
fn add_tool_words(chunk: &mut Chunk, tool: Option<u32>)
    requires { length chunk.old + 60 ≤ CHUNK_SIZE }
    ensures text { chunk.new ≡ chunk.old ++ tool_words tool }
    ensures short { length chunk.new ≤ length chunk.old + 60 }
{
    match tool {
        None => chunk.add_text(b"no tool"),
        Some(number) => {
            chunk.add_text(b"tool ");
            chunk.add_number(number);
        }
    }
}

#[tactic(auto, unfolding(crate::specs::Texts::tool_value))]
fn add_tool_value(chunk: &mut Chunk, tool: Option<u32>)
    requires { length chunk.old + 60 ≤ CHUNK_SIZE }
    ensures text { chunk.new ≡ chunk.old ++ tool_value tool }
    ensures short { length chunk.new ≤ length chunk.old + 60 }
{
    match tool {
        None => chunk.add_text(b"null"),
        Some(number) => chunk.add_number(number),
    }
}

#[tactic(auto, unfolding(crate::specs::Texts::pair_words))]
fn add_pair_words(chunk: &mut Chunk, tip: &LowestTip)
    requires { length chunk.old + 100 ≤ CHUNK_SIZE }
    ensures text { chunk.new ≡ chunk.old ++ pair_words tip.now }
    ensures short { length chunk.new ≤ length chunk.old + 100 }
{
    chunk.add_text(b"Lowest in ");
    chunk.add_text(system_name(tip.system));
    chunk.add_text(b" with ");
    add_tool_words(chunk, tip.tool);
}

#[tactic(auto, unfolding(crate::specs::Texts::height_words))]
fn add_height_words(chunk: &mut Chunk, tip: &LowestTip)
    requires { length chunk.old + 120 ≤ CHUNK_SIZE }
    ensures { chunk.new ≡ chunk.old ++ height_words tip.now }
{
    chunk.add_text(b": Z ");
    add_millimetres(chunk, tip.height);
    chunk.add_text(b", in line ");
    chunk.add_number(tip.line);
    chunk.add_text(b".\n");
}

#[tactic(auto, unfolding(crate::specs::Texts::by_words))]
fn add_by_words(chunk: &mut Chunk, by: Option<u32>)
    requires { length chunk.old + 80 ≤ CHUNK_SIZE }
    ensures text { chunk.new ≡ chunk.old ++ by_words by }
    ensures short { length chunk.new ≤ length chunk.old + 80 }
{
    if let Some(number) = by {
        chunk.add_text(b", by the offset of tool ");
        chunk.add_number(number);
    }
}

fn add_words(chunk: &mut Chunk, tip: &LowestTip)
    requires { HasSpaceForLine chunk.old }
    ensures { chunk.new ≡ chunk.old ++ tip_words tip.now }
{
    add_pair_words(chunk, tip);
    add_by_words(chunk, tip.by);
    add_height_words(chunk, tip);
}

#[tactic(auto, unfolding(crate::specs::Texts::pair_fact))]
fn add_pair_fact(chunk: &mut Chunk, tip: &LowestTip)
    requires { length chunk.old + 120 ≤ CHUNK_SIZE }
    ensures text { chunk.new ≡ chunk.old ++ pair_fact tip.now }
    ensures short { length chunk.new ≤ length chunk.old + 120 }
{
    chunk.add_text(b",\n{\"fact\":\"lowest\",\"system\":\"");
    chunk.add_text(system_name(tip.system));
    chunk.add_text(b"\",\"tool\":");
    add_tool_value(chunk, tip.tool);
}

#[tactic(auto, unfolding(crate::specs::Texts::height_fact))]
fn add_height_fact(chunk: &mut Chunk, tip: &LowestTip)
    requires { length chunk.old + 120 ≤ CHUNK_SIZE }
    ensures { chunk.new ≡ chunk.old ++ height_fact tip.now }
{
    chunk.add_text(b",\"z\":");
    add_nanometres(chunk, tip.height);
    chunk.add_text(b",\"line\":");
    chunk.add_number(tip.line);
    chunk.add_text(b"}");
}

#[tactic(auto, unfolding(crate::specs::Texts::by_fact))]
fn add_by_fact(chunk: &mut Chunk, by: Option<u32>)
    requires { length chunk.old + 80 ≤ CHUNK_SIZE }
    ensures text { chunk.new ≡ chunk.old ++ by_fact by }
    ensures short { length chunk.new ≤ length chunk.old + 80 }
{
    if let Some(number) = by {
        chunk.add_text(b",\"offset_of\":");
        chunk.add_number(number);
    }
}

fn add_fact(chunk: &mut Chunk, tip: &LowestTip)
    requires { HasSpaceForLine chunk.old }
    ensures { chunk.new ≡ chunk.old ++ tip_fact tip.now }
{
    add_pair_fact(chunk, tip);
    add_by_fact(chunk, tip.by);
    add_height_fact(chunk, tip);
}

/// Adds the line or the fact of a lowest height.
#[tactic(auto, unfolding(crate::specs::Texts::tip_text))]
pub(crate) fn add_tip(chunk: &mut Chunk, form: Form, tip: &LowestTip)
    requires { HasSpaceForLine chunk.old }
    ensures { chunk.new ≡ chunk.old ++ tip_text form tip.now }
{
    match form {
        Form::Words => add_words(chunk, tip),
        Form::Json => add_fact(chunk, tip),
    }
}
