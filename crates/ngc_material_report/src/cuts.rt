//! How the deepest feeds are said, one of each tool.
ghost use Rattle.std.specs.Prelude.{◌≡◌, flat_map, OnOk, OnErr};
ghost use Rattle.std.specs.Io.KnownBytes.{Appends};
ghost use Rattle.ngc_text.specs.Failures.{CountsFailure};
ghost use Rattle.ngc_text.specs.Written.{AppendsPrefix};
ghost use Rattle.ngc_machine_files.specs.Tools.{tool_at};
ghost use Rattle.ngc_sentences.specs.Saying.{Says};
ghost use Rattle.ngc_material_report.specs.Sentences as spec;

use crate::parts::{depth, number, say_command_fact, whole_depth};
use ngc_machine_files::Tool;
use ngc_report::Form;
use ngc_sentences::{Page, say};
use ngc_stock::Cut;
use ngc_text::{Sink, WriteFault};

/// Returns the tool of a number, or `None` if there is none.
pub(crate) fn tool_at(tools: &[Tool], number: u32) -> Option<Tool>
    ensures { result ≡ tool_at tools.now number }
{
    tools.iter().find(|tool| tool.number == number).copied()
}

// Returns how long a tool's cutter is, its lowest part.
fn cutter_length(tool: &Tool) -> u64
    ensures { result ≡ spec.cutter_length tool.now }
{
    let part = tool.parts.as_slice()[0];
    part.length.nanometres().unsigned_abs()
}

// Returns the length of a cutter that is shorter than a cut is deep.
fn shorter(cut: &Cut, tool: Option<Tool>) -> Option<u64>
    ensures { result ≡ spec.shorter cut.now tool }
{
    match tool {
        Some(tool) if cutter_length(&tool) < cut.depth => Some(cutter_length(&tool)),
        _ => None,
    }
}

// Returns the length of a tool's cutter, if it is shorter than the tool's deepest feed cuts.
fn short_cutter(tools: &[Tool], cut: &Cut) -> Option<u64>
    ensures { result ≡ spec.short_cutter tools.now cut.now }
{
    shorter(cut, tool_at(tools, cut.tool))
}

fn say_length<W: Sink>(length: u64, page: &mut Page, output: &mut W)
    ensures { Says (W.written output.old) (W.written output.new)
        (W.failures output.old) (W.failures output.new) page.old page.new (spec.length_words length) }
{
    say!(page, output; b" Its cutter is only ", depth(length), b" mm long.");
}

fn say_short<W: Sink>(shorter: Option<u64>, page: &mut Page, output: &mut W)
    ensures { Says (W.written output.old) (W.written output.new)
        (W.failures output.old) (W.failures output.new) page.old page.new (spec.short_words shorter) }
{
    if let Some(length) = shorter {
        say_length(length, page, output);
    }
}

fn say_depth<W: Sink>(cut: &Cut, page: &mut Page, output: &mut W)
    ensures { Says (W.written output.old) (W.written output.new)
        (W.failures output.old) (W.failures output.new) page.old page.new (spec.depth_sentence cut.now) }
{
    say!(page, output; b"With tool ", number(cut.tool), b" straight feeds cut at most ", depth(cut.depth), b" mm deep, the deepest in line ", number(cut.line), b".");
}

fn say_words<W: Sink>(tools: &[Tool], cut: &Cut, page: &mut Page, output: &mut W)
    ensures { Says (W.written output.old) (W.written output.new)
        (W.failures output.old) (W.failures output.new) page.old page.new (spec.cut_words tools.now cut.now) }
{
    say_depth(cut, page, output);
    say_short(short_cutter(tools, cut), page, output);
    say!(page, output; b"\n");
}

fn say_length_value<W: Sink>(length: u64, page: &mut Page, output: &mut W)
    ensures { Says (W.written output.old) (W.written output.new)
        (W.failures output.old) (W.failures output.new) page.old page.new (spec.length_value length) }
{
    say!(page, output; b",\"cutter\":", whole_depth(length));
}

fn say_short_value<W: Sink>(shorter: Option<u64>, page: &mut Page, output: &mut W)
    ensures { Says (W.written output.old) (W.written output.new)
        (W.failures output.old) (W.failures output.new) page.old page.new (spec.short_value shorter) }
{
    if let Some(length) = shorter {
        say_length_value(length, page, output);
    }
}

fn say_depth_values<W: Sink>(cut: &Cut, page: &mut Page, output: &mut W)
    ensures { Says (W.written output.old) (W.written output.new)
        (W.failures output.old) (W.failures output.new) page.old page.new (spec.depth_values cut.now) }
{
    say!(page, output; b",\n{\"fact\":\"material_cut\",");
    say_command_fact(cut.line, cut.command, cut.tool, page, output);
    say!(page, output; b",\"depth\":", whole_depth(cut.depth));
}

fn say_fact<W: Sink>(tools: &[Tool], cut: &Cut, page: &mut Page, output: &mut W)
    ensures { Says (W.written output.old) (W.written output.new)
        (W.failures output.old) (W.failures output.new) page.old page.new (spec.cut_fact tools.now cut.now) }
{
    say_depth_values(cut, page, output);
    say_short_value(short_cutter(tools, cut), page, output);
    say!(page, output; b"}");
}

fn say_cut<W: Sink>(form: Form, tools: &[Tool], cut: &Cut, page: &mut Page, output: &mut W)
    ensures { Says (W.written output.old) (W.written output.new)
        (W.failures output.old) (W.failures output.new) page.old page.new (spec.cut_text form tools.now cut.now) }
{
    match form {
        Form::Words => say_words(tools, cut, page, output),
        Form::Json => say_fact(tools, cut, page, output),
    }
}

fn say_cuts<W: Sink>(form: Form, tools: &[Tool], cuts: &[Cut], page: &mut Page, output: &mut W)
    ensures { Says (W.written output.old) (W.written output.new)
        (W.failures output.old) (W.failures output.new) page.old page.new (flat_map (spec.cut_text form tools.now) cuts.now) }
{
    for cut in cuts {
        say_cut(form, tools, cut, page, output);
    }
}

/// Writes how deep straight feeds cut at most, with each tool: in the material that the feeds before each
/// have left, from the lower of its two tips up. If that is more than the tool's cutter is long, its lowest
/// part, the text has this length too.
///
/// The function allocates no memory. After a fault (902, only if the sink failed) a prefix of the
/// text is written.
pub fn write_cuts<W: Sink>(
    form: Form,
    tools: &[Tool],
    cuts: &[Cut],
    output: &mut W,
) -> Result<(), WriteFault>
    ensures ok { OnOk result
        (Appends (W.written output.old) (W.written output.new) (spec.cuts_text form tools.now cuts.now)) }
    ensures fault { OnErr result
        (AppendsPrefix (W.written output.old) (W.written output.new) (spec.cuts_text form tools.now cuts.now)) }
    ensures counts { CountsFailure (W.failures output.old) (W.failures output.new) result }
{
    let mut page = Page::new();
    say_cuts(form, tools, cuts, &mut page, output);
    page.finish(output)
}
