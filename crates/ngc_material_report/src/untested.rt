//! What of the traverses isn't tested.
ghost use Rattle.std.specs.Prelude.{◌≡◌, ◌≤◌, ◌*◌, decimal, OnOk, OnErr, flat_map};
ghost use Rattle.std.specs.Io.KnownBytes.{Appends};
ghost use Rattle.ngc_text.specs.Failures.{CountsFailure};
ghost use Rattle.ngc_text.specs.Millimetres.{size_text};
ghost use Rattle.ngc_text.specs.Written.{AppendsPrefix};
ghost use Rattle.ngc_sentences.specs.Parts.{part_text};
ghost use Rattle.ngc_sentences.specs.Saying.{Says};
ghost use Rattle.ngc_cells.specs.Grids.{IsGrid};
ghost use Rattle.ngc_stock.specs.Stocks.{margin};
ghost use Rattle.ngc_material_report.specs.Sentences.{cutter_width, rounded_up, tested_words, margin_words, margin_fact, margin_line, thin_words, thin_fact, thin_line, thin_text, untested_text};

use ngc_cells::Grid;
use ngc_machine_files::Tool;
use ngc_material::{is_thin, margin};
use ngc_report::Form;
use ngc_sentences::{Page, Part, say};
use ngc_stock::Cut;
use ngc_text::{Sink, WriteFault};

fn rounded_up(size: u64) -> u64
    requires { size ≤ 8300000000 }
    ensures { result ≡ rounded_up size }
{
    (size + 9_999) / 10_000 * 10_000
}

// Returns the margin, rounded up.
fn rounded_margin(grid: &Grid) -> Part<'static>
    requires { IsGrid grid.now }
    ensures { part_text result ≡ size_text (rounded_up (margin grid.now)) }
{
    Part::Size(u128::from(rounded_up(margin(grid))))
}

fn whole_margin(grid: &Grid) -> Part<'static>
    requires { IsGrid grid.now }
    ensures { part_text result ≡ decimal (margin grid.now) }
{
    Part::Number(u128::from(margin(grid)))
}

fn width(grid: &Grid) -> Part<'static>
    ensures { part_text result ≡ size_text (2 * grid.now.half) }
{
    Part::Size(2 * u128::from(grid.half))
}

fn tool_number(tool: &Tool) -> Part<'static>
    ensures { part_text result ≡ decimal tool.now.number }
{
    Part::Number(u128::from(tool.number))
}

// Returns how wide a tool's cutter is, its lowest part.
fn cutter_width(tool: &Tool) -> u64
    ensures { result ≡ cutter_width tool.now }
{
    let part = tool.parts.as_slice()[0];
    2 * part.radius.nanometres().unsigned_abs()
}

// Returns that width in millimetres.
fn tool_width(tool: &Tool) -> Part<'static>
    ensures { part_text result ≡ size_text (cutter_width tool.now) }
{
    Part::Size(u128::from(cutter_width(tool)))
}

// Returns that width in nanometres.
fn whole_tool_width(tool: &Tool) -> Part<'static>
    ensures { part_text result ≡ decimal (cutter_width tool.now) }
{
    Part::Number(u128::from(cutter_width(tool)))
}

// Returns what the margin concerns: the depths too, if there are any.
fn tested_words(cuts: &[Cut]) -> &'static [u8]
    ensures { result.now ≡ tested_words cuts.now }
{
    if cuts.is_empty() {
        b"Traverses were tested"
    } else {
        b"Traverses were tested and depths measured"
    }
}

fn tested(cuts: &[Cut]) -> Part<'static>
    ensures { part_text result ≡ tested_words cuts.now }
{
    Part::Text(tested_words(cuts))
}

fn say_margin_words<W: Sink>(grid: &Grid, cuts: &[Cut], page: &mut Page, output: &mut W)
    requires { IsGrid grid.now }
    ensures { Says (W.written output.old) (W.written output.new)
        (W.failures output.old) (W.failures output.new) page.old page.new (margin_words grid.now cuts.now) }
{
    say!(page, output; tested(cuts), b" for each tool less ", rounded_margin(grid), b" mm of its radius.\n");
}

fn say_margin_fact<W: Sink>(grid: &Grid, page: &mut Page, output: &mut W)
    requires { IsGrid grid.now }
    ensures { Says (W.written output.old) (W.written output.new)
        (W.failures output.old) (W.failures output.new) page.old page.new (margin_fact grid.now) }
{
    say!(page, output; b",\n{\"fact\":\"material_margin\",\"less\":", whole_margin(grid), b"}");
}

fn say_margin<W: Sink>(form: Form, grid: &Grid, cuts: &[Cut], page: &mut Page, output: &mut W)
    requires { IsGrid grid.now }
    ensures { Says (W.written output.old) (W.written output.new)
        (W.failures output.old) (W.failures output.new) page.old page.new (margin_line form grid.now cuts.now) }
{
    match form {
        Form::Words => say_margin_words(grid, cuts, page, output),
        Form::Json => say_margin_fact(grid, page, output),
    }
}

fn say_thin_words<W: Sink>(grid: &Grid, tool: &Tool, page: &mut Page, output: &mut W)
    ensures { Says (W.written output.old) (W.written output.new)
        (W.failures output.old) (W.failures output.new) page.old page.new (thin_words grid.now tool.now) }
{
    say!(page, output; b"Tool ", tool_number(tool), b" (", tool_width(tool), b" mm wide) is too thin for cells of ", width(grid), b" mm: its traverses were not tested.\n");
}

fn say_thin_fact<W: Sink>(tool: &Tool, page: &mut Page, output: &mut W)
    ensures { Says (W.written output.old) (W.written output.new)
        (W.failures output.old) (W.failures output.new) page.old page.new (thin_fact tool.now) }
{
    say!(page, output; b",\n{\"fact\":\"material_untested\",\"tool\":", tool_number(tool), b",\"width\":", whole_tool_width(tool), b"}");
}

fn say_thin_tool<W: Sink>(form: Form, grid: &Grid, tool: &Tool, page: &mut Page, output: &mut W)
    ensures { Says (W.written output.old) (W.written output.new)
        (W.failures output.old) (W.failures output.new) page.old page.new (thin_line form grid.now tool.now) }
{
    match form {
        Form::Words => say_thin_words(grid, tool, page, output),
        Form::Json => say_thin_fact(tool, page, output),
    }
}

fn say_tool<W: Sink>(form: Form, grid: &Grid, tool: &Tool, page: &mut Page, output: &mut W)
    requires { IsGrid grid.now }
    ensures { Says (W.written output.old) (W.written output.new)
        (W.failures output.old) (W.failures output.new) page.old page.new (thin_text form grid.now tool.now) }
{
    if is_thin(grid, tool) {
        say_thin_tool(form, grid, tool, page, output);
    }
}

fn say_tools<W: Sink>(form: Form, grid: &Grid, tools: &[Tool], page: &mut Page, output: &mut W)
    requires { IsGrid grid.now }
    ensures { Says (W.written output.old) (W.written output.new)
        (W.failures output.old) (W.failures output.new) page.old page.new (flat_map (thin_text form grid.now) tools.now) }
{
    for tool in tools {
        say_tool(form, grid, tool, page, output);
    }
}

/// Writes how much less than the radius of each tool a walk tests at traverses, and which of the tools are
/// too thin for the cells, with their widths, so that their traverses aren't tested. With `cuts`, which are the depths that
/// are written, the first sentence says that it holds for them too.
///
/// The function allocates no memory. After a fault (902, only if the sink failed) a prefix of the
/// text is written.
pub fn write_untested<W: Sink>(
    form: Form,
    grid: &Grid,
    tools: &[Tool],
    cuts: &[Cut],
    output: &mut W,
) -> Result<(), WriteFault>
    requires { IsGrid grid.now }
    ensures ok { OnOk result
        (Appends (W.written output.old) (W.written output.new) (untested_text form grid.now tools.now cuts.now)) }
    ensures fault { OnErr result
        (AppendsPrefix (W.written output.old) (W.written output.new) (untested_text form grid.now tools.now cuts.now)) }
    ensures counts { CountsFailure (W.failures output.old) (W.failures output.new) result }
{
    let mut page = Page::new();
    say_margin(form, grid, cuts, &mut page, output);
    say_tools(form, grid, tools, &mut page, output);
    page.finish(output)
}
