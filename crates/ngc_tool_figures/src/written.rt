//! How the figures of all tools are written.
ghost use Rattle.std.specs.Prelude.{◌≡◌, ◌≤◌, flat_map, OnOk, OnErr, Some};
ghost use Rattle.std.specs.Io.KnownBytes.{Appends};
ghost use Rattle.ngc_text.specs.Failures.{CountsFailure};
ghost use Rattle.ngc_text.specs.Written.{AppendsPrefix};
ghost use Rattle.ngc_sentences.specs.Saying.{Says};
ghost use Rattle.ngc_tool_figures.specs.Texts.{feeds, figures_text, tool_line};

use crate::feeding::feeding_of;
use crate::figures::{Feeding, Figures};
use crate::holes::holes_of;
use crate::spelling::say_figures;
use crate::ticks::ticks_of;
use ngc_commands::Command;
use ngc_machine_files::Tool;
use ngc_report::Form;
use ngc_sentences::Page;
use ngc_text::{Sink, WriteFault};

fn feeds(feeding: &Feeding) -> bool
    ensures { result ≡ feeds feeding.now }
{
    feeding.feeds.is_some() || feeding.inverse_feeds.is_some()
}

fn say_one<W: Sink>(
    form: Form,
    ticks_per_second: u32,
    commands: &[Command],
    parts: &[u128],
    tool: Option<u32>,
    page: &mut Page,
    output: &mut W,
)
    requires { 1 ≤ ticks_per_second }
    ensures { Says (W.written output.old) (W.written output.new)
        (W.failures output.old) (W.failures output.new) page.old page.new
        (tool_line form ticks_per_second commands.now parts.now tool) }
{
    let feeding = feeding_of(tool, commands);
    if feeds(&feeding) {
        let figures = Figures {
            feeding,
            holes: holes_of(tool, commands),
            ticks: ticks_of(tool, commands, parts),
        };
        say_figures(form, ticks_per_second, tool, &figures, page, output);
    }
}

fn say_tools<W: Sink>(
    form: Form,
    ticks_per_second: u32,
    tools: &[Tool],
    commands: &[Command],
    parts: &[u128],
    page: &mut Page,
    output: &mut W,
)
    requires { 1 ≤ ticks_per_second }
    ensures { Says (W.written output.old) (W.written output.new)
        (W.failures output.old) (W.failures output.new) page.old page.new
        (flat_map (λ t. tool_line form ticks_per_second commands.now parts.now (Some t.number))
        tools.now) }
{
    for tool in tools {
        say_one(
            form,
            ticks_per_second,
            commands,
            parts,
            Some(tool.number),
            page,
            output,
        );
    }
}

/// Writes the figures of each tool with which a program feeds: those of feeds without a tool first,
/// and then those of the tools of the table, in its order. `commands` are the program's commands at
/// a setting of block delete. `parts` are the ticks of its parts: the first ends with the first
/// tool change, and each later one with the next or with the program.
///
/// The figures are the least and the greatest feed and speed of the spindle over the feeds with that
/// tool, the greatest distance that a feed goes straight down, the number of holes, and the time.
///
/// The function allocates no memory, and goes over the commands once for each tool, thrice if it
/// feeds. After a fault (902, only if the sink failed) a prefix of the text is written.
pub fn write_tool_figures<W: Sink>(
    form: Form,
    ticks_per_second: u32,
    tools: &[Tool],
    commands: &[Command],
    parts: &[u128],
    output: &mut W,
) -> Result<(), WriteFault>
    requires { 1 ≤ ticks_per_second }
    ensures ok { OnOk result
        (Appends (W.written output.old) (W.written output.new)
        (figures_text form ticks_per_second tools.now commands.now parts.now)) }
    ensures fault { OnErr result
        (AppendsPrefix (W.written output.old) (W.written output.new)
        (figures_text form ticks_per_second tools.now commands.now parts.now)) }
    ensures counts { CountsFailure (W.failures output.old) (W.failures output.new) result }
{
    let mut page = Page::new();
    say_one(
        form,
        ticks_per_second,
        commands,
        parts,
        None,
        &mut page,
        output,
    );
    say_tools(
        form,
        ticks_per_second,
        tools,
        commands,
        parts,
        &mut page,
        output,
    );
    page.finish(output)
}
