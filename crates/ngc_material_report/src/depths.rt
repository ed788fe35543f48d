//! How feeds below the bottom of a stock are said, after its tool changes.
ghost use Rattle.std.specs.Prelude.{OnOk, OnErr};
ghost use Rattle.std.specs.Io.KnownBytes.{Appends};
ghost use Rattle.ngc_text.specs.Failures.{CountsFailure};
ghost use Rattle.ngc_text.specs.Written.{AppendsPrefix};
ghost use Rattle.ngc_sentences.specs.Saying.{Says};
ghost use Rattle.ngc_material_report.specs.Sentences.{deepest_words, range_words, others_words, below_words, below_fact, all_below_text, below_text, depths_text};

use crate::changes::say_changes;
use crate::parts::{depth, number, say_command_fact, whole_depth};
use ngc_cells::Spot;
use ngc_commands::{Command, Reached};
use ngc_material::find_below;
use ngc_report::Form;
use ngc_sentences::{Page, say};
use ngc_stock::{AllBelow, Stock};
use ngc_text::{Sink, WriteFault};

fn say_deepest_words<W: Sink>(all: &AllBelow, page: &mut Page, output: &mut W)
    ensures { Says (W.written output.old) (W.written output.new)
        (W.failures output.old) (W.failures output.new) page.old page.new (deepest_words all.now) }
{
    say!(page, output; b"Line ", number(all.deepest.line), b" feeds below the stock's bottom: tool ", number(all.deepest.tool), b" is at most ", depth(all.deepest.depth), b" mm below it.");
}

fn say_range_words<W: Sink>(all: &AllBelow, page: &mut Page, output: &mut W)
    ensures { Says (W.written output.old) (W.written output.new)
        (W.failures output.old) (W.failures output.new) page.old page.new (range_words all.now) }
{
    say!(page, output; b" The first such feed is in line ", number(all.first), b", the last in line ", number(all.last), b".");
}

fn say_others_words<W: Sink>(all: &AllBelow, page: &mut Page, output: &mut W)
    ensures { Says (W.written output.old) (W.written output.new)
        (W.failures output.old) (W.failures output.new) page.old page.new (others_words all.now) }
{
    if all.first != all.last {
        say_range_words(all, page, output);
    }
}

fn say_words<W: Sink>(all: &AllBelow, page: &mut Page, output: &mut W)
    ensures { Says (W.written output.old) (W.written output.new)
        (W.failures output.old) (W.failures output.new) page.old page.new (below_words all.now) }
{
    say_deepest_words(all, page, output);
    say_others_words(all, page, output);
    say!(page, output; b"\n");
}

fn say_fact<W: Sink>(all: &AllBelow, page: &mut Page, output: &mut W)
    ensures { Says (W.written output.old) (W.written output.new)
        (W.failures output.old) (W.failures output.new) page.old page.new (below_fact all.now) }
{
    let deepest = &all.deepest;
    say!(page, output; b",\n{\"fact\":\"material\",\"kind\":\"bottom\",\"certain\":false,");
    say_command_fact(deepest.line, deepest.command, deepest.tool, page, output);
    say!(page, output; b",\"part\":0,\"depth\":", whole_depth(deepest.depth), b",\"first\":", number(all.first), b",\"last\":", number(all.last), b"}");
}

fn say_all_below<W: Sink>(form: Form, all: &AllBelow, page: &mut Page, output: &mut W)
    ensures { Says (W.written output.old) (W.written output.new)
        (W.failures output.old) (W.failures output.new) page.old page.new (all_below_text form all.now) }
{
    match form {
        Form::Words => say_words(all, page, output),
        Form::Json => say_fact(all, page, output),
    }
}

fn say_below<W: Sink>(form: Form, all: &Option<AllBelow>, page: &mut Page, output: &mut W)
    ensures { Says (W.written output.old) (W.written output.new)
        (W.failures output.old) (W.failures output.new) page.old page.new (below_text form all.now) }
{
    if let Some(all) = all {
        say_all_below(form, all, page, output);
    }
}

/// Writes the tool changes of a program at which the tip of one of both tools is below the top of a
/// stock and over it, or at most the tool's radius beside it, and then its feeds with the tip below the
/// bottom there. Places count from `origin`, which is in nanometres of the machine.
///
/// The function allocates no memory. After a fault (902, only if the sink failed) a prefix of the
/// text is written.
pub fn write_depths<W: Sink>(
    form: Form,
    origin: &Spot,
    stock: &Stock,
    start: &Reached,
    commands: &[Command],
    output: &mut W,
) -> Result<(), WriteFault>
    ensures ok { OnOk result (Appends (W.written output.old) (W.written output.new)
        (depths_text form origin.now stock.now start.now commands.now)) }
    ensures fault { OnErr result (AppendsPrefix (W.written output.old) (W.written output.new)
        (depths_text form origin.now stock.now start.now commands.now)) }
    ensures counts { CountsFailure (W.failures output.old) (W.failures output.new) result }
{
    let mut page = Page::new();
    say_changes(form, origin, stock, start, commands, &mut page, output);
    let below = find_below(stock, start, commands);
    say_below(form, &below, &mut page, output);
    page.finish(output)
}
