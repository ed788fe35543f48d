//! How tool changes below the top of a stock are said.
ghost use Rattle.std.specs.Prelude.{flat_map};
ghost use Rattle.ngc_sentences.specs.Saying.{Says};
ghost use Rattle.ngc_material_report.specs.Sentences.{low_words, low_fact, change_words, change_fact, change_text, change_line, changes_text};

use crate::parts::{depth, number, say_command_fact, whole_depth};
use crate::touches::{say_place_fact, say_place_words};
use ngc_cells::Spot;
use ngc_commands::{Command, Reached};
use ngc_material::change_at;
use ngc_report::Form;
use ngc_sentences::{Page, say};
use ngc_stock::{Change, Stock};
use ngc_text::Sink;

fn say_low_words<W: Sink>(change: &Change, page: &mut Page, output: &mut W)
    ensures { Says (W.written output.old) (W.written output.new)
        (W.failures output.old) (W.failures output.new) page.old page.new (low_words change.now) }
{
    say!(page, output; b"Line ", number(change.line), b" changes the tool below the stock's top: tool ", number(change.tool), b" is ", depth(change.depth), b" mm below it at X ");
}

fn say_words<W: Sink>(origin: &Spot, change: &Change, page: &mut Page, output: &mut W)
    ensures { Says (W.written output.old) (W.written output.new)
        (W.failures output.old) (W.failures output.new) page.old page.new (change_words origin.now change.now) }
{
    say_low_words(change, page, output);
    say_place_words(origin, &change.place, page, output);
}

fn say_low_fact<W: Sink>(change: &Change, page: &mut Page, output: &mut W)
    ensures { Says (W.written output.old) (W.written output.new)
        (W.failures output.old) (W.failures output.new) page.old page.new (low_fact change.now) }
{
    say!(page, output; b",\n{\"fact\":\"material\",\"kind\":\"change\",\"certain\":false,");
    say_command_fact(change.line, change.command, change.tool, page, output);
    say!(page, output; b",\"part\":0,\"depth\":", whole_depth(change.depth), b",\"at\":[");
}

fn say_fact<W: Sink>(origin: &Spot, change: &Change, page: &mut Page, output: &mut W)
    ensures { Says (W.written output.old) (W.written output.new)
        (W.failures output.old) (W.failures output.new) page.old page.new (change_fact origin.now change.now) }
{
    say_low_fact(change, page, output);
    say_place_fact(origin, &change.place, page, output);
}

fn say_change<W: Sink>(form: Form, origin: &Spot, change: &Change, page: &mut Page, output: &mut W)
    ensures { Says (W.written output.old) (W.written output.new)
        (W.failures output.old) (W.failures output.new) page.old page.new (change_text form origin.now change.now) }
{
    match form {
        Form::Words => say_words(origin, change, page, output),
        Form::Json => say_fact(origin, change, page, output),
    }
}

fn say_line<W: Sink>(
    form: Form,
    origin: &Spot,
    change: &Option<Change>,
    page: &mut Page,
    output: &mut W,
)
    ensures { Says (W.written output.old) (W.written output.new)
        (W.failures output.old) (W.failures output.new) page.old page.new (change_line form origin.now change.now) }
{
    if let Some(change) = change {
        say_change(form, origin, change, page, output);
    }
}

/// Says the tool changes of a program at which the tip of one of both tools is below the top of a stock
/// and over it, or at most the tool's radius beside it.
pub(crate) fn say_changes<W: Sink>(
    form: Form,
    origin: &Spot,
    stock: &Stock,
    start: &Reached,
    commands: &[Command],
    page: &mut Page,
    output: &mut W,
)
    ensures { Says (W.written output.old) (W.written output.new)
        (W.failures output.old) (W.failures output.new) page.old page.new
        (changes_text form origin.now stock.now start.now commands.now) }
{
    let mut reached = *start;
    let mut left = commands;
    while let Some((command, later)) = left.split_first() {
        let index = commands.len() - left.len();
        let change = change_at(stock, &reached, index, command);
        say_line(form, origin, &change, page, output);
        reached = reached.after(&command.action);
        left = later;
    }
}
