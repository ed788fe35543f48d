//! The lines of a report that name margins and the way of traverses.
ghost use Rattle.std.specs.Prelude.{◌≡◌};
ghost use Rattle.ngc_margins.specs.Lines.{are_zero, is_slack, kept_facts, kept_words, larger, lengths_fact};
ghost use Rattle.ngc_margins.specs.Lines.{margin_words, margins_fact, motors_value, nearer, reason};
ghost use Rattle.ngc_margins.specs.Lines.{rapids_fact, rapids_words, slack_value, travel_words, values_fact};
ghost use Rattle.ngc_sentences.specs.Parts.{parts_text};
ghost use Rattle.ngc_sentences.specs.Saying.{Says};

use ngc_fixed_length::Nm;
use ngc_machine_files::{Machine, Margins, Rapids};
use ngc_sentences::{Page, Part, say};
use ngc_text::Sink;
use std::alloc::Allocator;

/// The margins that are kept, and the ways of traverses that are covered.
#[derive(Clone, Copy)]
pub struct Kept {
    pub margins: Margins,
    pub rapids: Rapids,
    /// How far a motor may stand from the path: half of the longest step that isn't the grid's, or 0.
    pub slack: Nm,
}

impl Kept {
    ghost use Rattle.ngc_machine_files.specs.Machine.{file_of};
    ghost use Rattle.ngc_margins.specs.Lines.{kept_by, nothing_kept};

    /// Returns what a machine keeps.
    pub fn by<A: Allocator>(machine: &Machine<A>) -> Kept
        ensures { result ≡ kept_by (file_of machine.now) }
    {
        Kept {
            margins: machine.margins,
            rapids: machine.rapids,
            slack: machine.motors().slack(),
        }
    }

    /// Returns no margins, with straight traverses.
    pub fn nothing() -> Kept
        ensures { result ≡ nothing_kept }
    {
        Kept {
            margins: Margins {
                fixtures: Nm::zero(),
                travel: Nm::zero(),
            },
            rapids: Rapids::Straight,
            slack: Nm::zero(),
        }
    }
}

// Returns whether a margin to fixtures is how far a motor may stand from the path.
fn is_slack(slack: Nm, margin: Nm) -> bool
    ensures { result ≡ is_slack slack margin }
{
    margin.nanometres() != 0 && margin.nanometres() == slack.nanometres()
}

fn reason(slack: Nm, margin: Nm) -> &'static [u8]
    ensures { result.now ≡ reason slack margin }
{
    if is_slack(slack, margin) {
        b", half a step of the motors"
    } else {
        b""
    }
}

#[tactic(auto, unfolding(crate::specs::Lines::larger))]
fn larger(slack: Nm, margin: Nm) -> [Part<'static>; 5]
    ensures { parts_text result ≡ larger slack margin }
{
    [
        Part::Text(b"Margin: each fixture is "),
        Part::Millimetres(margin.nanometres()),
        Part::Text(b" larger on every side"),
        Part::Text(reason(slack, margin)),
        Part::Text(b", also in the figures below.\n"),
    ]
}

fn say_larger<W: Sink>(slack: Nm, margin: Nm, page: &mut Page, output: &mut W)
    ensures { Says (W.written output.old) (W.written output.new)
        (W.failures output.old) (W.failures output.new) page.old page.new (larger slack margin) }
{
    page.say(output, &larger(slack, margin));
}

fn say_margin<W: Sink>(slack: Nm, margin: Nm, page: &mut Page, output: &mut W)
    ensures { Says (W.written output.old) (W.written output.new)
        (W.failures output.old) (W.failures output.new) page.old page.new (margin_words slack margin) }
{
    if margin.nanometres() != 0 {
        say_larger(slack, margin, page, output);
    }
}

#[tactic(auto, unfolding(crate::specs::Lines::nearer))]
fn nearer(margin: Nm) -> [Part<'static>; 3]
    ensures { parts_text result ≡ nearer margin }
{
    [
        Part::Text(b"Margin: each travel limit is "),
        Part::Millimetres(margin.nanometres()),
        Part::Text(b" nearer, also in the figures below.\n"),
    ]
}

fn say_nearer<W: Sink>(margin: Nm, page: &mut Page, output: &mut W)
    ensures { Says (W.written output.old) (W.written output.new)
        (W.failures output.old) (W.failures output.new) page.old page.new (nearer margin) }
{
    page.say(output, &nearer(margin));
}

fn say_travel_margin<W: Sink>(margin: Nm, page: &mut Page, output: &mut W)
    ensures { Says (W.written output.old) (W.written output.new)
        (W.failures output.old) (W.failures output.new) page.old page.new (travel_words margin) }
{
    if margin.nanometres() != 0 {
        say_nearer(margin, page, output);
    }
}

fn say_rapids<W: Sink>(rapids: Rapids, page: &mut Page, output: &mut W)
    ensures { Says (W.written output.old) (W.written output.new)
        (W.failures output.old) (W.failures output.new) page.old page.new (rapids_words rapids) }
{
    match rapids {
        Rapids::Straight => {}
        Rapids::Free => {
            say!(page, output; b"A traverse may take any way within the box of its ends.\n")
        }
    }
}

/// Says a sentence for each margin that isn't 0, and one where traverses may take any way. Where the margin
/// to fixtures is half a step of the motors, its sentence says so.
pub fn say_kept_words<W: Sink>(kept: &Kept, page: &mut Page, output: &mut W)
    ensures { Says (W.written output.old) (W.written output.new)
        (W.failures output.old) (W.failures output.new) page.old page.new (kept_words kept.now) }
{
    say_margin(kept.slack, kept.margins.fixtures, page, output);
    say_travel_margin(kept.margins.travel, page, output);
    say_rapids(kept.rapids, page, output);
}

fn are_zero(margins: &Margins) -> bool
    ensures { result ≡ are_zero margins.now }
{
    margins.fixtures.nanometres() == 0 && margins.travel.nanometres() == 0
}

#[tactic(auto, unfolding(crate::specs::Lines::lengths_fact))]
fn lengths(margins: &Margins) -> [Part<'static>; 4]
    ensures { parts_text result ≡ lengths_fact margins.now }
{
    [
        Part::Text(b",\n{\"fact\":\"margins\",\"fixtures\":"),
        Part::Signed(margins.fixtures.nanometres()),
        Part::Text(b",\"travel\":"),
        Part::Signed(margins.travel.nanometres()),
    ]
}

fn say_lengths<W: Sink>(margins: &Margins, page: &mut Page, output: &mut W)
    ensures { Says (W.written output.old) (W.written output.new)
        (W.failures output.old) (W.failures output.new) page.old page.new
        (lengths_fact margins.now) }
{
    page.say(output, &lengths(margins));
}

#[tactic(auto, unfolding(crate::specs::Lines::slack_value))]
fn slack_value(margin: Nm) -> [Part<'static>; 2]
    ensures { parts_text result ≡ slack_value margin }
{
    [
        Part::Text(b",\"motors\":"),
        Part::Signed(margin.nanometres()),
    ]
}

fn say_slack<W: Sink>(margin: Nm, page: &mut Page, output: &mut W)
    ensures { Says (W.written output.old) (W.written output.new)
        (W.failures output.old) (W.failures output.new) page.old page.new (slack_value margin) }
{
    page.say(output, &slack_value(margin));
}

fn say_motors<W: Sink>(slack: Nm, margin: Nm, page: &mut Page, output: &mut W)
    ensures { Says (W.written output.old) (W.written output.new)
        (W.failures output.old) (W.failures output.new) page.old page.new (motors_value slack margin) }
{
    if is_slack(slack, margin) {
        say_slack(margin, page, output);
    }
}

fn say_values<W: Sink>(slack: Nm, margins: &Margins, page: &mut Page, output: &mut W)
    ensures { Says (W.written output.old) (W.written output.new)
        (W.failures output.old) (W.failures output.new) page.old page.new
        (values_fact slack margins.now) }
{
    say_lengths(margins, page, output);
    say_motors(slack, margins.fixtures, page, output);
    say!(page, output; b"}");
}

fn say_margins_fact<W: Sink>(slack: Nm, margins: &Margins, page: &mut Page, output: &mut W)
    ensures { Says (W.written output.old) (W.written output.new)
        (W.failures output.old) (W.failures output.new) page.old page.new
        (margins_fact slack margins.now) }
{
    if !are_zero(margins) {
        say_values(slack, margins, page, output);
    }
}

fn say_rapids_fact<W: Sink>(rapids: Rapids, page: &mut Page, output: &mut W)
    ensures { Says (W.written output.old) (W.written output.new)
        (W.failures output.old) (W.failures output.new) page.old page.new (rapids_fact rapids) }
{
    match rapids {
        Rapids::Straight => {}
        Rapids::Free => say!(page, output; b",\n{\"fact\":\"rapids\",\"way\":\"free\"}"),
    }
}

/// Says the same as facts of a JSON document, in nanometres.
pub fn say_kept_facts<W: Sink>(kept: &Kept, page: &mut Page, output: &mut W)
    ensures { Says (W.written output.old) (W.written output.new)
        (W.failures output.old) (W.failures output.new) page.old page.new (kept_facts kept.now) }
{
    say_margins_fact(kept.slack, &kept.margins, page, output);
    say_rapids_fact(kept.rapids, page, output);
}
