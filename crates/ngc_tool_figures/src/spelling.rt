//! How the figures of a tool are said, in words or as a fact of a JSON document.
ghost use Rattle.std.specs.Prelude.{◌≡◌, ◌≤◌, ◌*◌, ◌/◌, ◌%◌};
ghost use Rattle.std.specs.Fmt.{signed_decimal};
ghost use Rattle.ngc_text.specs.Millimetres.{mm_text};
ghost use Rattle.ngc_sentences.specs.Parts.{part_text};
ghost use Rattle.ngc_sentences.specs.Saying.{Says};
ghost use Rattle.ngc_tool_figures.specs.Texts.{feeding_fact, feeding_words, figures_fact};
ghost use Rattle.ngc_tool_figures.specs.Texts.{figures_words, is_off, range_fact, range_text, range_value};
ghost use Rattle.ngc_tool_figures.specs.Texts.{range_words, speeds_words, spelled, spindle_words};
ghost use Rattle.ngc_tool_figures.specs.Texts.{tool_value, tool_words, use_fact, use_words};

use crate::figures::{Feeding, Figures, Range};
use ngc_report::Form;
use ngc_sentences::{Page, Part, say};
use ngc_text::Sink;

// ---- in words

fn say_tool<W: Sink>(tool: Option<u32>, page: &mut Page, output: &mut W)
    ensures { Says (W.written output.old) (W.written output.new)
        (W.failures output.old) (W.failures output.new) page.old page.new (tool_words tool) }
{
    match tool {
        None => say!(page, output; b"no tool"),
        Some(number) => say!(page, output; Part::Tool(number)),
    }
}

fn say_both<W: Sink>(range: &Range, page: &mut Page, output: &mut W)
    ensures { Says (W.written output.old) (W.written output.new)
        (W.failures output.old) (W.failures output.new) page.old page.new (range_text range.now) }
{
    if range.least == range.greatest {
        say!(page, output; Part::Size(u128::from(range.least)));
    } else {
        say!(page, output; Part::Size(u128::from(range.least)), b" to ", Part::Size(u128::from(range.greatest)));
    }
}

// Says a range between its name and its unit, or nothing without numbers.
fn say_range<W: Sink>(
    name: &[u8],
    range: &Option<Range>,
    unit: &[u8],
    page: &mut Page,
    output: &mut W,
)
    ensures { Says (W.written output.old) (W.written output.new)
        (W.failures output.old) (W.failures output.new) page.old page.new
        (range_words name.now range.now unit.now) }
{
    if let Some(range) = range {
        say!(page, output; Part::Text(name));
        say_both(range, page, output);
        say!(page, output; Part::Text(unit));
    }
}

fn say_speeds<W: Sink>(feeding: &Feeding, page: &mut Page, output: &mut W)
    ensures { Says (W.written output.old) (W.written output.new)
        (W.failures output.old) (W.failures output.new) page.old page.new
        (speeds_words feeding.now) }
{
    say_range(
        b" spindle clockwise ",
        &feeding.clockwise,
        b" rpm,",
        page,
        output,
    );
    say_range(
        b" spindle counterclockwise ",
        &feeding.counterclockwise,
        b" rpm,",
        page,
        output,
    );
}

fn is_off(feeding: &Feeding) -> bool
    ensures { result ≡ is_off feeding.now }
{
    feeding.clockwise.is_none() && feeding.counterclockwise.is_none()
}

fn say_spindle<W: Sink>(feeding: &Feeding, page: &mut Page, output: &mut W)
    ensures { Says (W.written output.old) (W.written output.new)
        (W.failures output.old) (W.failures output.new) page.old page.new
        (spindle_words feeding.now) }
{
    if is_off(feeding) {
        say!(page, output; b" spindle off,");
    } else {
        say_speeds(feeding, page, output);
    }
}

fn millimetres(nanometres: &i64) -> Part<'static>
    ensures { part_text result ≡ mm_text nanometres.now }
{
    Part::Millimetres(*nanometres)
}

fn say_feeding<W: Sink>(feeding: &Feeding, page: &mut Page, output: &mut W)
    ensures { Says (W.written output.old) (W.written output.new)
        (W.failures output.old) (W.failures output.new) page.old page.new
        (feeding_words feeding.now) }
{
    say_range(b" feeds ", &feeding.feeds, b" mm/min,", page, output);
    say_range(
        b" inverse feeds ",
        &feeding.inverse_feeds,
        b" a minute,",
        page,
        output,
    );
    say_spindle(feeding, page, output);
    say!(page, output; b" greatest plunge ", millimetres(&feeding.plunge));
}

// Returns whole seconds, and the rest in thousandths, rounded down.
fn seconds(ticks_per_second: u32, ticks: u128) -> (u128, u128)
    requires { 1 ≤ ticks_per_second }
    ensures { result ≡ (
      ticks / ticks_per_second,
      ticks % ticks_per_second * 1000 / ticks_per_second,
    ) }
{
    let per_second = u128::from(ticks_per_second);
    (ticks / per_second, ticks % per_second * 1000 / per_second)
}

fn say_use<W: Sink>(ticks_per_second: u32, figures: &Figures, page: &mut Page, output: &mut W)
    requires { 1 ≤ ticks_per_second }
    ensures { Says (W.written output.old) (W.written output.new)
        (W.failures output.old) (W.failures output.new) page.old page.new
        (use_words ticks_per_second figures.now) }
{
    let (whole, thousandths) = seconds(ticks_per_second, figures.ticks);
    say!(page, output; b", holes ", Part::Number(figures.holes), b", time ", Part::Clock(whole, thousandths), b".\n");
}

fn say_words<W: Sink>(
    ticks_per_second: u32,
    tool: Option<u32>,
    figures: &Figures,
    page: &mut Page,
    output: &mut W,
)
    requires { 1 ≤ ticks_per_second }
    ensures { Says (W.written output.old) (W.written output.new)
        (W.failures output.old) (W.failures output.new) page.old page.new
        (figures_words ticks_per_second tool figures.now) }
{
    say!(page, output; b"Figures of ");
    say_tool(tool, page, output);
    say!(page, output; b":");
    say_feeding(&figures.feeding, page, output);
    say_use(ticks_per_second, figures, page, output);
}

// ---- as a fact

fn say_tool_value<W: Sink>(tool: Option<u32>, page: &mut Page, output: &mut W)
    ensures { Says (W.written output.old) (W.written output.new)
        (W.failures output.old) (W.failures output.new) page.old page.new (tool_value tool) }
{
    match tool {
        None => say!(page, output; b"null"),
        Some(number) => say!(page, output; Part::Number(u128::from(number))),
    }
}

fn say_range_value<W: Sink>(range: &Option<Range>, page: &mut Page, output: &mut W)
    ensures { Says (W.written output.old) (W.written output.new)
        (W.failures output.old) (W.failures output.new) page.old page.new (range_value range.now) }
{
    match range {
        None => say!(page, output; b"null"),
        Some(range) =>
            say!(page, output; b"[", Part::Number(u128::from(range.least)), b",", Part::Number(u128::from(range.greatest)), b"]"),
    }
}

fn say_range_fact<W: Sink>(key: &[u8], range: &Option<Range>, page: &mut Page, output: &mut W)
    ensures { Says (W.written output.old) (W.written output.new)
        (W.failures output.old) (W.failures output.new) page.old page.new
        (range_fact key.now range.now) }
{
    say!(page, output; Part::Text(key));
    say_range_value(range, page, output);
}

fn signed(number: &i64) -> Part<'static>
    ensures { part_text result ≡ signed_decimal number.now }
{
    Part::Signed(*number)
}

fn say_feeding_fact<W: Sink>(feeding: &Feeding, page: &mut Page, output: &mut W)
    ensures { Says (W.written output.old) (W.written output.new)
        (W.failures output.old) (W.failures output.new) page.old page.new
        (feeding_fact feeding.now) }
{
    say_range_fact(b",\"feeds\":", &feeding.feeds, page, output);
    say_range_fact(b",\"inverse_feeds\":", &feeding.inverse_feeds, page, output);
    say_range_fact(b",\"clockwise\":", &feeding.clockwise, page, output);
    say_range_fact(
        b",\"counterclockwise\":",
        &feeding.counterclockwise,
        page,
        output,
    );
    say!(page, output; b",\"plunge\":", signed(&feeding.plunge));
}

fn say_use_fact<W: Sink>(ticks_per_second: u32, figures: &Figures, page: &mut Page, output: &mut W)
    requires { 1 ≤ ticks_per_second }
    ensures { Says (W.written output.old) (W.written output.new)
        (W.failures output.old) (W.failures output.new) page.old page.new
        (use_fact ticks_per_second figures.now) }
{
    let (whole, thousandths) = seconds(ticks_per_second, figures.ticks);
    say!(page, output; b",\"holes\":", Part::Number(figures.holes), b",\"ticks\":", Part::Number(figures.ticks), b",\"seconds\":", Part::Seconds(whole, thousandths), b"}");
}

fn say_fact<W: Sink>(
    ticks_per_second: u32,
    tool: Option<u32>,
    figures: &Figures,
    page: &mut Page,
    output: &mut W,
)
    requires { 1 ≤ ticks_per_second }
    ensures { Says (W.written output.old) (W.written output.new)
        (W.failures output.old) (W.failures output.new) page.old page.new
        (figures_fact ticks_per_second tool figures.now) }
{
    say!(page, output; b",\n{\"fact\":\"figures\",\"tool\":");
    say_tool_value(tool, page, output);
    say_feeding_fact(&figures.feeding, page, output);
    say_use_fact(ticks_per_second, figures, page, output);
}

/// Says the figures of a tool, or those without a tool.
pub(crate) fn say_figures<W: Sink>(
    form: Form,
    ticks_per_second: u32,
    tool: Option<u32>,
    figures: &Figures,
    page: &mut Page,
    output: &mut W,
)
    requires { 1 ≤ ticks_per_second }
    ensures { Says (W.written output.old) (W.written output.new)
        (W.failures output.old) (W.failures output.new) page.old page.new
        (spelled form ticks_per_second tool figures.now) }
{
    match form {
        Form::Words => say_words(ticks_per_second, tool, figures, page, output),
        Form::Json => say_fact(ticks_per_second, tool, figures, page, output),
    }
}
