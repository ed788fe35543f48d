//! How breaches of limits are said, in words or as facts of a JSON document.
ghost use Rattle.std.specs.Prelude.{◌≡◌};
ghost use Rattle.ngc_sentences.specs.Saying.{Says};
ghost use Rattle.ngc_limit_warnings.specs.Spelling.{breaches_fact, breaches_words, kind_text, limits_text};
ghost use Rattle.ngc_limit_warnings.specs.Spelling.{spelled, unit_text};

use crate::breach::{Breaches, Kind};
use ngc_file_figures::Limits;
use ngc_report::Form;
use ngc_sentences::{Page, Part, say};
use ngc_text::Sink;

fn kind_text(kind: Kind) -> &'static [u8]
    ensures { result.now ≡ kind_text kind }
{
    match kind {
        Kind::Feed => b"feeds outside the tool's limits",
        Kind::Plunge => b"feeds straight down above the tool's limit",
        Kind::Speed => b"feeds with the spindle outside the tool's limits",
    }
}

fn unit_text(kind: Kind) -> &'static [u8]
    ensures { result.now ≡ unit_text kind }
{
    match kind {
        Kind::Feed | Kind::Plunge => b" mm/min",
        Kind::Speed => b" rpm",
    }
}

fn say_limits<W: Sink>(limits: &Limits, page: &mut Page, output: &mut W)
    ensures { Says (W.written output.old) (W.written output.new)
        (W.failures output.old) (W.failures output.new) page.old page.new (limits_text limits.now) }
{
    if limits.least == 0 {
        say!(page, output; b"at most ", Part::Size(u128::from(limits.greatest)));
    } else {
        say!(page, output; Part::Size(u128::from(limits.least)), b" to ", Part::Size(u128::from(limits.greatest)));
    }
}

fn say_words<W: Sink>(kind: Kind, found: &Breaches, page: &mut Page, output: &mut W)
    ensures { Says (W.written output.old) (W.written output.new)
        (W.failures output.old) (W.failures output.new) page.old page.new
        (breaches_words kind found.now) }
{
    say!(page, output; b"warning: ", Part::Text(kind_text(kind)), b": ", Part::Number(found.count as u128), b", the first in line ", Part::Number(u128::from(found.first.line)), b": ");
    say!(page, output; Part::Size(u128::from(found.first.breach.number)), Part::Text(unit_text(kind)), b" with tool ", Part::Number(u128::from(found.first.breach.tool)), b", which has ");
    say_limits(&found.first.breach.limits, page, output);
    say!(page, output; Part::Text(unit_text(kind)), b".\n");
}

fn say_fact<W: Sink>(kind: Kind, found: &Breaches, page: &mut Page, output: &mut W)
    ensures { Says (W.written output.old) (W.written output.new)
        (W.failures output.old) (W.failures output.new) page.old page.new
        (breaches_fact kind found.now) }
{
    say!(page, output; b",\n{\"fact\":\"warning\",\"text\":\"", Part::Text(kind_text(kind)), b"\",\"count\":", Part::Number(found.count as u128), b",\"line\":", Part::Number(u128::from(found.first.line)));
    say!(page, output; b",\"tool\":", Part::Number(u128::from(found.first.breach.tool)), b",\"number\":", Part::Number(u128::from(found.first.breach.number)));
    say!(page, output; b",\"least\":", Part::Number(u128::from(found.first.breach.limits.least)), b",\"greatest\":", Part::Number(u128::from(found.first.breach.limits.greatest)), b"}");
}

/// Says the line of the breaches that were found, or nothing if there are none.
pub(crate) fn say_breaches<W: Sink>(
    form: Form,
    kind: Kind,
    found: &Option<Breaches>,
    page: &mut Page,
    output: &mut W,
)
    ensures { Says (W.written output.old) (W.written output.new)
        (W.failures output.old) (W.failures output.new) page.old page.new
        (spelled form kind found.now) }
{
    match (form, found) {
        (_, None) => {}
        (Form::Words, Some(breaches)) => say_words(kind, breaches, page, output),
        (Form::Json, Some(breaches)) => say_fact(kind, breaches, page, output),
    }
}
