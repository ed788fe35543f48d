//! How mistakes with tools are said, in words or as facts of a JSON document.
ghost use Rattle.std.specs.Prelude.{◌≡◌};
ghost use Rattle.ngc_text.specs.Millimetres.{mm_text};
ghost use Rattle.ngc_sentences.specs.Parts.{part_text};
ghost use Rattle.ngc_sentences.specs.Saying.{Says};
ghost use Rattle.ngc_tool_warnings.specs.Spelling.{kind_text, number_facts, remark_text, sign_text};
ghost use Rattle.ngc_tool_warnings.specs.Spelling.{slips_fact, slips_words, spelled};

use crate::slip::{Slip, Slips};
use ngc_report::Form;
use ngc_sentences::{Page, Part, say};
use ngc_text::Sink;

fn kind_text(slip: &Slip) -> &'static [u8]
    ensures { result.now ≡ kind_text slip.now }
{
    match slip {
        Slip::LowChange { .. } => b"changes to a longer tool below the height of the start",
        Slip::Drop { .. } => b"traverses straight down below the start of the tool's first feed",
        Slip::BareChange => b"tool changes without a stop",
    }
}

fn millimetres(nanometres: &i64) -> Part<'static>
    ensures { part_text result ≡ mm_text nanometres.now }
{
    Part::Millimetres(*nanometres)
}

fn say_remark<W: Sink>(slip: &Slip, page: &mut Page, output: &mut W)
    ensures { Says (W.written output.old) (W.written output.new)
        (W.failures output.old) (W.failures output.new) page.old page.new (remark_text slip.now) }
{
    match slip {
        Slip::LowChange { from, to } =>
            say!(page, output; b"the tip goes from Z ", millimetres(from), b" to Z ", millimetres(to), b" in the machine"),
        Slip::Drop { below } => say!(page, output; millimetres(below), b" below it"),
        Slip::BareChange =>
            say!(page, output; b"M6 doesn't wait, so write M0 before it, or the key `changer` in the machine file"),
    }
}

fn sign(number: &i64) -> &'static [u8]
    ensures { result.now ≡ sign_text number.now }
{
    if *number < 0 { b"-" } else { b"" }
}

fn say_numbers<W: Sink>(slip: &Slip, page: &mut Page, output: &mut W)
    ensures { Says (W.written output.old) (W.written output.new)
        (W.failures output.old) (W.failures output.new) page.old page.new (number_facts slip.now) }
{
    match slip {
        Slip::LowChange { from, to } =>
            say!(page, output; b",\"from\":", Part::Text(sign(from)), Part::Number(u128::from(from.unsigned_abs())), b",\"to\":", Part::Text(sign(to)), Part::Number(u128::from(to.unsigned_abs()))),
        Slip::Drop { below } =>
            say!(page, output; b",\"below\":", Part::Text(sign(below)), Part::Number(u128::from(below.unsigned_abs()))),
        Slip::BareChange => {}
    }
}

fn say_words<W: Sink>(slips: &Slips, page: &mut Page, output: &mut W)
    ensures { Says (W.written output.old) (W.written output.new)
        (W.failures output.old) (W.failures output.new) page.old page.new (slips_words slips.now) }
{
    say!(page, output; b"warning: ", Part::Text(kind_text(&slips.first.slip)), b": ", Part::Number(slips.count as u128), b", the first in line ", Part::Number(u128::from(slips.first.line)), b": ");
    say_remark(&slips.first.slip, page, output);
    say!(page, output; b".\n");
}

fn say_fact<W: Sink>(slips: &Slips, page: &mut Page, output: &mut W)
    ensures { Says (W.written output.old) (W.written output.new)
        (W.failures output.old) (W.failures output.new) page.old page.new (slips_fact slips.now) }
{
    say!(page, output; b",\n{\"fact\":\"warning\",\"text\":\"", Part::Text(kind_text(&slips.first.slip)), b"\",\"count\":", Part::Number(slips.count as u128), b",\"line\":", Part::Number(u128::from(slips.first.line)));
    say_numbers(&slips.first.slip, page, output);
    say!(page, output; b"}");
}

/// Says the line of the mistakes that were found, or nothing if there are none.
pub(crate) fn say_slips<W: Sink>(form: Form, found: &Option<Slips>, page: &mut Page, output: &mut W)
    ensures { Says (W.written output.old) (W.written output.new)
        (W.failures output.old) (W.failures output.new) page.old page.new (spelled form found.now) }
{
    match (form, found) {
        (_, None) => {}
        (Form::Words, Some(slips)) => say_words(slips, page, output),
        (Form::Json, Some(slips)) => say_fact(slips, page, output),
    }
}
