//! How mistakes are said, in words or as facts of a JSON document.
ghost use Rattle.std.specs.Prelude.{◌≡◌};
ghost use Rattle.ngc_text.specs.Millimetres.{length_text};
ghost use Rattle.ngc_sentences.specs.Parts.{part_text};
ghost use Rattle.ngc_sentences.specs.Saying.{Says};
ghost use Rattle.ngc_word_warnings.specs.Spelling.{kind_text, number_facts, remark_text};
ghost use Rattle.ngc_word_warnings.specs.Spelling.{slips_fact, slips_words, spelled};

use crate::slip::{Slip, Slips};
use ngc_report::Form;
use ngc_sentences::{Page, Part, say};
use ngc_text::Sink;

fn kind_text(slip: &Slip) -> &'static [u8]
    ensures { result.now ≡ kind_text slip.now }
{
    match slip {
        Slip::Unmounted { .. } => b"T words of tools that are never mounted",
        Slip::OtherOffset { .. } => b"G43 with the H of another tool",
        Slip::NoOffset { .. } => b"feeds downwards without a length offset",
        Slip::StaleOffset { .. } => b"feeds with the length offset of another tool",
        Slip::PartHome => b"G28 or G30 with one or two axis words, each 0",
    }
}

fn length(number: &i64) -> Part<'static>
    ensures { part_text result ≡ length_text number.now }
{
    Part::Length(*number)
}

fn say_remark<W: Sink>(slip: &Slip, page: &mut Page, output: &mut W)
    ensures { Says (W.written output.old) (W.written output.new)
        (W.failures output.old) (W.failures output.new) page.old page.new (remark_text slip.now) }
{
    match slip {
        Slip::Unmounted { tool } => say!(page, output; b"write M6 T", length(tool)),
        Slip::OtherOffset { offset, tool } =>
            say!(page, output; b"H", length(offset), b", but tool ", Part::Number(u128::from(*tool)), b" is mounted"),
        Slip::NoOffset { tool } =>
            say!(page, output; b"write G43 H", Part::Number(u128::from(*tool))),
        Slip::StaleOffset { offset, tool } =>
            say!(page, output; b"H", length(offset), b" is in force, so write G43 H", Part::Number(u128::from(*tool)), b" after M6"),
        Slip::PartHome => say!(page, output; b"X, Y and Z all go home"),
    }
}

fn say_numbers<W: Sink>(slip: &Slip, page: &mut Page, output: &mut W)
    ensures { Says (W.written output.old) (W.written output.new)
        (W.failures output.old) (W.failures output.new) page.old page.new (number_facts slip.now) }
{
    match slip {
        Slip::Unmounted { tool } => say!(page, output; b",\"tool\":", length(tool)),
        Slip::OtherOffset { offset, tool } | Slip::StaleOffset { offset, tool } =>
            say!(page, output; b",\"offset\":", length(offset), b",\"tool\":", Part::Number(u128::from(*tool))),
        Slip::NoOffset { tool } =>
            say!(page, output; b",\"tool\":", Part::Number(u128::from(*tool))),
        Slip::PartHome => {}
    }
}

fn say_words<W: Sink>(slips: &Slips, page: &mut Page, output: &mut W)
    ensures { Says (W.written output.old) (W.written output.new)
        (W.failures output.old) (W.failures output.new) page.old page.new (slips_words slips.now) }
{
    say!(page, output; b"warning: ", Part::Text(kind_text(&slips.first.slip)), b": ", Part::Number(slips.count as u128), b", the first in line ", Part::Number(u128::from(slips.first.line)), b": ");
    say_remark(&slips.first.slip, page, output);
    say!(page, output; b".\n");
}

fn say_fact<W: Sink>(slips: &Slips, page: &mut Page, output: &mut W)
    ensures { Says (W.written output.old) (W.written output.new)
        (W.failures output.old) (W.failures output.new) page.old page.new (slips_fact slips.now) }
{
    say!(page, output; b",\n{\"fact\":\"warning\",\"text\":\"", Part::Text(kind_text(&slips.first.slip)), b"\",\"count\":", Part::Number(slips.count as u128), b",\"line\":", Part::Number(u128::from(slips.first.line)));
    say_numbers(&slips.first.slip, page, output);
    say!(page, output; b"}");
}

/// Says the line of the mistakes that were found, or nothing if there are none.
pub(crate) fn say_slips<W: Sink>(form: Form, found: &Option<Slips>, page: &mut Page, output: &mut W)
    ensures { Says (W.written output.old) (W.written output.new)
        (W.failures output.old) (W.failures output.new) page.old page.new (spelled form found.now) }
{
    match (form, found) {
        (_, None) => {}
        (Form::Words, Some(slips)) => say_words(slips, page, output),
        (Form::Json, Some(slips)) => say_fact(slips, page, output),
    }
}
