//! How mistakes with length offsets are said, in words or as facts of a JSON document.
ghost use Rattle.std.specs.Prelude.{◌≡◌, decimal};
ghost use Rattle.std.specs.Fmt.{signed_decimal};
ghost use Rattle.ngc_text.specs.Millimetres.{mm_text};
ghost use Rattle.ngc_sentences.specs.Parts.{part_text};
ghost use Rattle.ngc_sentences.specs.Saying.{Says};
ghost use Rattle.ngc_length_warnings.specs.Spelling.{kind_text, number_facts, remark_text};
ghost use Rattle.ngc_length_warnings.specs.Spelling.{slips_fact, slips_words, spelled};

use crate::slip::{Slip, Slips};
use ngc_report::Form;
use ngc_sentences::{Page, Part, say};
use ngc_text::Sink;

fn kind_text(slip: &Slip) -> &'static [u8]
    ensures { result.now ≡ kind_text slip.now }
{
    match slip {
        Slip::Missing { .. } => b"feeds downwards without the tool's length offset",
        Slip::Other { .. } => b"feeds with a length offset that isn't the tool's",
    }
}

fn millimetres(nanometres: &i64) -> Part<'static>
    ensures { part_text result ≡ mm_text nanometres.now }
{
    Part::Millimetres(*nanometres)
}

fn signed(nanometres: &i64) -> Part<'static>
    ensures { part_text result ≡ signed_decimal nanometres.now }
{
    Part::Signed(*nanometres)
}

fn number(value: &u32) -> Part<'static>
    ensures { part_text result ≡ decimal value.now }
{
    Part::Number(u128::from(*value))
}

fn say_remark<W: Sink>(slip: &Slip, page: &mut Page, output: &mut W)
    ensures { Says (W.written output.old) (W.written output.new)
        (W.failures output.old) (W.failures output.new) page.old page.new (remark_text slip.now) }
{
    match slip {
        Slip::Missing { tool, offset } =>
            say!(page, output; b"tool ", number(tool), b" has ", millimetres(offset)),
        Slip::Other {
            tool,
            offset,
            force,
        } =>
            say!(page, output; millimetres(force), b" is in force, and tool ", number(tool), b" has ", millimetres(offset)),
    }
}

fn say_numbers<W: Sink>(slip: &Slip, page: &mut Page, output: &mut W)
    ensures { Says (W.written output.old) (W.written output.new)
        (W.failures output.old) (W.failures output.new) page.old page.new (number_facts slip.now) }
{
    match slip {
        Slip::Missing { tool, offset } =>
            say!(page, output; b",\"tool\":", number(tool), b",\"offset\":", signed(offset)),
        Slip::Other {
            tool,
            offset,
            force,
        } =>
            say!(page, output; b",\"tool\":", number(tool), b",\"offset\":", signed(offset), b",\"in_force\":", signed(force)),
    }
}

fn say_words<W: Sink>(slips: &Slips, page: &mut Page, output: &mut W)
    ensures { Says (W.written output.old) (W.written output.new)
        (W.failures output.old) (W.failures output.new) page.old page.new (slips_words slips.now) }
{
    say!(page, output; b"warning: ", Part::Text(kind_text(&slips.first.slip)), b": ", Part::Number(slips.count as u128), b", the first in line ", Part::Number(u128::from(slips.first.line)), b": ");
    say_remark(&slips.first.slip, page, output);
    say!(page, output; b".\n");
}

fn say_fact<W: Sink>(slips: &Slips, page: &mut Page, output: &mut W)
    ensures { Says (W.written output.old) (W.written output.new)
        (W.failures output.old) (W.failures output.new) page.old page.new (slips_fact slips.now) }
{
    say!(page, output; b",\n{\"fact\":\"warning\",\"text\":\"", Part::Text(kind_text(&slips.first.slip)), b"\",\"count\":", Part::Number(slips.count as u128), b",\"line\":", Part::Number(u128::from(slips.first.line)));
    say_numbers(&slips.first.slip, page, output);
    say!(page, output; b"}");
}

/// Says the line of the mistakes that were found, or nothing if there are none.
pub(crate) fn say_slips<W: Sink>(form: Form, found: &Option<Slips>, page: &mut Page, output: &mut W)
    ensures { Says (W.written output.old) (W.written output.new)
        (W.failures output.old) (W.failures output.new) page.old page.new (spelled form found.now) }
{
    match (form, found) {
        (_, None) => {}
        (Form::Words, Some(slips)) => say_words(slips, page, output),
        (Form::Json, Some(slips)) => say_fact(slips, page, output),
    }
}
