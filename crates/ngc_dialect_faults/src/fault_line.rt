//! The line that reports a fault.
ghost use Rattle.std.specs.Prelude.{◌≡◌, ◌++◌, OnOk, OnErr};
ghost use Rattle.std.specs.Io.KnownBytes.{Appends};
ghost use Rattle.ngc_text.specs.Failures.{CountsFailure};
ghost use Rattle.ngc_text.specs.Written.{AppendsPrefix};
ghost use Rattle.ngc_sentences.specs.Parts.{part_text};
ghost use Rattle.ngc_sentences.specs.Saying.{Says};
ghost use Rattle.ngc_dialect_faults.specs.Lines.{beginning, cause_text, code_text, column_text};
ghost use Rattle.ngc_dialect_faults.specs.Lines.{digit_text, fault_line, fault_text, plain_end};
ghost use Rattle.ngc_dialect_faults.specs.Lines.{point_text, rule_text, tenths_text, word_text};

use crate::flow::flow_words;
use crate::plain::plain_words;
use crate::reading::{reading_words, value_words};
use crate::rules::{polar_words, rule_end, rule_words};
use ngc_canonical::Fault as PlainFault;
use ngc_certificate_text::Setting;
use ngc_dialect_execution::Cause;
use ngc_dialect_rules::{About, Code, Fault as RuleFault};
use ngc_sentences::{Page, Part, say};
use ngc_text::{Sink, WriteFault};

fn point_text(tenth: u16) -> &'static [u8]
    ensures { result.now ≡ point_text tenth }
{
    if tenth == 0 { b"" } else { b"." }
}

fn digit(tenth: u16) -> Part<'static>
    ensures { part_text result ≡ digit_text tenth }
{
    if tenth == 0 {
        Part::Text(b"")
    } else {
        Part::Number(u128::from(tenth))
    }
}

fn say_tenths<W: Sink>(tenths: u16, page: &mut Page, output: &mut W)
    ensures { Says (W.written output.old) (W.written output.new)
        (W.failures output.old) (W.failures output.new) page.old page.new (tenths_text tenths) }
{
    let tenth = tenths % 10;
    say!(page, output; b"G", Part::Number(u128::from(tenths / 10)), Part::Text(point_text(tenth)), digit(tenth));
}

fn say_code<W: Sink>(code: &Code, page: &mut Page, output: &mut W)
    ensures { Says (W.written output.old) (W.written output.new)
        (W.failures output.old) (W.failures output.new) page.old page.new (code_text code.now) }
{
    match code {
        Code::M(number) => say!(page, output; b"M", Part::Number(u128::from(*number))),
        Code::G(tenths) => say_tenths(*tenths, page, output),
    }
}

fn say_word<W: Sink>(about: &About, page: &mut Page, output: &mut W)
    ensures { Says (W.written output.old) (W.written output.new)
        (W.failures output.old) (W.failures output.new) page.old page.new (word_text about.now) }
{
    match about {
        About::Letter(letter) => {
            let name = [*letter];
            say!(page, output; Part::Text(name.as_slice()));
        }
        About::Code(code) => say_code(code, page, output),
    }
}

fn say_rule<W: Sink>(fault: &RuleFault, page: &mut Page, output: &mut W)
    ensures { Says (W.written output.old) (W.written output.new)
        (W.failures output.old) (W.failures output.new) page.old page.new (rule_text fault.now) }
{
    say!(page, output; Part::Text(rule_words(fault.cause)), Part::Text(rule_end(fault.cause)), b", at ");
    say_word(&fault.about, page, output);
}

fn plain_end(fault: &PlainFault) -> Part<'static>
    ensures { part_text result ≡ plain_end fault.now }
{
    match fault {
        PlainFault::NoSuchTool(number) => Part::Number(u128::from(*number)),
        _ => Part::Text(b""),
    }
}

fn say_cause<W: Sink>(cause: &Cause, page: &mut Page, output: &mut W)
    ensures { Says (W.written output.old) (W.written output.new)
        (W.failures output.old) (W.failures output.new) page.old page.new (cause_text cause.now) }
{
    match cause {
        Cause::Reading(fault) => say!(page, output; Part::Text(reading_words(fault.cause))),
        Cause::Value(cause) => say!(page, output; Part::Text(value_words(*cause))),
        Cause::TooManyNames => say!(page, output; b"over 10,000 names"),
        Cause::Flow(cause) => say!(page, output; Part::Text(flow_words(*cause))),
        Cause::Rule(fault) => say_rule(fault, page, output),
        Cause::Polar(refusal) => say!(page, output; Part::Text(polar_words(*refusal))),
        Cause::NothingSaved =>
            say!(page, output; b"M72 restores modes that neither M70 nor M73 has saved here"),
        Cause::Plain(fault) =>
            say!(page, output; Part::Text(plain_words(*fault)), plain_end(fault)),
    }
}

fn say_column<W: Sink>(cause: &Cause, page: &mut Page, output: &mut W)
    ensures { Says (W.written output.old) (W.written output.new)
        (W.failures output.old) (W.failures output.new) page.old page.new (column_text cause.now) }
{
    match cause {
        Cause::Reading(fault) =>
            say!(page, output; b" column ", Part::Number(fault.column as u128)),
        _ => {}
    }
}

fn say_fault<W: Sink>(line: u32, cause: &Cause, page: &mut Page, output: &mut W)
    ensures { Says (W.written output.old) (W.written output.new)
        (W.failures output.old) (W.failures output.new) page.old page.new
        (fault_text line cause.now) }
{
    say!(page, output; b"fault ", Part::Number(u128::from(cause.number())), b" line ", Part::Number(u128::from(line)));
    say_column(cause, page, output);
    say!(page, output; b": ");
    say_cause(cause, page, output);
    say!(page, output; b"\n");
}

fn beginning(setting: Option<Setting>) -> &'static [u8]
    ensures { result.now ≡ beginning setting }
{
    match setting {
        None => b"ngc: ",
        Some(Setting::Off) => b"ngc: fault 311 setting off ",
        Some(Setting::On) => b"ngc: fault 311 setting on ",
    }
}

/// Writes the line that reports why a line of a program is refused, with its line feed: the fault's
/// number, its line, the column where the line can't be read, and what is wrong, with the word that it
/// is about. Where a command needs both settings of block delete, 311 and the setting come first.
///
/// The function allocates no memory. After a fault (902, only if the sink failed) a prefix of the
/// line is written.
pub fn write_dialect_fault<W: Sink>(
    setting: Option<Setting>,
    line: u32,
    cause: &Cause,
    output: &mut W,
) -> Result<(), WriteFault>
    ensures ok { OnOk result
        (Appends (W.written output.old) (W.written output.new)
        (fault_line setting line cause.now)) }
    ensures fault { OnErr result
        (AppendsPrefix (W.written output.old) (W.written output.new)
        (fault_line setting line cause.now)) }
    ensures counts { CountsFailure (W.failures output.old) (W.failures output.new) result }
{
    let mut page = Page::new();
    say!(page, output; Part::Text(beginning(setting)));
    say_fault(line, cause, &mut page, output);
    page.finish(output)
}

fn say_between<W: Sink>(before: &[u8], cause: &Cause, after: &[u8], page: &mut Page, output: &mut W)
    ensures { Says (W.written output.old) (W.written output.new)
        (W.failures output.old) (W.failures output.new) page.old page.new
        (before.now ++ (cause_text cause.now ++ after.now)) }
{
    say!(page, output; Part::Text(before));
    say_cause(cause, page, output);
    say!(page, output; Part::Text(after));
}

/// Writes what is wrong, as in the line that reports a fault, between two texts: `nothing uses the word,
/// at P`.
///
/// The function allocates no memory. After a fault (902, only if the sink failed) a prefix of the
/// text is written.
pub fn write_cause<W: Sink>(
    before: &[u8],
    cause: &Cause,
    after: &[u8],
    output: &mut W,
) -> Result<(), WriteFault>
    ensures ok { OnOk result
        (Appends (W.written output.old) (W.written output.new)
        (before.now ++ (cause_text cause.now ++ after.now))) }
    ensures fault { OnErr result
        (AppendsPrefix (W.written output.old) (W.written output.new)
        (before.now ++ (cause_text cause.now ++ after.now))) }
    ensures counts { CountsFailure (W.failures output.old) (W.failures output.new) result }
{
    let mut page = Page::new();
    say_between(before, cause, after, &mut page, output);
    page.finish(output)
}
