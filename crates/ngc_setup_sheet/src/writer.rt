//! Which lines are said, and in which style.
ghost use Rattle.std.specs.Prelude.{◌≡◌, ◌∷◌, []};
ghost use Rattle.ngc_sentences.specs.Saying.{Says};
ghost use Rattle.ngc_setup_sheet.specs.Sheets.{is_warning, as_fact, as_remark};
ghost use Rattle.ngc_setup_sheet.specs.Spelling.{lines_text};
ghost use Rattle.ngc_setup_sheet.specs.Writes.{styled, chosen};

use crate::line::Line;
use crate::spelling::say_line;
use ngc_sentences::Page;
use ngc_text::Sink;

/// The style of warnings.
#[derive(Clone, Copy)]
pub(crate) enum Style {
    /// As lines of the sheet.
    Lines,
    /// As objects of a JSON document.
    Facts,
    /// As comments of a machine file.
    Remarks,
}

/// Says lines in order.
pub(crate) fn say_lines<W: Sink>(lines: &[Line], page: &mut Page, output: &mut W)
    ensures { Says (W.written output.old) (W.written output.new)
        (W.failures output.old) (W.failures output.new) page.old page.new (lines_text lines.now) }
{
    for line in lines {
        say_line(line, page, output);
    }
}

fn is_warning(line: &Line) -> bool
    ensures { result ≡ is_warning line.now }
{
    match line {
        Line::Warning(_) => true,
        Line::Machine
        | Line::Fixture(..)
        | Line::Tool(..)
        | Line::Fact(_, _)
        | Line::CornerNote(_)
        | Line::WrittenCornerNote(_)
        | Line::WarningFact(_)
        | Line::WarningRemark(_) => false,
    }
}

fn as_fact(line: &Line) -> Line
    ensures { result ≡ as_fact line.now }
{
    match line {
        Line::Warning(warning) => Line::WarningFact(*warning),
        Line::Machine
        | Line::Fixture(..)
        | Line::Tool(..)
        | Line::Fact(_, _)
        | Line::CornerNote(_)
        | Line::WrittenCornerNote(_)
        | Line::WarningFact(_)
        | Line::WarningRemark(_) => *line,
    }
}

fn as_remark(line: &Line) -> Line
    ensures { result ≡ as_remark line.now }
{
    match line {
        Line::Warning(warning) => Line::WarningRemark(*warning),
        Line::Machine
        | Line::Fixture(..)
        | Line::Tool(..)
        | Line::Fact(_, _)
        | Line::CornerNote(_)
        | Line::WrittenCornerNote(_)
        | Line::WarningFact(_)
        | Line::WarningRemark(_) => *line,
    }
}

fn styled(style: Style, line: &Line) -> Line
    ensures { result ≡ styled style line.now }
{
    match style {
        Style::Lines => *line,
        Style::Facts => as_fact(line),
        Style::Remarks => as_remark(line),
    }
}

fn say_if_warning<W: Sink>(style: Style, line: &Line, page: &mut Page, output: &mut W)
    ensures { Says (W.written output.old) (W.written output.new)
        (W.failures output.old) (W.failures output.new) page.old page.new
        (lines_text (chosen style (line.now ∷ []))) }
{
    if is_warning(line) {
        say_line(&styled(style, line), page, output);
    }
}

/// Says the warnings among the lines in order, in a style.
pub(crate) fn say_warning_lines<W: Sink>(
    style: Style,
    lines: &[Line],
    page: &mut Page,
    output: &mut W,
)
    ensures { Says (W.written output.old) (W.written output.new)
        (W.failures output.old) (W.failures output.new) page.old page.new
        (lines_text (chosen style lines.now)) }
{
    for line in lines {
        say_if_warning(style, line, page, output);
    }
}
