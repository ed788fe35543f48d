//! How plain lines are printed.
ghost use Rattle.std.specs.Prelude.{OnOk, OnErr, flat_map};
ghost use Rattle.std.specs.Io.KnownBytes.{Appends};
ghost use Rattle.ngc_plain_laws.specs.Laws.{text_of};
ghost use Rattle.ngc_plain_program.specs.Programs.{kept_text, lines_of};
ghost use Rattle.ngc_sentences.specs.Saying.{Says};
ghost use Rattle.ngc_text.specs.Failures.{CountsFailure};
ghost use Rattle.ngc_text.specs.Written.{AppendsPrefix};

use ngc_dialect_execution::KeptLine;
use ngc_plain_text::say_line;
use ngc_sentences::Page;
use ngc_text::{Sink, WriteFault};
use std::alloc::Allocator;

fn say_kept<A: Allocator, W: Sink>(line: &KeptLine<A>, page: &mut Page, output: &mut W)
    ensures { Says (W.written output.old) (W.written output.new)
        (W.failures output.old) (W.failures output.new) page.old page.new (kept_text line.now) }
{
    say_line(line.words.as_slice(), page, output);
}

fn say_lines<A: Allocator, W: Sink>(lines: &[KeptLine<A>], page: &mut Page, output: &mut W)
    ensures { Says (W.written output.old) (W.written output.new)
        (W.failures output.old) (W.failures output.new) page.old page.new
        (flat_map kept_text lines.now) }
{
    for line in lines {
        say_kept(line, page, output);
    }
}

/// Writes the text of plain lines: the words of each, and a line feed.
///
/// The function allocates no memory. After a fault (902, only if the sink failed) a prefix of the text
/// is written.
pub fn write_lines<A: Allocator, W: Sink>(
    lines: &[KeptLine<A>],
    output: &mut W,
) -> Result<(), WriteFault>
    ensures ok { OnOk result
        (Appends (W.written output.old) (W.written output.new) (text_of (lines_of lines.now))) }
    ensures fault { OnErr result
        (AppendsPrefix (W.written output.old) (W.written output.new)
        (text_of (lines_of lines.now))) }
    ensures counts { CountsFailure (W.failures output.old) (W.failures output.new) result }
{
    let mut page = Page::new();
    say_lines(lines, &mut page, output);
    page.finish(output)
}
