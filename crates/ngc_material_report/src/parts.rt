//! Parts of sentences and of facts that several subjects share.
ghost use Rattle.std.specs.Prelude.{◌≡◌, decimal};
ghost use Rattle.ngc_text.specs.Millimetres.{size_text};
ghost use Rattle.ngc_sentences.specs.Parts.{part_text};
ghost use Rattle.ngc_sentences.specs.Saying.{Says};
ghost use Rattle.ngc_material_report.specs.Sentences.{command_fact};

use ngc_sentences::{Page, Part, say};
use ngc_text::Sink;

pub(crate) fn number(count: u32) -> Part<'static>
    ensures { part_text result ≡ decimal count }
{
    Part::Number(u128::from(count))
}

pub(crate) fn index(index: usize) -> Part<'static>
    ensures { part_text result ≡ decimal index }
{
    Part::Number(index as u128)
}

// Returns a depth in millimetres. `nanometres` is that depth.
pub(crate) fn depth(nanometres: u64) -> Part<'static>
    ensures { part_text result ≡ size_text nanometres }
{
    Part::Size(u128::from(nanometres))
}

// Returns a depth in nanometres.
pub(crate) fn whole_depth(nanometres: u64) -> Part<'static>
    ensures { part_text result ≡ decimal nanometres }
{
    Part::Number(u128::from(nanometres))
}

/// Says which command a fact is about, and its tool.
pub(crate) fn say_command_fact<W: Sink>(
    line: u32,
    command: usize,
    tool: u32,
    page: &mut Page,
    output: &mut W,
)
    ensures { Says (W.written output.old) (W.written output.new)
        (W.failures output.old) (W.failures output.new) page.old page.new (command_fact line command tool) }
{
    say!(page, output; b"\"line\":", number(line), b",\"command\":", index(command), b",\"tool\":", number(tool));
}
