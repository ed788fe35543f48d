ghost use Rattle.std.specs.Prelude.{◌≡◌, ◌+◌, ◌++◌, false, flat_map};
ghost use Rattle.ngc_text.specs.Failures.{CountsFailure};
ghost use Rattle.ngc_text.specs.Collected.{HasSpaceForLine};
ghost use Rattle.ngc_sentences.specs.Parts.{part_text, parts_text, is_text};
ghost use Rattle.ngc_sentences.specs.Saying.{Collects, Says, IsFresh, Finishes};

use crate::clock::{add_clock, add_three_digits};
use crate::part::Part;
use ngc_text::{Chunk, Sink, WriteFault, write_all};

// No longer text is collected.
const MOST_TEXT: usize = 512;

/// Collects sentences and writes them in large pieces.
///
/// After the first failed write it writes nothing more, and `finish` returns that fault.
#[derive(Drop)]
pub struct Page {
    chunk: Chunk,
    failed: bool,
}

// Adds a text, which may be longer than a chunk.
fn write_text<W: Sink>(chunk: &mut Chunk, text: &[u8], sink: &mut W) -> Result<(), WriteFault>
    ensures text { Collects (W.written sink.old) (W.written sink.new) chunk.old chunk.new result
        text.now }
    ensures counts { CountsFailure (W.failures sink.old) (W.failures sink.new) result }
{
    if text.len() <= MOST_TEXT {
        match chunk.make_space(sink) {
            Ok(()) => {}
            Err(fault) => return Err(fault),
        }
        chunk.add_text(text);
        return Ok(());
    }
    match chunk.write_out(sink) {
        Ok(()) => write_all(sink, text),
        Err(fault) => Err(fault),
    }
}

// Adds a part other than a text.
#[tactic(auto, unfolding(crate::specs::Parts::part_text))]
fn add_number(chunk: &mut Chunk, part: &Part)
    requires room { HasSpaceForLine chunk.old }
    requires number { is_text part.now ≡ false }
    ensures { chunk.new ≡ chunk.old ++ part_text part.now }
{
    match part {
        Part::Text(_) => {}
        Part::Number(number) => chunk.add_number(*number),
        Part::Signed(number) => chunk.add_number(*number),
        Part::Size(nanometres) => chunk.add_size(*nanometres),
        Part::Length(nanometres) => chunk.add_length(i128::from(*nanometres)),
        Part::Millimetres(nanometres) => chunk.add_millimetres(i128::from(*nanometres)),
        Part::Thousandths(number) => {
            chunk.add_millionths(*number / 1000, 1000 * (*number % 1000) as u32)
        }
        Part::Tool(number) => {
            chunk.add_text(b"tool ");
            chunk.add_number(*number);
        }
        Part::Clock(seconds, thousandths) => {
            add_clock(chunk, *seconds);
            chunk.add_text(b".");
            add_three_digits(chunk, *thousandths);
        }
        Part::Seconds(seconds, thousandths) => {
            chunk.add_number(*seconds);
            chunk.add_text(b".");
            add_three_digits(chunk, *thousandths);
        }
    }
}

fn write_part<W: Sink>(chunk: &mut Chunk, part: &Part, sink: &mut W) -> Result<(), WriteFault>
    ensures text { Collects (W.written sink.old) (W.written sink.new) chunk.old chunk.new result
        (part_text part.now) }
    ensures counts { CountsFailure (W.failures sink.old) (W.failures sink.new) result }
{
    if let Part::Text(text) = part {
        return write_text(chunk, text, sink);
    }
    match chunk.make_space(sink) {
        Ok(()) => {}
        Err(fault) => return Err(fault),
    }
    add_number(chunk, part);
    Ok(())
}

fn write_parts<W: Sink>(chunk: &mut Chunk, parts: &[Part], sink: &mut W) -> Result<(), WriteFault>
    ensures text { Collects (W.written sink.old) (W.written sink.new) chunk.old chunk.new result
        (flat_map part_text parts.now) }
    ensures counts { CountsFailure (W.failures sink.old) (W.failures sink.new) result }
{
    for part in parts {
        match write_part(chunk, part, sink) {
            Ok(()) => {}
            Err(fault) => return Err(fault),
        }
    }
    Ok(())
}

impl Page {
    /// Returns an empty page.
    pub fn new() -> Page
        ensures { IsFresh result }
    {
        Page {
            chunk: Chunk::new(),
            failed: false,
        }
    }

    /// Says a sentence, unless a write has failed.
    pub fn say<W: Sink>(&mut self, sink: &mut W, parts: &[Part])
        ensures { Says (W.written sink.old) (W.written sink.new)
            (W.failures sink.old) (W.failures sink.new) self.old self.new (parts_text parts.now) }
    {
        if !self.failed {
            self.failed = write_parts(&mut self.chunk, parts, sink).is_err();
        }
    }

    /// Writes what is still collected. Returns a fault if a write has failed.
    pub fn finish<W: Sink>(&mut self, sink: &mut W) -> Result<(), WriteFault>
        ensures { Finishes (W.written sink.old) (W.written sink.new)
            (W.failures sink.old) (W.failures sink.new) self.old result }
    {
        if self.failed {
            Err(WriteFault)
        } else {
            self.chunk.write_out(sink)
        }
    }
}
