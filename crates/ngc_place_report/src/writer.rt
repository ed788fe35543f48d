//! How a placement is written.
ghost use Rattle.std.specs.Prelude.{◌≡◌, OnErr, OnOk};
ghost use Rattle.std.specs.Io.KnownBytes.{Appends};
ghost use Rattle.ngc_text.specs.Failures.{CountsFailure};
ghost use Rattle.ngc_text.specs.Written.{AppendsPrefix};
ghost use Rattle.ngc_machine_files.specs.Machine.{file_of};
ghost use Rattle.ngc_shifted_program.specs.Origins.{origin_in};
ghost use Rattle.ngc_place_report.specs.Texts.{document_text, words_text};

use crate::facts::say_document;
use crate::placement::Placement;
use crate::systems::index_of;
use crate::words::say_words;
use ngc_fixed_length::{Point3, System};
use ngc_machine_files::Machine;
use ngc_sentences::Page;
use ngc_text::{Sink, WriteFault};
use std::alloc::Allocator;

fn origin_in<A: Allocator>(machine: &Machine<A>, system: System) -> &Point3
    ensures { result.now ≡ origin_in (file_of machine.now) system }
{
    &machine.origins[index_of(system)]
}

/// Writes what is known of the shifts of an origin, in words. After a fault (902, only if
/// the sink failed) a prefix of the text is written.
pub fn write_words<A: Allocator, W: Sink>(
    machine: &Machine<A>,
    system: System,
    placement: &Placement,
    sink: &mut W,
) -> Result<(), WriteFault>
    ensures ok { OnOk result (Appends (W.written sink.old) (W.written sink.new)
        (words_text (file_of machine.now) system placement.now)) }
    ensures fault { OnErr result (AppendsPrefix (W.written sink.old) (W.written sink.new)
        (words_text (file_of machine.now) system placement.now)) }
    ensures counts { CountsFailure (W.failures sink.old) (W.failures sink.new) result }
{
    let origin = origin_in(machine, system);
    let mut page = Page::new();
    say_words(system, origin, machine.step, placement, &mut page, sink);
    page.finish(sink)
}

/// Writes what is known of the shifts of an origin, as a JSON document. After a fault (902, only if
/// the sink failed) a prefix of the text is written.
pub fn write_document<A: Allocator, W: Sink>(
    machine: &Machine<A>,
    system: System,
    placement: &Placement,
    sink: &mut W,
) -> Result<(), WriteFault>
    ensures ok { OnOk result (Appends (W.written sink.old) (W.written sink.new)
        (document_text (file_of machine.now) system placement.now)) }
    ensures fault { OnErr result (AppendsPrefix (W.written sink.old) (W.written sink.new)
        (document_text (file_of machine.now) system placement.now)) }
    ensures counts { CountsFailure (W.failures sink.old) (W.failures sink.new) result }
{
    let origin = origin_in(machine, system);
    let mut page = Page::new();
    say_document(system, origin, machine.step, placement, &mut page, sink);
    page.finish(sink)
}
