//! How a machine file without origins is reported.
ghost use Rattle.std.specs.Prelude.{◌≡◌, OnOk, OnErr};
ghost use Rattle.std.specs.Io.KnownBytes.{Appends};
ghost use Rattle.ngc_machine_files.specs.Machine.{file_of};
ghost use Rattle.ngc_sentences.specs.Saying.{Says};
ghost use Rattle.ngc_text.specs.Failures.{CountsFailure};
ghost use Rattle.ngc_text.specs.Written.{AppendsPrefix};
ghost use Rattle.ngc_origin_warnings.specs.Missing.{is_missing, missing_line, missing_text};

use crate::origin::{has_origins, put_by};
use ngc_fixed_length::System;
use ngc_frames::{FrameInForce, system_name};
use ngc_machine_files::Machine;
use ngc_report::Form;
use ngc_sentences::{Page, Part, say};
use ngc_text::{Sink, WriteFault};
use std::alloc::Allocator;

fn is_missing<A: Allocator>(machine: &Machine<A>, frame: &FrameInForce) -> bool
    ensures { result ≡ is_missing (file_of machine.now) frame.now }
{
    put_by(frame) == 0 && !has_origins(machine)
}

fn say_missing<W: Sink>(form: Form, system: System, page: &mut Page, output: &mut W)
    ensures { Says (W.written output.old) (W.written output.new)
        (W.failures output.old) (W.failures output.new) page.old page.new
        (missing_line form system) }
{
    let name = system_name(system);
    match form {
        Form::Words =>
            say!(page, output; Part::Text(name), b" has no origin in the machine file: give it there or with `--origin`.\n"),
        Form::Json =>
            say!(page, output; b",\n{\"fact\":\"no_origin\",\"system\":\"", Part::Text(name), b"\"}"),
    }
}

fn say_if_missing<A: Allocator, W: Sink>(
    form: Form,
    machine: &Machine<A>,
    frame: &FrameInForce,
    page: &mut Page,
    output: &mut W,
)
    ensures { Says (W.written output.old) (W.written output.new)
        (W.failures output.old) (W.failures output.new) page.old page.new
        (missing_text form (file_of machine.now) frame.now) }
{
    if is_missing(machine, frame) {
        say_missing(form, frame.frame.system(), page, output);
    }
}

/// Writes that the selected coordinate system has no origin in the machine file, if the file has no
/// origin at all, and no line of the program set the origin or an axis offset. A file whose origins
/// are all zero counts as one without.
///
/// The function allocates no memory. After a fault (902, only if the sink failed) a prefix of the
/// text is written.
pub fn write_missing_origin<A: Allocator, W: Sink>(
    form: Form,
    machine: &Machine<A>,
    frame: &FrameInForce,
    output: &mut W,
) -> Result<(), WriteFault>
    ensures ok { OnOk result
        (Appends (W.written output.old) (W.written output.new)
        (missing_text form (file_of machine.now) frame.now)) }
    ensures fault { OnErr result
        (AppendsPrefix (W.written output.old) (W.written output.new)
        (missing_text form (file_of machine.now) frame.now)) }
    ensures counts { CountsFailure (W.failures output.old) (W.failures output.new) result }
{
    let mut page = Page::new();
    say_if_missing(form, machine, frame, &mut page, output);
    page.finish(output)
}
