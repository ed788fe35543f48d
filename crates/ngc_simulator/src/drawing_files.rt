//! Pictures of programs, from the files that the command line names.
ghost use Rattle.std.specs.Prelude.{◌≡◌, Ok, Some, option_map};
ghost use Rattle.ngc_simulator.specs.Answers.{DrawResult, OwnDrawResult, PictureResult};
ghost use Rattle.ngc_simulator.specs.Answers.{draw_inputs, own_draw_inputs, picture_inputs};
ghost use Rattle.ngc_simulator.specs.Drawing.{look_of, view_named};
ghost use Rattle.ngc_inputs.specs.Faults.{FailsByOutput};
ghost use Rattle.ngc_inputs.specs.Unread.{FailsByInput, SourceFails};

use crate::dialect_pictures::draw_dialect;
use crate::done::Done;
use crate::drawing::{draw_certified, draw_program, view_of};
use crate::mapping::map_files;
use ngc_command_line::DrawOptions;
use ngc_drawing::{Look, View};
use ngc_inputs::{AnswerFault, Files, read_certificate, read_placed, read_program};
use ngc_text::Sink;
use std::alloc::Global;

/// Returns how the picture looks from this side, with these options.
pub(crate) fn look_of(options: &DrawOptions<'_>, view: View) -> Look
    ensures { result ≡ look_of options.now view }
{
    Look {
        view,
        whole: options.whole,
        bodies: options.bodies,
    }
}

// Draws a picture without a certificate. Each file is read before the next one is opened.
fn draw_plain<F: Files, W: Sink>(
    alloc: Global,
    options: &DrawOptions<'_>,
    view: View,
    files: &mut F,
    output: &mut W,
) -> Result<Done, AnswerFault>
    requires { options.now.certificate ≡ None }
    ensures comes { OwnDrawResult (F.bytes files.old) options.now view (W.written output.old)
        (W.written output.new) result }
    ensures unread { FailsByInput (SourceFails F.R.remaining F.R.failures) (F.bytes files.old)
        (own_draw_inputs options.now) (F.failures files.old) (F.failures files.new) result }
    ensures sink { FailsByOutput result (W.failures output.old) (W.failures output.new) }
{
    let shop = read_placed(
        alloc,
        Some(options.machine),
        Some(options.tools),
        &options.changes,
        files,
    )?;
    let program = read_program(alloc, options.program, files)?;
    draw_program(
        alloc,
        &program,
        &shop.machine,
        &shop.tools,
        look_of(options, view),
        options.delete,
        output,
    )?;
    Ok(Done::Quietly)
}

// Draws a picture with a certificate.
fn draw_with<F: Files, W: Sink>(
    alloc: Global,
    options: &DrawOptions<'_>,
    certificate: &str,
    view: View,
    files: &mut F,
    output: &mut W,
) -> Result<Done, AnswerFault>
    requires { option_map (λ name. name.now) options.now.certificate ≡ Some certificate.now }
    ensures comes { OwnDrawResult (F.bytes files.old) options.now view (W.written output.old)
        (W.written output.new) result }
    ensures unread { FailsByInput (SourceFails F.R.remaining F.R.failures) (F.bytes files.old)
        (own_draw_inputs options.now) (F.failures files.old) (F.failures files.new) result }
    ensures sink { FailsByOutput result (W.failures output.old) (W.failures output.new) }
{
    let shop = read_placed(
        alloc,
        Some(options.machine),
        Some(options.tools),
        &options.changes,
        files,
    )?;
    let program = read_program(alloc, options.program, files)?;
    let certificate = read_certificate(alloc, certificate, files)?;
    draw_certified(
        alloc,
        &program,
        &shop.machine,
        &shop.tools,
        &certificate,
        look_of(options, view),
        options.delete,
        output,
    )?;
    Ok(Done::Quietly)
}

// Draws a picture of a program in our own language.
fn draw_own<F: Files, W: Sink>(
    alloc: Global,
    options: &DrawOptions<'_>,
    view: View,
    files: &mut F,
    output: &mut W,
) -> Result<Done, AnswerFault>
    ensures comes { OwnDrawResult (F.bytes files.old) options.now view (W.written output.old)
        (W.written output.new) result }
    ensures unread { FailsByInput (SourceFails F.R.remaining F.R.failures) (F.bytes files.old)
        (own_draw_inputs options.now) (F.failures files.old) (F.failures files.new) result }
    ensures sink { FailsByOutput result (W.failures output.old) (W.failures output.new) }
{
    match options.certificate {
        None => draw_plain(alloc, options, view, files, output),
        Some(certificate) => draw_with(alloc, options, certificate, view, files, output),
    }
}

// Draws a picture of a program. The view is looked up before a file is read.
fn draw_picture<F: Files, W: Sink>(
    alloc: Global,
    options: &DrawOptions<'_>,
    files: &mut F,
    output: &mut W,
) -> Result<Done, AnswerFault>
    ensures comes { PictureResult (F.bytes files.old) options.now
        (view_named (option_map (λ name. name.now) options.now.view)) (W.written output.old)
        (W.written output.new) result }
    ensures unread { FailsByInput (SourceFails F.R.remaining F.R.failures) (F.bytes files.old)
        (picture_inputs options.now (view_named (option_map (λ name. name.now) options.now.view)))
        (F.failures files.old) (F.failures files.new) result }
    ensures sink { FailsByOutput result (W.failures output.old) (W.failures output.new) }
{
    let Some(view) = view_of(options.view) else {
        return Err(AnswerFault::UnknownView);
    };
    match options.dialect {
        None => draw_own(alloc, options, view, files, output),
        Some(control) => draw_dialect(alloc, control, options, view, files, output),
    }
}

/// Draws a program: a map of what it leaves of the block of material if one is requested, otherwise a
/// picture.
pub(crate) fn draw_files<F: Files, W: Sink>(
    alloc: Global,
    options: &DrawOptions<'_>,
    files: &mut F,
    output: &mut W,
) -> Result<Done, AnswerFault>
    ensures comes { DrawResult (F.bytes files.old) options.now
        (view_named (option_map (λ name. name.now) options.now.view)) (W.written output.old)
        (W.written output.new) result }
    ensures unread { FailsByInput (SourceFails F.R.remaining F.R.failures) (F.bytes files.old)
        (draw_inputs options.now (view_named (option_map (λ name. name.now) options.now.view)))
        (F.failures files.old) (F.failures files.new) result }
    ensures sink { FailsByOutput result (W.failures output.old) (W.failures output.new) }
{
    if options.map {
        map_files(alloc, options, files, output)
    } else {
        draw_picture(alloc, options, files, output)
    }
}
