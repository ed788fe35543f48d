//! Pictures of programs for other controls.
ghost use Rattle.std.specs.Prelude.{[], ◌∷◌, None, Some};
ghost use Rattle.ngc_canonical.specs.Interpreter.{setup_of};
ghost use Rattle.ngc_inputs.specs.Faults.{FailsByOutput};
ghost use Rattle.ngc_inputs.specs.Unread.{FailsByInput, SourceFails};
ghost use Rattle.ngc_simulator.specs.Answers.{DialectDrawResult, certificate_input, draw_inputs_in};
ghost use Rattle.ngc_simulator.specs.DialectPictures.{DrawsDialect, DrawsDialectBy};

use crate::dialects::{DialectFiles, Sent, framed_at, read_sent};
use crate::done::Done;
use crate::drawing::{draw_commands, draw_commands_by};
use crate::drawing_files::look_of;
use ngc_command_line::DrawOptions;
use ngc_drawing::{Look, View};
use ngc_inputs::{AnswerFault, Files, read_certificate};
use ngc_text::Sink;
use std::alloc::Global;

// Draws a picture of a program without a certificate, or returns notes on why the program is refused.
fn draw_sent<W: Sink>(
    alloc: Global,
    sent: &Sent,
    look: Look,
    block_delete: bool,
    output: &mut W,
) -> Result<Done, AnswerFault>
    ensures draws { DrawsDialect sent.now.dialect
        (setup_of sent.now.shop.machine sent.now.shop.tools) block_delete sent.now.text.items look
        (W.written output.old) (W.written output.new) result }
    ensures sink { FailsByOutput result (W.failures output.old) (W.failures output.new) }
{
    let text = sent.text.as_slice();
    match framed_at(alloc, sent.dialect, text, &sent.shop, block_delete, None)? {
        Ok(framed) => {
            draw_commands(alloc, &framed, &sent.shop.machine, look, output)?;
            Ok(Done::Quietly)
        }
        Err(notes) => Ok(Done::WithNotes(notes)),
    }
}

// Draws a picture of a program with the certificate of the named file. A program that is refused is
// reported before that file is opened.
fn draw_sent_by<F: Files, W: Sink>(
    alloc: Global,
    sent: &Sent,
    certificate: &str,
    look: Look,
    block_delete: bool,
    files: &mut F,
    output: &mut W,
) -> Result<Done, AnswerFault>
    ensures draws { DrawsDialectBy sent.now.dialect
        (setup_of sent.now.shop.machine sent.now.shop.tools) block_delete sent.now.text.items look
        (F.bytes files.old (Some certificate.now)) (W.written output.old) (W.written output.new)
        result }
    ensures unread { FailsByInput (SourceFails F.R.remaining F.R.failures) (F.bytes files.old)
        (certificate_input certificate.now ∷ []) (F.failures files.old) (F.failures files.new)
        result }
    ensures sink { FailsByOutput result (W.failures output.old) (W.failures output.new) }
{
    let text = sent.text.as_slice();
    let framed = match framed_at(alloc, sent.dialect, text, &sent.shop, block_delete, None)? {
        Ok(framed) => framed,
        Err(notes) => return Ok(Done::WithNotes(notes)),
    };
    let certificate = read_certificate(alloc, certificate, files)?;
    draw_commands_by(
        alloc,
        &framed,
        &sent.shop.machine,
        &certificate,
        look,
        block_delete,
        output,
    )?;
    Ok(Done::Quietly)
}

/// Draws a picture of a program for a control.
pub(crate) fn draw_dialect<F: Files, W: Sink>(
    alloc: Global,
    control: &str,
    options: &DrawOptions<'_>,
    view: View,
    files: &mut F,
    output: &mut W,
) -> Result<Done, AnswerFault>
    ensures comes { DialectDrawResult control.now (F.bytes files.old) options.now view
        (W.written output.old) (W.written output.new) result }
    ensures unread { FailsByInput (SourceFails F.R.remaining F.R.failures) (F.bytes files.old)
        (draw_inputs_in (Some control.now) options.now) (F.failures files.old)
        (F.failures files.new) result }
    ensures sink { FailsByOutput result (W.failures output.old) (W.failures output.new) }
{
    let names = DialectFiles {
        control,
        machine: Some(options.machine),
        tools: Some(options.tools),
        changes: options.changes,
        program: options.program,
    };
    let sent = read_sent(alloc, &names, files)?;
    let look = look_of(options, view);
    let delete = options.delete;
    match options.certificate {
        None => draw_sent(alloc, &sent, look, delete, output),
        Some(certificate) => {
            draw_sent_by(alloc, &sent, certificate, look, delete, files, output)
        }
    }
}
