//! Where programs for other controls fit.
ghost use Rattle.std.specs.Prelude.{Some};
ghost use Rattle.ngc_canonical.specs.Interpreter.{setup_of};
ghost use Rattle.ngc_simulator.specs.Answers.{DialectPlaceResult, place_inputs_in, place_request};
ghost use Rattle.ngc_simulator.specs.DialectPlaces.{PlacesDialect};
ghost use Rattle.ngc_inputs.specs.Faults.{FailsByOutput};
ghost use Rattle.ngc_inputs.specs.Unread.{FailsByInput, SourceFails};

use crate::dialect_certificates::job_of_text;
use crate::dialects::{DialectFiles, Sent, read_sent};
use crate::done::Done;
use crate::place_request::PlaceRequest;
use crate::placing::{place_job, request_of};
use ngc_command_line::PlaceOptions;
use ngc_fixed_length::System;
use ngc_inputs::{AnswerFault, Files};
use ngc_shifted_program::PartProgram;
use ngc_text::Sink;
use std::alloc::Global;

// Writes where the origin of a system may lie, or returns notes on why the program is refused.
fn place_sent<W: Sink>(
    alloc: Global,
    sent: Sent,
    request: PlaceRequest,
    output: &mut W,
) -> Result<Done, AnswerFault>
    ensures places { PlacesDialect sent.dialect
        (setup_of sent.shop.machine sent.shop.tools) sent.text.items request
        (W.written output.old) (W.written output.new) result }
    ensures sink { FailsByOutput result (W.failures output.old) (W.failures output.new) }
{
    let Sent {
        dialect,
        shop,
        text,
    } = sent;
    let text = text.as_slice();
    match job_of_text(alloc, dialect, text, shop)? {
        Ok(job) => {
            let program = PartProgram::Other { dialect, text };
            place_job(alloc, &program, &job, request, output)?;
            Ok(Done::Quietly)
        }
        Err(notes) => Ok(Done::WithNotes(notes)),
    }
}

/// Writes where the origin of a system may lie for a program for a control.
pub(crate) fn place_dialect<F: Files, W: Sink>(
    alloc: Global,
    control: &str,
    options: &PlaceOptions<'_>,
    system: System,
    files: &mut F,
    output: &mut W,
) -> Result<Done, AnswerFault>
    ensures comes { DialectPlaceResult control.now (F.bytes files.old) options.now system
        (W.written output.old) (W.written output.new) result }
    ensures unread { FailsByInput (SourceFails F.R.remaining F.R.failures) (F.bytes files.old)
        (place_inputs_in (Some control.now) options.now) (F.failures files.old)
        (F.failures files.new) result }
    ensures sink { FailsByOutput result (W.failures output.old) (W.failures output.new) }
{
    let names = DialectFiles {
        control,
        machine: Some(options.machine),
        tools: Some(options.tools),
        changes: options.changes,
        program: options.program,
    };
    let sent = read_sent(alloc, &names, files)?;
    place_sent(alloc, sent, request_of(options, system), output)
}
