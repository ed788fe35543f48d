//! Listings of programs for other controls.
ghost use Rattle.std.specs.Prelude.{◌≡◌, Some};
ghost use Rattle.ngc_canonical.specs.Interpreter.{setup_of};
ghost use Rattle.ngc_simulator.specs.Answers.{DialectListResult, list_inputs_in};
ghost use Rattle.ngc_simulator.specs.Dialects.{ListsDialect};
ghost use Rattle.ngc_inputs.specs.Faults.{FailsByOutput};
ghost use Rattle.ngc_inputs.specs.Unread.{FailsByInput, SourceFails};

use crate::dialects::{DialectFiles, Sent, read_sent, refused};
use crate::done::Done;
use ngc_command_line::ListOptions;
use ngc_dialect_execution::{DialectFault, interpret_dialect};
use ngc_inputs::{AnswerFault, Files};
use ngc_listing::write_list;
use ngc_text::Sink;
use std::alloc::Global;

// Writes the listing of a program, or returns notes on why it is refused.
fn list_sent<W: Sink>(
    alloc: Global,
    sent: &Sent,
    block_delete: bool,
    output: &mut W,
) -> Result<Done, AnswerFault>
    ensures lists { ListsDialect sent.now.dialect
        (setup_of sent.now.shop.machine sent.now.shop.tools) block_delete sent.now.text.items
        (W.written output.old) (W.written output.new) result }
    ensures sink { FailsByOutput result (W.failures output.old) (W.failures output.new) }
{
    let shop = &sent.shop;
    match interpret_dialect(
        alloc,
        sent.dialect,
        sent.text.as_slice(),
        &shop.machine,
        &shop.tools,
        block_delete,
    ) {
        Ok(commands) => match write_list(commands.as_slice(), shop.machine.step, output) {
            Ok(()) => Ok(Done::Quietly),
            Err(fault) => Err(AnswerFault::Write(fault)),
        },
        Err(DialectFault::Memory) => Err(AnswerFault::Memory),
        Err(DialectFault::At { line, cause }) => {
            let notes = refused(alloc, None, line, &cause)?;
            Ok(Done::WithNotes(notes))
        }
    }
}

/// Writes the listing of a program for a control.
pub(crate) fn list_dialect<F: Files, W: Sink>(
    alloc: Global,
    control: &str,
    options: &ListOptions<'_>,
    files: &mut F,
    output: &mut W,
) -> Result<Done, AnswerFault>
    ensures comes { DialectListResult control.now (F.bytes files.old) options.now
        (W.written output.old) (W.written output.new) result }
    ensures unread { FailsByInput (SourceFails F.R.remaining F.R.failures) (F.bytes files.old)
        (list_inputs_in (Some control.now) options.now) (F.failures files.old) (F.failures files.new)
        result }
    ensures sink { FailsByOutput result (W.failures output.old) (W.failures output.new) }
{
    let names = DialectFiles {
        control,
        machine: options.machine,
        tools: options.tools,
        changes: options.changes,
        program: options.program,
    };
    let sent = read_sent(alloc, &names, files)?;
    list_sent(alloc, &sent, options.delete, output)
}
