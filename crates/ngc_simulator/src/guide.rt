//! The help of a command, and the program's version.
ghost use Rattle.std.specs.Prelude.{OnErr, OnOk};
ghost use Rattle.std.specs.Io.KnownBytes.{Appends};
ghost use Rattle.ngc_text.specs.Failures.{CountsFailure};
ghost use Rattle.ngc_text.specs.Written.{AppendsPrefix};
ghost use Rattle.ngc_inputs.specs.Faults.{FailsByOutput};
ghost use Rattle.ngc_simulator.specs.Guides.{Guides, version_text};

use ngc_command_line::{HelpFault, help_text};
use ngc_inputs::AnswerFault;
use ngc_text::{Sink, WriteFault, write_all};
use std::alloc::Global;

pub(crate) fn write_help<W: Sink>(
    alloc: Global,
    command: Option<&str>,
    output: &mut W,
) -> Result<(), AnswerFault>
    ensures guides { Guides (W.written output.old) (W.written output.new) result }
    ensures sink { FailsByOutput result (W.failures output.old) (W.failures output.new) }
{
    let text = match help_text(alloc, command) {
        Ok(text) => text,
        Err(HelpFault::Unknown) => return Err(AnswerFault::UnknownCommand),
        Err(HelpFault::Memory) => return Err(AnswerFault::Memory),
    };
    write_all(output, text.as_bytes())?;
    Ok(())
}

pub(crate) fn write_version<W: Sink>(output: &mut W) -> Result<(), WriteFault>
    ensures ok { OnOk result (Appends (W.written output.old) (W.written output.new) version_text) }
    ensures fault { OnErr result
        (AppendsPrefix (W.written output.old) (W.written output.new) version_text) }
    ensures counts { CountsFailure (W.failures output.old) (W.failures output.new) result }
{
    write_all(output, b"ngc 0.1.0\n")
}
