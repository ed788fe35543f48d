//! The setup sheet of a machine, from the files that the command line names.
ghost use Rattle.std.specs.Prelude.{OnErr, OnOk};
ghost use Rattle.std.specs.Io.KnownBytes.{Appends};
ghost use Rattle.ngc_text.specs.Failures.{CountsFailure};
ghost use Rattle.ngc_text.specs.Written.{AppendsPrefix};
ghost use Rattle.ngc_file_figures.specs.Files.{values_of};
ghost use Rattle.ngc_machine_files.specs.Machine.{file_of};
ghost use Rattle.ngc_simulator.specs.Answers.{ShowResult, show_inputs};
ghost use Rattle.ngc_inputs.specs.Faults.{FailsByOutput};
ghost use Rattle.ngc_simulator.specs.Showing.{shown_text};
ghost use Rattle.ngc_inputs.specs.Unread.{FailsByInput, SourceFails};

use crate::done::Done;
use crate::mistaken_files::read_shop_reporting;
use ngc_command_line::ShowOptions;
use ngc_file_figures::FileFigures;
use ngc_inputs::{AnswerFault, Files};
use ngc_machine_files::{Machine, Tool};
use ngc_report::Form;
use ngc_setup_sheet::{write_sheet, write_warnings};
use ngc_text::{Sink, WriteFault};
use std::alloc::Global;

// Writes the setup sheet, or its warnings alone.
fn write_shown<W: Sink>(
    warnings: bool,
    machine: &Machine<Global>,
    figures: &FileFigures<'_>,
    tools: &[Tool],
    output: &mut W,
) -> Result<(), WriteFault>
    ensures ok { OnOk result
        (Appends (W.written output.old) (W.written output.new)
        (shown_text warnings (file_of machine.now) (values_of figures.now) tools.now)) }
    ensures fault { OnErr result
        (AppendsPrefix (W.written output.old) (W.written output.new)
        (shown_text warnings (file_of machine.now) (values_of figures.now) tools.now)) }
    ensures counts { CountsFailure (W.failures output.old) (W.failures output.new) result }
{
    if warnings {
        write_warnings(machine, figures, tools, output)
    } else {
        write_sheet(machine, figures, tools, output)
    }
}

/// Writes a setup sheet, or its warnings alone. Both files are read before anything is written. If
/// one is refused, its mistake is written.
pub(crate) fn show_files<F: Files, W: Sink>(
    alloc: Global,
    options: &ShowOptions<'_>,
    files: &mut F,
    output: &mut W,
) -> Result<Done, AnswerFault>
    ensures comes { ShowResult (F.bytes files.old) options.now (W.written output.old)
        (W.written output.new) result }
    ensures unread { FailsByInput (SourceFails F.R.remaining F.R.failures) (F.bytes files.old)
        (show_inputs options.now) (F.failures files.old) (F.failures files.new) result }
    ensures sink { FailsByOutput result (W.failures output.old) (W.failures output.new) }
{
    let (machine, tools) = (options.machine, options.tools);
    let shop = read_shop_reporting(alloc, Form::Words, machine, tools, files, output)?;
    let figures = shop.figures.borrowed();
    let tools = shop.tools.tools();
    write_shown(options.warnings, &shop.machine, &figures, tools, output)?;
    Ok(Done::Quietly)
}
