//! The machine of a report, with its tools, where a number of cells has a block of material to divide.
ghost use Rattle.std.specs.Prelude.{◌≡◌, IfOk, None, OnErr, OnOk, Some};
ghost use Rattle.std.specs.Io.KnownBytes.{Appends};
ghost use Rattle.ngc_text.specs.Failures.{CountsFailure};
ghost use Rattle.ngc_text.specs.Written.{AppendsPrefix};
ghost use Rattle.ngc_machine_files.specs.Machine.{file_of};
ghost use Rattle.ngc_report.specs.declared.form.Form.TheVariants.{Words};
ghost use Rattle.ngc_inputs.specs.Faults.{FailsByOutput, FailsWith};
ghost use Rattle.ngc_file_figures.specs.Files.{stored};
ghost use Rattle.ngc_inputs.specs.Setups.{AreFiguresIn, KeepsFiles};
ghost use Rattle.ngc_inputs.specs.Unread.{FailsByInput, SourceFails, shop_inputs, unread_by};
ghost use Rattle.ngc_simulator.specs.Answers.{ReportShopIs};
ghost use Rattle.ngc_simulator.specs.Cells.{ReportsNoMaterial, is_idle, no_material_text};
ghost use Rattle.ngc_simulator.specs.Cells.{no_material_words};

use crate::mistaken_files::{read_placed_reporting, write_fault_document};
use crate::reporting_files::requested_form;
use ngc_command_line::ReportOptions;
use ngc_inputs::{AnswerFault, Files, Shop};
use ngc_machine_files::Machine;
use ngc_program_report::write_ending;
use ngc_report::Form;
use ngc_text::{Sink, WriteFault, write_all};
use std::alloc::Global;

/// The fault of a number of cells without material.
const NO_MATERIAL: u16 = 729;

// Returns whether a number of cells is requested of a machine that has no block of material.
fn is_idle(cells: Option<u32>, machine: &Machine<Global>) -> bool
    ensures { result ≡ is_idle cells (file_of machine.now).stock }
{
    match (cells, &machine.stock) {
        (None, _) | (Some(_), Some(_)) => false,
        (Some(_), None) => true,
    }
}

#[tactic(auto, unfolding(crate::specs::Cells::no_material_words))]
fn no_material_words() -> &'static [u8]
    ensures { result.now ≡ no_material_words }
{
    b"`--cells` divides a block of material, and there is none: name it with `--stock`, or in the machine file.\n"
}

fn write_no_material_words<W: Sink>(output: &mut W) -> Result<(), WriteFault>
    ensures ok { OnOk result
        (Appends (W.written output.old) (W.written output.new) (no_material_text Words)) }
    ensures fault { OnErr result
        (AppendsPrefix (W.written output.old) (W.written output.new) (no_material_text Words)) }
    ensures counts { CountsFailure (W.failures output.old) (W.failures output.new) result }
{
    write_all(output, no_material_words())?;
    write_ending(Form::Words, NO_MATERIAL, output)
}

fn write_no_material<W: Sink>(form: Form, output: &mut W) -> Result<(), WriteFault>
    ensures ok { OnOk result
        (Appends (W.written output.old) (W.written output.new) (no_material_text form)) }
    ensures fault { OnErr result
        (AppendsPrefix (W.written output.old) (W.written output.new) (no_material_text form)) }
    ensures counts { CountsFailure (W.failures output.old) (W.failures output.new) result }
{
    match form {
        Form::Words => write_no_material_words(output),
        Form::Json => write_fault_document(NO_MATERIAL, output),
    }
}

// Writes why a number of cells is refused, and returns the fault.
fn refuse_cells<W: Sink>(form: Form, output: &mut W) -> AnswerFault
    ensures tells { ReportsNoMaterial form (W.written output.old) (W.written output.new) result }
    ensures unread { unread_by result ≡ None }
    ensures sink { FailsWith result (W.failures output.old) (W.failures output.new) }
{
    match write_no_material(form, output) {
        Ok(()) => AnswerFault::NoMaterial,
        Err(fault) => AnswerFault::Write(fault),
    }
}

/// Returns the machine of a report, with the changes of its options, and its tools; or the fault for
/// which there are none, as `read_placed_reporting` does. Where a number of cells is requested and the
/// machine has no block of material, a sentence or a document says so, and the fault is 729.
pub(crate) fn read_report_shop<F: Files, W: Sink>(
    alloc: Global,
    options: &ReportOptions<'_>,
    files: &mut F,
    output: &mut W,
) -> Result<Shop, AnswerFault>
    ensures said { ReportShopIs (F.bytes files.old) options.now (W.written output.old)
        (W.written output.new) result }
    ensures figures { IfOk result (λ shop. AreFiguresIn (F.bytes files.old)
        (Some options.now.machine.now) (Some options.now.tools.now) (stored shop.figures)) }
    ensures keeps { KeepsFiles (F.bytes files.old) (F.bytes files.new) }
    // The first file that isn't read can't be opened, its source fails, or it is too long.
    ensures unread { FailsByInput (SourceFails F.R.remaining F.R.failures) (F.bytes files.old)
        (shop_inputs (Some options.now.machine.now) (Some options.now.tools.now))
        (F.failures files.old) (F.failures files.new) result }
    ensures sink { FailsByOutput result (W.failures output.old) (W.failures output.new) }
{
    let form = requested_form(options.json);
    let (machine, tools) = (options.machine, Some(options.tools));
    let changes = &options.changes;
    match read_placed_reporting(alloc, form, machine, tools, changes, files, output) {
        Ok(shop) => {
            if is_idle(options.cells, &shop.machine) {
                return Err(refuse_cells(form, output));
            }
            Ok(shop)
        }
        Err(fault) => Err(fault),
    }
}
