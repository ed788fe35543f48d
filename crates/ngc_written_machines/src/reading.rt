//! Machine files of every version.
ghost use Rattle.std.specs.Prelude.{◌≡◌, IfOk, None};
ghost use Rattle.toml.specs.View.{view};
ghost use Rattle.ngc_machine_files.specs.Machine.{file_of};
ghost use Rattle.ngc_machine_files.specs.Refusals.{FileResultIs};
ghost use Rattle.ngc_machine_files.specs.MachineText.{machine_file};
ghost use Rattle.ngc_written_machines.specs.Reading as spec;
ghost use Rattle.ngc_written_machines.specs.Written.{any_figures, tree_figures};

use crate::machine::{WrittenMachine, written_machine};
use crate::refusal::WrittenFault;
use ngc_machine_figures::is_written;
use ngc_machine_files::{FileFault, Machine, read_tree};
use std::alloc::Global;
use toml::Value;

fn file_fault(fault: WrittenFault) -> FileFault
    ensures { result ≡ spec.file_fault fault }
{
    match fault {
        WrittenFault::Memory => FileFault::Memory,
        WrittenFault::Refused(refusal) => refusal.fault(),
    }
}

fn written_file(alloc: Global, tree: &Value) -> Result<WrittenMachine, FileFault>
    ensures machine { FileResultIs (λ w. file_of w.machine) result
        (spec.written_file (view tree.now)) }
    ensures figures { IfOk result (λ w. w.figures ≡ tree_figures (view tree.now)) }
{
    match written_machine(alloc, tree) {
        Ok(machine) => Ok(machine),
        Err(fault) => Err(file_fault(fault)),
    }
}

// Reads a file of version 1 or 2, which says rates.
fn numbered_file(alloc: Global, bytes: &[u8]) -> Result<WrittenMachine, FileFault>
    ensures machine { FileResultIs (λ w. file_of w.machine) result (machine_file bytes.now) }
    ensures figures { IfOk result (λ w. w.figures ≡ None) }
{
    let machine = Machine::read(alloc, bytes)?;
    Ok(WrittenMachine {
        machine,
        figures: None,
    })
}

/// Reads a machine file of version 1, 2 or 3, with its figures as they are written.
///
/// Returns 269 if the bytes are no document, or a key is unknown, missing, or can't be read.
/// Otherwise it returns the first of the faults 261 to 267 that holds, or 900 if memory is refused.
#[tactic(auto, unfolding(crate::specs::Reading::any_machine, crate::specs::Written::any_figures))]
pub fn read_file(alloc: Global, bytes: &[u8]) -> Result<WrittenMachine, FileFault>
    ensures machine { FileResultIs (λ w. file_of w.machine) result (spec.any_machine bytes.now) }
    ensures figures { IfOk result (λ w. w.figures ≡ any_figures bytes.now) }
{
    let tree = match read_tree(alloc, bytes) {
        Ok(tree) => tree,
        Err(_) => return Err(FileFault::Memory),
    };
    if let Some(tree) = &tree {
        if is_written(tree) {
            return written_file(alloc, tree);
        }
    }
    // A file of version 1 or 2 is read by its own rules: two trees at once would take twice the memory.
    drop(tree);
    numbered_file(alloc, bytes)
}

/// Reads a machine file of version 1, 2 or 3, as `read_file` does, without its figures.
pub fn read_machine(alloc: Global, bytes: &[u8]) -> Result<Machine<Global>, FileFault>
    ensures { FileResultIs file_of result (spec.any_machine bytes.now) }
{
    match read_file(alloc, bytes) {
        Ok(written) => Ok(written.machine),
        Err(fault) => Err(fault),
    }
}
