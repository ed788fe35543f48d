ghost use Rattle.std.specs.Prelude.{◌≡◌, IfOk, IsOk, option_map};
ghost use Rattle.ngc_machine_files.specs.Machine.{file_of};
ghost use Rattle.ngc_machine_files.specs.MachineText.{checked_machine, machine_file, values_in, values_of};
ghost use Rattle.toml.specs.Errors.{IsBlank};
ghost use Rattle.ngc_machine_files.specs.Refusals.{FileResultIs};

use crate::fault::FileFault;
use crate::machine::Machine;
use crate::machine_contents::MachineContents;
use crate::tree::read_tree;
use std::alloc::{AllocError, Global};

fn read_contents(alloc: Global, bytes: &[u8]) -> Result<Option<MachineContents>, AllocError>
    ensures contents { IfOk result (λ o. option_map values_of o ≡ values_in bytes.now) }
    ensures blank { IsBlank bytes.now → IsOk result }
{
    match read_tree(alloc, bytes)? {
        Some(tree) => MachineContents::read(alloc, &tree),
        None => Ok(None),
    }
}

impl MachineContents {
    /// Makes the machine of these values.
    ///
    /// Returns the first of the faults 261 to 267 that holds, or 900 if memory is refused.
    pub fn checked_machine(&self, alloc: Global) -> Result<Machine<Global>, FileFault>
        ensures { FileResultIs file_of result (checked_machine (Some (values_of self.now))) }
    {
        self.check()?;
        self.machine(alloc).map_err(|_| FileFault::Memory)
    }
}

impl Machine<Global> {
    /// Reads a machine file, version 1 or 2: a TOML document of whole numbers and names.
    ///
    /// Returns 269 if the bytes are not such a document, or a key is unknown, missing or of the
    /// wrong kind or length. Otherwise it returns the first of the faults 261 to 267 that holds, or
    /// 900 if memory is refused.
    pub fn read(alloc: Global, bytes: &[u8]) -> Result<Machine<Global>, FileFault>
        ensures file { FileResultIs file_of result (machine_file bytes.now) }
        // A file of white space and comments only is reported as such even without memory.
        ensures blank { IsBlank bytes.now → result ≡ Err FileFault.Document }
    {
        let contents = match read_contents(alloc, bytes) {
            Ok(Some(contents)) => contents,
            Ok(None) => return Err(FileFault::Document),
            Err(_) => return Err(FileFault::Memory),
        };
        contents.checked_machine(alloc)
    }
}
