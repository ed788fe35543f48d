ghost use Rattle.std.specs.Prelude.{◌≡◌, IfOk, IsOk, Some, option_map};
ghost use Rattle.ngc_machine_files.specs.Tools.{tools_of};
ghost use Rattle.ngc_machine_files.specs.ToolText.{checked_table, tool_table, values_in, values_of};
ghost use Rattle.toml.specs.Errors.{IsBlank};
ghost use Rattle.ngc_machine_files.specs.Refusals.{FileResultIs};

use crate::fault::FileFault;
use crate::tool_contents::ToolContents;
use crate::tools::Tools;
use crate::tree::read_tree;
use std::alloc::{AllocError, Global};

fn read_contents(alloc: Global, bytes: &[u8]) -> Result<Option<ToolContents>, AllocError>
    ensures contents { IfOk result (λ o. option_map values_of o ≡ values_in bytes.now) }
    ensures blank { IsBlank bytes.now → IsOk result }
{
    match read_tree(alloc, bytes)? {
        Some(tree) => ToolContents::read(alloc, &tree),
        None => Ok(None),
    }
}

impl ToolContents {
    /// Makes the tools of these values.
    ///
    /// Returns 261 for a version other than 1 and 2. Otherwise it returns 268 for a number or a name
    /// out of range, a tool's number that occurs twice or more than 1,000 tools, and 900 if memory is
    /// refused.
    pub fn checked_tools(&self, alloc: Global) -> Result<Tools<Global>, FileFault>
        ensures { FileResultIs tools_of result (checked_table (Some (values_of self.now))) }
    {
        self.check()?;
        self.tools(alloc).map_err(|_| FileFault::Memory)
    }
}

impl Tools<Global> {
    /// Reads a tool table, version 1 or 2: a TOML document of whole numbers and names.
    ///
    /// Returns 269 if the bytes are not such a document, or a key is unknown, missing or of the
    /// wrong kind. Otherwise it returns 261 for another version, 268 for a number or a name out of
    /// range, a tool's number that occurs twice or more than 1,000 tools, and 900 if memory is
    /// refused.
    pub fn read(alloc: Global, bytes: &[u8]) -> Result<Tools<Global>, FileFault>
        ensures tools { FileResultIs tools_of result (tool_table bytes.now) }
        // A file of white space and comments only is reported as such even without memory.
        ensures blank { IsBlank bytes.now → result ≡ Err FileFault.Document }
    {
        let contents = match read_contents(alloc, bytes) {
            Ok(Some(contents)) => contents,
            Ok(None) => return Err(FileFault::Document),
            Err(_) => return Err(FileFault::Memory),
        };
        contents.checked_tools(alloc)
    }
}
