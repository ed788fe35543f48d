//! Tool tables of every version.
ghost use Rattle.std.specs.Prelude.{◌≡◌, IfOk, Err, [], map};
ghost use Rattle.toml.specs.Errors.{IsBlank};
ghost use Rattle.toml.specs.View.{view};
ghost use Rattle.ngc_machine_files.specs.Tools.{tools_of};
ghost use Rattle.ngc_machine_files.specs.ToolText.{tool_table};
ghost use Rattle.ngc_machine_files.specs.Refusals.{FileResultIs};
ghost use Rattle.ngc_written_tools.specs.Limits.{limits_by};
ghost use Rattle.ngc_written_tools.specs.Reading as spec;

use crate::entries::contents_of;
use crate::limits::limits_of;
use crate::refusal::{ToolsFault, ToolsRefusal};
use crate::sheet::MeasuredTool;
use crate::table::sheets_of;
use ngc_file_figures::ToolLimits;
use ngc_machine_figures::is_written;
use ngc_machine_files::{FileFault, Tools, read_tree};
use std::alloc::Global;
use toml::Value;

/// The tools of a table.
#[derive(Drop)]
pub struct ToolTable {
    pub tools: Tools<Global>,
    /// What the table says of each tool besides its body, in its order, if it has version 3; otherwise
    /// nothing.
    pub limits: Vec<ToolLimits>,
}

fn fault_by(fault: FileFault) -> ToolsFault
    ensures { result ≡ spec.fault_by fault }
{
    match fault {
        FileFault::Memory => ToolsFault::Memory,
        fault => ToolsFault::Refused(ToolsRefusal::Range(fault)),
    }
}

fn tools_by(alloc: Global, tools: &[MeasuredTool]) -> Result<Tools<Global>, ToolsFault>
    ensures { spec.ToolsResultIs tools_of result (spec.tools_by tools.now) }
{
    let contents = match contents_of(alloc, tools) {
        Ok(contents) => contents,
        Err(_) => return Err(ToolsFault::Memory),
    };
    match contents.checked_tools(alloc) {
        Ok(tools) => Ok(tools),
        Err(fault) => Err(fault_by(fault)),
    }
}

fn table_by(alloc: Global, tools: &[MeasuredTool]) -> Result<ToolTable, ToolsFault>
    ensures tools { spec.ToolsResultIs (λ t. tools_of t.tools) result (spec.tools_by tools.now) }
    ensures limits { IfOk result (λ t. t.limits.items ≡ map limits_by tools.now) }
{
    let limits = match limits_of(alloc, tools) {
        Ok(limits) => limits,
        Err(_) => return Err(ToolsFault::Memory),
    };
    let tools = tools_by(alloc, tools)?;
    Ok(ToolTable { tools, limits })
}

/// Returns the tools that a table of version 3 describes, by the table's tree, or the first mistake of
/// the table.
#[tactic(auto, unfolding(crate::specs::Reading::written_tools))]
pub fn written_tools(alloc: Global, tree: &Value) -> Result<ToolTable, ToolsFault>
    ensures tools { spec.ToolsResultIs (λ t. tools_of t.tools) result
        (spec.written_tools (view tree.now)) }
    ensures limits { IfOk result (λ t. t.limits.items ≡ spec.written_limits (view tree.now)) }
{
    match sheets_of(alloc, tree) {
        Ok(Ok(tools)) => table_by(alloc, tools.as_slice()),
        Ok(Err(refusal)) => Err(ToolsFault::Refused(ToolsRefusal::Key(refusal))),
        Err(_) => Err(ToolsFault::Memory),
    }
}

fn file_fault(fault: ToolsFault) -> FileFault
    ensures { result ≡ spec.file_fault fault }
{
    match fault {
        ToolsFault::Memory => FileFault::Memory,
        ToolsFault::Refused(refusal) => refusal.fault(),
    }
}

fn written_table(alloc: Global, tree: &Value) -> Result<ToolTable, FileFault>
    ensures tools { FileResultIs (λ t. tools_of t.tools) result
        (spec.written_table (view tree.now)) }
    ensures limits { IfOk result (λ t. t.limits.items ≡ spec.written_limits (view tree.now)) }
{
    match written_tools(alloc, tree) {
        Ok(tools) => Ok(tools),
        Err(fault) => Err(file_fault(fault)),
    }
}

// Reads a table of version 1 or 2, which says nothing of a tool besides its body.
fn numbered_table(alloc: Global, bytes: &[u8]) -> Result<ToolTable, FileFault>
    ensures tools { FileResultIs (λ t. tools_of t.tools) result (tool_table bytes.now) }
    ensures limits { IfOk result (λ t. t.limits.items ≡ []) }
    ensures blank { IsBlank bytes.now → result ≡ Err FileFault.Document }
{
    match Tools::read(alloc, bytes) {
        Ok(tools) => Ok(ToolTable {
            tools,
            limits: Vec::new(alloc),
        }),
        Err(fault) => Err(fault),
    }
}

/// Reads a tool table of version 1, 2 or 3.
///
/// Returns 269 if the bytes are no document, or a key is unknown, missing or can't be read. Otherwise it
/// returns 261 for another version, 268 for a number or a name out of range, lengths that don't fit each
/// other, a tool's number that occurs twice or more than 1,000 tools, and 900 if memory is refused.
#[tactic(auto, unfolding(crate::specs::Reading::any_tools, crate::specs::Reading::any_limits))]
pub fn read_tools(alloc: Global, bytes: &[u8]) -> Result<ToolTable, FileFault>
    ensures tools { FileResultIs (λ t. tools_of t.tools) result (spec.any_tools bytes.now) }
    ensures limits { IfOk result (λ t. t.limits.items ≡ spec.any_limits bytes.now) }
    // A file of white space and comments only is reported as such even without memory.
    ensures blank { IsBlank bytes.now → result ≡ Err FileFault.Document }
{
    let tree = match read_tree(alloc, bytes) {
        Ok(tree) => tree,
        Err(_) => return Err(FileFault::Memory),
    };
    match &tree {
        Some(tree) if is_written(tree) => written_table(alloc, tree),
        _ => numbered_table(alloc, bytes),
    }
}
