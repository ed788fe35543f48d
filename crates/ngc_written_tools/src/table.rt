//! The tools of a table, with their measures.
ghost use Rattle.std.specs.Prelude.{◌≡◌, ◌≤◌, length, IfOk, IsTrue};
ghost use Rattle.toml.specs.View.{view, items_view};
ghost use Rattle.ngc_machine_figures.specs.Reading.{ok_map};
ghost use Rattle.ngc_written_tools.specs.Tables as spec;

use crate::holder::holder_at;
use crate::limits::limits_at;
use crate::numbers::check_numbers;
use crate::shape::measured;
use crate::sheet::{LimitSheet, MeasuredTool, ToolSheet};
use ngc_machine_figures::{
    FileRefusal, Key, Numbered, ToolKey, ToolWrong, Wrong, each, only_known, optional, required,
};
use ngc_machine_files::Name;
use std::alloc::{AllocError, Global};
use toml::Value;

/// The keys of a table.
pub const TABLE_KEYS: [Key; 2] = [Key::Version, Key::Tool(ToolKey::Tools)];

// Returns the keys of a tool, in the order of the format's example.
fn tool_keys(tool: u16) -> [Key; 14]
    ensures { result ≡ spec.tool_keys tool }
{
    [
        Key::Tool(ToolKey::Number(tool)),
        Key::Tool(ToolKey::Name(tool)),
        Key::Tool(ToolKey::Diameter(tool)),
        Key::Tool(ToolKey::Length(tool)),
        Key::Tool(ToolKey::Stickout(tool)),
        Key::Tool(ToolKey::Flute(tool)),
        Key::Tool(ToolKey::Shank(tool)),
        Key::Tool(ToolKey::Offset(tool)),
        Key::Tool(ToolKey::Holder(tool)),
        Key::Tool(ToolKey::Cutter(tool)),
        Key::Tool(ToolKey::Point(tool)),
        Key::Tool(ToolKey::Speed(tool)),
        Key::Tool(ToolKey::Feed(tool)),
        Key::Tool(ToolKey::Plunge(tool)),
    ]
}

#[tactic(auto, unfolding(crate::specs::Tables::sheet_with))]
fn sheet_with(
    tool: u16,
    name: Option<Name>,
    limits: LimitSheet,
    table: &Value,
) -> Result<ToolSheet, FileRefusal>
    ensures { result ≡ spec.sheet_with tool name limits (view table.now) }
{
    let number = required(Key::Tool(ToolKey::Number(tool)), table)?;
    let diameter = required(Key::Tool(ToolKey::Diameter(tool)), table)?;
    let length = optional(Key::Tool(ToolKey::Length(tool)), table)?;
    let stickout = optional(Key::Tool(ToolKey::Stickout(tool)), table)?;
    let flute = optional(Key::Tool(ToolKey::Flute(tool)), table)?;
    let shank = optional(Key::Tool(ToolKey::Shank(tool)), table)?;
    let offset = optional(Key::Tool(ToolKey::Offset(tool)), table)?;
    let point = optional(Key::Tool(ToolKey::Point(tool)), table)?;
    Ok(ToolSheet {
        number,
        name,
        diameter,
        length,
        stickout,
        flute,
        shank,
        offset,
        point,
        limits,
    })
}

#[tactic(auto, unfolding(crate::specs::Tables::tool_of))]
fn tool_of(tool: u16, table: &Value) -> Result<MeasuredTool, FileRefusal>
    ensures { result ≡ spec.tool_of tool (view table.now) }
{
    only_known(Key::Tool(ToolKey::Tool(tool)), &tool_keys(tool), table)?;
    let name = optional(Key::Tool(ToolKey::Name(tool)), table)?;
    let limits = limits_at(tool, table)?;
    let sheet = sheet_with(tool, name, limits, table)?;
    let holder = holder_at(tool, table)?;
    measured(tool, &sheet, &holder)
}

impl Numbered<()> for MeasuredTool {
    ghost reading = { λ _. spec.tool_of };

    fn read(_context: &(), number: u16, value: &Value) -> Result<MeasuredTool, FileRefusal> {
        tool_of(number, value)
    }
}

fn different_tools(
    alloc: Global,
    values: &[Value],
) -> Result<Result<Vec<MeasuredTool>, FileRefusal>, AllocError>
    requires { length values.now ≤ 1000 }
    ensures { IfOk result (λ said. ok_map (λ v. v.items) said
        ≡ spec.different_tools (items_view values.now)) }
{
    let tools = match each(alloc, &(), values)? {
        Ok(tools) => tools,
        Err(refusal) => return Ok(Err(refusal)),
    };
    match check_numbers(tools.as_slice()) {
        Ok(()) => Ok(Ok(tools)),
        Err(refusal) => Ok(Err(refusal)),
    }
}

#[tactic(auto, unfolding(crate::specs::Tables::is_few))]
fn is_few(values: &[Value]) -> bool
    ensures value { result ≡ spec.is_few (items_view values.now) }
    ensures few { IsTrue result → length values.now ≤ 1000 }
{
    values.len() <= 1_000
}

fn few_tools(
    alloc: Global,
    values: &[Value],
) -> Result<Result<Vec<MeasuredTool>, FileRefusal>, AllocError>
    ensures { IfOk result (λ said. ok_map (λ v. v.items) said
        ≡ spec.few_tools (items_view values.now)) }
{
    if is_few(values) {
        different_tools(alloc, values)
    } else {
        Ok(Err(FileRefusal {
            key: Key::Tool(ToolKey::Tools),
            wrong: Wrong::Tool(ToolWrong::ManyTools),
        }))
    }
}

fn tools_of(
    alloc: Global,
    value: &Value,
) -> Result<Result<Vec<MeasuredTool>, FileRefusal>, AllocError>
    ensures { IfOk result (λ said. ok_map (λ v. v.items) said ≡ spec.tools_of (view value.now)) }
{
    match value.as_array() {
        Some(array) => few_tools(alloc, array.as_slice()),
        None => Ok(Err(FileRefusal {
            key: Key::Tool(ToolKey::Tools),
            wrong: Wrong::Tool(ToolWrong::NoTools),
        })),
    }
}

#[tactic(auto, unfolding(crate::specs::Tables::tools_at))]
fn tools_at(
    alloc: Global,
    tree: &Value,
) -> Result<Result<Vec<MeasuredTool>, FileRefusal>, AllocError>
    ensures { IfOk result (λ said. ok_map (λ v. v.items) said ≡ spec.tools_at (view tree.now)) }
{
    match tree.get("tool") {
        Some(value) => tools_of(alloc, value),
        None => Ok(Ok(Vec::new(alloc))),
    }
}

/// Reads the tools of a table, in its order, or returns its first mistake. It fails if memory is
/// refused.
#[tactic(auto, unfolding(crate::specs::Tables::sheets_of))]
pub(crate) fn sheets_of(
    alloc: Global,
    tree: &Value,
) -> Result<Result<Vec<MeasuredTool>, FileRefusal>, AllocError>
    ensures { IfOk result (λ said. ok_map (λ v. v.items) said ≡ spec.sheets_of (view tree.now)) }
{
    match only_known(Key::File, &TABLE_KEYS, tree) {
        Ok(()) => tools_at(alloc, tree),
        Err(refusal) => Ok(Err(refusal)),
    }
}
