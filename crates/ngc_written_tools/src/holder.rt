//! The parts of a holder.
ghost use Rattle.std.specs.Prelude.{◌≡◌};
ghost use Rattle.toml.specs.View.{view, items_view};
ghost use Rattle.ngc_written_tools.specs.Holders as spec;

use crate::sheet::{HolderSheet, PartSheet};
use ngc_machine_figures::{FileRefusal, Key, ToolKey, ToolWrong, Wrong, only_known, required};
use toml::Value;

fn part_keys(tool: u16, part: u8) -> [Key; 2]
    ensures { result ≡ spec.part_keys tool part }
{
    [
        Key::Tool(ToolKey::PartDiameter { tool, part }),
        Key::Tool(ToolKey::PartLength { tool, part }),
    ]
}

#[tactic(auto, unfolding(crate::specs::Holders::measures_of))]
fn measures_of(tool: u16, part: u8, table: &Value) -> Result<PartSheet, FileRefusal>
    ensures { result ≡ spec.measures_of tool part (view table.now) }
{
    only_known(
        Key::Tool(ToolKey::Part { tool, part }),
        &part_keys(tool, part),
        table,
    )?;
    let diameter = required(Key::Tool(ToolKey::PartDiameter { tool, part }), table)?;
    let length = required(Key::Tool(ToolKey::PartLength { tool, part }), table)?;
    Ok(PartSheet { diameter, length })
}

fn part_of(tool: u16, part: u8, value: &Value) -> Result<PartSheet, FileRefusal>
    ensures { result ≡ spec.part_of tool part (view value.now) }
{
    match value.as_table() {
        Some(_) => measures_of(tool, part, value),
        None => Err(FileRefusal {
            key: Key::Tool(ToolKey::Part { tool, part }),
            wrong: Wrong::Tool(ToolWrong::NoPart),
        }),
    }
}

fn holder_in(tool: u16, values: &[Value]) -> Result<HolderSheet, FileRefusal>
    ensures { result ≡ spec.holder_in tool (items_view values.now) }
{
    match values {
        [] => Ok(NO_HOLDER),
        [a] => Ok(HolderSheet {
            first: Some(part_of(tool, 0, a)?),
            second: None,
            third: None,
        }),
        [a, b] => Ok(HolderSheet {
            first: Some(part_of(tool, 0, a)?),
            second: Some(part_of(tool, 1, b)?),
            third: None,
        }),
        [a, b, c] => Ok(HolderSheet {
            first: Some(part_of(tool, 0, a)?),
            second: Some(part_of(tool, 1, b)?),
            third: Some(part_of(tool, 2, c)?),
        }),
        _ => Err(FileRefusal {
            key: Key::Tool(ToolKey::Holder(tool)),
            wrong: Wrong::Tool(ToolWrong::ManyParts),
        }),
    }
}

const NO_HOLDER: HolderSheet = HolderSheet {
    first: None,
    second: None,
    third: None,
};

fn holder_of(tool: u16, value: &Value) -> Result<HolderSheet, FileRefusal>
    ensures { result ≡ spec.holder_of tool (view value.now) }
{
    match value.as_array() {
        Some(array) => holder_in(tool, array.as_slice()),
        None => Err(FileRefusal {
            key: Key::Tool(ToolKey::Holder(tool)),
            wrong: Wrong::Tool(ToolWrong::NoHolder),
        }),
    }
}

/// Reads the holder of a tool: no parts without the key, and at most three with it.
#[tactic(auto, unfolding(crate::specs::Holders::holder_at))]
pub(crate) fn holder_at(tool: u16, table: &Value) -> Result<HolderSheet, FileRefusal>
    ensures { result ≡ spec.holder_at tool (view table.now) }
{
    match table.get("holder") {
        Some(value) => holder_of(tool, value),
        None => Ok(NO_HOLDER),
    }
}
