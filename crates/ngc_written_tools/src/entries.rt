//! The values of a tool table of version 2 for measured tools.
ghost use Rattle.std.specs.Prelude.{◌≡◌, ◌++◌, IfOk, OnOk, map};
ghost use Rattle.ngc_machine_files.specs.ToolText.{numbers_of, values_of};
ghost use Rattle.ngc_written_tools.specs.Entries as spec;

use crate::sheet::{MeasuredTool, Offset, PartSheet, Reach, Size, ToolSheet};
use ngc_machine_files::{Name, PartEntry, ToolContents, ToolEntry};
use std::alloc::{AllocError, Global};

// Returns half a diameter, rounded up to a nanometre, so that the part isn't thinner than it is.
fn radius(diameter: Size) -> i64
    ensures { result ≡ spec.radius diameter }
{
    ((u64::from(diameter.nanometres) + 1) / 2) as i64
}

fn part_entry(part: PartSheet) -> PartEntry
    ensures { result ≡ spec.part_entry part }
{
    PartEntry {
        length: i64::from(part.length.nanometres),
        radius: radius(part.diameter),
    }
}

fn add_part(parts: &mut Vec<PartEntry>, part: Option<PartSheet>) -> Result<(), AllocError>
    ensures { OnOk result (parts.new.items ≡ parts.old.items ++ spec.one_or_none part) }
{
    if let Some(part) = part {
        parts.push(part_entry(part))?;
    }
    Ok(())
}

// Returns the parts of a tool, from the tip up.
fn parts_of(alloc: Global, tool: &MeasuredTool) -> Result<Vec<PartEntry>, AllocError>
    ensures { IfOk result (λ parts. parts.items ≡ spec.parts_of tool.now) }
{
    let mut parts = Vec::with_capacity(alloc, 4)?;
    add_part(&mut parts, Some(tool.blade.cutter))?;
    add_part(&mut parts, tool.blade.shank)?;
    add_part(&mut parts, tool.holder.first)?;
    add_part(&mut parts, tool.holder.second)?;
    add_part(&mut parts, tool.holder.third)?;
    Ok(parts)
}

// Returns what G43 adds to Z: the length, unless the table says otherwise.
fn offset_of(offset: Option<Offset>, length: Size) -> i64
    ensures { result ≡ spec.offset_of offset length }
{
    match offset {
        Some(offset) => offset.nanometres,
        None => i64::from(length.nanometres),
    }
}

// Returns a tool's name, without characters if it has none.
fn name_of(name: Option<Name>) -> Name
    ensures { result ≡ spec.name_of name }
{
    match name {
        Some(name) => name,
        None => Name::none(),
    }
}

fn entry_by(sheet: &ToolSheet, reach: Reach, parts: Vec<PartEntry>) -> ToolEntry
    ensures { numbers_of result ≡ spec.entry_by sheet.now reach parts.items }
{
    ToolEntry {
        number: i64::from(sheet.number.number),
        offset: offset_of(sheet.offset, reach.length),
        bottom: -i128::from(reach.length.nanometres),
        parts,
        name: Some(name_of(sheet.name)),
    }
}

fn entry_of(alloc: Global, tool: &MeasuredTool) -> Result<ToolEntry, AllocError>
    ensures { IfOk result (λ entry. numbers_of entry ≡ spec.entry_of tool.now) }
{
    let parts = parts_of(alloc, tool)?;
    Ok(entry_by(&tool.sheet, tool.reach, parts))
}

fn entries_of(alloc: Global, tools: &[MeasuredTool]) -> Result<Vec<ToolEntry>, AllocError>
    ensures { IfOk result (λ entries. map numbers_of entries.items ≡ map spec.entry_of tools.now) }
{
    let mut entries = Vec::with_capacity(alloc, tools.len())?;
    for tool in tools {
        entries.push(entry_of(alloc, tool)?)?;
    }
    Ok(entries)
}

/// Returns the values of a tool table of version 2 for these tools. It fails if memory is refused.
pub(crate) fn contents_of(alloc: Global, tools: &[MeasuredTool]) -> Result<ToolContents, AllocError>
    ensures { IfOk result (λ contents. values_of contents ≡ spec.contents_of tools.now) }
{
    let tools = entries_of(alloc, tools)?;
    Ok(ToolContents { version: 2, tools })
}
