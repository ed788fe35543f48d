ghost use Rattle.std.specs.Prelude.{◌≡◌, IfOk, IfErr, IsSome, codes, map, pos, ◌-ℤ◌, ◌∷◌, [], Some};
ghost use Rattle.std.specs.Prelude.{option_map};
ghost use Rattle.toml.specs.Data.{get};
ghost use Rattle.toml.specs.View.{view, items_view};
ghost use Rattle.ngc_machine_files.specs.Tree.{each, list_at};
ghost use Rattle.ngc_machine_files.specs.ToolText.{values_of, numbers_of, part_entry, tool_of_length};
ghost use Rattle.ngc_machine_files.specs.ToolText.{tool_of_parts, tool_numbers, table_values};

use crate::name::Name;
use crate::tree::{Entry, entries_at, has_only, name_at, whole_at};
use std::alloc::{AllocError, Global};
use toml::Value;

/// A part of a tool as read from the file, with numbers of any size.
#[derive(Clone, Copy)]
pub struct PartEntry {
    pub length: i64,
    pub radius: i64,
}

/// A tool as read from the file, with numbers of any size.
#[derive(Drop)]
pub struct ToolEntry {
    pub number: i64,
    pub offset: i64,
    /// The height of the lowest part's bottom. The type is wide enough for the negative of a length
    /// of version 1.
    pub bottom: i128,
    pub parts: Vec<PartEntry>,
    /// The name, without characters if the key is missing; `None` if the text is not a name.
    pub name: Option<Name>,
}

/// The contents of a tool table, with numbers of any size.
#[derive(Drop)]
pub struct ToolContents {
    pub version: i64,
    pub tools: Vec<ToolEntry>,
}

impl Entry for PartEntry {
    ghost reading = { λ version. part_entry };

    fn read(_version: i64, value: &Value) -> Option<PartEntry> {
        if !has_only(value, &["length", "radius"]) {
            return None;
        }
        Some(PartEntry {
            length: whole_at(value, "length")?,
            radius: whole_at(value, "radius")?,
        })
    }
}

fn below_zero(length: i64) -> i128
    ensures { result ≡ pos 0 -ℤ length }
{
    -i128::from(length)
}

impl ToolEntry {
    /// Returns a tool of one part that ends at the spindle nose.
    fn of_one(
        alloc: Global,
        number: i64,
        part: PartEntry,
        offset: i64,
    ) -> Result<ToolEntry, AllocError>
        ensures { IfOk result
            (λ t. numbers_of t
            ≡ record {
              number = number;
              offset = offset;
              bottom = pos 0 -ℤ part.length;
              parts = part ∷ [];
              name = Some [];
            }) }
    {
        let parts = Vec::from_slice(alloc, &[part])?;
        Ok(ToolEntry {
            number,
            offset,
            bottom: below_zero(part.length),
            parts,
            name: Some(Name::none()),
        })
    }
}

/// Reads a tool of one part, the form of version 1.
fn tool_of_length(alloc: Global, value: &Value) -> Result<Option<ToolEntry>, AllocError>
    ensures { IfOk result (λ o. option_map numbers_of o ≡ tool_of_length (view value.now)) }
{
    if !has_only(value, &["number", "length", "radius", "offset"]) {
        return Ok(None);
    }
    match (
        whole_at(value, "number"),
        whole_at(value, "length"),
        whole_at(value, "radius"),
        whole_at(value, "offset"),
    ) {
        (Some(number), Some(length), Some(radius), Some(offset)) => {
            let part = PartEntry { length, radius };
            Ok(Some(ToolEntry::of_one(alloc, number, part, offset)?))
        }
        _ => Ok(None),
    }
}

/// Reads a tool of several parts, the form of version 2.
fn tool_of_parts(alloc: Global, value: &Value) -> Result<Option<ToolEntry>, AllocError>
    ensures { IfOk result (λ o. option_map numbers_of o ≡ tool_of_parts (view value.now)) }
{
    if !has_only(value, &["number", "offset", "bottom", "parts", "name"])
        || value.get("parts").is_none()
    {
        return Ok(None);
    }
    let parts = entries_at(alloc, 2, value, "parts")?;
    match (
        whole_at(value, "number"),
        whole_at(value, "offset"),
        whole_at(value, "bottom"),
        parts,
        name_at(value),
    ) {
        (Some(number), Some(offset), Some(bottom), Some(parts), Some(name)) => Ok(Some(
            ToolEntry {
                number,
                offset,
                bottom: i128::from(bottom),
                parts,
                name,
            },
        )),
        _ => Ok(None),
    }
}

impl ToolEntry {
    /// Reads a tool of a table of this version. Returns `None` if a key is unknown, missing or of
    /// the wrong kind.
    fn read(alloc: Global, version: i64, value: &Value) -> Result<Option<ToolEntry>, AllocError>
        ensures { IfOk result
            (λ o. option_map numbers_of o ≡ tool_numbers version (view value.now)) }
    {
        if version == 2 {
            tool_of_parts(alloc, value)
        } else {
            tool_of_length(alloc, value)
        }
    }
}

fn tool_entries(
    alloc: Global,
    version: i64,
    values: &[Value],
) -> Result<Option<Vec<ToolEntry>>, AllocError>
    ensures { IfOk result
        (λ o. option_map (λ v. map numbers_of v.items) o
        ≡ each (tool_numbers version) (items_view values.now)) }
{
    let mut entries = Vec::with_capacity(alloc, values.len())?;
    for value in values {
        match ToolEntry::read(alloc, version, value)? {
            Some(entry) => entries.push(entry)?,
            None => return Ok(None),
        }
    }
    Ok(Some(entries))
}

/// Reads the tools of a table of this version. If the key is missing there are none, and nothing is
/// allocated.
fn tools_at(alloc: Global, version: i64, tree: &Value) -> Result<Option<Vec<ToolEntry>>, AllocError>
    ensures tools { IfOk result
        (λ o. option_map (λ v. map numbers_of v.items) o
        ≡ list_at (tool_numbers version) (codes "tool") (view tree.now)) }
    ensures memory { IfErr result (λ _. IsSome (get (codes "tool") (view tree.now))) }
{
    let Some(value) = tree.get("tool") else {
        return Ok(Some(Vec::new(alloc)));
    };
    match value.as_array() {
        Some(array) => tool_entries(alloc, version, array.as_slice()),
        None => Ok(None),
    }
}

impl ToolContents {
    /// Reads the values of the keys of a tool table. Returns `None` if a key is unknown, missing or
    /// of the wrong kind or length.
    pub(crate) fn read(alloc: Global, tree: &Value) -> Result<Option<ToolContents>, AllocError>
        ensures contents { IfOk result
            (λ o. option_map values_of o ≡ table_values (view tree.now)) }
        ensures memory { IfErr result (λ _. IsSome (get (codes "tool") (view tree.now))) }
    {
        if !has_only(tree, &["version", "tool"]) {
            return Ok(None);
        }
        let Some(version) = whole_at(tree, "version") else {
            return Ok(None);
        };
        match tools_at(alloc, version, tree)? {
            Some(tools) => Ok(Some(ToolContents { version, tools })),
            None => Ok(None),
        }
    }
}
