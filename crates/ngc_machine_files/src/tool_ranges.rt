ghost use Rattle.std.specs.Prelude.{◌≡◌, ◌≤◌, map, pos, IfOk};
ghost use Rattle.std.specs.List.{list_all};
ghost use Rattle.ngc_machine_files.specs.Numbers.{has_number, all_different};
ghost use Rattle.ngc_machine_files.specs.Tools.{tools_of};
ghost use Rattle.ngc_machine_files.specs.ToolText.{values_of, numbers_of, good_part, good_parts, good_numbers};
ghost use Rattle.ngc_machine_files.specs.ToolText.{good_tool, good_tools, tool_number, table_ranges};
ghost use Rattle.ngc_machine_files.specs.ToolText.{part_of, tool_of, IsPartEntry, ArePartEntries};
ghost use Rattle.ngc_machine_files.specs.ToolText.{IsEntry, AreEntries};
ghost use Rattle.ngc_machine_files.specs.Ranges.{IsFrom};

use crate::fault::FileFault;
use crate::name::name_from;
use crate::numbers::{is_from_to, length};
use crate::part_length::PartLength;
use crate::parts::{Part, Parts};
use crate::tool_contents::{PartEntry, ToolContents, ToolEntry};
use crate::tools::{Tool, Tools};
use std::alloc::{AllocError, Global};

fn is_part_good(part: &PartEntry) -> bool
    ensures { result ≡ good_part part.now }
{
    is_from_to(0, 1_000_000_000, part.length) && is_from_to(0, 1_000_000_000, part.radius)
}

fn is_each_part_good(parts: &[PartEntry]) -> bool
    ensures { result ≡ list_all good_part parts.now }
{
    parts.iter().all(is_part_good)
}

fn are_parts_good(parts: &[PartEntry]) -> bool
    ensures { result ≡ good_parts parts.now }
{
    1 <= parts.len() && parts.len() <= 4 && is_each_part_good(parts)
}

fn are_numbers_good(tool: &ToolEntry) -> bool
    ensures { result ≡ good_numbers (numbers_of tool.now) }
{
    is_from_to(1, 9_999, tool.number)
        && tool.offset.unsigned_abs() <= 1_000_000_000
        && -1_000_000_000 <= tool.bottom
        && tool.bottom <= 0
}

fn is_tool_good(tool: &ToolEntry) -> bool
    ensures { result ≡ good_tool (numbers_of tool.now) }
{
    are_numbers_good(tool) && are_parts_good(tool.parts.as_slice()) && tool.name.is_some()
}

fn is_each_tool_good(tools: &[ToolEntry]) -> bool
    ensures { result ≡ list_all good_tool (map numbers_of tools.now) }
{
    for tool in tools {
        if !is_tool_good(tool) {
            return false;
        }
    }
    true
}

fn has_number(number: u64, tools: &[ToolEntry]) -> bool
    ensures { result ≡ has_number number (map tool_number (map numbers_of tools.now)) }
{
    for tool in tools {
        if number == tool.number.unsigned_abs() {
            return true;
        }
    }
    false
}

fn are_different(tools: &[ToolEntry]) -> bool
    ensures { result ≡ all_different (map tool_number (map numbers_of tools.now)) }
{
    for (i, tool) in tools.iter().enumerate() {
        if has_number(tool.number.unsigned_abs(), &tools[i + 1..]) {
            return false;
        }
    }
    true
}

fn are_tools_good(tools: &[ToolEntry]) -> bool
    ensures { result ≡ good_tools (map numbers_of tools.now) }
{
    tools.len() <= 1_000 && is_each_tool_good(tools) && are_different(tools)
}

fn part_length(nanometres: i64) -> PartLength
    requires { IsFrom (pos 0) (pos 1000000000) nanometres }
    ensures { result ≡ nanometres }
{
    PartLength::new(nanometres as u32)
}

fn part(entry: &PartEntry) -> Part
    requires { IsPartEntry entry.now }
    ensures { result ≡ part_of entry.now }
{
    Part {
        length: part_length(entry.length),
        radius: part_length(entry.radius),
    }
}

fn parts(entries: &[PartEntry]) -> Parts
    requires { ArePartEntries entries.now }
    ensures { result ≡ map part_of entries.now }
{
    let mut parts = Parts::one(part(&entries[0]));
    for entry in &entries[1..] {
        parts.push(part(entry));
    }
    parts
}

fn tool(entry: &ToolEntry) -> Tool
    requires { IsEntry (numbers_of entry.now) }
    ensures { result ≡ tool_of (numbers_of entry.now) }
{
    Tool {
        number: entry.number as u32,
        offset: length(entry.offset),
        bottom: length(entry.bottom as i64),
        parts: parts(entry.parts.as_slice()),
        name: name_from(&entry.name),
    }
}

impl ToolContents {
    /// Checks the ranges in order, and returns the first fault.
    pub(crate) fn check(&self) -> Result<(), FileFault>
        ensures { result ≡ table_ranges (values_of self.now) }
    {
        if self.version != 1 && self.version != 2 {
            return Err(FileFault::Version);
        }
        if !are_tools_good(self.tools.as_slice()) {
            return Err(FileFault::Tools);
        }
        Ok(())
    }

    /// Returns the tools of these values.
    pub(crate) fn tools(&self, alloc: Global) -> Result<Tools<Global>, AllocError>
        requires { AreEntries (map numbers_of self.now.tools.items) }
        ensures { IfOk result
            (λ t. tools_of t ≡ map tool_of (map numbers_of self.now.tools.items)) }
    {
        let mut tools = Vec::with_capacity(alloc, self.tools.len())?;
        for entry in &self.tools {
            tools.push(tool(entry))?;
        }
        Ok(Tools { tools })
    }
}
