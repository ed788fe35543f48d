//! Prints the tools of tables, or why they are refused. Each table of standard input is between a line
//! `file NAME` and a line `end`; a line that begins with `##` between tables is a comment. A tool is
//! printed as its number, its offset, where its tip is, its parts from the tip up, each with its length
//! and its radius, and its name. Then each tool of which the table says more has a line with its cutter,
//! the height of its cone and its limits. Lengths are in nm, feeds in nm per minute, speeds of the spindle in millionths of rpm.
#![tactic(auto)]

use ngc_file_figures::{Limits, ToolLimits};
use ngc_machine_files::{FileFault, Tool};
use ngc_text::Device;
use ngc_tool_mistakes::write_mistake;
use ngc_written_tools::read_tools;
use std::alloc::{AllocError, Global};
use std::io;

// Returns a line for a tool.
fn tool_line(alloc: Global, tool: &Tool) -> Result<String, AllocError> {
    let (number, offset) = (tool.number, tool.offset.nanometres());
    let bottom = tool.bottom.nanometres();
    let mut line = format!(in alloc; "  T{number} offset {offset} tip {bottom}:")?;
    for part in tool.parts.as_slice() {
        let (length, radius) = (part.length.nanometres(), part.radius.nanometres());
        line.push_str(format!(in alloc; " {length}/{radius}")?.as_str())?;
    }
    let name = str::from_utf8(tool.name.as_bytes()).unwrap_or("?");
    line.push_str(format!(in alloc; " \"{name}\"\n")?.as_str())?;
    Ok(line)
}

fn add_limits(
    alloc: Global,
    line: &mut String,
    name: &str,
    limits: &Option<Limits>,
) -> Result<(), AllocError> {
    if let Some(limits) = limits {
        let (least, greatest) = (limits.least, limits.greatest);
        line.push_str(format!(in alloc; " {name} {least} to {greatest}")?.as_str())?;
    }
    Ok(())
}

// Returns a line for what is said of a tool besides its body, or an empty text if nothing is.
fn limits_line(alloc: Global, limits: &ToolLimits) -> Result<String, AllocError> {
    let mut said = String::new(alloc);
    if let Some(cutter) = limits.cutter {
        let name = cutter.name();
        said.push_str(format!(in alloc; " cutter {name}")?.as_str())?;
    }
    if let Some(cone) = limits.cone {
        said.push_str(format!(in alloc; " cone {cone}")?.as_str())?;
    }
    add_limits(alloc, &mut said, "speed", &limits.speed)?;
    add_limits(alloc, &mut said, "feed", &limits.feed)?;
    add_limits(alloc, &mut said, "plunge", &limits.plunge)?;
    if said.is_empty() {
        return Ok(said);
    }
    let number = limits.number;
    format!(in alloc; "  T{number}{said}\n")
}

// Returns the fault's number, and what is written of a table's mistake.
fn refused(alloc: Global, name: &str, text: &str, fault: FileFault) -> io::Result<String> {
    let mut sink = Device::new(Vec::new(alloc));
    if write_mistake(alloc, name, text.as_bytes(), fault, &mut sink).is_err() {
        return Ok(format!(in alloc; "{name}: the sink failed\n")?);
    }
    let bytes = sink.into_inner();
    let number = fault.number();
    let said = str::from_utf8(bytes.as_slice()).unwrap_or("no text\n");
    Ok(format!(in alloc; "{number} {said}")?)
}

// Returns what is printed of a table.
fn shown(alloc: Global, name: &str, text: &str) -> io::Result<String> {
    let table = match read_tools(alloc, text.as_bytes()) {
        Ok(table) => table,
        Err(fault) => return refused(alloc, name, text, fault),
    };
    let tools = &table.tools;
    let count = tools.tools().len();
    let mut lines = format!(in alloc; "{name}: {count} tools\n")?;
    for tool in tools.tools() {
        lines.push_str(tool_line(alloc, tool)?.as_str())?;
    }
    for limits in table.limits.as_slice() {
        lines.push_str(limits_line(alloc, limits)?.as_str())?;
    }
    Ok(lines)
}

fn main(rt: HostRuntime) -> io::Result<()> {
    let alloc = rt.alloc();
    let mut name = String::new(alloc);
    let mut text = String::new(alloc);
    for line in rt.lines(alloc) {
        let line = line?;
        let row = line.as_str();
        if let Some(begun) = row.strip_prefix("file ") {
            name.clear();
            name.push_str(begun)?;
            text.clear();
        } else if row == "end" {
            let said = shown(alloc, name.as_str(), text.as_str())?;
            print!(rt; "{said}")?;
        } else if !row.starts_with("##") {
            text.push_str(row)?;
            text.push_str("\n")?;
        }
    }
    Ok(())
}
