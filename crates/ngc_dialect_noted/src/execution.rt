//! Executes a program, and collects the notes on it.
use ngc_canonical::{Machine, Tools};
use ngc_dialect_execution::{Wanted, trace_dialect};
use ngc_dialect_names::Dialect;
use ngc_dialect_notes::Notes;
use std::alloc::{AllocError, Global};

const TOOLS: &str = "version = 1
[[tool]]
number = 1
length = 30_000_000
radius = 20_000_000
offset = 30_000_000
";

/// Returns a table with one tool.
pub fn tools_of(alloc: Global) -> Option<Tools<Global>> {
    Tools::read(alloc, TOOLS.as_bytes()).ok()
}

const WANTED: Wanted = Wanted {
    notes: true,
    lines: false,
};

// Puts each line of a program on a line of its own.
fn text_of(alloc: Global, program: &str) -> Result<String, AllocError> {
    let mut text = String::new(alloc);
    for line in program.split(" | ") {
        text.push_str(line)?;
        text.push_str("\n")?;
    }
    Ok(text)
}

/// Returns the notes on a program, or `None` if it is refused.
pub fn notes_on(
    alloc: Global,
    dialect: Dialect,
    machine: &Machine<Global>,
    tools: &Tools<Global>,
    program: &str,
) -> Option<Notes> {
    let text = text_of(alloc, program).ok()?;
    let bytes = text.as_bytes();
    match trace_dialect(alloc, WANTED, dialect, bytes, machine, tools, false) {
        Ok(traced) => traced.notes,
        Err(_) => None,
    }
}
