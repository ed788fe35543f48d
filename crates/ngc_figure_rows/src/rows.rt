//! Rows, and what they change in the file.

use crate::shown::shown;
use ngc_machine_figures::read_sheet;
use ngc_machine_files::read_tree;
use std::alloc::{AllocError, Global};

// Returns lines that semicolons end.
fn lines_of(alloc: Global, text: &str) -> Result<String, AllocError> {
    let mut lines = String::new(alloc);
    for line in text.split(';') {
        if !lines.is_empty() {
            lines.push('\n')?;
        }
        lines.push_str(line)?;
    }
    Ok(lines)
}

// Returns the file with a change, or `None` if the text isn't in it.
fn changed(alloc: Global, file: &str, old: &str, new: &str) -> Result<Option<String>, AllocError> {
    let new = lines_of(alloc, new)?;
    if old == "*" {
        return Ok(Some(new));
    }
    if old.is_empty() {
        return Ok(Some(format!(in alloc; "{file}{new}\n")?));
    }
    let old = lines_of(alloc, old)?;
    match file.split_once(old.as_str()) {
        Some((before, after)) => Ok(Some(format!(in alloc; "{before}{new}{after}")?)),
        None => Ok(None),
    }
}

fn said(alloc: Global, part: &str, text: &str) -> Result<String, AllocError> {
    match read_tree(alloc, text.as_bytes())? {
        None => format!(in alloc; "no document"),
        Some(tree) => shown(alloc, part, &read_sheet(alloc, &tree)),
    }
}

/// Returns the result of a row, or `None` if it is the expected one.
pub(crate) fn outcome(alloc: Global, file: &str, row: &str) -> Result<Option<String>, AllocError> {
    let Some((part, rest)) = row.split_once('|') else {
        return Ok(Some(format!(in alloc; "no row")?));
    };
    let Some((old, rest)) = rest.split_once('|') else {
        return Ok(Some(format!(in alloc; "no row")?));
    };
    let Some((new, expected)) = rest.split_once('|') else {
        return Ok(Some(format!(in alloc; "no row")?));
    };
    let found = match changed(alloc, file, old, new)? {
        Some(text) => said(alloc, part, text.as_str())?,
        None => format!(in alloc; "not in the file")?,
    };
    if found.as_str() == expected {
        return Ok(None);
    }
    Ok(Some(found))
}
