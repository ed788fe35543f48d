//! Reads machine files of version 3, and compares the results with expected ones. Standard input
//! begins with a file, which ends at the line `end`. A row after it has a part of the sheet, a text of
//! the file, the text that replaces it, and the expected result: the values of the part, or the
//! refusal. In the texts a semicolon ends a line. If the first text is empty, the second one is added at
//! the end of the file; if it is `*`, the second one is the whole file. A line that begins with `#` is a
//! comment. Prints each row with another result, and the number of rows.
#![tactic(auto)]

mod rows;
mod shown;
mod words;

use rows::outcome;
use std::io;

fn main(rt: HostRuntime) -> io::Result<()> {
    let alloc = rt.alloc();
    let (mut rows, mut otherwise) = (0u32, 0u32);
    let mut file = String::new(alloc);
    let mut is_file = true;
    for line in rt.lines(alloc) {
        let line = line?;
        let row = line.as_str();
        if is_file {
            if row == "end" {
                is_file = false;
            } else {
                file.push_str(row)?;
                file.push('\n')?;
            }
            continue;
        }
        if row.is_empty() || row.starts_with('#') {
            continue;
        }
        rows = rows.saturating_add(1);
        if let Some(found) = outcome(alloc, file.as_str(), row)? {
            otherwise = otherwise.saturating_add(1);
            println!(rt; "{row}: {found}")?;
        }
    }
    println!(rt; "{rows} rows, {otherwise} otherwise")
}
