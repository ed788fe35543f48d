//! Reads texts with a unit, and compares the results with expected ones. A row of standard input has
//! a call, a text and the expected result, separated by bars; a line that begins with `#` is a
//! comment. Prints each row with another result, and the number of rows.
#![tactic(auto)]

mod hostile;
mod shown;

use hostile::hostile;
use shown::shown;
use std::io;

fn main(rt: HostRuntime) -> io::Result<()> {
    let alloc = rt.alloc();
    let (mut rows, mut otherwise) = (0u32, 0u32);
    for line in rt.lines(alloc) {
        let line = line?;
        let row = line.as_str();
        if row.is_empty() || row.starts_with('#') {
            continue;
        }
        rows = rows.saturating_add(1);
        let found = match row.split_once('|') {
            Some((call, rest)) => match rest.split_once('|') {
                Some((text, expected)) => shown(alloc, call, text.as_bytes(), expected)?,
                None => None,
            },
            None => None,
        };
        if let Some(found) = found {
            otherwise = otherwise.saturating_add(1);
            println!(rt; "{row}: {found}")?;
        }
    }
    println!(rt; "{rows} rows, {otherwise} otherwise")?;
    hostile(&rt)
}
