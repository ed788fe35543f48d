//! Prints the page docs/FAULTS.md: the text of standard input, with the rows of each part put into
//! its table.
#![tactic(auto)]

use ngc_fault_texts::{Part, Row, page};
use std::io;

// Prints a text in one line.
fn print_cell(rt: &impl Print, text: &str) -> io::Result<()> {
    for line in text.lines() {
        print!(rt; " {line}")?;
    }
    print!(rt; " |")
}

fn print_row(rt: &impl Print, row: &Row) -> io::Result<()> {
    print!(rt; "| {} |", row.number)?;
    print_cell(rt, row.rule)?;
    print_cell(rt, row.example)?;
    print_cell(rt, row.answer)?;
    if let Some(place) = row.place {
        print_cell(rt, place)?;
    }
    print_cell(rt, row.mend)?;
    println!(rt;)
}

// Prints the rows of the part with this title.
fn print_rows(rt: &impl Print, parts: &[Part], title: &str) -> io::Result<()> {
    for part in parts {
        if part.title == title {
            for row in part.rows {
                print_row(rt, row)?;
            }
        }
    }
    Ok(())
}

fn main(rt: HostRuntime) -> io::Result<()> {
    let parts = page();
    let mut title = String::new(rt.alloc());
    for line in rt.lines(rt.alloc()) {
        let line = line?;
        println!(rt; "{line}")?;
        if let Some(heading) = line.as_str().strip_prefix("## ") {
            title = heading.to_string(rt.alloc())?;
        }
        if line.as_str().starts_with("|---|---|---|---|---|") {
            print_rows(&rt, &parts, title.as_str())?;
        }
    }
    Ok(())
}
