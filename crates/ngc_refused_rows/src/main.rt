//! Prints what is written of refused machine files. Each file of standard input is between a line
//! `file NAME` and a line `end`; a line that begins with `##` between files is a comment. After them
//! come the lines of made mistakes that are too long, and the number of lines.
#![tactic(auto)]

mod made;

use made::made;
use ngc_machine_figures::{SheetFault, read_sheet};
use ngc_refused_files::write_refusal;
use ngc_text::Device;
use std::alloc::Global;
use std::io;
use toml::Value;

// Returns what is written of a file's mistake.
fn refused(alloc: Global, name: &str, text: &str) -> io::Result<String> {
    let tree = match toml::table_from_str(alloc, text) {
        Ok(table) => Value::Table(table),
        Err(_) => return Ok(format!(in alloc; "{name}: no TOML\n")?),
    };
    match read_sheet(alloc, &tree) {
        Ok(_) => Ok(format!(in alloc; "{name}: no mistake\n")?),
        Err(SheetFault::Memory) => Ok(format!(in alloc; "{name}: memory\n")?),
        Err(SheetFault::Refused(refusal)) => {
            let mut sink = Device::new(Vec::new(alloc));
            if write_refusal(name.as_bytes(), text.as_bytes(), &refusal, &mut sink).is_err() {
                return Ok(format!(in alloc; "{name}: the sink failed\n")?);
            }
            let bytes = sink.into_inner();
            match str::from_utf8(bytes.as_slice()) {
                Ok(said) => Ok(format!(in alloc; "{said}")?),
                Err(_) => Ok(format!(in alloc; "{name}: no text\n")?),
            }
        }
    }
}

fn main(rt: HostRuntime) -> io::Result<()> {
    let alloc = rt.alloc();
    let mut name = String::new(alloc);
    let mut text = String::new(alloc);
    for line in rt.lines(alloc) {
        let line = line?;
        let row = line.as_str();
        if let Some(begun) = row.strip_prefix("file ") {
            name.clear();
            name.push_str(begun)?;
            text.clear();
        } else if row == "end" {
            let said = refused(alloc, name.as_str(), text.as_str())?;
            print!(rt; "{said}")?;
        } else if !row.starts_with("##") {
            text.push_str(row)?;
            text.push_str("\n")?;
        }
    }
    made(&rt)
}
