//! Runs rows. Each row has the words of a command line, the files that it names, and the output and
//! status that the program must have. The arguments name files of rows, the first one with texts
//! that all of them share. It prints each row with a different result, and the number of rows of
//! each file.
#![tactic(auto)]

mod directive;
mod files;
mod outputs;
mod reader;
mod row;
mod text;

use crate::reader::Reader;
use std::process::ExitCode;
use std::{env, fs, io};

// Runs the rows of a file, and returns the number of rows and the number of those with a different
// result.
fn try_file(rt: &HostRuntime, reader: &mut Reader, name: &str) -> io::Result<(u32, u32)> {
    let text = fs::read_to_string(rt, name)?;
    reader.open(rt.alloc(), name)?;
    for line in text.as_str().lines() {
        reader.take(rt, line)?;
    }
    reader.finish(rt)?;
    let (rows, otherwise) = (reader.rows, reader.otherwise);
    println!(rt; "{name}: {rows} rows, {otherwise} otherwise")?;
    Ok((rows, otherwise))
}

// Runs the rows of all named files, and returns the number of those with a different result.
fn try_all(rt: &HostRuntime) -> io::Result<u32> {
    let mut reader = Reader::new(rt.alloc());
    let (mut rows, mut otherwise) = (0u32, 0u32);
    for name in env::args(rt)?.skip(1) {
        let found = try_file(rt, &mut reader, name.as_str())?;
        rows = rows.saturating_add(found.0);
        otherwise = otherwise.saturating_add(found.1);
    }
    println!(rt; "{rows} rows, {otherwise} otherwise")?;
    Ok(otherwise)
}

fn main(rt: HostRuntime) -> io::Result<ExitCode> {
    let otherwise = try_all(&rt)?;
    Ok(ExitCode::from(u8::from(0 < otherwise)))
}
