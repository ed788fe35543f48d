//! Prints which lines of programs are executed. Each line of standard input is a dialect, a colon and a
//! program whose lines are separated by ` | `. What is printed for it is the numbers of the lines in
//! the order of their execution, at most 40, and `end` or the fault.
//! Calls change the parameters, and words are not executed.
#![tactic(auto)]

mod execution;

use execution::Execution;
use ngc_dialect_names::Dialect;
use std::alloc::Global;
use std::io;

fn lines_of<'a>(alloc: Global, program: &'a str) -> Option<Vec<&'a [u8]>> {
    let mut lines = Vec::new(alloc);
    for line in program.split(" | ") {
        lines.push(line.as_bytes()).ok()?;
    }
    Some(lines)
}

fn print_program(
    rt: &impl Print,
    alloc: Global,
    dialect: Dialect,
    program: &str,
) -> io::Result<()> {
    let Some(lines) = lines_of(alloc, program) else {
        return println!(rt; "out of memory");
    };
    match Execution::begin(alloc, dialect, &lines) {
        Some(execution) => execution.print(rt, &lines),
        None => println!(rt; "out of memory"),
    }
}

fn main(rt: HostRuntime) -> io::Result<()> {
    for line in rt.lines(rt.alloc()) {
        let line = line?;
        let Some((name, program)) = line.as_str().split_once(": ") else {
            println!(rt; "no dialect")?;
            continue;
        };
        match Dialect::named(name) {
            Some(dialect) => print_program(&rt, rt.alloc(), dialect, program)?,
            None => println!(rt; "no dialect")?,
        }
    }
    Ok(())
}
