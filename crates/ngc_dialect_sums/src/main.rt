//! Prints the values of lines. Each line of standard input is a dialect, a colon, a blank and a line in
//! that dialect; what is printed for it is what the line says with its values, or its fault. The
//! parameters stay from line to line, until the dialect is another one or a line is `new`. `enter`
//! begins a call with the arguments of the line before, and `leave` ends it.
#![tactic(auto)]

ghost use Rattle.std.specs.Prelude.{◌≤◌, length};

mod control;
mod print;

use control::Machine;
use ngc_dialect_names::Dialect;
use ngc_dialect_parameters::{LineValues, Parameters, StoreFault};
use ngc_dialect_reader::{DialectLine, column_of};
use print::print_values;
use std::alloc::Global;
use std::io;

/// The lines of a program so far.
#[derive(Drop)]
struct Run {
    parameters: Parameters<Global>,
    line: DialectLine,
    values: LineValues,
}

fn print_store_fault(rt: &impl Print, fault: StoreFault) -> io::Result<()> {
    let number = fault.number();
    println!(rt; "fault {number}: {fault:?}")
}

// Returns at most 256 bytes of a text. A line that was read has no more.
fn first_bytes(text: &[u8]) -> &[u8]
    ensures { length result.now ≤ 256 }
{
    if text.len() > 256 { &text[..256] } else { text }
}

// Evaluates a line that was read, and makes its settings.
fn print_read(rt: &impl Print, text: &[u8], run: &mut Run) -> io::Result<()> {
    match run
        .parameters
        .evaluate(&Machine, &run.line, &mut run.values)
    {
        Ok(()) => {}
        Err(fault) => {
            let number = fault.cause.number();
            let column = column_of(first_bytes(text), fault.left);
            let cause = fault.cause;
            return println!(rt; "fault {number} column {column}: {cause:?}");
        }
    }
    print_values(rt, &run.line, &run.values)?;
    match run.parameters.apply(&run.line, &run.values) {
        Ok(()) => Ok(()),
        Err(fault) => print_store_fault(rt, fault),
    }
}

fn print_line(rt: &impl Print, text: &str, run: &mut Run) -> io::Result<()> {
    let bytes = text.as_bytes();
    match run.line.read(run.parameters.dialect(), bytes) {
        Ok(()) => print_read(rt, bytes, run),
        Err(fault) => {
            let number = fault.cause.number();
            let column = fault.column;
            let cause = fault.cause;
            println!(rt; "fault {number} column {column}: {cause:?}")
        }
    }
}

fn print_command(rt: &impl Print, command: &str, run: &mut Run) -> io::Result<()> {
    match command.as_bytes() {
        b"enter" => match run.parameters.enter(run.values.arguments.as_slice()) {
            Ok(()) => println!(rt; "entered"),
            Err(fault) => print_store_fault(rt, fault),
        },
        b"leave" => {
            if run.parameters.leave() {
                println!(rt; "left")
            } else {
                println!(rt; "no call")
            }
        }
        _ => println!(rt; "no command"),
    }
}

fn begin(alloc: Global, dialect: Dialect) -> Option<Run> {
    match Parameters::new(alloc, dialect) {
        Ok(parameters) => Some(Run {
            parameters,
            line: DialectLine::empty(),
            values: LineValues::empty(),
        }),
        Err(_) => None,
    }
}

fn is_same(left: Dialect, right: Dialect) -> bool {
    matches!(
        (left, right),
        (Dialect::LinuxCnc, Dialect::LinuxCnc)
            | (Dialect::Grbl, Dialect::Grbl)
            | (Dialect::Mach3, Dialect::Mach3)
            | (Dialect::Fanuc, Dialect::Fanuc)
    )
}

// Returns the run in which a line of this dialect is evaluated.
fn run_in(alloc: Global, dialect: Dialect, run: Option<Run>) -> Option<Run> {
    match run {
        Some(run) if is_same(run.parameters.dialect(), dialect) => Some(run),
        _ => begin(alloc, dialect),
    }
}

fn main(rt: HostRuntime) -> io::Result<()> {
    let mut run: Option<Run> = None;
    for line in rt.lines(rt.alloc()) {
        let line = line?;
        if let Some((name, text)) = line.as_str().split_once(": ") {
            let Some(dialect) = Dialect::named(name) else {
                println!(rt; "no dialect")?;
                continue;
            };
            run = run_in(rt.alloc(), dialect, run);
            if let Some(run) = &mut run {
                print_line(&rt, text, run)?;
            }
        } else if line.as_str() == "new" {
            run = None;
            println!(rt; "new")?;
        } else if let Some(run) = &mut run {
            print_command(&rt, line.as_str(), run)?;
        }
    }
    Ok(())
}
