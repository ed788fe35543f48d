//! Executes programs of other controls, and compares their commands with those of their plain lines
//! in our own language. Each line of standard input is a dialect, a colon, a program, ` = ` and its
//! plain lines; lines are separated by ` | `. The word `mill` after the dialect's name selects a
//! machine with an origin and a home; without it both are 0. The word `deleted` leaves out the lines
//! that begin with `/`. It prints the number of commands, or
//! the first that differs, or the first fault with its line.
#![tactic(auto)]

mod setting;

use ngc_canonical::{Action, Command, Machine, Tools, interpret};
use ngc_dialect_execution::{DialectFault, interpret_dialect};
use ngc_dialect_faults::write_dialect_fault;
use ngc_dialect_names::Dialect;
use ngc_line_reader::Program;
use ngc_text::Device;
use setting::{machine_of, tools_of};
use std::alloc::{AllocError, Global};
use std::io;

// Puts each line of a program on a line of its own.
fn text_of(alloc: Global, program: &str) -> Result<String, AllocError> {
    let mut text = String::new(alloc);
    for line in program.split(" | ") {
        text.push_str(line)?;
        text.push_str("\n")?;
    }
    Ok(text)
}

fn first_difference(found: &[Command], plain: &[Command]) -> Option<usize> {
    for index in 0..found.len() {
        match (found.get(index), plain.get(index)) {
            (Some(command), Some(other)) => {
                if command.action != other.action {
                    return Some(index);
                }
            }
            _ => return Some(index),
        }
    }
    if found.len() < plain.len() {
        Some(found.len())
    } else {
        None
    }
}

fn print_fault(rt: &impl Print, alloc: Global, fault: &DialectFault) -> io::Result<()> {
    let DialectFault::At { line, cause } = fault else {
        return println!(rt; "no memory");
    };
    let mut text = Device::new(Vec::new(alloc));
    let Ok(()) = write_dialect_fault(None, *line, cause, &mut text) else {
        return println!(rt; "no memory");
    };
    let text = text.into_inner();
    match str::from_utf8(text.as_slice()) {
        Ok(text) => print!(rt; "{text}"),
        Err(_) => println!(rt; "no text"),
    }
}

fn commands_of(
    alloc: Global,
    text: &str,
    machine: &Machine<Global>,
    tools: &Tools<Global>,
) -> Option<Vec<Command>> {
    let program = Program::read(alloc, &mut Device::new(text.as_bytes())).ok()?;
    interpret(alloc, &program, machine, tools, false).ok()
}

fn print_program(
    rt: &impl Print,
    alloc: Global,
    dialect: Dialect,
    word: &str,
    program: &str,
    plain: &str,
) -> io::Result<()> {
    let (Some(machine), Some(tools)) = (machine_of(alloc, word == "mill"), tools_of(alloc)) else {
        return println!(rt; "no machine");
    };
    let (Ok(text), Ok(plain)) = (text_of(alloc, program), text_of(alloc, plain)) else {
        return println!(rt; "no memory");
    };
    let found = match interpret_dialect(
        alloc,
        dialect,
        text.as_str().as_bytes(),
        &machine,
        &tools,
        word == "deleted",
    ) {
        Ok(commands) => commands,
        Err(fault) => return print_fault(rt, alloc, &fault),
    };
    let Some(expected) = commands_of(alloc, plain.as_str(), &machine, &tools) else {
        return println!(rt; "the plain lines are refused");
    };
    let count = found.len();
    match first_difference(found.as_slice(), expected.as_slice()) {
        None => println!(rt; "{count} commands"),
        Some(index) => println!(rt; "command {index} of {count} differs"),
    }
}

fn main(rt: HostRuntime) -> io::Result<()> {
    for line in rt.lines(rt.alloc()) {
        let line = line?;
        let Some((front, rest)) = line.as_str().split_once(": ") else {
            println!(rt; "no dialect")?;
            continue;
        };
        let (program, plain) = match rest.split_once(" = ") {
            Some((program, plain)) => (program, plain),
            None => (rest, "M2"),
        };
        let (name, word) = match front.split_once(" ") {
            Some((name, word)) => (name, word),
            None => (front, ""),
        };
        match Dialect::named(name) {
            Some(dialect) => print_program(&rt, rt.alloc(), dialect, word, program, plain)?,
            None => println!(rt; "no dialect")?,
        }
    }
    Ok(())
}
