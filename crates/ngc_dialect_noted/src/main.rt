//! Executes programs of other controls, and prints the notes on them. Each line of standard input is
//! a dialect, a colon and a program, whose lines are separated by ` | `. The word `facts` after the
//! dialect's name prints facts of a JSON document. What is printed is that line, and then the notes.
#![tactic(auto)]

mod execution;

use execution::{notes_on, tools_of};
use ngc_canonical::built_in_machine;
use ngc_dialect_names::Dialect;
use ngc_dialect_note_texts::write_notes;
use ngc_dialect_notes::Notes;
use ngc_report::Form;
use ngc_text::Device;
use std::alloc::Global;
use std::io;

fn print_notes(rt: &impl Print, alloc: Global, form: Form, notes: &Notes) -> io::Result<()> {
    let mut text = Device::new(Vec::new(alloc));
    let Ok(()) = write_notes(form, notes, &mut text) else {
        return println!(rt; "no memory");
    };
    let text = text.into_inner();
    match str::from_utf8(text.as_slice()) {
        Ok(text) => print!(rt; "{text}"),
        Err(_) => println!(rt; "no text"),
    }
}

fn print_program(
    rt: &impl Print,
    alloc: Global,
    dialect: Dialect,
    form: Form,
    program: &str,
) -> io::Result<()> {
    let machine = built_in_machine(alloc);
    let Some(tools) = tools_of(alloc) else {
        return println!(rt; "no tools");
    };
    match notes_on(alloc, dialect, &machine, &tools, program) {
        Some(notes) => print_notes(rt, alloc, form, &notes),
        None => println!(rt; "refused"),
    }
}

fn main(rt: HostRuntime) -> io::Result<()> {
    for line in rt.lines(rt.alloc()) {
        let line = line?;
        let text = line.as_str();
        println!(rt; "{text}")?;
        let Some((front, program)) = text.split_once(": ") else {
            println!(rt; "no dialect")?;
            continue;
        };
        let (name, form) = match front.split_once(" ") {
            Some((name, _)) => (name, Form::Json),
            None => (front, Form::Words),
        };
        match Dialect::named(name) {
            Some(dialect) => print_program(&rt, rt.alloc(), dialect, form, program)?,
            None => println!(rt; "no dialect")?,
        }
        if matches!(form, Form::Json) {
            println!(rt;)?;
        }
    }
    Ok(())
}
