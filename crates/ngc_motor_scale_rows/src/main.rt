//! Takes the scales of motors, and compares the results with expected ones. A row of standard input
//! has the two numbers of a step and the expected result, separated by bars; a line that begins with
//! `#` is a comment. Prints each row with another result, and the number of rows.
#![tactic(auto)]

use ngc_motor_scale::{ScaleRefusal, scale_of};
use ngc_quantities::Step;
use std::alloc::{AllocError, Global};
use std::io;

fn refusal_word(refusal: ScaleRefusal) -> &'static str {
    match refusal {
        ScaleRefusal::Short => "short",
        ScaleRefusal::Long => "long",
        ScaleRefusal::Fine => "fine",
    }
}

fn number_in<'a>(part: Option<&'a str>) -> u128 {
    match part {
        None => 0,
        Some(text) => text.parse::<u128>().unwrap_or(0),
    }
}

fn shown(alloc: Global, row: &str) -> Result<String<Global>, AllocError> {
    let mut parts = row.split('|');
    let step = Step {
        nanometres: number_in(parts.next()),
        steps: number_in(parts.next()),
    };
    match scale_of(&step) {
        Err(refusal) => format!(in alloc; "{}", refusal_word(refusal)),
        Ok(scale) => format!(in alloc; "{} in {}", scale.nanometres, scale.steps),
    }
}

fn main(rt: HostRuntime) -> io::Result<()> {
    let alloc = rt.alloc();
    let (mut rows, mut otherwise) = (0u32, 0u32);
    for line in rt.lines(alloc) {
        let line = line?;
        let row = line.as_str();
        if row.is_empty() || row.starts_with('#') {
            continue;
        }
        rows = rows.saturating_add(1);
        let found = shown(alloc, row)?;
        let expected = match row.rsplit_once('|') {
            Some((_, expected)) => expected,
            None => "",
        };
        if found.as_str() != expected {
            otherwise = otherwise.saturating_add(1);
            println!(rt; "{row}: {}", found.as_str())?;
        }
    }
    println!(rt; "{rows} rows, {otherwise} otherwise")
}
