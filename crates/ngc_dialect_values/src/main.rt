//! Prints the values of calls that standard input names: `sin 30`, `atan 1 -3`, `power 2 0.5`. A value
//! has 12 decimals; where there is none, the reason is printed.
#![tactic(auto)]

mod call;
mod decimal;

use call::{Answer, answer_to};
use std::io;

fn print_answer(rt: &impl Print, answer: Answer) -> io::Result<()> {
    match answer {
        Answer::Number(number) => println!(rt; "{}", number),
        Answer::Refused(reason) => println!(rt; "refused: {:?}", reason),
        Answer::Unknown => println!(rt; "not a call"),
    }
}

fn main(rt: HostRuntime) -> io::Result<()> {
    for line in rt.lines(rt.alloc()) {
        let line = line?;
        let text = line.as_str();
        print!(rt; "{text}: ")?;
        print_answer(&rt, answer_to(text))?;
    }
    Ok(())
}
