//! The commands of the program, on a program in the language that `--dialect` or the machine file names.
#![tactic(auto)]

mod choice;
mod key;
mod program;

pub use program::answer_by_machine;
