//! Lines that report why a program for another control isn't executed, such as
//! `ngc: fault 211 line 1: nothing uses the word, at P`.
#![tactic(auto)]

mod fault_line;
mod flow;
mod plain;
mod reading;
mod rules;

pub use fault_line::{write_cause, write_dialect_fault};
