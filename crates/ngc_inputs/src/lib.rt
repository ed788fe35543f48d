//! The files that a command names, read in order, and the faults that a command returns: the
//! number, the exit status and the line of each.
#![tactic(auto)]

mod fault;
mod fault_line;
mod files;
mod judging;
mod opening;
mod setup;

pub use fault::AnswerFault;
pub use fault_line::add_fault_line;
pub use files::Files;
pub use judging::{Verdict, judge, judge_file};
pub use opening::{open_file, read_certificate, read_program};
pub use setup::{FILE_LIMIT, Shop, bytes_of, read_placed, read_shop};
