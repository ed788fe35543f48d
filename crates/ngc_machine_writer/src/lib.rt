//! A machine file of version 3, with units, from the figures that a shop has.
#![tactic(auto)]

mod axis;
mod file;
mod line;

pub use file::write_written_file;
