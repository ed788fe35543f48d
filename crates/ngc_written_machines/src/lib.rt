//! Machines of files of version 3, in which people write lengths, speeds and motors with their units.
#![tactic(auto)]

mod contents;
mod corners;
mod figures;
mod machine;
mod motors;
mod reading;
mod refusal;
mod written;

pub use machine::{WrittenMachine, written_machine};
pub use reading::{read_file, read_machine};
pub use refusal::{WrittenFault, WrittenRefusal};
