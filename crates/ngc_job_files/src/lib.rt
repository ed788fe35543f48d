//! Job files: what a call of a command may leave out, written once for the programs of a folder.
#![tactic(auto)]

mod fixtures;
mod job;
mod keys;
mod path;
mod reader;

pub use job::{JobFault, JobFixture, JobHead, JobPaths, JobSheet};
pub use reader::read_job;
