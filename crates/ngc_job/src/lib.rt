//! Programs that are ready to run on a machine: executed once, and stored with the machine and its
//! tools.
#![tactic(auto)]

mod job;

pub use job::{Job, JobFault};
