//! Programs for other controls that are ready to run on a machine.
#![tactic(auto)]

mod job;
pub mod laws;

pub use job::{DialectJobFault, dialect_job};
