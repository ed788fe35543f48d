//! All faults of a part program, each found as if the lines with the faults before it were empty.
#![tactic(auto)]

mod emptied;
mod search;
mod text_fault;

pub use search::{MOST_FAULTS, OutOfMemory, faults_of};
pub use text_fault::TextFault;
