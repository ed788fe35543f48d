//! The checker: whether a certificate shows that a program is safe.
#![tactic(auto)]

mod accepted;
mod check_fault;
mod check_reader;
mod checker;
mod command_walk;
mod fault;
mod judge;
mod judged_lines;
pub mod laws;
mod read;
mod setting;
mod setting_judge;

pub use accepted::Accepted;
pub use check_fault::CheckReadFault;
pub use check_reader::CheckReader;
pub use checker::{check, check_job};
pub use fault::CheckFault;
pub use ngc_certificate::MemoryFault;
pub use read::{check_job_source, check_source};
pub use setting::setting_fault;
