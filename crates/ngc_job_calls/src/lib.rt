//! A call with its job file.
#![tactic(auto)]

mod bytes;
mod call;
mod fault;
mod note;
mod refusal;
mod words;

pub use call::{JobCall, with_job};
pub use fault::CallFault;
pub use words::job_words;
