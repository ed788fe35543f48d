//! A command whose output goes to a file: written whole, or not at all.
#![tactic(auto)]

mod answering;
mod fault;

pub use answering::answer_to;
pub use fault::OutputFault;
