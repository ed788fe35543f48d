//! Files that a command writes: whether a file is one that it reads, and a file that gets its name once it is whole.
#![tactic(auto)]

mod names;
mod outputs;

pub use names::{is_one_of, names_of};
pub use outputs::Outputs;
