//! The words that a job file adds to a call, and the program as a plain word.
#![tactic(auto)]

mod added;
mod call;
mod command;
mod folder;
mod text;
mod values;
mod word;

pub use added::added_words;
pub use call::{Asked, AskedFault, read_call};
pub use command::{Family, JobOption};
pub use folder::{JobFile, folder_of, job_file};
