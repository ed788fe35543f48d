//! The words of a command line that no command reads: `--out FILE`, and another name of an option.
#![tactic(auto)]

mod words;

pub use words::{CallWords, WordsFault, call_words};
