//! The listing: a program's commands as text, one per line.
#![tactic(auto)]

mod listing;

pub use listing::write_list;
