//! Texts as editors save them: a source of a text without the byte order mark at its beginning, and one without
//! the carriage returns before its line feeds.
#![tactic(auto)]

pub mod laws;
mod mark;
mod returns;

pub use mark::Unmarked;
pub use returns::{Held, Unreturned};
