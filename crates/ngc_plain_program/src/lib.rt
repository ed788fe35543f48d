//! The plain lines that a program for another control becomes, as the text of a program in our own
//! language.
#![tactic(auto)]

pub mod laws;
mod printing;
mod shortness;

pub use printing::write_lines;
pub use shortness::is_printable;
