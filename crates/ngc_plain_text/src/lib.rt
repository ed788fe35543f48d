//! Plain lines of our own language as text: `G1 X-1.5 F100`. Our own language reads the text back.
#![tactic(auto)]

pub mod laws;
mod length;
mod line;
mod word;

pub use length::is_short;
pub use line::say_line;
