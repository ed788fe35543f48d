//! That the text of plain lines means in our own language what the plain lines do.
#![tactic(auto)]

pub mod laws;
