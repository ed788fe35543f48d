//! What lowest heights are, without the order in which they are found.
#![tactic(auto)]

pub mod laws;
