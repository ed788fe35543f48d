//! The allowed behaviour of a machine that runs a program, at each event, and the properties of all
//! its runs.
#![tactic(auto)]

pub mod laws;
