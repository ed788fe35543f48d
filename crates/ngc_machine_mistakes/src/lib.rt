//! The mistake of a machine file of any version, in words.
#![tactic(auto)]

mod mistake;
mod sentence;

pub use mistake::write_mistake;
