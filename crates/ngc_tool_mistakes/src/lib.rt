//! The mistake of a tool table of any version, in words.
#![tactic(auto)]

mod mistake;

pub use mistake::write_mistake;
