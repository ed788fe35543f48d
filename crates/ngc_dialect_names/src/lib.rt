//! The languages of programs for other controls, by their names.
#![tactic(auto)]

mod dialect;

pub use dialect::Dialect;
