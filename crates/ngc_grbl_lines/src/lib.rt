//! The lines that a terminal saved of a controller with Grbl, and what stands on them.
#![tactic(auto)]

mod entries;
mod lines;

pub use entries::{place_name, place_values, setting_number, setting_value};
pub use lines::{before, split_line};
