//! A program that is executed with the origin of a coordinate system shifted, and whether its
//! commands move with the origin.
#![tactic(auto)]

mod origin;
mod program;
mod shifted;
mod systems;

pub use program::PartProgram;
pub use shifted::{Marks, Programs, executed_at, marks_between, move_at};
