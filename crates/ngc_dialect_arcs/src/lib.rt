//! Arcs of other controls as arcs of our own language: their centres, evened if the radii at start
//! and end differ, and their words.
#![tactic(auto)]

mod centre;
pub mod laws;
mod limits;
mod line;
mod refusal;

pub use centre::by_radius;
pub use line::{ArcLine, programmed};
pub use refusal::ArcRefusal;
