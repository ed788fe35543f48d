//! Canned cycles of other controls: the moves of one line, each as it is asked for.
#![tactic(auto)]

mod heights;
pub mod laws;
mod line;
mod moves;
mod parts;
mod plan;
mod refusal;
mod walk;

pub use line::{CycleLine, HoleKind, Levels, Pecks, Series};
pub use moves::CycleMoves;
pub use refusal::CycleRefusal;
