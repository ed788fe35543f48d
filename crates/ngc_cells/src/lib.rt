//! A map of the heights that material can have, in square cells, and the cells near a stretch of a
//! straight line.
#![tactic(auto)]

mod band;
mod cells;
mod grid;
mod span;
mod stretch;

pub use cells::{Peak, highest_above, lower};
pub use grid::Grid;
pub use span::Span;
pub use stretch::{Spot, Stretch};
