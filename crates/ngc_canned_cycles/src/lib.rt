//! Canned cycles: the moves by which holes are drilled, pecked and bored.
#![tactic(auto)]

mod cycle;
mod fault;
pub mod heights;
mod holes;
mod moves;
mod refusals;

pub use cycle::{Cycle, CycleMove, Hole, Site, Start};
pub use fault::CycleFault;
pub use moves::{expand, fill};
