//! Cutter compensation of other controls: the tool's moves beside programmed ones, in whole
//! nanometres, one by one and without a list of them.
#![tactic(auto)]

mod corner;
mod follow;
mod join;
pub mod laws;
mod meet;
mod moves;
mod normal;
mod offset;
mod refusal;
mod start;
mod step;
mod vector;
mod way;

pub use moves::{Compensation, Held, Motion, Move, Outcome, Side};
pub use refusal::Refusal;
