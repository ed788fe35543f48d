//! Motors of which one step may be longer than a step of the path's grid, and no whole number of
//! nanometres: the counts at which they stand.
#![tactic(auto)]

pub mod laws;
mod motors;
mod step;

pub use motors::Motors;
pub use step::{MotorStep, MotorSteps};
