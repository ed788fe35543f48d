//! The pulses of a run as a value change dump, and as bytes that hardware plays.
#![tactic(auto)]

mod axis_step;
mod dump;
pub mod laws;
mod repeated;
mod samples;
mod stamps;
mod wire;

pub use dump::PulseDump;
pub use samples::{PulseSamples, Switch};
