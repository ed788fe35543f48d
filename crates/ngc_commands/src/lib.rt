//! The commands of a machine, and how they move its axes.
#![tactic(auto)]

mod command;
mod movement;
mod reached;

pub use command::{Action, Command, CoolantState, SpindleState};
pub use movement::{Feed, Motion, Pace, Way};
pub use reached::Reached;
