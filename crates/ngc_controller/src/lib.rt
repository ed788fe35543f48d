//! The controller of a machine: it handles events one by one, and returns what the machine did.
#![tactic(auto)]

mod controller;
mod drive;
mod ending;
mod leg_end;
mod panel;
mod progress;
mod recent;
mod ring;
mod route;

pub use controller::{Controller, Passed};
pub use ngc_checker::MemoryFault;
