//! Bodies of tools, fixtures and travel limits: the positions that are safe for a machine.
#![tactic(auto)]

mod bodies;
mod solid;
mod travel;

pub use bodies::first_met;
pub use solid::{Place, Solid};
pub use travel::is_in_travel;
