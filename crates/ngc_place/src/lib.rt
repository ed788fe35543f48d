//! Shifts of a work origin at which a program fits the machine.
#![tactic(auto)]

mod alike;
mod axis;
mod fits;
mod grid;
mod growing;
mod growth;
mod interval;
pub mod laws;
mod marking;
mod programs;
mod round;
mod search;
mod spots;
mod straight;

pub use axis::Axis;
pub use fits::holds;
pub use interval::Interval;
pub use marking::{are_shifted, marks};
pub use programs::{Program, all_hold};
pub use search::{longest, nearest};
