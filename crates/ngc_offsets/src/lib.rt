//! Coordinate systems, axis offsets and tool length: the map from programmed to machine
//! coordinates.
#![tactic(auto)]

mod fault;
mod frames;
mod given;
mod range;

pub use fault::{Axis, CoordinateRange, FrameFault, Quantity};
pub use frames::Frames;
pub use given::{AxisLengths, machine_target};
