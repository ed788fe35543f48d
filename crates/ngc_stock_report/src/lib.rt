//! What the straight traverses and feeds of a program may touch of the material of a machine file, how deep
//! its feeds cut, and the lines of a report about it.
#![tactic(auto)]

mod arcs;
mod caution;
mod cells;
mod grids;
pub mod laws;
mod map;
mod marks;
mod overlaps;
mod placed;
mod uncut;
mod walked;
mod written;

pub use caution::write_caution;
pub use cells::USUAL_CELLS;
pub use map::write_walk_map;
pub use marks::find_marks;
pub use walked::{Walk, find_walk};
pub use written::write_material;
