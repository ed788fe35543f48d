//! A stock of material, and what the cutters of feeds leave of it: definitions, and the law that a
//! program whose traverses aren't reported meets nothing that is left, with any part of its tools; the
//! same of its feeds for the parts above the cutter, and of its tool changes; which feeds go below its
//! bottom, and how deep feeds cut.
#![tactic(auto)]

mod below;
mod change;
mod cut;
mod cylinder;
pub mod laws;
mod stock;

pub use below::{AllBelow, Below, PathBox};
pub use change::Change;
pub use cut::Cut;
pub use cylinder::Cylinder;
pub use stock::Stock;
