//! Circular arcs and helices: their centres, sectors and swept boxes, computed exactly in whole
//! numbers.
#![tactic(auto)]

mod arc;
mod centre;
mod chord;
mod cut;
mod extent;
mod fault;
mod given;
pub mod laws;
mod lengths;
mod radii;
mod sector;
mod swept;
mod way;

pub use arc::Arc;
pub use cut::GridArc;
pub use fault::ArcFault;
pub use given::{Ends, Offsets};
pub use lengths::{halfway, moved};
