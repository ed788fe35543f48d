//! Where the origin of a coordinate system may lie for a program to fit its machine: along each
//! axis the shifts that are found, and their text in words or as JSON.
#![tactic(auto)]

mod along;
mod facts;
pub mod laws;
mod nearest;
mod placement;
mod range;
mod staying;
mod systems;
mod words;
mod writer;

pub use along::find_placement;
pub use placement::{AlongAxis, Finding, Here, Placement, Staying};
pub use systems::system_named;
pub use writer::{write_document, write_words};
