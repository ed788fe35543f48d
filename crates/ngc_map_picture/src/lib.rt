//! The picture of a map of heights, seen from above, as PNG.
#![tactic(auto)]

mod check;
mod chunk;
mod palette;
mod picture;
mod relief;
mod stream;
mod sums;

pub use picture::write_map;
pub use relief::{Relief, usual_side};
