//! A walk over the commands of a machine that keeps the heights of the material that feeds leave, and
//! finds straight traverses that may touch it, and straight feeds whose shank or holder may; tool changes
//! below the top of a stock, and feeds below its bottom; and how deep feeds cut, with each tool.
#![tactic(auto)]

mod below;
mod change;
mod chord;
mod cuts;
mod cutter;
mod cutting;
mod depth;
mod discs;
pub mod laws;
mod line;
mod material;
mod mounted;
mod reach;
mod rim;
mod spoke;
mod sweep;
mod touch;
mod walk;

pub use below::find_below;
pub use change::change_at;
pub use cutter::{is_thin, margin};
pub use touch::Touch;
pub use walk::{Found, Touches, WalkFault, find_touches};
