//! Points that move round a centre by unit moves, near a circle: one rule for the next move, and
//! two ways to find it.
#![tactic(auto)]

mod column;
pub mod laws;
mod spoke;
mod square;
mod wheel;

pub use column::ColumnWheel;
pub use spoke::{Quadrant, Roll, Spoke};
pub use square::SquareWheel;
pub use wheel::Wheel;
