//! A line of another control that has a canned cycle: what its series keeps, its holes, and its
//! moves as plain lines of our own language.
#![tactic(auto)]

mod heights;
mod holes;
mod kept;
mod moves;
mod places;

pub use holes::{CycleStart, cycle_of};
pub use kept::kept_after;
pub use moves::{length_to, motion_to, word_to, write_move, write_stop};
pub use places::{depth_axis, letter_of, own_shift, u_axis, v_axis};
