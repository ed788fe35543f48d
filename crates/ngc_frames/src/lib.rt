//! The coordinates that the lines of a part program are written in: which coordinate system and
//! offsets are in force, and the lines that set them.
#![tactic(auto)]

mod change;
mod facts;
mod frame;
mod history;
mod in_force;
pub mod laws;
mod place;
mod walk;
mod words;

pub use change::FrameChange;
pub use facts::{add_triple, collect_motion_fact};
pub use frame::{Frame, FramePart, index_of, is_same_part};
pub use history::{FrameHistory, FramedCommands, interpret_with_frames};
pub use in_force::{FrameInForce, frame_at, frame_in_force, line_that_set};
pub use place::program_point;
pub use walk::FrameWalk;
pub use words::{add_place, collect_motion_words, system_name};
