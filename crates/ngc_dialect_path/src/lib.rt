//! A line of another control where the tool goes beside a programmed path: what cutter compensation
//! allows on the line, the programmed move that it makes, and the tool's moves as plain lines of our own
//! language. The moves themselves are those of the crate of compensation.
#![tactic(auto)]

mod beginning;
mod line;
mod path;
mod refusing;
mod step;
pub mod tables;
mod target;
mod writing;

pub use line::{PathLine, Start, Width};
pub use path::{Beside, Path, held_line, is_holding, programmed};
pub use step::{Course, PathLines, PathStep, path_end, path_step};
pub use target::Straight;
