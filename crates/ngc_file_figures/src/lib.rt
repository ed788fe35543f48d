//! What machine files and tool tables of version 3 say besides the machine and its tools: figures as
//! they are written, cutters, and limits of which reports warn.
#![tactic(auto)]

mod cutter;
mod figures;
mod limits;

pub use cutter::Cutter;
pub use figures::{
    AxisFigures, FileFigures, MachineFigures, StoredFigures, acceleration_of, corner_of, jump_of,
    speeds_of, turn_of,
};
pub use limits::{Limits, ToolLimits, limits_of};
