//! What a report says of a program on a machine, without its words: the extent and what is left of
//! the travel, the uses of tools, the nearest fixture, what looks wrong, the obstacle of a command,
//! and how far the command must move to be clear of it.
#![tactic(auto)]

mod bounds;
mod clearing;
mod gaps;
mod line;
mod margins;
mod nearest;
mod scene;
mod shifts;
mod standing;
mod tool_state;
mod travel;
mod uses;
mod warnings;
mod ways;

pub use bounds::{extent, extent_in_travel, fit_extent, reach};
pub use clearing::{Clearing, Inward, Passed};
pub use gaps::gap;
pub use line::{Along, Line};
pub use margins::{Axis, Margin, Side};
pub use nearest::{Nearest, nearest_name};
pub use scene::{Met, Obstacle, Scene};
pub use shifts::{AxisShift, Shifts};
pub use standing::Standing;
pub use travel::{AxisSpace, Room};
pub use uses::{ToolUse, ToolUses, moves_first};
pub use warnings::{Concern, Warning, warning_about};
