//! The lowest height that a program goes to, for each coordinate system and mounted tool. A tool
//! that goes 15 mm too deep, and meets nothing there, is seen in it.
//!
//! Each is a line of text, or a fact of a JSON document:
//!
//! ```text
//! Lowest in G54 with tool 2: Z -18 mm, in line 11.
//! Lowest in G55 with no tool: Z 5 mm, in line 3.
//! Lowest in G54 with tool 3, by the offset of tool 2: Z -14 mm, in line 17.
//! ```
#![tactic(auto)]

mod heights;
mod texts;
mod tip;
mod tips;
mod written;

pub use tip::LowestTip;
pub use tips::lowest_tips;
pub use written::write_lowest_tips;
