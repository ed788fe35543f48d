//! The values of a refused line's fault, in the report of that line.
//!
//! The line that selects a tool that isn't in the tool table (222), a coordinate out of range (221),
//! and the radii of an arc where they differ (243):
//!
//! ```text
//! Line 3 selects it.
//! X is at 1270 mm, but the limit is 1000 mm either way. Lengths are in inches since line 2.
//! The radius is 5 mm at the start and 5.003 mm at the end: they differ by 0.003 mm.
//! ```
#![tactic(auto)]

mod last_words;
mod quotes;
mod said;
mod texts;
mod values;

pub use last_words::{Kind, LastWord, last_word};
pub use texts::write_values;
pub use values::{inches_since, selected_tool};
