//! The figures of each tool of a program that feeds: feeds, speeds of the spindle, the greatest
//! plunge, holes and time. A digit that slipped into F, S or Z is seen in them.
//!
//! Each tool is a line of text, or a fact of a JSON document:
//!
//! ```text
//! Figures of tool 2: feeds 200 to 12000 mm/min, spindle clockwise 3000 rpm, greatest plunge 3 mm, holes 4, time 0:01:12.500.
//! ```
#![tactic(auto)]

mod dive;
mod feeding;
mod figures;
mod holes;
mod moment;
mod spelling;
mod ticks;
mod written;

pub use dive::Dive;
pub use feeding::feeding_of;
pub use figures::{Feeding, Figures, Range};
pub use holes::holes_of;
pub use moment::Moment;
pub use ticks::ticks_of;
pub use written::write_tool_figures;
