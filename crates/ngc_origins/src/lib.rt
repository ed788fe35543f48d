//! Origins of coordinate systems that replace those of a machine file for one call: their texts, a
//! machine with them, and the lines of a report that name them.
#![tactic(auto)]

mod coordinate;
mod origins;
mod reading;
mod report_lines;

pub use origins::Origins;
pub use reading::{OriginMistake, Refused, read_origins, system_in};
pub use report_lines::{say_origin_facts, say_origin_words};
