//! Warnings of origins outside of the travel from which a program moves: those that its lines put
//! there, and those that a machine file with other origins leaves at the machine's zero. And a
//! sentence about a machine file without any origins.
//!
//! Each is a line of text, or a fact of a JSON document:
//!
//! ```text
//! warning: line 5 puts the origin of G54 at X 410 mm, Y 0 mm, Z 0 mm, 110 mm beyond the travel: the first motion from it is in line 6.
//! warning: the machine file has no origin of G55, and the machine's zero is 10 mm beyond the travel: the first feed from it is in line 4.
//! ```
#![tactic(auto)]

mod missing;
mod origin;
mod texts;
mod warned;
mod written;

pub use missing::write_missing_origin;
pub use origin::{Origin, lowest, outside_origin};
pub use written::write_origin_warnings;
