//! Margins to fixtures and travel limits, and the ways of traverses: the options that set them for
//! a call, and the machine with its margins kept.
#![tactic(auto)]

mod changes;
mod demands;
mod growth;
mod laws;
mod reading;
mod report_lines;

pub use changes::Changes;
pub use demands::Demands;
pub use laws::{margin_is_kept, safe_with_smaller_margins};
pub use reading::{DemandMistake, read_demands};
pub use report_lines::{Kept, say_kept_facts, say_kept_words};
