//! The notes on a program for another control, as lines of text or as facts of a JSON document.
//!
//! Each kind that occurred has a line, with what execution keeps, how often it occurred, and the
//! line that was executed first with it:
//!
//! ```text
//! note (told): M50 to M53 left out: 12, the first in line 4: the overrides stay as they are.
//! note (chosen): G83: 3, the first in line 9: after a peck the tool goes back down to 0.254 mm above the depth reached.
//! ```
#![tactic(auto)]

mod saying;
mod words;
mod written;

pub use written::write_notes;
