//! Warnings about tool changes, and about traverses after them, that pass but are nearly always a
//! mistake.
//!
//! Each kind is a line of text, or a fact of a JSON document. It has the number of the commands with
//! the mistake, and the line of the first of them:
//!
//! ```text
//! warning: changes to a longer tool below the height of the start: 1, the first in line 8: the tip goes from Z -65 mm to Z -110 mm in the machine.
//! warning: traverses straight down below the start of the tool's first feed: 2, the first in line 14: 15 mm below it.
//! warning: tool changes without a stop: 1, the first in line 8: M6 doesn't wait, so write M0 before it, or the key `changer` in the machine file.
//! ```
#![tactic(auto)]

mod between;
mod slip;
mod slips;
mod spelling;
mod written;

pub use between::Between;
pub use slip::{Found, Kind, Slip, Slips};
pub use slips::slips_of;
pub use written::write_tool_warnings;
