//! Warnings about feeds and spindle speeds outside the limits that a tool table says for a tool.
//!
//! Each kind is a line of text, or a fact of a JSON document. It has the number of the motions, the line
//! of the first of them, and its numbers:
//!
//! ```text
//! warning: feeds outside the tool's limits: 3, the first in line 12: 3000 mm/min with tool 2, which has 200 to 1500 mm/min.
//! warning: feeds straight down above the tool's limit: 2, the first in line 14: 500 mm/min with tool 2, which has at most 300 mm/min.
//! warning: feeds with the spindle outside the tool's limits: 5, the first in line 9: 24000 rpm with tool 2, which has 8000 to 18000 rpm.
//! ```
#![tactic(auto)]

mod breach;
mod breaches;
mod in_use;
mod spelling;
mod written;

pub use breach::{Breach, Breaches, Course, Found, Kind};
pub use breaches::breaches_of;
pub use in_use::InUse;
pub use written::write_limit_warnings;
