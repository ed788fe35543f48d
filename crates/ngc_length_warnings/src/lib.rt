//! Warnings about the tool length offset in force where a tool feeds, by the frames of a program's
//! commands. They need no words, so they serve programs in every language.
//!
//! Each kind is a line of text, or a fact of a JSON document. It has the number of the commands with
//! the mistake, and the line of the first of them:
//!
//! ```text
//! warning: feeds downwards without the tool's length offset: 3, the first in line 9: tool 2 has 50 mm.
//! warning: feeds with a length offset that isn't the tool's: 12, the first in line 20: 50 mm is in force, and tool 3 has 40 mm.
//! ```
//!
//! Other lines are about boxes that count from the zero of a coordinate system, where the program cuts
//! without a length offset there:
//!
//! ```text
//! warning: fixture 1 (left clamp) counts from G54, but line 6 cuts there without a tool length offset. If the part was touched off with tool 1, the fixture is 38 mm lower than it is tested: write its corners that much lower, in machine coordinates.
//! ```
#![tactic(auto)]

mod box_texts;
mod box_warnings;
mod boxes;
mod cut;
mod cuts;
mod slip;
mod slips;
mod spelling;
mod written;

pub use box_warnings::write_box_warnings;
pub use cut::{BareCut, Boxes};
pub use cuts::first_cut;
pub use slip::{Found, Kind, Slip, Slips};
pub use slips::slips_of;
pub use written::write_length_warnings;
