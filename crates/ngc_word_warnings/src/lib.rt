//! Warnings about words of a program that pass but are nearly always a mistake.
//!
//! Each kind is a line of text, or a fact of a JSON document. It has the number of the program's
//! lines with the mistake, and the first of them:
//!
//! ```text
//! warning: T words of tools that are never mounted: 1, the first in line 5: write M6 T3.
//! warning: G43 with the H of another tool: 1, the first in line 8: H2, but tool 1 is mounted.
//! warning: feeds downwards without a length offset: 3, the first in line 9: write G43 H1.
//! warning: feeds with the length offset of another tool: 2, the first in line 9: H2 is in force, so write G43 H3 after M6.
//! warning: G28 or G30 with one or two axis words, each 0: 1, the first in line 12: X, Y and Z all go home.
//! ```
#![tactic(auto)]

mod between;
mod offset;
mod said;
mod slip;
mod slips;
mod spelling;
mod written;

pub use offset::Offset;
pub use slip::{AllSlips, Found, Kind, LineSlips, Slip, Slips};
pub use slips::slips_of;
pub use written::write_word_warnings;
