//! Texts about each fault: what is wrong, what to write instead, and an example with its message.
//!
//! The tables of the page docs/FAULTS.md and the text of `ngc explain` are printed from them.
#![tactic(auto)]

mod dialects;
mod explaining;
mod parts;
mod programs;
mod reading;
mod runs;
mod setups;
mod shapes;

pub use explaining::{ExplainFault, explain};
pub use parts::{Part, Row, page};
