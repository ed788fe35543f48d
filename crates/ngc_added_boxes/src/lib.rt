//! Fixtures and a block of material for one call: their texts, and a machine with them.
#![tactic(auto)]

mod boxes;
mod corners;
mod placing;
mod reading;

pub use boxes::{AddedFixture, Boxes, SystemBox};
pub use reading::{BoxMistake, RefusedBox, read_fixtures, read_stock};
