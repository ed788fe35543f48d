//! Tools of tables of version 3, in which people write lengths and diameters with their units.
//!
//! ```toml
//! version = 3
//!
//! [[tool]]
//! number = 2
//! diameter = "6 mm"
//! length = "45 mm"
//! ```
#![tactic(auto)]

mod entries;
mod holder;
mod kinds;
mod limits;
mod numbers;
mod reading;
mod refusal;
mod shape;
mod sheet;
mod table;

pub use reading::{ToolTable, read_tools, written_tools};
pub use refusal::{ToolsFault, ToolsRefusal};
