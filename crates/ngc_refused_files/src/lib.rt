//! Why a machine file, a tool table or a job file is refused, in words, with its line: a key of version
//! 3, or the place at which the reader of TOML stopped.
//!
//! ```text
//! mill.toml:9: axis.x.speed: "8000" has no unit; example: "8000 mm/min"
//!   speed = "8000"
//!                ^
//! ```
#![tactic(auto)]

mod example;
mod header;
mod lines;
mod place;
mod refusal;
mod sentence;
mod stop;

pub use refusal::{write_forgotten, write_refusal};
pub use stop::{read_document, write_stop};
