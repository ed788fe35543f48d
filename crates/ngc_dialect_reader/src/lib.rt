//! Reads one line of a program in the dialect of LinuxCNC, Grbl, Mach3 or Fanuc, without evaluating
//! it. A line becomes a list of parts, which a machine with a stack can execute from left to right.
#![tactic(auto)]

mod fault;
mod flow;
mod item;
mod line;
mod number;
mod part;
mod steps;
mod switches;
mod text;
mod value;

pub use fault::{Cause, LineFault};
pub use line::DialectLine;
pub use part::{Function, Keyword, Literal, Name, Operator, Part, PartKind};
pub use switches::Switches;
pub use text::column_of;
