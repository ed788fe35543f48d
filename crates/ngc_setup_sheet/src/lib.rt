//! The setup sheet of a machine: its file and its tool table in a shop's units, with warnings of
//! what looks wrong. For a file that is refused, its first mistake.
#![tactic(auto)]

mod line;
mod lines;
mod mistake;
mod mistake_syntax;
mod mistaken;
mod mistakes;
mod quoted;
mod reach;
mod rows;
mod sheet;
mod spelling;
mod tree;
mod warned;
mod warnings;
mod writer;

pub use line::{Axis, Fact, Figure, Line, Span, Warning};
pub use mistake::{Ask, Bounds, Each, Mistake, Rule, Section, Word};
pub use mistaken::{write_machine_mistake, write_tools_mistake};
pub use quoted::Seek;
pub use sheet::write_sheet;
pub use warned::{write_warning_facts, write_warning_remarks, write_warnings};
