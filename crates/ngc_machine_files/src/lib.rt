//! The machine and its tools, and the files that describe them.
#![tactic(auto)]

mod built_in;
mod fault;
mod machine;
mod machine_contents;
mod machine_ranges;
mod machine_reader;
mod name;
mod numbers;
mod part_length;
mod parts;
mod tool_contents;
mod tool_ranges;
mod tool_reader;
mod tools;
mod tree;

pub use built_in::built_in_machine;
pub use fault::FileFault;
pub use machine::{
    ArcFeed, AxisLimits, AxisRates, AxisTurns, Fixture, Machine, Margins, Rapids, StockBox,
};
pub use machine_contents::{
    Coordinates, Corners, LimitNumbers, MACHINE_KEYS, MachineContents, MachineNumbers,
    MachineOptions, MachinePoints, OptionalNumbers, StockNumbers,
};
pub use name::Name;
pub use part_length::PartLength;
pub use parts::{Part, Parts};
pub use tool_contents::{PartEntry, ToolContents, ToolEntry};
pub use tools::{Tool, Tools};
pub use tree::{
    coordinates, coordinates_at, dialect_at, has_only, is_one_of, name_at, rapids_at, read_tree,
    whole_at, whole_or,
};
