//! The commands of a part program: what its lines mean on a machine with its tools.
#![tactic(auto)]

mod arcs;
mod cycles;
mod deleted;
mod fault;
mod interpreter;
pub mod laws;
mod motions;
mod perform;
mod places;
mod program;
mod spindle;
mod state;

pub use deleted::has_deleted_lines;
pub use fault::{Fault, ProgramFault};
pub use ngc_commands::{Action, Command, CoolantState, Feed, Motion, Pace, SpindleState, Way};
pub use ngc_machine_files::{FileFault, Fixture, Machine, Tool, Tools, built_in_machine};
pub use program::{Work, interpret};
pub use state::Interpreter;
