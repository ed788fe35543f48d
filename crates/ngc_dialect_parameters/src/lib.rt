//! The parameters of programs for LinuxCNC, Grbl, Mach3 and Fanuc, and the values of their lines: a
//! line's parts are executed on a stack, from left to right.
#![tactic(auto)]

mod control;
mod evaluation;
mod fault;
mod index;
pub mod laws;
mod names;
mod operation;
mod parameters;
mod reference;
mod rules;
mod statement;
mod store;
mod values;

pub use control::Control;
pub use fault::{Cause, EvaluationFault, StoreFault};
pub use parameters::Parameters;
pub use statement::{Statement, Word};
pub use values::LineValues;
