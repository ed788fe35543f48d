//! The parameters, and the values of a line's words.
#![tactic(auto)]

mod change;
mod evaluation;
mod fault;
mod parameters;
mod store;

pub use change::Change;
pub use evaluation::evaluate;
pub use fault::EvalFault;
pub use parameters::Store;
pub use store::{Changes, LineValues};
