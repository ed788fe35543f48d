//! The flow of programs for LinuxCNC, Mach3 and Fanuc: which line is executed next, by O words, M98 and
//! M99, and Fanuc's statements. The caller reads and executes the lines.
#![tactic(auto)]

mod call;
mod effect;
mod fault;
mod key;
pub mod laws;
mod mark;
mod repetition;
mod returning;
mod search;
mod state;
mod step;
mod table;
mod words;

pub use effect::Effect;
pub use fault::Cause;
pub use returning::leave_with;
pub use state::State;
pub use table::Table;
