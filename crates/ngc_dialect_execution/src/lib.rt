//! Executes programs for LinuxCNC, Grbl, Mach3 and Fanuc: each line becomes plain lines of our own
//! language, and our own interpreter executes them.
#![tactic(auto)]

mod beside;
mod doing;
mod fault;
mod flow;
mod framing;
pub mod laws;
mod lines;
mod program;
mod reading;
mod repeats;
mod run;
mod saving;
mod text;
mod words;

pub use fault::{Cause, DialectFault, Refusal};
pub use lines::{DialectInterpreter, Taken};
pub use program::{Traced, interpret_dialect, interpret_dialect_with_frames, trace_dialect};
pub use run::{KeptLine, Wanted};
pub use text::has_deleted_lines;
pub use words::WordInterpreter;
