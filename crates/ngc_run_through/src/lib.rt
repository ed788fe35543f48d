//! Runs of the machine through a whole program, and the record of any run: its report, and its text,
//! which is a log, or the pulses as a dump or as samples.
#![tactic(auto)]

mod counting;
pub mod laws;
mod log_line;
mod recorder;
mod report;
mod switches;
mod text_state;
mod through;
mod timing;
mod trace;

pub use recorder::Recorder;
pub use report::{Report, RunFault};
pub use switches::{Switches, switches_for};
pub use text_state::TextState;
pub use through::{
    run_through, write_pulses_through, write_samples_through, write_timed_log_through,
};
pub use timing::{Timing, time_through};
pub use trace::{Form, Trace};
