//! What tests share: sources and sinks that are slow, endless or fail, whose bytes no contract knows,
//! so that a test with them shows behaviour that the contracts leave open; a machine file and a tool
//! table.
#![tactic(auto)]

mod endless_source;
mod failing_sink;
mod files;
mod slow_source;

pub use endless_source::EndlessSource;
pub use failing_sink::FailingSink;
pub use files::{MACHINE, TOOLS};
pub use slow_source::SlowSource;
