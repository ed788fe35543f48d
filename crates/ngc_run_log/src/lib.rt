//! Runs of the machine over events: from a list, or while the events arrive.
#![tactic(auto)]

mod feeding;
mod live;
mod live_fault;
mod live_form;
mod live_rest;
mod live_source;
mod runner;

pub use live::LiveRun;
pub use live_fault::LiveFault;
pub use live_form::LiveForm;
pub use live_rest::{brake, feed_to_rest};
pub use live_source::{LiveInput, feed_from, feed_next};
pub use runner::{run, write_pulses, write_samples, write_timed_log};
