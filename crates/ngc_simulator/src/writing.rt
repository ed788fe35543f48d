//! The output of a run, from the options.
ghost use Rattle.std.specs.Prelude.{◌≡◌, option_map};
ghost use Rattle.ngc_simulator.specs.Writing.{is_own_name, own_writing, timed_writing, writing_named};

use ngc_command_line::Recording;

/// The output of a run.
#[derive(Clone, Copy)]
pub enum Writing {
    /// The log.
    Log,
    /// The log, each line of which begins with the number of ticks before its event.
    Times,
    /// The pulses as a value change dump.
    Dump,
    /// The pulses as samples: two bytes for each tick, in which the bits of a mask are turned over.
    Samples(u8),
}

// Returns the output where no form is named.
fn own_writing(recording: Recording) -> Writing
    ensures { result ≡ own_writing recording }
{
    match recording {
        Recording::Log => Writing::Log,
        Recording::Pulses => Writing::Dump,
    }
}

fn is_own_name(recording: Recording, name: &str) -> bool
    ensures { result ≡ is_own_name recording name.now }
{
    match recording {
        Recording::Log => name == "log",
        Recording::Pulses => name == "vcd",
    }
}

// Returns the log with ticks, if this is its name.
fn timed_writing(recording: Recording, name: &str) -> Option<Writing>
    ensures { result ≡ timed_writing recording name.now }
{
    match recording {
        Recording::Log => {
            if name == "times" {
                Some(Writing::Times)
            } else {
                None
            }
        }
        Recording::Pulses => None,
    }
}

/// Returns the output of a command that records this, in the form with this name, if it has one.
pub(crate) fn writing_of(
    recording: Recording,
    output: Option<&str>,
    inverted: u8,
) -> Option<Writing>
    ensures { result ≡ writing_named recording (option_map (λ name. name.now) output.entry) inverted }
{
    match output {
        None => Some(own_writing(recording)),
        Some(name) => {
            if name == "samples" {
                Some(Writing::Samples(inverted))
            } else if is_own_name(recording, name) {
                Some(own_writing(recording))
            } else {
                timed_writing(recording, name)
            }
        }
    }
}
