ghost use Rattle.std.specs.Prelude.{◌≡◌, ◌^◌, [], ◌∷◌};
ghost use Rattle.ngc_run_through.specs.Recording.{AreAtMost, Counts};
ghost use Rattle.ngc_run_through.specs.Runs.{number_of};

use ngc_events::{Event, EventFault, Reply};
use ngc_fixed_length::StepPos;
use ngc_text::WriteFault;
use thiserror::Error;

/// The result of a run.
#[derive(Clone, Copy)]
pub struct Report {
    /// The number of ticks.
    pub ticks: u128,
    /// The number of path steps: pulses, each of which moves one axis or more.
    pub path_steps: u128,
    /// The number of refused events.
    pub refused: u128,
    /// The machine's last position, in steps.
    pub position: StepPos,
}

impl Report {
    /// Counts an event and its outcome.
    pub(crate) fn count(&mut self, event: Event, outcome: &Result<Reply, EventFault>)
        requires { AreAtMost (2 ^ 126) self.old }
        ensures { Counts (event ∷ []) (outcome.now ∷ []) self.old self.new }
    {
        if let Event::Tick = event {
            self.ticks += 1;
        }
        match outcome {
            Ok(
                Reply::Ticked {
                    position: Some(position),
                    ..
                },
            ) => {
                self.path_steps += 1;
                self.position = *position;
            }
            Ok(_) => {}
            Err(_) => self.refused += 1,
        }
    }
}

/// The reason why a run has no report.
#[derive(Clone, Copy, Debug, PartialEq, Eq, Error)]
pub enum RunFault {
    /// 900: there is too little memory.
    #[error("out of memory")]
    Memory,
    /// 902: a write failed.
    #[error(transparent)]
    Write(WriteFault),
}

impl RunFault {
    /// Returns the fault's number.
    pub fn number(&self) -> u16
        ensures { result ≡ number_of self.now }
    {
        match self {
            RunFault::Memory => 900,
            RunFault::Write(_) => 902,
        }
    }
}
