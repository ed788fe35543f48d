ghost use Rattle.std.specs.Prelude.{◌≡◌};
ghost use Rattle.ngc_events.specs.Faults.{event_fault_number};

use thiserror::Error;

/// Why the machine refuses an event. The machine is then unchanged.
#[derive(Clone, Copy, Debug, PartialEq, Eq, Error)]
pub enum EventFault {
    /// 701: the override is over 200 percent.
    #[error("override over 200 percent")]
    OverrideTooLarge,
    /// 702: a load while the machine's ring is full: its commands are loaded and not done.
    #[error("no room for a command")]
    RingFull,
    /// 703: a load after the last command.
    #[error("all commands are loaded")]
    AllLoaded,
}

impl EventFault {
    /// Returns the fault's number.
    pub fn number(&self) -> u16
        ensures { result ≡ event_fault_number self.now }
    {
        match self {
            EventFault::OverrideTooLarge => 701,
            EventFault::RingFull => 702,
            EventFault::AllLoaded => 703,
        }
    }
}
