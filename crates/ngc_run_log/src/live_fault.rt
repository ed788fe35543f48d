ghost use Rattle.std.specs.Prelude.{◌≡◌};
ghost use Rattle.ngc_run_log.specs.LiveFaults.{live_number};

use ngc_events::EventsFault;
use ngc_text::WriteFault;
use thiserror::Error;

/// The reason why a live run ended early.
#[derive(Clone, Copy, Debug, PartialEq, Eq, Error)]
pub enum LiveFault {
    /// 711, 712: a line isn't an event.
    #[error(transparent)]
    Events(EventsFault),
    /// 901: the source of the events failed.
    #[error("a source failed")]
    Read,
    /// 902: a write failed.
    #[error(transparent)]
    Write(WriteFault),
}

impl LiveFault {
    /// Returns the fault's number.
    pub fn number(&self) -> u16
        ensures { result ≡ live_number self.now }
    {
        match self {
            LiveFault::Events(fault) => fault.number(),
            LiveFault::Read => 901,
            LiveFault::Write(_) => 902,
        }
    }
}
