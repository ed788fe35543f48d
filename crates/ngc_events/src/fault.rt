ghost use Rattle.std.specs.Prelude.{◌≡◌};

use thiserror::Error;

/// Why an events file is refused.
#[derive(Clone, Copy, Debug, PartialEq, Eq, Error)]
pub enum EventsFault {
    /// 711: the line of this number, from 1, is no event or lacks its line feed.
    #[error("wrong line {}", .0)]
    BadLine(u64),
    /// 712: there are more than 1,000,000 lines.
    #[error("too many lines")]
    TooManyLines,
    /// 900: there is not enough memory for the events.
    #[error("out of memory")]
    Memory,
}

impl EventsFault {
    ghost use Rattle.ngc_events.specs.Faults.{number_of};

    /// Returns the fault's number: 711, 712 or 900.
    pub fn number(&self) -> u16
        ensures { result ≡ number_of self.now }
    {
        match self {
            EventsFault::BadLine(_) => 711,
            EventsFault::TooManyLines => 712,
            EventsFault::Memory => 900,
        }
    }
}
