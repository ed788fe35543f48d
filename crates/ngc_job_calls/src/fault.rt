//! Why a call isn't begun.
ghost use Rattle.std.specs.Prelude.{◌≡◌};
ghost use Rattle.ngc_job_calls.specs.Faults as spec;

/// The reason why a call isn't begun.
#[derive(Drop)]
pub enum CallFault {
    /// The words are refused, with this text.
    Usage(&'static str),
    /// Memory ran out.
    Memory,
    /// The job file that the words name isn't read, or a job file is too long.
    Unread,
    /// The job file is refused, with this text.
    Refused(Vec<u8>),
}

impl CallFault {
    /// Returns the lines for standard error.
    pub fn text(&self) -> &[u8]
        ensures { result.now ≡ spec.text_of self.now }
    {
        match self {
            CallFault::Usage(text) => text.as_bytes(),
            CallFault::Memory => b"ngc: fault 900\n",
            CallFault::Unread => b"ngc: fault 901\n",
            CallFault::Refused(text) => text.as_slice(),
        }
    }

    /// Returns the exit status: 1 for memory and files that aren't read, 2 for the words, 3 for a job
    /// file that is refused.
    pub fn status(&self) -> u8
        ensures { result ≡ spec.status_of self.now }
    {
        match self {
            CallFault::Usage(_) => 2,
            CallFault::Memory | CallFault::Unread => 1,
            CallFault::Refused(_) => 3,
        }
    }
}
