ghost use Rattle.std.specs.Prelude.{◌≡◌};

use thiserror::Error;

/// The reasons why a file is not read.
#[derive(Clone, Copy, Debug, PartialEq, Eq, Error)]
pub enum InputFault {
    /// There is no memory for its bytes.
    #[error("out of memory")]
    Memory,
    /// The source failed.
    #[error("read failed")]
    Device,
    /// The file has more bytes than the limit.
    #[error("file too long")]
    TooLong,
}

impl InputFault {
    ghost use Rattle.ngc_text.specs.Input.{number_of};

    /// Returns the fault's number.
    pub fn number(&self) -> u16
        ensures { result ≡ number_of self.now }
    {
        match self {
            InputFault::Memory => 900,
            InputFault::Device | InputFault::TooLong => 901,
        }
    }
}
