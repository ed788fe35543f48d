ghost use Rattle.std.specs.Prelude.{◌≡◌};
ghost use Rattle.ngc_checker.specs.Faults.{read_number};

use crate::fault::CheckFault;
use ngc_certificate_text::CertificateFault;
use thiserror::Error;

/// The reasons why a certificate that is checked while it is read isn't accepted.
#[derive(Clone, Copy, Debug, PartialEq, Eq, Error)]
pub enum CheckReadFault {
    /// The text is no certificate, 301 to 303, or could not be read: 900, 901.
    #[error(transparent)]
    Certificate(CertificateFault),
    /// The certificate is refused: 311 to 318.
    #[error(transparent)]
    Check(CheckFault),
}

impl CheckReadFault {
    /// Returns the fault's number.
    pub fn number(&self) -> u16
        ensures { result ≡ read_number self.now }
    {
        match self {
            CheckReadFault::Certificate(fault) => fault.number(),
            CheckReadFault::Check(fault) => fault.number(),
        }
    }
}
