ghost use Rattle.std.specs.Prelude.{◌≡◌};

use thiserror::Error;

/// The reasons why a text is not read as a certificate.
#[derive(Clone, Copy, Debug, PartialEq, Eq, Error)]
pub enum CertificateFault {
    /// The first line is wrong, or lacks its line feed.
    #[error("no certificate of version 1 or 2")]
    WrongHeader,
    /// The line with this number, from 1, is wrong or missing, or is after the end.
    #[error("wrong line {}", .0)]
    BadLine(u32),
    /// A number in the line with this number, from 1, is out of its range, or a box's low corner is
    /// above its high corner.
    #[error("number out of range in line {}", .0)]
    OutOfRange(u32),
    /// There is no memory for the certificate.
    #[error("out of memory")]
    Memory,
    /// The source failed.
    #[error("read failed")]
    ReadFailed,
}

impl CertificateFault {
    ghost use Rattle.ngc_certificate_text.specs.Faults.{number_of, line_of};

    /// Returns the fault's number: 301 to 303, 900 or 901.
    pub fn number(&self) -> u16
        ensures { result ≡ number_of self.now }
    {
        match self {
            CertificateFault::WrongHeader => 302,
            CertificateFault::BadLine(_) => 301,
            CertificateFault::OutOfRange(_) => 303,
            CertificateFault::Memory => 900,
            CertificateFault::ReadFailed => 901,
        }
    }

    /// Returns the number of the line at fault, from 1, if a line is at fault. All lines from 2^32
    /// - 1 on have that number.
    pub fn line(&self) -> Option<u32>
        ensures { result ≡ line_of self.now }
    {
        match self {
            CertificateFault::WrongHeader => Some(1),
            CertificateFault::BadLine(line) | CertificateFault::OutOfRange(line) => Some(*line),
            CertificateFault::Memory | CertificateFault::ReadFailed => None,
        }
    }
}
