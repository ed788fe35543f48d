ghost use Rattle.std.specs.Prelude.{◌≡◌};
ghost use Rattle.ngc_report.specs.declared.report_fault.ReportFault.TheVariants.{Write};

use ngc_text::WriteFault;
use thiserror::Error;

/// The reason why a report of a job is incomplete.
#[derive(Clone, Copy, Debug, Error)]
pub enum ReportFault {
    /// 900: memory ran out; nothing is written.
    #[error("out of memory")]
    Memory,
    /// 902: a write failed; a prefix of the output is written, or nothing.
    #[error(transparent)]
    Write(WriteFault),
}

impl From<WriteFault> for ReportFault {
    ghost from_gives = { λ fault answer. answer ≡ Write fault };

    fn from(fault: WriteFault) -> ReportFault {
        ReportFault::Write(fault)
    }
}
