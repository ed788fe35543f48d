ghost use Rattle.std.specs.Prelude.{◌≡◌, OnOk, OnErr};
ghost use Rattle.std.specs.Io.KnownBytes.{Appends};
ghost use Rattle.ngc_text.specs.Failures.{CountsFailure};
ghost use Rattle.ngc_text.specs.Written.{AppendsPrefix};

use crate::device::Sink;
use thiserror::Error;

/// Fault 902: a write failed.
#[derive(Clone, Copy, Debug, PartialEq, Eq, Error)]
#[error("the output was not written")]
pub struct WriteFault;

impl WriteFault {
    /// Returns the fault's number.
    pub fn number(&self) -> u16
        ensures { result ≡ 902 }
    {
        902
    }
}

/// Writes the whole text. After a fault a prefix of it is written, and the sink has counted the
/// failure.
pub fn write_all<W: Sink>(sink: &mut W, text: &[u8]) -> Result<(), WriteFault>
    ensures ok { OnOk result (Appends (W.written sink.old) (W.written sink.new) text.now) }
    ensures fault { OnErr result
        (AppendsPrefix (W.written sink.old) (W.written sink.new) text.now) }
    ensures counts { CountsFailure (W.failures sink.old) (W.failures sink.new) result }
{
    let mut done = 0;
    while done < text.len() {
        match sink.push(&text[done..]) {
            Ok(count) => done += count,
            Err(_) => return Err(WriteFault),
        }
    }
    Ok(())
}
