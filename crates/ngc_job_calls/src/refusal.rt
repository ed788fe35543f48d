//! What is printed of a refused job file.
ghost use Rattle.std.specs.Prelude.{◌≡◌, IfOk};
ghost use Rattle.ngc_refused_files.specs.Stops.{StopsWhere};
ghost use Rattle.ngc_job_calls.specs.Refused as spec;

use ngc_machine_figures::FileRefusal;
use ngc_refused_files::{write_refusal, write_stop};
use ngc_text::{Device, WriteFault, write_all};
use std::alloc::Global;
use toml::de::Error;

/// Returns what is printed of a job file with this mistake.
pub(crate) fn refused_text(
    alloc: Global,
    name: &[u8],
    bytes: &[u8],
    refusal: &FileRefusal,
) -> Result<Vec<u8>, WriteFault>
    ensures { IfOk result (λ text. text.items ≡ spec.refused_text name.now bytes.now refusal.now) }
{
    let mut sink = Device::new(Vec::new(alloc));
    write_refusal(name, bytes, refusal, &mut sink)?;
    write_all(&mut sink, b"ngc: fault 269 job\n")?;
    Ok(sink.into_inner())
}

/// Returns what is printed of a job file that is no TOML document.
pub(crate) fn no_document_text(
    alloc: Global,
    name: &[u8],
    bytes: &[u8],
    error: &Error,
) -> Result<Vec<u8>, WriteFault>
    ensures { IfOk result (λ text. StopsWhere bytes.now (λ stop.
        text.items ≡ spec.no_document_text name.now bytes.now stop)) }
{
    let mut sink = Device::new(Vec::new(alloc));
    write_stop(name, bytes, error, &mut sink)?;
    write_all(&mut sink, b"ngc: fault 269 job\n")?;
    Ok(sink.into_inner())
}
