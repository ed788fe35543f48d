//! Programs and certificates, from the files that the command line names.
ghost use Rattle.std.specs.Prelude.{◌≡◌, [], ◌∷◌, IfErr, IfOk, IfSome, IsSome, Some, option_map};
ghost use Rattle.ngc_certificate_text.specs.Contents.{certificate_data};
ghost use Rattle.ngc_certificate_text.specs.Given.{CertificateResultIs};
ghost use Rattle.ngc_certificate_text.specs.ParsedPart.{parsed_certificate};
ghost use Rattle.ngc_line_reader.specs.ProgramText.{program_of, HaveReadings};
ghost use Rattle.ngc_line_reader.specs.ProgramView.{text_in, OutcomeIs};
ghost use Rattle.ngc_text.specs.Failures.{CountsFailure};
ghost use Rattle.ngc_inputs.specs.Setups.{KeepsFiles, KeepsNamed};
ghost use Rattle.ngc_inputs.specs.Unread.{FailsBy, OfCertificate, OfProgram, SourceFails};
ghost use Rattle.ngc_inputs.specs.Unread.{certificate_unread, program_unread};

use crate::files::Files;
use ngc_certificate_text::{Certificate, CertificateFault};
use ngc_line_reader::{Program, ReadFault};
use ngc_text::InputFault;
use std::alloc::Global;

/// Returns the source of the bytes of the named file, or of standard input: 901 where it can't be
/// opened.
pub fn open_file<F: Files>(name: Option<&str>, files: &mut F) -> Result<F::R, InputFault>
    ensures bytes { IfOk result
        (λ source. F.R.remaining source ≡ F.bytes files.old (option_map (λ n. n.now) name.entry)) }
    ensures keeps { IsSome name.entry → KeepsFiles (F.bytes files.old) (F.bytes files.new) }
    ensures named { KeepsNamed (F.bytes files.old) (F.bytes files.new) }
    ensures fault { IfErr result (λ fault. fault ≡ InputFault.Device) }
    ensures counts { CountsFailure (F.failures files.old) (F.failures files.new) result }
{
    match files.source(name) {
        Ok(source) => Ok(source),
        Err(_) => Err(InputFault::Device),
    }
}

/// Returns the program of the named file, or of standard input.
pub fn read_program<F: Files>(
    alloc: Global,
    name: Option<&str>,
    files: &mut F,
) -> Result<Program<Global>, ReadFault>
    ensures text { IfSome (F.bytes files.old (option_map (λ n. n.now) name.entry))
        (λ bytes. OutcomeIs result (program_of bytes)) }
    ensures readings { IfOk result (λ p. HaveReadings (text_in p).lines) }
    ensures keeps { IsSome name.entry → KeepsFiles (F.bytes files.old) (F.bytes files.new) }
    ensures named { KeepsNamed (F.bytes files.old) (F.bytes files.new) }
    // 901 is returned only where the file can't be opened or its source fails.
    ensures unread { FailsBy program_unread (SourceFails F.R.remaining F.R.failures)
        (F.bytes files.old)
        (record { kind = OfProgram; name = option_map (λ n. n.now) name.entry } ∷ [])
        (F.failures files.old) (F.failures files.new) result }
{
    let mut source = files.source(name)?;
    Program::read(alloc, &mut source)
}

/// Returns the certificate of the named file.
pub fn read_certificate<F: Files>(
    alloc: Global,
    name: &str,
    files: &mut F,
) -> Result<Certificate<Global>, CertificateFault>
    ensures said { IfSome (F.bytes files.old (Some name.now))
        (λ bytes. CertificateResultIs certificate_data result (parsed_certificate bytes)) }
    ensures keeps { KeepsFiles (F.bytes files.old) (F.bytes files.new) }
    // 901 is returned only where the file can't be opened or its source fails.
    ensures unread { FailsBy certificate_unread (SourceFails F.R.remaining F.R.failures)
        (F.bytes files.old) (record { kind = OfCertificate; name = Some name.now } ∷ [])
        (F.failures files.old) (F.failures files.new) result }
{
    match files.source(Some(name)) {
        Ok(mut source) => Certificate::read(alloc, &mut source),
        Err(_) => Err(CertificateFault::ReadFailed),
    }
}
