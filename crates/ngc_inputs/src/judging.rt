//! The checker's verdict on a program and a certificate, whose text is judged as it is read.
ghost use Rattle.std.specs.Prelude.{◌≡◌, [], ◌∷◌, IfSome, List, Some, Err};
ghost use Rattle.ngc_canonical.specs.Interpreter.{setup_of};
ghost use Rattle.ngc_canonical.specs.Meaning.{parsed_program};
ghost use Rattle.ngc_certificate_text.specs.Pulled.{FailsByReading};
ghost use Rattle.ngc_certificate_text.specs.declared.fault.CertificateFault.TheVariants.{ReadFailed};
ghost use Rattle.ngc_line_reader.specs.Grammar.{Reading};
ghost use Rattle.ngc_line_reader.specs.ProgramText.{AreReadings};
ghost use Rattle.ngc_line_reader.specs.ProgramView.{text_in};
ghost use Rattle.ngc_text.specs.Failures.{Rises};
ghost use Rattle.ngc_inputs.specs.Judging.{Judges};
ghost use Rattle.ngc_inputs.specs.Setups.{KeepsFiles};
ghost use Rattle.ngc_inputs.specs.Unread.{FailsBy, OfCertificate, SourceFails};
ghost use Rattle.ngc_inputs.specs.Unread.{certificate_unread};

use crate::files::Files;
use crate::setup::Shop;
use ngc_certificate_text::CertificateFault;
use ngc_checker::{Accepted, CheckFault, CheckReadFault, check_source};
use ngc_line_reader::Program;
use ngc_machine_files::{Machine, Tools};
use ngc_text::Source;
use std::alloc::{Allocator, Global};

/// The result of `check` for a program and a certificate: the accepted program, or the first
/// refusal.
pub type Verdict<A> = Result<Accepted<A>, CheckFault>;

/// Judges the certificate of a source for a program on a machine with its tools.
///
/// It returns the result of `check` for that certificate, or the fault of a text that isn't a
/// certificate: 301 to 303, 900, 901. The text is read 64 KiB at a time, and no box of it is kept.
pub fn judge<A: Allocator + Copy, S: Source>(
    alloc: A,
    program: &Program<A>,
    machine: &Machine<A>,
    tools: &Tools<A>,
    certificate: &mut S,
) -> Result<Verdict<A>, CertificateFault>
    // Where the source's bytes are known, and for any readings of the lines: each line has exactly
    // one.
    ensures judges { (rs : List Reading) → AreReadings (text_in program.now).lines rs →
        IfSome (S.remaining certificate.old)
        (λ text. Judges (parsed_program (text_in program.now) rs) (setup_of machine.now tools.now)
        text result) }
    // Only a source that failed is reported as failed.
    ensures device { result ≡ Err ReadFailed →
        Rises (S.failures certificate.old) (S.failures certificate.new) }
    ensures counted { FailsByReading result (S.failures certificate.old)
        (S.failures certificate.new) }
{
    match check_source(alloc, program, machine, tools, certificate) {
        Ok(accepted) => Ok(Ok(accepted)),
        Err(CheckReadFault::Check(fault)) => Ok(Err(fault)),
        Err(CheckReadFault::Certificate(fault)) => Err(fault),
    }
}

/// Judges the certificate of the named file for a program on a machine with its tools.
pub fn judge_file<F: Files>(
    alloc: Global,
    program: &Program<Global>,
    shop: &Shop,
    name: &str,
    files: &mut F,
) -> Result<Verdict<Global>, CertificateFault>
    ensures judges { (rs : List Reading) → AreReadings (text_in program.now).lines rs →
        IfSome (F.bytes files.old (Some name.now))
        (λ text. Judges (parsed_program (text_in program.now) rs)
        (setup_of shop.now.machine shop.now.tools) text result) }
    ensures keeps { KeepsFiles (F.bytes files.old) (F.bytes files.new) }
    // 901 is returned only where the file can't be opened or its source fails.
    ensures unread { FailsBy certificate_unread (SourceFails F.R.remaining F.R.failures)
        (F.bytes files.old) (record { kind = OfCertificate; name = Some name.now } ∷ [])
        (F.failures files.old) (F.failures files.new) result }
{
    match files.source(Some(name)) {
        Ok(mut source) => judge(alloc, program, &shop.machine, &shop.tools, &mut source),
        Err(_) => Err(CertificateFault::ReadFailed),
    }
}
