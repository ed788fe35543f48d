ghost use Rattle.std.specs.Prelude.{◌≡◌, List, IfSome, Err};
ghost use Rattle.ngc_text.specs.Failures.{Rises};
ghost use Rattle.ngc_line_reader.specs.Grammar.{Reading};
ghost use Rattle.ngc_line_reader.specs.ProgramText.{AreReadings};
ghost use Rattle.ngc_line_reader.specs.ProgramView.{text_in};
ghost use Rattle.ngc_canonical.specs.Interpreter.{setup_of};
ghost use Rattle.ngc_canonical.specs.Meaning.{parsed_program};
ghost use Rattle.ngc_certificate_text.specs.declared.fault.CertificateFault.TheVariants.{ReadFailed};
ghost use Rattle.ngc_checker.specs.CheckSource.{Returns, ReturnsOfJob, ReturnsOfText, FailsByReading};
ghost use Rattle.ngc_checker.specs.CheckView.{accepted_in, outcome_in};

use crate::accepted::Accepted;
use crate::check_fault::CheckReadFault;
use crate::check_reader::CheckReader;
use ngc_certificate_text::CertificateFault;
use ngc_job::Job;
use ngc_line_reader::Program;
use ngc_machine_files::{Machine, Tools};
use ngc_text::Source;
use std::alloc::Allocator;

// Checks the certificate from a source with a reader that has received no bytes. It stops pulling after
// a fault of the text or after the end of the text.
fn check_pulled<A: Allocator, S: Source>(
    mut reader: CheckReader<A>,
    source: &mut S,
) -> Result<Accepted<A>, CheckReadFault>
    ensures said { IfSome (S.remaining source.old)
        (λ text. Returns (λ a. a) (accepted_in reader) (outcome_in reader text) result) }
    ensures device { result ≡ Err (CheckReadFault.Certificate ReadFailed) →
        Rises (S.failures source.old) (S.failures source.new) }
    ensures counted { FailsByReading result (S.failures source.old) (S.failures source.new) }
{
    let mut chunk = [0u8; 65_536];
    loop {
        let count = match source.pull(&mut chunk) {
            Ok(count) => count,
            Err(_) => return Err(CheckReadFault::Certificate(CertificateFault::ReadFailed)),
        };
        if count == 0 {
            return reader.finish();
        }
        match reader.feed(&chunk[..count]) {
            Ok(()) => {}
            Err(fault) => return Err(CheckReadFault::Certificate(fault)),
        }
        // Bytes after the end are a fault before their line is complete.
        if reader.has_trailing_bytes() {
            break;
        }
    }
    reader.finish()
}

/// Checks whether the certificate from a source shows that a program is safe on a machine with its
/// tools. The result is that of `Certificate::read` and then `check`, but the certificate is
/// checked while it is read, and no box of it is stored.
///
/// A fault of the text takes precedence over 311 to 318. Memory is allocated before anything is
/// pulled: 900 tells nothing about program and text. It stops pulling after a fault of the text or
/// after the end of the text.
pub fn check_source<A: Allocator + Copy, S: Source>(
    alloc: A,
    program: &Program<A>,
    machine: &Machine<A>,
    tools: &Tools<A>,
    source: &mut S,
) -> Result<Accepted<A>, CheckReadFault>
    // This holds if the source's bytes are known, and for all readings of the lines: each line has
    // exactly one.
    ensures said { (rs : List Reading) → AreReadings (text_in program.now).lines rs →
        IfSome (S.remaining source.old)
        (λ text. ReturnsOfText (λ a. a) (parsed_program (text_in program.now) rs)
        (setup_of machine.now tools.now) text result) }
    // `ReadFailed` is returned only if the source failed.
    ensures device { result ≡ Err (CheckReadFault.Certificate ReadFailed) →
        Rises (S.failures source.old) (S.failures source.new) }
    ensures counted { FailsByReading result (S.failures source.old) (S.failures source.new) }
{
    match CheckReader::new(alloc, program, machine, tools) {
        Ok(reader) => check_pulled(reader, source),
        Err(_) => Err(CheckReadFault::Certificate(CertificateFault::Memory)),
    }
}

/// Checks whether the certificate from a source shows that a job is safe, at both settings of block
/// delete. The result is that of `Certificate::read` and then `check_job`, but the certificate is
/// checked while it is read, and no box of it is stored.
///
/// A fault of the text takes precedence over 312 to 319. It allocates no memory. It stops pulling
/// after a fault of the text or after the end of the text.
pub fn check_job_source<A: Allocator, S: Source>(
    job: Job<A>,
    source: &mut S,
) -> Result<Accepted<A>, CheckReadFault>
    // This holds if the source's bytes are known.
    ensures said { IfSome (S.remaining source.old)
        (λ text. ReturnsOfJob (λ a. a) job text result) }
    // `ReadFailed` is returned only if the source failed.
    ensures device { result ≡ Err (CheckReadFault.Certificate ReadFailed) →
        Rises (S.failures source.old) (S.failures source.new) }
    ensures counted { FailsByReading result (S.failures source.old) (S.failures source.new) }
{
    check_pulled(CheckReader::for_job(job), source)
}
