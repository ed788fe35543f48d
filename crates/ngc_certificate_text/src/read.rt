ghost use Rattle.std.specs.Prelude.{◌≡◌, IfOk, IfSome};
ghost use Rattle.ngc_text.specs.Failures.{Rises};
ghost use Rattle.ngc_certificate_text.specs.Contents.{certificate_data, form_of};
ghost use Rattle.ngc_certificate_text.specs.Joined.{contents};
ghost use Rattle.ngc_certificate_text.specs.Pulled.{FailsByReading};
ghost use Rattle.ngc_certificate_text.specs.ParsedPart.{parsed_certificate, parsed_form};
ghost use Rattle.ngc_certificate_text.specs.Given.{CertificateResultIs};
ghost use Rattle.ngc_certificate_text.specs.declared.fault.CertificateFault.TheVariants.{ReadFailed};

use crate::certificate::Certificate;
use crate::fault::CertificateFault;
use crate::reader::CertificateReader;
use ngc_text::Source;
use std::alloc::Allocator;

// Reads a certificate, with its version.
fn read_form<A: Allocator + Copy, R: Source>(
    alloc: A,
    source: &mut R,
) -> Result<Certificate<A>, CertificateFault>
    ensures form { IfSome (R.remaining source.old)
        (λ bytes. CertificateResultIs form_of result (parsed_form bytes)) }
    ensures said { IfOk result (λ c. certificate_data c ≡ contents (form_of c)) }
    ensures device { result ≡ Err ReadFailed →
        Rises (R.failures source.old) (R.failures source.new) }
    ensures counted { FailsByReading result (R.failures source.old) (R.failures source.new) }
{
    let mut reader = CertificateReader::new(alloc);
    let mut chunk = [0u8; 65_536];
    loop {
        let count = match source.pull(&mut chunk) {
            Ok(count) => count,
            Err(_) => return Err(CertificateFault::ReadFailed),
        };
        if count == 0 {
            return reader.finish();
        }
        match reader.feed(&chunk[..count]) {
            Ok(()) => {}
            Err(fault) => return Err(fault),
        }
        // Bytes after the end are a fault before their line is complete.
        if reader.has_trailing_bytes() {
            break;
        }
    }
    reader.finish()
}

impl<A: Allocator + Copy> Certificate<A> {
    /// Reads a certificate of either version, or returns the first line at fault: 302 if the first
    /// line is wrong or lacks its line feed, 303 if a number is out of its range or a box's low
    /// corner is above its high corner, 301 for any other wrong line, for a missing one, for one of
    /// more than 256 bytes and for bytes after the end.
    ///
    /// It stops pulling after a fault or after the end of the text. It allocates memory only for
    /// what it reads, not for the counts that the text declares.
    pub fn read<R: Source>(alloc: A, source: &mut R) -> Result<Certificate<A>, CertificateFault>
        // If the source's bytes are known, the result is the one that they define, except for lack
        // of memory and a failure of the source.
        ensures said { IfSome (R.remaining source.old)
            (λ bytes. CertificateResultIs certificate_data result (parsed_certificate bytes)) }
        // The same holds for its form.
        ensures form { IfSome (R.remaining source.old)
            (λ bytes. CertificateResultIs form_of result (parsed_form bytes)) }
        // `ReadFailed` is returned only if the source failed.
        ensures device { result ≡ Err ReadFailed →
            Rises (R.failures source.old) (R.failures source.new) }
        ensures counted { FailsByReading result (R.failures source.old) (R.failures source.new) }
    {
        read_form(alloc, source)
    }
}
