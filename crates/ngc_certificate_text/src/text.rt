ghost use Rattle.std.specs.Prelude.{◌≡◌, ◌≢◌, ℕ, ◌+◌, ◌≤◌, List, [], ◌++◌, length, IsTrue, IfOk};
ghost use Rattle.std.specs.Prelude.{OnOk, Err};
ghost use Rattle.ngc_certificate_text.specs.Contents.{certificate_data, form_of};
ghost use Rattle.ngc_certificate_text.specs.Given.{CertificateResultIs};
ghost use Rattle.ngc_certificate_text.specs.Joined.{contents};
ghost use Rattle.ngc_certificate_text.specs.LinesView.{room_of};
ghost use Rattle.ngc_certificate_text.specs.Parted.{firm, firm_lines, PartsLines};
ghost use Rattle.ngc_certificate_text.specs.Reader.{StepResultIs};
ghost use Rattle.ngc_certificate_text.specs.Resumed.{resumed, IsResuming};
ghost use Rattle.ngc_certificate_text.specs.ParsedPart.{lines_of, parsed_form};

use crate::certificate::Certificate;
use crate::certificate_lines::CertificateLines;
use crate::fault::CertificateFault;
use crate::found::Found;
use std::alloc::Allocator;

/// The lines of a certificate's text, and their contents so far.
#[derive(Drop)]
pub struct TextSoFar<A: Allocator> {
    lines: CertificateLines,
    found: Found<A>,
}

impl<A: Allocator> TextSoFar<A> {
    pub(crate) fn new(alloc: A) -> TextSoFar<A>
    where
        A: Copy,
        ensures reading { IsResuming result }
        ensures begins { (bytes : List ℕ) → parsed_form bytes ≡ resumed result lines_of bytes }
        ensures firm { (bytes rest : List ℕ) →
            parsed_form (firm bytes ++ rest) ≡ resumed result (firm_lines rest) bytes }
    {
        TextSoFar {
            lines: CertificateLines::new(),
            found: Found::new(alloc),
        }
    }

    /// Reads more bytes of the text.
    pub(crate) fn feed(&mut self, bytes: &[u8]) -> Result<(), CertificateFault>
        requires { IsResuming self.old }
        ensures step { (lines : List ℕ → List (List ℕ)) → PartsLines lines → (rest : List ℕ) →
            StepResultIs result (resumed self.old lines (bytes.now ++ rest))
            (resumed self.new lines rest) }
        ensures reading { OnOk result (IsResuming self.new) }
        ensures room { OnOk result
            (room_of self.new.lines + length bytes.now ≤ room_of self.old.lines) }
        ensures device { result ≢ Err CertificateFault.ReadFailed }
    {
        let mut rest = bytes;
        'lines: loop {
            match self.lines.next(rest) {
                Ok(Some((line_content, afterwards))) => match self.found.take(&line_content) {
                    Ok(()) => rest = afterwards,
                    Err(_) => return Err(CertificateFault::Memory),
                },
                Ok(None) => return Ok(()),
                Err(fault) => return Err(fault),
            }
        }
    }

    /// Returns whether there are bytes after the end of the text.
    pub(crate) fn has_trailing_bytes(&self) -> bool
        ensures { IsTrue result → IsResuming self.now → (rest : List ℕ) →
            resumed self.now lines_of rest ≡ resumed self.now lines_of [] }
    {
        self.lines.has_trailing_bytes()
    }

    /// Returns the certificate, after the last byte.
    pub(crate) fn finish(self) -> Result<Certificate<A>, CertificateFault>
        requires { IsResuming self }
        ensures form { CertificateResultIs form_of result (resumed self lines_of []) }
        ensures said { IfOk result (λ c. certificate_data c ≡ contents (form_of c)) }
        ensures device { result ≢ Err CertificateFault.ReadFailed }
    {
        match self.lines.finish() {
            Ok(()) => {
                let TextSoFar { lines: _, found } = self;
                Ok(found.into_certificate())
            }
            Err(fault) => Err(fault),
        }
    }
}
