ghost use Rattle.std.specs.Prelude.{◌≡◌, ◌≢◌, ℕ, ◌+◌, ◌<◌, ◌≤◌, List, [], ◌∷◌, ◌++◌, length};
ghost use Rattle.std.specs.Prelude.{IsTrue, IfOk, IfSome, OnOk, MatchOption, MatchResult, Ok, Err};
ghost use Rattle.ngc_certificate_text.specs.Ahead.{certificate_of, form_of_text, left_from};
ghost use Rattle.ngc_certificate_text.specs.Ahead.{made_with, nothing_left};
ghost use Rattle.ngc_certificate_text.specs.declared.expected.Expected.TheVariants as expect;
ghost use Rattle.ngc_certificate_text.specs.LinesView.{left_by, expected_in, IsReading, room_of};
ghost use Rattle.ngc_certificate_text.specs.Parted.{firm, firm_lines, is_feedless, IsSplit};
ghost use Rattle.ngc_certificate_text.specs.Parted.{PartsLines};
ghost use Rattle.ngc_certificate_text.specs.ParsedPart.{lines_of, parsed_certificate, parsed_form};
ghost use Rattle.ngc_certificate_text.specs.LineContent.{IsFront, IsNext, LineResultIs, after_content};

use crate::fault::CertificateFault;
use crate::line_content::LineContent;
use crate::next_line::NextLine;
use arrayvec::ArrayVec;
use memchr::memchr;

/// The lines of a certificate's text that arrives in pieces of any size. Each line is read when its
/// line feed arrives. It stores no more of the text than a line that the end of a piece cut, and
/// nothing of the certificate.
#[derive(Drop)]
pub struct CertificateLines {
    next: NextLine,
    cut: ArrayVec<u8, 256>,
}

// Returns the first line of some bytes, and the bytes after its line feed.
fn split_line(bytes: &[u8]) -> Option<(&[u8], &[u8])>
    ensures { MatchOption result (IsTrue (is_feedless bytes.now))
        (λ p. IsSplit bytes.now p.0.now p.1.now) }
{
    let end = memchr(b'\n', bytes)?;
    let (line, rest) = bytes.split_at(end);
    Some((line, &rest[1..]))
}

impl CertificateLines {
    /// Returns the state before the first byte of the text.
    pub fn new() -> CertificateLines
        ensures reading { IsReading result }
        ensures expected { expected_in result ≡ expect.Header }
        ensures text { (bytes : List ℕ) → parsed_certificate bytes
            ≡ made_with certificate_of (left_by lines_of result bytes) }
        ensures firm { (bytes rest : List ℕ) →
            parsed_certificate (firm bytes ++ rest)
            ≡ made_with certificate_of (left_by (firm_lines rest) result bytes) }
        ensures form { (bytes : List ℕ) → parsed_form bytes
            ≡ made_with form_of_text (left_by lines_of result bytes) }
        ensures firm_form { (bytes rest : List ℕ) →
            parsed_form (firm bytes ++ rest) ≡ made_with form_of_text
            (left_by (firm_lines rest) result bytes) }
    {
        CertificateLines {
            next: NextLine::first(),
            cut: ArrayVec::new(),
        }
    }

    // Adds bytes to the line that is cut.
    fn keep(&mut self, bytes: &[u8]) -> Result<(), CertificateFault>
        requires reading { IsReading self.old }
        requires feedless { IsTrue (is_feedless bytes.now) }
        ensures step { (lines : List ℕ → List (List ℕ)) → PartsLines lines → (rest : List ℕ) →
            MatchResult result
            (λ _. left_by lines self.old (bytes.now ++ rest) ≡ left_by lines self.new rest)
            (λ fault. left_by lines self.old (bytes.now ++ rest) ≡ Err fault) }
        ensures expected { OnOk result (expected_in self.new ≡ expected_in self.old) }
        ensures reading { OnOk result (IsReading self.new) }
        ensures room { OnOk result (room_of self.new + length bytes.now ≤ room_of self.old) }
        ensures memory { result ≢ Err CertificateFault.Memory }
        ensures device { result ≢ Err CertificateFault.ReadFailed }
    {
        match self.cut.try_extend_from_slice(bytes) {
            Ok(()) => Ok(()),
            Err(_) => Err(self.next.wrong_line()),
        }
    }

    // Reads the line that is cut, which ends here.
    fn end_cut(&mut self) -> Result<LineContent, CertificateFault>
        requires { IsReading self.old }
        ensures step { (next : List ℕ) (left : List (List ℕ)) →
            LineResultIs result
            (left_from self.old.next.expected self.old.next.number
            (self.old.cut.items ∷ next ∷ left))
            (left_from self.new.next.expected self.new.next.number (next ∷ left)) }
        ensures expected { IfOk result (λ line_content. IsNext (expected_in self.old) line_content ×
            (expected_in self.new ≡ after_content line_content)) }
        ensures empty { OnOk result (self.new.cut.items ≡ []) }
        ensures reading { OnOk result (IsReading self.new) }
        ensures room { OnOk result (room_of self.new + 1 ≤ room_of self.old) }
        ensures memory { result ≢ Err CertificateFault.Memory }
        ensures device { result ≢ Err CertificateFault.ReadFailed }
    {
        match self.next.read(self.cut.as_slice()) {
            Ok(line_content) => {
                self.cut.clear();
                Ok(line_content)
            }
            Err(fault) => Err(fault),
        }
    }

    // Reads a line that ends with these bytes and a line feed.
    fn end_line(&mut self, bytes: &[u8]) -> Result<LineContent, CertificateFault>
        requires reading { IsReading self.old }
        requires feedless { IsTrue (is_feedless bytes.now) }
        ensures step { (lines : List ℕ → List (List ℕ)) → PartsLines lines → (rest : List ℕ) →
            LineResultIs result (left_by lines self.old (bytes.now ++ (10 ∷ rest)))
            (left_by lines self.new rest) }
        ensures expected { IfOk result (λ line_content. IsNext (expected_in self.old) line_content ×
            (expected_in self.new ≡ after_content line_content)) }
        ensures reading { OnOk result (IsReading self.new) }
        ensures room { OnOk result (room_of self.new + length bytes.now + 1 ≤ room_of self.old) }
        ensures memory { result ≢ Err CertificateFault.Memory }
        ensures device { result ≢ Err CertificateFault.ReadFailed }
    {
        if self.cut.is_empty() {
            return self.next.read(bytes);
        }
        match self.keep(bytes) {
            Ok(()) => self.end_cut(),
            Err(fault) => Err(fault),
        }
    }

    /// Returns the content of the first line that ends in these bytes, and the bytes after it. If
    /// no line ends in them, it stores them and returns `None`. It returns a fault as soon as it is
    /// certain: with its line's line feed, with the 257th byte of a line that is too long, or with
    /// the line before it if no line may follow that one. After a fault it must not be called
    /// again.
    pub fn next<'a>(
        &mut self,
        bytes: &'a [u8],
    ) -> Result<Option<(LineContent, &'a [u8])>, CertificateFault>
        requires { IsReading self.old }
        // This holds however the following bytes are split into lines.
        ensures step { (lines : List ℕ → List (List ℕ)) → PartsLines lines → (rest : List ℕ) →
            MatchResult result
            (λ o. MatchOption o
            (left_by lines self.old (bytes.now ++ rest) ≡ left_by lines self.new rest)
            (λ p. IsFront p.0 (left_by lines self.old (bytes.now ++ rest))
            (left_by lines self.new (p.1.now ++ rest))))
            (λ fault. left_by lines self.old (bytes.now ++ rest) ≡ Err fault) }
        ensures expected { IfOk result
            (λ o. MatchOption o (expected_in self.new ≡ expected_in self.old)
            (λ p. IsNext (expected_in self.old) p.0 × (expected_in self.new ≡ after_content p.0))) }
        ensures reading { OnOk result (IsReading self.new) }
        // A text is no longer than the limits of its lines allow.
        ensures room { IfOk result
            (λ o. MatchOption o (room_of self.new + length bytes.now ≤ room_of self.old)
            (λ p. room_of self.new + length bytes.now ≤ room_of self.old + length p.1.now)) }
        ensures shorter { IfOk result (λ o. IfSome o (λ p. length p.1.now < length bytes.now)) }
        ensures memory { result ≢ Err CertificateFault.Memory }
        ensures device { result ≢ Err CertificateFault.ReadFailed }
    {
        match split_line(bytes) {
            Some((line, afterwards)) => match self.end_line(line) {
                Ok(line_content) => Ok(Some((line_content, afterwards))),
                Err(fault) => Err(fault),
            },
            None => match self.keep(bytes) {
                Ok(()) => Ok(None),
                Err(fault) => Err(fault),
            },
        }
    }

    /// Returns whether there are bytes after the end of the text, so that the following bytes
    /// change nothing.
    pub fn has_trailing_bytes(&self) -> bool
        ensures { IsTrue result → IsReading self.now → (rest : List ℕ) →
            left_by lines_of self.now rest ≡ left_by lines_of self.now [] }
    {
        self.next.has_ended() && !self.cut.is_empty()
    }

    /// Checks, after the last byte, that the text has ended. Otherwise it returns the fault of a
    /// line that is missing or lacks its line feed.
    pub fn finish(&self) -> Result<(), CertificateFault>
        requires { IsReading self.now }
        ensures said { MatchResult result (λ _. left_by lines_of self.now [] ≡ Ok nothing_left)
            (λ fault. left_by lines_of self.now [] ≡ Err fault) }
        ensures ended { OnOk result (expected_in self.now ≡ expect.Nothing) }
        ensures memory { result ≢ Err CertificateFault.Memory }
        ensures device { result ≢ Err CertificateFault.ReadFailed }
    {
        if self.next.has_ended() && self.cut.is_empty() {
            Ok(())
        } else {
            Err(self.next.wrong_line())
        }
    }
}
