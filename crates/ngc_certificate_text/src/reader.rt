ghost use Rattle.std.specs.Prelude.{◌≡◌, ◌≢◌, Some, None};
ghost use Rattle.std.proofs.Props.{props};
ghost use Rattle.ngc_certificate_text.specs.Resumed.{IsResuming};
ghost use Rattle.ngc_certificate_text.specs.declared.fault.CertificateFault.TheVariants.{ReadFailed};

use crate::certificate::Certificate;
use crate::fault::CertificateFault;
use crate::text::TextSoFar;
use std::alloc::Allocator;

/// A reader for a certificate that arrives in pieces of any size.
///
/// ```text
/// let mut reader = CertificateReader::new(alloc);
/// reader.feed(b"ngc-certificate 1\nsetting off 0\nset")?;
/// reader.feed(b"ting on 0\nend\n")?;
/// let certificate = reader.finish()?;
/// ```
///
/// The certificate is the one that `Certificate::read` reads from all pieces joined. A line may be
/// cut anywhere, and a piece may be empty. After a fault, including lack of memory, each later call
/// returns the same fault.
#[derive(Drop)]
pub struct CertificateReader<A: Allocator> {
    text: TextSoFar<A>,
    refusal: Option<CertificateFault>,
    ghost reading: { refusal ≡ None → IsResuming text } by { Prim.hlevel props },
    ghost no_device: { refusal ≢ Some ReadFailed } by { Prim.hlevel props },
}

impl<A: Allocator> CertificateReader<A> {
    ghost use Rattle.std.specs.Prelude.{ℕ, List, [], ◌+◌, ◌≤◌, ◌++◌, length, IsTrue, MatchResult};
    ghost use Rattle.std.specs.Prelude.{OnOk, IfOk, IfSome, Err};
    ghost use Rattle.std.specs.Result.{result_err};
    ghost use Rattle.ngc_certificate_text.specs.Reader.{AnswerIs, FaultIs};
    ghost use Rattle.ngc_certificate_text.specs.Contents.{certificate_data, form_of};
    ghost use Rattle.ngc_certificate_text.specs.Given.{CertificateResultIs};
    ghost use Rattle.ngc_certificate_text.specs.Joined.{contents};
    ghost use Rattle.ngc_certificate_text.specs.Parted.{firm};
    ghost use Rattle.ngc_certificate_text.specs.ReaderView.{outcome_in, firm_in, refusal_in};
    ghost use Rattle.ngc_certificate_text.specs.ReaderView.{room_in};
    ghost use Rattle.ngc_certificate_text.specs.ParsedPart.{parsed_form};

    /// Returns a reader that has received no bytes.
    pub fn new(alloc: A) -> CertificateReader<A>
    where
        A: Copy,
        ensures text { (bytes : List ℕ) → parsed_form bytes ≡ outcome_in result bytes }
        ensures firm { (bytes rest : List ℕ) →
            parsed_form (firm bytes ++ rest) ≡ firm_in result bytes rest }
        ensures going { refusal_in result ≡ None }
    {
        CertificateReader {
            text: TextSoFar::new(alloc),
            refusal: None,
        }
    }

    /// Reads the next bytes of the text, any number of them. It returns a fault as soon as it is
    /// certain: with the line feed that ends its line, with the 257th byte of a line that is too
    /// long, or with the line before it if no line may follow that one.
    pub fn feed(&mut self, piece: &[u8]) -> Result<(), CertificateFault>
        // The fault is the one that the lines so far have whatever follows. If they have none, it
        // returns none.
        ensures answer { AnswerIs result (firm_in self.old piece.now) }
        ensures firm { OnOk result ((more rest : List ℕ) →
            firm_in self.old (piece.now ++ more) rest ≡ firm_in self.new more rest) }
        // Whatever follows, the text has the same result as if this piece were in front of it: a
        // fault stays.
        ensures text { (rest : List ℕ) →
            MatchResult result
            (λ _. outcome_in self.old (piece.now ++ rest) ≡ outcome_in self.new rest)
            (λ fault. FaultIs fault (outcome_in self.old (piece.now ++ rest))) }
        // A fault is stored, including lack of memory, and returned again.
        ensures refusal { refusal_in self.new ≡ result_err result }
        ensures again { IfSome (refusal_in self.old) (λ fault. result ≡ Err fault) }
        ensures device { result ≢ Err ReadFailed }
        // A text is no longer than the limits of its lines allow.
        ensures room { OnOk result (room_in self.new + length piece.now ≤ room_in self.old) }
    {
        match self.refusal {
            None => match self.text.feed(piece) {
                Ok(()) => Ok(()),
                Err(fault) => {
                    self.refusal = Some(fault);
                    Err(fault)
                }
            },
            Some(fault) => Err(fault),
        }
    }

    // Returns whether there are bytes after the end, so that the following bytes change nothing.
    pub(crate) fn has_trailing_bytes(&self) -> bool
        ensures { IsTrue result → (rest : List ℕ) →
            outcome_in self.now rest ≡ outcome_in self.now [] }
    {
        match self.refusal {
            None => self.text.has_trailing_bytes(),
            Some(_) => true,
        }
    }

    /// Returns the certificate, after the last byte. Otherwise it returns the fault that was
    /// returned before, or that of a line that is missing or lacks its line feed.
    pub fn finish(self) -> Result<Certificate<A>, CertificateFault>
        // The result is the one that all pieces together define, except for lack of memory.
        ensures form { CertificateResultIs form_of result (outcome_in self []) }
        ensures said { IfOk result (λ c. certificate_data c ≡ contents (form_of c)) }
        ensures again { IfSome (refusal_in self) (λ fault. result ≡ Err fault) }
        ensures device { result ≢ Err ReadFailed }
    {
        let CertificateReader { text, refusal } = self;
        match refusal {
            None => text.finish(),
            Some(fault) => Err(fault),
        }
    }
}
