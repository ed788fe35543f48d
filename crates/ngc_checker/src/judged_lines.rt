ghost use Rattle.std.specs.Prelude.{◌≡◌, ◌≢◌, ◌+◌, ◌≤◌, ◌++◌, [], ℕ, List, length, IsTrue, Option};
ghost use Rattle.std.specs.Prelude.{Ok, Err, IfOk, OnOk, MatchResult};
ghost use Rattle.ngc_certificate_text.specs.Ahead.{Rest};
ghost use Rattle.ngc_certificate_text.specs.LinesView.{room_of};
ghost use Rattle.ngc_certificate_text.specs.Parted.{PartsLines};
ghost use Rattle.ngc_certificate_text.specs.Reader.{StepResultIs};
ghost use Rattle.ngc_certificate_text.specs.ParsedPart.{lines_of};
ghost use Rattle.ngc_certificate_text.specs.LineContent.{onto, Fits, IsNext, after_content};
ghost use Rattle.ngc_certificate_text.specs.declared.expected.Expected.{Expected};
ghost use Rattle.ngc_checker.specs.Checked.{judged, judged_by, accepted_by, IsJudged};
ghost use Rattle.ngc_checker.specs.CheckView.{VerdictResultIs};
ghost use Rattle.ngc_checker.specs.Judging.{JudgeData, IsAt, MayJudge};

use crate::accepted::Accepted;
use crate::check_fault::CheckReadFault;
use crate::fault::CheckFault;
use crate::judge::Judge;
use ngc_certificate_text::{CertificateFault, CertificateLines, LineContent};
use std::alloc::Allocator;

/// The lines of a certificate's text, and the state of the check; or why the program is refused.
#[derive(Drop)]
pub struct JudgedLines<A: Allocator> {
    pub lines: CertificateLines,
    pub judge: Result<Judge<A>, CheckFault>,
}

fn take_line<A: Allocator>(judge: &mut Result<Judge<A>, CheckFault>, line_content: &LineContent)
    requires { IfOk judge.old (λ v. MayJudge line_content.now v) }
    ensures verdict { (r : Rest) → Fits line_content.now r →
        judged_by judge.old (onto line_content.now r) ≡ judged_by judge.new r }
    ensures kept { accepted_by judge.new ≡ accepted_by judge.old }
    ensures at { (e : Expected) → IsNext e line_content.now →
        ((v : JudgeData) → judge.old ≡ Ok v → IsAt e v) → (v : JudgeData) → judge.new ≡ Ok v →
        IsAt (after_content line_content.now) v }
{
    if let Ok(judge) = judge {
        judge.take(line_content);
    }
}

impl<A: Allocator> JudgedLines<A> {
    /// Reads more bytes of the text.
    pub(crate) fn feed(&mut self, bytes: &[u8]) -> Result<(), CertificateFault>
        requires { IsJudged self.old }
        ensures step { (lines : List ℕ → List (List ℕ)) → PartsLines lines → (rest : List ℕ) →
            StepResultIs result (judged self.old lines (bytes.now ++ rest))
            (judged self.new lines rest) }
        ensures reading { OnOk result (IsJudged self.new) }
        ensures kept { accepted_by self.new.judge ≡ accepted_by self.old.judge }
        ensures room { OnOk result
            (room_of self.new.lines + length bytes.now ≤ room_of self.old.lines) }
        ensures memory { result ≢ Err CertificateFault.Memory }
        ensures device { result ≢ Err CertificateFault.ReadFailed }
    {
        let mut rest = bytes;
        'lines: loop {
            match self.lines.next(rest) {
                Ok(Some((line_content, afterwards))) => {
                    take_line(&mut self.judge, &line_content);
                    rest = afterwards;
                }
                Ok(None) => return Ok(()),
                Err(fault) => return Err(fault),
            }
        }
    }

    /// Returns whether there are bytes after the end of the text.
    pub(crate) fn has_trailing_bytes(&self) -> bool
        ensures { IsTrue result → IsJudged self.now → (rest : List ℕ) →
            judged self.now lines_of rest ≡ judged self.now lines_of [] }
    {
        self.lines.has_trailing_bytes()
    }

    /// Returns the result, after the last byte.
    pub(crate) fn finish(self) -> Result<Accepted<A>, CheckReadFault>
        requires { IsJudged self }
        ensures said { VerdictResultIs (λ a. a) (accepted_by self.judge) result (judged self lines_of []) }
        ensures memory { result ≢ Err (CheckReadFault.Certificate CertificateFault.Memory) }
        ensures device { result ≢ Err (CheckReadFault.Certificate CertificateFault.ReadFailed) }
    {
        let JudgedLines { lines, judge } = self;
        match lines.finish() {
            Ok(()) => match judge {
                Ok(judge) => match judge.finish() {
                    Ok(accepted) => Ok(accepted),
                    Err(fault) => Err(CheckReadFault::Check(fault)),
                },
                Err(fault) => Err(CheckReadFault::Check(fault)),
            },
            Err(fault) => Err(CheckReadFault::Certificate(fault)),
        }
    }
}
