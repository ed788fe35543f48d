ghost use Rattle.std.specs.Prelude.{◌≡◌, ◌≢◌, ℕ, List, [], ◌+◌, ◌≤◌, ◌++◌, length, IsTrue};
ghost use Rattle.std.specs.Prelude.{MatchResult, OnOk, IfOk, IfSome, Some, None, Ok, Err};
ghost use Rattle.std.specs.Result.{result_err};
ghost use Rattle.ngc_line_reader.specs.Grammar.{Reading};
ghost use Rattle.ngc_line_reader.specs.ProgramText.{AreReadings};
ghost use Rattle.ngc_line_reader.specs.ProgramView.{text_in};
ghost use Rattle.ngc_canonical.specs.Interpreter.{setup_of};
ghost use Rattle.ngc_canonical.specs.Meaning.{parsed_program};
ghost use Rattle.ngc_certificate_text.specs.Ahead.{Rest, certificate_of};
ghost use Rattle.ngc_certificate_text.specs.declared.expected.Expected.TheVariants as expect;
ghost use Rattle.ngc_checker.specs.Accepted.{AcceptedData, Keeps};
ghost use Rattle.ngc_checker.specs.FirstRefusal.{first_refusal};
ghost use Rattle.ngc_checker.specs.Judging.{JudgeData, IsAt};
ghost use Rattle.std.proofs.Props.{props};
ghost use Rattle.ngc_checker.specs.Checked.{IsJudged, judged_by, accepted_by};
ghost use Rattle.ngc_certificate_text.specs.declared.fault.CertificateFault.TheVariants as texts;

use crate::accepted::Accepted;
use crate::check_fault::CheckReadFault;
use crate::checker::refused;
use crate::fault::CheckFault;
use crate::judge::Judge;
use crate::judged_lines::JudgedLines;
use ngc_canonical::ProgramFault;
use ngc_certificate::MemoryFault;
use ngc_certificate_text::{CertificateFault, CertificateLines};
use ngc_job::Job;
use ngc_line_reader::Program;
use ngc_machine_files::{Machine, Tools};
use std::alloc::Allocator;

/// A reader that checks a certificate whose text arrives in pieces of any size. It stores no more
/// of the certificate than a line that the end of a piece cut and the first refusal.
///
/// ```text
/// let mut reader = CheckReader::new(alloc, &program, &machine, &tools)?;
/// reader.feed(b"ngc-certificate 1\nsetting off 0\nset")?;
/// reader.feed(b"ting on 0\nend\n")?;
/// let accepted = reader.finish()?;
/// ```
///
/// The result is that of `Certificate::read` and then `check` for all pieces joined. A line may be
/// cut anywhere, and a piece may be empty. After a fault each later call returns the same fault.
#[derive(Drop)]
pub struct CheckReader<A: Allocator> {
    text: JudgedLines<A>,
    refusal: Option<CertificateFault>,
    ghost reading: { refusal ≡ None → IsJudged text } by { Prim.hlevel props },
    ghost no_memory: { refusal ≢ Some texts.Memory } by { Prim.hlevel props },
    ghost no_device: { refusal ≢ Some texts.ReadFailed } by { Prim.hlevel props },
}

// Returns the judge of the certificate, or why the program is refused.
fn judge_of<A: Allocator + Copy>(
    alloc: A,
    program: &Program<A>,
    machine: &Machine<A>,
    tools: &Tools<A>,
) -> Result<Result<Judge<A>, CheckFault>, MemoryFault>
    ensures verdict { (rs : List Reading) → AreReadings (text_in program.now).lines rs →
        IfOk result (λ j. (r : Rest) →
        first_refusal (parsed_program (text_in program.now) rs) (setup_of machine.now tools.now)
        (certificate_of r) ≡ judged_by j r) }
    ensures kept { (rs : List Reading) → AreReadings (text_in program.now).lines rs →
        IfOk result (λ j. (a : AcceptedData) → accepted_by j ≡ Some a →
        Keeps (parsed_program (text_in program.now) rs) (setup_of machine.now tools.now) a) }
    ensures at { IfOk result (λ j. (v : JudgeData) → j ≡ Ok v → IsAt expect.Header v) }
{
    let own_machine = match machine.copy(alloc) {
        Ok(own_machine) => own_machine,
        Err(_) => return Err(MemoryFault),
    };
    let own_tools = match tools.copy(alloc) {
        Ok(own_tools) => own_tools,
        Err(_) => return Err(MemoryFault),
    };
    match Job::new(alloc, program, own_machine, own_tools) {
        Ok(job) => Ok(Ok(Judge::new(job))),
        Err(refusal) => match refusal.fault {
            ProgramFault::Memory => Err(MemoryFault),
            ProgramFault::At { .. } => Ok(Err(refused(refusal))),
        },
    }
}

impl<A: Allocator> CheckReader<A> {
    ghost use Rattle.ngc_certificate_text.specs.Parted.{firm};
    ghost use Rattle.ngc_certificate_text.specs.Reader.{AnswerIs, FaultIs};
    ghost use Rattle.ngc_checker.specs.CheckView.{text_verdict, job_verdict, outcome_in, firm_in};
    ghost use Rattle.ngc_checker.specs.CheckView.{refusal_in};
    ghost use Rattle.ngc_checker.specs.Held.{accepted_of};
    ghost use Rattle.ngc_checker.specs.CheckView.{accepted_in, room_in, VerdictResultIs};

    /// Returns a reader that has received no bytes. It executes the program at both settings of
    /// block delete; if the program is refused, `finish` returns the refusal. It fails if memory is
    /// refused.
    pub fn new(
        alloc: A,
        program: &Program<A>,
        machine: &Machine<A>,
        tools: &Tools<A>,
    ) -> Result<CheckReader<A>, MemoryFault>
    where
        A: Copy,
        // This holds for all readings of the lines: each line has exactly one.
        ensures text { (rs : List Reading) → AreReadings (text_in program.now).lines rs →
            IfOk result (λ r. (bytes : List ℕ) →
            text_verdict (parsed_program (text_in program.now) rs)
            (setup_of machine.now tools.now) bytes ≡ outcome_in r bytes) }
        ensures firm { (rs : List Reading) → AreReadings (text_in program.now).lines rs →
            IfOk result (λ r. (bytes rest : List ℕ) →
            text_verdict (parsed_program (text_in program.now) rs) (setup_of machine.now tools.now)
            (firm bytes ++ rest) ≡ firm_in r bytes rest) }
        ensures keeps { (rs : List Reading) → AreReadings (text_in program.now).lines rs →
            IfOk result (λ r. (a : AcceptedData) → accepted_in r ≡ Some a →
            Keeps (parsed_program (text_in program.now) rs) (setup_of machine.now tools.now) a) }
        ensures going { IfOk result (λ r. refusal_in r ≡ None) }
    {
        match judge_of(alloc, program, machine, tools) {
            Ok(judge) => Ok(CheckReader {
                text: JudgedLines {
                    lines: CertificateLines::new(),
                    judge,
                },
                refusal: None,
            }),
            Err(_) => Err(MemoryFault),
        }
    }

    /// Returns a reader for the certificate of a job that has received no bytes. It allocates no
    /// memory.
    pub fn for_job(job: Job<A>) -> CheckReader<A>
        ensures text { (bytes : List ℕ) → job_verdict job bytes ≡ outcome_in result bytes }
        ensures firm { (bytes rest : List ℕ) →
            job_verdict job (firm bytes ++ rest) ≡ firm_in result bytes rest }
        ensures keeps { accepted_in result ≡ Some (accepted_of job) }
        ensures going { refusal_in result ≡ None }
    {
        CheckReader {
            text: JudgedLines {
                lines: CertificateLines::new(),
                judge: Ok(Judge::new(job)),
            },
            refusal: None,
        }
    }

    /// Reads the next bytes of the text, any number of them. It allocates no memory. It returns a
    /// fault of the text as soon as it is certain: with the line feed that ends its line, or with
    /// the 257th byte of a line that is too long.
    pub fn feed(&mut self, piece: &[u8]) -> Result<(), CertificateFault>
        // The fault is the one that the lines so far have whatever follows. If they have none, it
        // returns none.
        ensures answer { AnswerIs result (firm_in self.old piece.now) }
        ensures firm { OnOk result ((more rest : List ℕ) →
            firm_in self.old (piece.now ++ more) rest ≡ firm_in self.new more rest) }
        // Whatever follows, the text has the same result as if this piece were in front of it: a
        // fault stays.
        ensures text { (rest : List ℕ) →
            MatchResult result
            (λ _. outcome_in self.old (piece.now ++ rest) ≡ outcome_in self.new rest)
            (λ fault. FaultIs fault (outcome_in self.old (piece.now ++ rest))) }
        ensures keeps { accepted_in self.new ≡ accepted_in self.old }
        // A fault is stored, and returned again.
        ensures refusal { refusal_in self.new ≡ result_err result }
        ensures again { IfSome (refusal_in self.old) (λ fault. result ≡ Err fault) }
        ensures memory { result ≢ Err CertificateFault.Memory }
        ensures device { result ≢ Err CertificateFault.ReadFailed }
        // A text is no longer than the limits of its lines allow.
        ensures room { OnOk result (room_in self.new + length piece.now ≤ room_in self.old) }
    {
        match self.refusal {
            None => match self.text.feed(piece) {
                Ok(()) => Ok(()),
                Err(fault) => {
                    self.refusal = Some(fault);
                    Err(fault)
                }
            },
            Some(fault) => Err(fault),
        }
    }

    // Returns whether there are bytes after the end, so that the following bytes change nothing.
    pub(crate) fn has_trailing_bytes(&self) -> bool
        ensures { IsTrue result → (rest : List ℕ) →
            outcome_in self.now rest ≡ outcome_in self.now [] }
    {
        match self.refusal {
            None => self.text.has_trailing_bytes(),
            Some(_) => true,
        }
    }

    /// Returns the accepted program, after the last byte. Otherwise it returns the fault of the
    /// text that was returned before, or that of a line that is missing or lacks its line feed, or
    /// else the first refusal, as `check` does.
    pub fn finish(self) -> Result<Accepted<A>, CheckReadFault>
        ensures said { VerdictResultIs (λ a. a) (accepted_in self) result (outcome_in self []) }
        ensures again { IfSome (refusal_in self)
            (λ fault. result ≡ Err (CheckReadFault.Certificate fault)) }
        ensures memory { result ≢ Err (CheckReadFault.Certificate CertificateFault.Memory) }
        ensures device { result ≢ Err (CheckReadFault.Certificate CertificateFault.ReadFailed) }
    {
        let CheckReader { text, refusal } = self;
        match refusal {
            None => text.finish(),
            Some(fault) => Err(CheckReadFault::Certificate(fault)),
        }
    }
}
