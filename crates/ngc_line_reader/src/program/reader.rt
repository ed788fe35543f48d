ghost use Rattle.std.specs.Prelude.{◌≡◌, ◌≢◌};
ghost use Rattle.std.proofs.Props.{props};
ghost use Rattle.ngc_line_reader.specs.Load.{IsLoading};
ghost use Rattle.ngc_line_reader.specs.declared.program.fault.ReadFault.TheVariants.{Device};
ghost use Rattle.ngc_line_reader.specs.declared.program.reader.State.TheVariants.{Going, Refused};

use crate::program::Program;
use crate::program::fault::ReadFault;
use crate::program::loader::{LineBuffer, Loader, Step};
use std::alloc::Allocator;

/// Whether the text continues, has ended, or is refused.
#[derive(Clone, Copy)]
pub enum State {
    Going,
    Ended,
    Refused(ReadFault),
}

/// A reader for a part program that arrives in pieces of any size.
///
/// ```text
/// let mut reader = ProgramReader::new(alloc);
/// reader.feed(b"%\nG0 X1")?;
/// reader.feed(b"5\n%\n")?;
/// let program = reader.finish()?;
/// ```
///
/// The program is the one that `Program::read` reads from all pieces joined: here it has the line
/// `G0 X15`. A line may be cut anywhere, and a piece may be empty. After a fault, including lack of
/// memory, each later call returns the same fault.
#[derive(Drop)]
pub struct ProgramReader<A: Allocator> {
    loader: Loader<A>,
    room: LineBuffer,
    state: State,
    ghost loading: { state ≡ Going → IsLoading loader } by { Prim.hlevel props },
    ghost no_device: { state ≢ Refused Device } by { Prim.hlevel props },
}

impl<A: Allocator> ProgramReader<A> {
    ghost use Rattle.std.specs.Prelude.{ℕ, List, [], ◌+◌, ◌≤◌, ◌++◌, length, false, MatchResult};
    ghost use Rattle.std.specs.Prelude.{IfOk, OnOk, IfSome, None, Err};
    ghost use Rattle.std.specs.Result.{result_err};
    ghost use Rattle.ngc_line_reader.specs.ProgramText.{program_of, HaveReadings};
    ghost use Rattle.ngc_line_reader.specs.ProgramView.{text_in, FaultIs, OutcomeIs};
    ghost use Rattle.ngc_line_reader.specs.Pieces.{fault_so_far};
    ghost use Rattle.ngc_line_reader.specs.ReaderView.{outcome_in, fault_in, refusal_in};
    ghost use Rattle.ngc_line_reader.specs.ReaderView.{has_ended_in, room_in, AnswerIs};

    /// Returns a reader that has received no bytes.
    pub fn new(alloc: A) -> ProgramReader<A>
    where
        A: Copy,
        ensures text { (bytes : List ℕ) → program_of bytes ≡ outcome_in result bytes }
        ensures firm { (bytes : List ℕ) → fault_so_far bytes ≡ fault_in result bytes }
        ensures going { refusal_in result ≡ None }
    {
        ProgramReader {
            loader: Loader::new(alloc),
            room: LineBuffer::new(),
            state: State::Going,
        }
    }

    /// Reads the next bytes of the file, any number of them. It returns a fault as soon as it is
    /// certain: with the line feed that ends its line, or with the 257th byte of a line that is too
    /// long. After the end of the text it ignores all bytes.
    pub fn feed(&mut self, piece: &[u8]) -> Result<(), ReadFault>
        // The fault is that of the lines so far. If they have none, it returns none.
        ensures answer { AnswerIs result (fault_in self.old piece.now) }
        ensures firm { OnOk result ((rest : List ℕ) →
            fault_in self.old (piece.now ++ rest) ≡ fault_in self.new rest) }
        // Whatever follows, the text has the same result as if this piece were in front of it: a
        // fault stays.
        ensures text { (rest : List ℕ) →
            MatchResult result
            (λ _. outcome_in self.old (piece.now ++ rest) ≡ outcome_in self.new rest)
            (λ fault. FaultIs fault (outcome_in self.old (piece.now ++ rest))) }
        // A fault is stored, including lack of memory, and returned again.
        ensures refusal { refusal_in self.new ≡ result_err result }
        ensures again { IfSome (refusal_in self.old) (λ fault. result ≡ Err fault) }
        ensures device { result ≢ Err Device }
        // A text is no longer than the limits of its lines allow.
        ensures room { OnOk result (has_ended_in self.new ≡ false →
            room_in self.new + length piece.now ≤ room_in self.old) }
    {
        match self.state {
            State::Going => match self.loader.feed(piece, &mut self.room) {
                Ok(Step::More) => Ok(()),
                Ok(Step::End) => {
                    self.state = State::Ended;
                    Ok(())
                }
                Err(fault) => {
                    self.state = State::Refused(fault);
                    Err(fault)
                }
            },
            State::Ended => Ok(()),
            State::Refused(fault) => Err(fault),
        }
    }

    // Returns whether the text has ended, so that the following bytes change nothing.
    pub(crate) fn has_ended(&self) -> bool
        ensures { result ≡ has_ended_in self.now }
    {
        matches!(self.state, State::Ended)
    }

    /// Returns the program, after the last byte. Otherwise it returns the fault that was returned
    /// before, or that of the last line or of a missing end.
    pub fn finish(self) -> Result<Program<A>, ReadFault>
        // The result is the one that all pieces together define, except for lack of memory.
        ensures text { OutcomeIs result (outcome_in self []) }
        // Each line has a reading.
        ensures readings { IfOk result (λ p. HaveReadings (text_in p).lines) }
        ensures again { IfSome (refusal_in self) (λ fault. result ≡ Err fault) }
        ensures device { result ≢ Err Device }
    {
        let ProgramReader {
            loader,
            mut room,
            state,
        } = self;
        match state {
            State::Going => loader.finish(&mut room),
            State::Ended => Ok(loader.into_program()),
            State::Refused(fault) => Err(fault),
        }
    }
}
