ghost use Rattle.std.specs.Prelude.{◌≡◌, ◌≢◌, ℕ, ◌+◌, ◌≤◌, ◌<◌, List, [], ◌∷◌, ◌++◌, length, IfOk};
ghost use Rattle.std.specs.Prelude.{IfErr, OnOk, MatchOption, MatchResult, true, None, Ok, Err};
ghost use Rattle.ngc_line_reader.specs.ProgramText.{HaveReadings, fault_of, program_of};
ghost use Rattle.ngc_line_reader.specs.ReadLine.{line_read};
ghost use Rattle.ngc_line_reader.specs.ScanLine.{parsed_line_of};
ghost use Rattle.ngc_line_reader.specs.ProgramView.{text_in, lines_in, FaultIs, OutcomeIs};
ghost use Rattle.ngc_line_reader.specs.Stored.{line_of};
ghost use Rattle.ngc_line_reader.specs.Load.{is_percent as is_percent_line, number_in, ended};
ghost use Rattle.ngc_line_reader.specs.Load.{next_line, TakesLine, RefusedBy, StepResultIs, walked};
ghost use Rattle.ngc_line_reader.specs.Load.{resumed, standing, IsLineFault, PartsLines, IsLoading};
ghost use Rattle.ngc_line_reader.specs.Load.{IsSplit, HasNoLineFeed, space_after, room_of};
ghost use Rattle.ngc_line_reader.specs.Pieces.{firm_lines, fault_so_far};
ghost use Rattle.ngc_line_reader.specs.Program.{split_lines};

use crate::fault::{FaultKind, LineFault};
use crate::line::Line;
use crate::program::Program;
use crate::program::fault::ReadFault;
use crate::program::phase::{Phase, is_percent};
use crate::program::stored::StoredLines;
use crate::text::Scratch;
use arrayvec::ArrayVec;
use memchr::memchr;
use std::alloc::Allocator;

const LINES: usize = 100_000;

/// The line that was read, and a buffer for its text: made once for all lines.
#[derive(Drop)]
pub(crate) struct LineBuffer {
    pub(crate) line: Line,
    pub(crate) scratch: Scratch,
}

impl LineBuffer {
    pub(crate) fn new() -> LineBuffer {
        LineBuffer {
            line: Line::empty(),
            scratch: Scratch::new(),
        }
    }
}

/// Whether the text continues.
#[derive(Clone, Copy)]
pub enum Step {
    More,
    End,
}

/// The lines read so far.
#[derive(Drop)]
pub struct LinesSoFar<A: Allocator> {
    lines: StoredLines<A>,
    phase: Phase,
}

/// The lines read so far, and the beginning of a line that the end of a piece cut.
#[derive(Drop)]
pub struct Loader<A: Allocator> {
    found: LinesSoFar<A>,
    cut: ArrayVec<u8, 256>,
}

// Returns the first line of some bytes, and the bytes after its line feed.
fn split_line(bytes: &[u8]) -> Option<(&[u8], &[u8])>
    ensures { MatchOption result (HasNoLineFeed bytes.now) (λ p. IsSplit bytes.now p.0.now p.1.now) }
{
    let end = memchr(b'\n', bytes)?;
    let (line, rest) = bytes.split_at(end);
    Some((line, &rest[1..]))
}

// Returns the number of a line, if it may be stored.
fn check_line(
    phase: Phase,
    done: usize,
    bytes: &[u8],
    room: &mut LineBuffer,
) -> Result<u32, ReadFault>
    requires { done ≤ 100000 }
    ensures number { IfOk result (λ n. n ≡ number_in phase done) }
    ensures few { OnOk result (done < 100000) }
    ensures sound { OnOk result (fault_of done (line_of (number_in phase done) bytes.now) ≡ None) }
    ensures held { OnOk result (line_read bytes.now ≡ Ok (parsed_line_of room.new.line)) }
    ensures refused { IfErr result
        (λ e. RefusedBy (fault_of done (line_of (number_in phase done) bytes.now)) e) }
{
    if done >= LINES {
        return Err(ReadFault::TooManyLines);
    }
    let number = phase.number(done);
    match room.line.read_into(bytes, &mut room.scratch) {
        Ok(()) => Ok(number),
        Err(fault) => Err(ReadFault::Line(number, fault)),
    }
}

impl<A: Allocator> LinesSoFar<A> {
    fn new(alloc: A) -> LinesSoFar<A>
    where
        A: Copy,
        ensures lines { lines_in result.lines ≡ [] }
        ensures phase { result.phase ≡ Phase.Start }
    {
        LinesSoFar {
            lines: StoredLines::new(alloc),
            phase: Phase::Start,
        }
    }

    // Reads the next line, which is no `%` line.
    fn read_line(&mut self, bytes: &[u8], room: &mut LineBuffer) -> Result<(), ReadFault>
        ensures taken { OnOk result (TakesLine self.old self.new bytes.now) }
        ensures refused { IfErr result
            (λ e. RefusedBy
            (fault_of (length (lines_in self.old.lines)) (next_line self.old bytes.now)) e) }
    {
        match check_line(self.phase, self.lines.len(), bytes, room) {
            Ok(number) => match self.lines.push(number, bytes, &room.line) {
                Ok(()) => {
                    self.phase = self.phase.after(bytes);
                    Ok(())
                }
                Err(_) => Err(ReadFault::Memory),
            },
            Err(fault) => Err(fault),
        }
    }

    // Handles a `%` line: the first one marks the file, a later one ends its text.
    fn take_percent(&mut self) -> Step
        ensures step { (ls : List (List ℕ)) (bytes : List ℕ) → is_percent_line bytes ≡ true →
            StepResultIs (Ok result) (walked self.old (bytes ∷ ls)) (walked self.new ls)
            (ended self.new) }
        ensures progress { result ≡ Step.More → space_after self.new + 257 ≤ space_after self.old }
    {
        match self.phase {
            Phase::Start => {
                self.phase = Phase::Marked;
                Step::More
            }
            Phase::Marked | Phase::Unmarked => Step::End,
        }
    }

    // Reads the next line.
    fn take_line(&mut self, bytes: &[u8], room: &mut LineBuffer) -> Result<Step, ReadFault>
        ensures step { (ls : List (List ℕ)) →
            StepResultIs result (walked self.old (bytes.now ∷ ls)) (walked self.new ls)
            (ended self.new) }
        ensures quiet { IfErr result (λ e. IsLineFault e) }
        ensures progress { result ≡ Ok Step.More →
            space_after self.new + length bytes.now + 1 ≤ space_after self.old }
    {
        if is_percent(bytes) {
            return Ok(self.take_percent());
        }
        match self.read_line(bytes, room) {
            Ok(()) => Ok(Step::More),
            Err(fault) => Err(fault),
        }
    }

    // Returns why a line of more than 256 bytes is refused.
    fn long_line(&self) -> ReadFault
        ensures value { (bytes : List ℕ) → 256 < length bytes →
            RefusedBy (fault_of (length (lines_in self.now.lines)) (next_line self.now bytes))
            result }
        ensures quiet { IsLineFault result }
    {
        if self.lines.len() >= LINES {
            return ReadFault::TooManyLines;
        }
        let fault = LineFault {
            kind: FaultKind::LineTooLong,
            column: 257,
        };
        ReadFault::Line(self.phase.number(self.lines.len()), fault)
    }

    fn into_program(self) -> Program<A>
        ensures text { text_in result ≡ ended self }
        ensures readings { HaveReadings (text_in result).lines }
    {
        let LinesSoFar { lines, phase } = self;
        Program::new(lines, phase == Phase::Marked)
    }

    // Returns the program after the last line.
    #[tactic(auto, using(crate::proofs::LineWalk::walk_end))]
    fn finish(self) -> Result<Program<A>, ReadFault>
        ensures text { OutcomeIs result (walked self []) }
        ensures readings { IfOk result (λ p. HaveReadings (text_in p).lines) }
        ensures quiet { result ≢ Err ReadFault.Device }
    {
        if self.phase == Phase::Marked {
            return Err(ReadFault::NoEnd);
        }
        Ok(self.into_program())
    }
}

impl<A: Allocator> Loader<A> {
    pub(crate) fn new(alloc: A) -> Loader<A>
    where
        A: Copy,
        ensures loading { IsLoading result }
        ensures begins { (bytes : List ℕ) → program_of bytes ≡ resumed split_lines result bytes }
        ensures firm { (bytes : List ℕ) → fault_so_far bytes
            ≡ standing (resumed firm_lines result bytes) }
    {
        Loader {
            found: LinesSoFar::new(alloc),
            cut: ArrayVec::new(),
        }
    }

    // Adds a piece to the line that is cut.
    fn keep(&mut self, piece: &[u8]) -> Result<(), ReadFault>
        requires loading { IsLoading self.old }
        requires feedless { HasNoLineFeed piece.now }
        ensures step { (lines : List ℕ → List (List ℕ)) → PartsLines lines → (rest : List ℕ) →
            MatchResult result
            (λ _. resumed lines self.old (piece.now ++ rest) ≡ resumed lines self.new rest)
            (λ e. FaultIs e (resumed lines self.old (piece.now ++ rest))) }
        ensures loading { OnOk result (IsLoading self.new) }
        ensures quiet { IfErr result (λ e. IsLineFault e) }
        ensures progress { OnOk result (room_of self.new + length piece.now ≤ room_of self.old) }
    {
        match self.cut.try_extend_from_slice(piece) {
            Ok(()) => Ok(()),
            Err(_) => Err(self.found.long_line()),
        }
    }

    // Reads the line that is cut, which ends here.
    fn end_cut(&mut self, room: &mut LineBuffer) -> Result<Step, ReadFault>
        requires { IsLoading self.old }
        ensures step { (ls : List (List ℕ)) →
            StepResultIs result (walked self.old.found (self.old.cut.items ∷ ls))
            (walked self.new.found ls) (ended self.new.found) }
        ensures empty { OnOk result (self.new.cut.items ≡ []) }
        ensures quiet { IfErr result (λ e. IsLineFault e) }
        ensures progress { result ≡ Ok Step.More → room_of self.new + 1 ≤ room_of self.old }
    {
        match self.found.take_line(self.cut.as_slice(), room) {
            Ok(step) => {
                self.cut.clear();
                Ok(step)
            }
            Err(fault) => Err(fault),
        }
    }

    // Reads a line that ends with this piece and a line feed.
    fn end_line(&mut self, piece: &[u8], room: &mut LineBuffer) -> Result<Step, ReadFault>
        requires loading { IsLoading self.old }
        requires feedless { HasNoLineFeed piece.now }
        ensures step { (lines : List ℕ → List (List ℕ)) → PartsLines lines → (rest : List ℕ) →
            StepResultIs result (resumed lines self.old (piece.now ++ (10 ∷ rest)))
            (resumed lines self.new rest) (ended self.new.found) }
        ensures loading { OnOk result (IsLoading self.new) }
        ensures quiet { IfErr result (λ e. IsLineFault e) }
        ensures progress { result ≡ Ok Step.More →
            room_of self.new + length piece.now + 1 ≤ room_of self.old }
    {
        if self.cut.is_empty() {
            return self.found.take_line(piece, room);
        }
        match self.keep(piece) {
            Ok(()) => self.end_cut(room),
            Err(fault) => Err(fault),
        }
    }

    /// Reads more bytes of the file.
    pub(crate) fn feed(&mut self, chunk: &[u8], room: &mut LineBuffer) -> Result<Step, ReadFault>
        requires { IsLoading self.old }
        ensures step { (lines : List ℕ → List (List ℕ)) → PartsLines lines → (rest : List ℕ) →
            StepResultIs result (resumed lines self.old (chunk.now ++ rest))
            (resumed lines self.new rest) (ended self.new.found) }
        ensures loading { OnOk result (IsLoading self.new) }
        ensures quiet { IfErr result (λ e. IsLineFault e) }
        ensures progress { result ≡ Ok Step.More →
            room_of self.new + length chunk.now ≤ room_of self.old }
    {
        let mut rest = chunk;
        while let Some((piece, afterwards)) = split_line(rest) {
            match self.end_line(piece, room) {
                Ok(Step::More) => rest = afterwards,
                Ok(Step::End) => return Ok(Step::End),
                Err(fault) => return Err(fault),
            }
        }
        match self.keep(rest) {
            Ok(()) => Ok(Step::More),
            Err(fault) => Err(fault),
        }
    }

    /// Returns the program, after the end of the text.
    pub(crate) fn into_program(self) -> Program<A>
        ensures text { text_in result ≡ ended self.found }
        ensures readings { HaveReadings (text_in result).lines }
    {
        let Loader { found, cut: _ } = self;
        found.into_program()
    }

    /// Returns the program, after the last byte.
    pub(crate) fn finish(mut self, room: &mut LineBuffer) -> Result<Program<A>, ReadFault>
        requires { IsLoading self }
        ensures text { OutcomeIs result (resumed split_lines self []) }
        ensures readings { IfOk result (λ p. HaveReadings (text_in p).lines) }
        ensures quiet { result ≢ Err ReadFault.Device }
    {
        if self.cut.is_empty() {
            let Loader { found, cut: _ } = self;
            return found.finish();
        }
        match self.end_cut(room) {
            Ok(Step::More) => {
                let Loader { found, cut: _ } = self;
                found.finish()
            }
            Ok(Step::End) => Ok(self.into_program()),
            Err(fault) => Err(fault),
        }
    }
}
