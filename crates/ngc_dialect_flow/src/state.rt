//! Where the flow of a program is.
ghost use Rattle.std.specs.Prelude.{◌≡◌, ◌+◌, ◌==◌, filter, not};
ghost use Rattle.ngc_line_reader.specs.Scan.{Gives};
ghost use Rattle.ngc_dialect_flow.specs.State as spec;
ghost use Rattle.ngc_dialect_flow.specs.State.{flow_of};

use crate::fault::Cause;
use arrayvec::ArrayVec;

/// How many lines of a program are executed.
const FUEL: u32 = 2_000_000;

/// What makes a loop execute its lines again.
#[derive(Clone, Copy)]
pub(crate) enum LoopKind {
    /// The condition of a WHILE before its lines.
    While,
    /// The condition of a WHILE after its lines.
    Do,
    /// A number of rounds: those after the current one.
    Repeat(u128),
}

/// An open loop.
#[derive(Clone, Copy)]
pub(crate) struct Loop {
    pub(crate) kind: LoopKind,
    /// The number of calls that were open when the loop began.
    pub(crate) depth: usize,
    /// The line after the loop's first one.
    pub(crate) first: usize,
    pub(crate) last: usize,
}

impl Default for Loop {
    ghost use Rattle.ngc_dialect_flow.specs.declared.state.LoopKind.TheVariants.{While};

    ghost is_default = { λ l. l ≡ record { kind = While; depth = 0; first = 0; last = 0 } };

    fn default() -> Loop {
        Loop {
            kind: LoopKind::While,
            depth: 0,
            first: 0,
            last: 0,
        }
    }
}

/// What calls a subprogram.
#[derive(Clone, Copy)]
pub(crate) enum CallKind {
    /// An O word.
    Sub,
    /// M98.
    Program,
}

/// An open call.
#[derive(Clone, Copy)]
pub(crate) struct Call {
    pub(crate) kind: CallKind,
    /// The line after the call.
    pub(crate) back: usize,
    /// The first line of the subprogram.
    pub(crate) entry: usize,
    /// How often the subprogram is executed again.
    pub(crate) left: u128,
}

impl Default for Call {
    ghost use Rattle.ngc_dialect_flow.specs.declared.state.CallKind.TheVariants.{Sub};

    ghost is_default = { λ c. c ≡ record { kind = Sub; back = 0; entry = 0; left = 0 } };

    fn default() -> Call {
        Call {
            kind: CallKind::Sub,
            back: 0,
            entry: 0,
            left: 0,
        }
    }
}

/// Where the flow of a program is: the line that is executed next, the open loops and calls, and how
/// many lines may still be executed.
#[derive(Drop)]
pub struct State {
    pub(crate) line: usize,
    pub(crate) seeking: bool,
    pub(crate) loops: ArrayVec<Loop, 32>,
    pub(crate) calls: ArrayVec<Call, 10>,
    pub(crate) fuel: u32,
}

/// Returns the line after a line.
pub(crate) fn after(line: usize) -> usize
    ensures { result ≡ spec.after line }
{
    if line < usize::MAX { line + 1 } else { line }
}

impl Loop {
    // Returns whether the loop stays open when a line is next.
    fn stays(self, depth: usize, line: usize) -> bool
        ensures { result ≡ spec.stays depth line self }
    {
        self.depth < depth || (self.depth == depth && self.first <= line && line <= self.last)
    }
}

fn leave_loops(loops: &mut ArrayVec<Loop, 32>, depth: usize, line: usize)
    ensures { loops.new.items ≡ filter (spec.stays depth line) loops.old.items }
{
    loops.retain(|open| open.stays(depth, line));
}

impl State {
    /// Returns the state before a line, from 0. From there on 2,000,000 lines are executed at most.
    pub fn new(line: usize) -> State
        ensures { flow_of result ≡ spec.begun line }
    {
        State {
            line,
            seeking: false,
            loops: ArrayVec::new(),
            calls: ArrayVec::new(),
            fuel: FUEL,
        }
    }

    /// Returns the line that is executed next, from 0. After the last line it is their number.
    pub fn line(&self) -> usize
        ensures { result ≡ (flow_of self.now).line }
    {
        self.line
    }

    /// Returns whether one more line may be executed.
    pub fn has_fuel(&self) -> bool
        ensures { result ≡ not ((flow_of self.now).fuel == 0) }
    {
        self.fuel != 0
    }

    /// Returns the number of calls inside one another.
    pub fn depth(&self) -> usize
        ensures { result ≡ spec.depth (flow_of self.now) }
    {
        self.calls.len()
    }

    // Counts one more executed line.
    pub(crate) fn burn(&mut self) -> Result<(), Cause>
        ensures { Gives (λ _. flow_of self.new) result (spec.burn (flow_of self.old)) }
    {
        if self.fuel == 0 {
            return Err(Cause::TooManyLines);
        }
        self.fuel -= 1;
        Ok(())
    }

    // Goes to a line.
    pub(crate) fn go(&mut self, line: usize)
        ensures { flow_of self.new ≡ spec.go line (flow_of self.old) }
    {
        leave_loops(&mut self.loops, self.calls.len(), line);
        self.line = line;
        self.seeking = false;
    }

    // Goes to a line, since a condition doesn't hold.
    pub(crate) fn seek(&mut self, line: usize)
        ensures { flow_of self.new ≡ spec.seek line (flow_of self.old) }
    {
        self.go(line);
        self.seeking = true;
    }
}
