//! Conditions and loops.
ghost use Rattle.std.specs.Prelude.{◌≡◌};
ghost use Rattle.ngc_line_reader.specs.Scan.{Gives};
ghost use Rattle.ngc_dialect_flow.specs.Loops as spec;
ghost use Rattle.ngc_dialect_flow.specs.State.{flow_of};

use crate::fault::Cause;
use crate::state::{Loop, LoopKind, State, after};
use ngc_dialect_numbers::Number;

/// The greatest number of open loops.
const LOOPS: usize = 32;

/// The number of units in 1.
const ONE: u128 = 1_000_000_000_000;

pub(crate) fn found(end: Option<usize>) -> Result<usize, Cause>
    ensures { result ≡ spec.found end }
{
    match end {
        Some(line) => Ok(line),
        None => Err(Cause::EndMissing),
    }
}

// Returns how often a REPEAT executes its lines.
fn rounds(count: Number) -> u128
    ensures { result ≡ spec.rounds count }
{
    if count.trillionths() < 0 {
        0
    } else {
        count.round().trillionths().unsigned_abs() / ONE
    }
}

impl Loop {
    fn if_ends_at(self, depth: usize, line: usize) -> Option<Loop>
        ensures { result ≡ spec.if_ends_at depth line self }
    {
        if self.depth == depth && self.last == line {
            Some(self)
        } else {
            None
        }
    }
}

impl State {
    /// Goes to the line after this one.
    pub(crate) fn go_on(&mut self)
        ensures { flow_of self.new ≡ spec.on (flow_of self.old) }
    {
        self.go(after(self.line));
    }

    pub(crate) fn go_past(&mut self, end: Option<usize>) -> Result<(), Cause>
        ensures { Gives (λ _. flow_of self.new) result (spec.past end (flow_of self.old)) }
    {
        let end = found(end)?;
        self.go(after(end));
        Ok(())
    }

    // Returns the innermost loop, if it ends at this line.
    fn ending(&self) -> Option<Loop>
        ensures { result ≡ spec.ending (flow_of self.now) }
    {
        match self.loops.as_slice().last() {
            Some(innermost) => innermost.if_ends_at(self.calls.len(), self.line),
            None => None,
        }
    }

    fn begin_loop(&mut self, kind: LoopKind, last: usize) -> Result<(), Cause>
        ensures { Gives (λ _. flow_of self.new) result (spec.opened kind last (flow_of self.old)) }
    {
        if self.is_open(last) {
            return Err(Cause::LabelTwice);
        }
        if self.loops.len() >= LOOPS {
            return Err(Cause::TooManyLoops);
        }
        self.loops.push(Loop {
            kind,
            depth: self.calls.len(),
            first: after(self.line),
            last,
        });
        self.go_on();
        Ok(())
    }

    /// Begins a loop if its condition holds, and else goes past its end.
    pub(crate) fn begin_while(&mut self, end: Option<usize>, holds: bool) -> Result<(), Cause>
        ensures { Gives (λ _. flow_of self.new) result
            (spec.begin_while end holds (flow_of self.old)) }
    {
        let end = found(end)?;
        if holds {
            return self.begin_loop(LoopKind::While, end);
        }
        self.go(after(end));
        Ok(())
    }

    /// Executes a WHILE: one that begins a loop, or one that ends a DO.
    pub(crate) fn pass_while(&mut self, end: Option<usize>, holds: bool) -> Result<(), Cause>
        ensures { Gives (λ _. flow_of self.new) result (spec.while_at end holds (flow_of self.old)) }
    {
        match self.ending() {
            Some(
                Loop {
                    kind: LoopKind::Do,
                    depth: _,
                    first,
                    last: _,
                },
            ) => {
                if holds {
                    self.go(first);
                } else {
                    self.go_on();
                }
                Ok(())
            }
            _ => self.begin_while(end, holds),
        }
    }

    pub(crate) fn pass_do(&mut self, end: Option<usize>) -> Result<(), Cause>
        ensures { Gives (λ _. flow_of self.new) result (spec.do_at end (flow_of self.old)) }
    {
        let end = found(end)?;
        self.begin_loop(LoopKind::Do, end)
    }

    /// Goes back to the WHILE that this line ends.
    pub(crate) fn pass_end_while(&mut self) -> Result<(), Cause>
        ensures { Gives (λ _. flow_of self.new) result (spec.end_while_at (flow_of self.old)) }
    {
        match self.ending() {
            Some(
                Loop {
                    kind: LoopKind::While,
                    depth: _,
                    first,
                    last: _,
                },
            ) => {
                self.go(first.saturating_sub(1));
                Ok(())
            }
            _ => Err(Cause::NotOpen),
        }
    }

    pub(crate) fn pass_repeat(&mut self, end: Option<usize>, count: Number) -> Result<(), Cause>
        ensures { Gives (λ _. flow_of self.new) result (spec.repeat_at end count (flow_of self.old)) }
    {
        let end = found(end)?;
        let rounds = rounds(count);
        if rounds == 0 {
            self.go(after(end));
            return Ok(());
        }
        self.begin_loop(LoopKind::Repeat(rounds - 1), end)
    }

    // Goes back to the first line of the innermost loop, which has more rounds.
    fn go_again(&mut self, innermost: Loop, left: u128)
        ensures { flow_of self.new ≡ spec.round innermost left (flow_of self.old) }
    {
        let _open = self.loops.as_slice();
        self.loops.pop();
        self.loops.push(Loop {
            kind: LoopKind::Repeat(left),
            depth: innermost.depth,
            first: innermost.first,
            last: innermost.last,
        });
        self.go(innermost.first);
    }

    pub(crate) fn pass_end_repeat(&mut self) -> Result<(), Cause>
        ensures { Gives (λ _. flow_of self.new) result (spec.end_repeat_at (flow_of self.old)) }
    {
        let Some(innermost) = self.ending() else {
            return Err(Cause::NotOpen);
        };
        match innermost.kind {
            LoopKind::Repeat(0) => {
                self.go_on();
                Ok(())
            }
            LoopKind::Repeat(left) => {
                self.go_again(innermost, left - 1);
                Ok(())
            }
            _ => Err(Cause::NotOpen),
        }
    }

    // Returns whether a loop of this call is open that ends at a line.
    fn is_open(&self, last: usize) -> bool
        ensures { result ≡ spec.is_open last (flow_of self.now) }
    {
        let depth = self.calls.len();
        self.loops
            .as_slice()
            .iter()
            .any(|open| open.if_ends_at(depth, last).is_some())
    }

    pub(crate) fn pass_break(&mut self, end: Option<usize>) -> Result<(), Cause>
        ensures { Gives (λ _. flow_of self.new) result (spec.break_at end (flow_of self.old)) }
    {
        let end = found(end)?;
        if !self.is_open(end) {
            return Err(Cause::NotOpen);
        }
        self.go(after(end));
        Ok(())
    }

    pub(crate) fn pass_continue(&mut self, end: Option<usize>) -> Result<(), Cause>
        ensures { Gives (λ _. flow_of self.new) result (spec.continue_at end (flow_of self.old)) }
    {
        let end = found(end)?;
        if !self.is_open(end) {
            return Err(Cause::NotOpen);
        }
        self.go(end);
        Ok(())
    }
}
