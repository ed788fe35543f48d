//! Calls of subprograms.
ghost use Rattle.std.specs.Prelude.{◌≡◌};
ghost use Rattle.ngc_line_reader.specs.Scan.{Gives};
ghost use Rattle.ngc_dialect_flow.specs.Calls as spec;
ghost use Rattle.ngc_dialect_flow.specs.Places.{plan_of};
ghost use Rattle.ngc_dialect_flow.specs.State.{flow_of};
ghost use Rattle.ngc_dialect_flow.specs.Words.{values_of};

use crate::effect::Effect;
use crate::fault::Cause;
use crate::key::key_with;
use crate::mark::{Label, number_label, whole_of};
use crate::search::Search;
use crate::state::{Call, CallKind, State, after};
use crate::table::Table;
use crate::words::{argument, label_in, needed, only_word, word_in};
use ngc_dialect_names::Dialect;
use ngc_dialect_numbers::Number;
use ngc_dialect_parameters::LineValues;
use ngc_dialect_reader::{DialectLine, Switches};
use std::alloc::Allocator;

/// The greatest number of open calls.
const CALLS: usize = 10;

impl<A: Allocator + Copy> Table<A> {
    // Returns the one line that a search finds under a label.
    fn line_with(
        &self,
        line: &DialectLine,
        search: Search,
        label: Option<Label>,
    ) -> Result<usize, Cause>
        ensures { result ≡ spec.line_with (plan_of self.now) line.now.text.items search label }
    {
        let Some(key) = key_with(line, Some(search), label) else {
            return Err(Cause::LabelMissing);
        };
        match self.place(key.as_slice()) {
            Some(place) if place.again => Err(Cause::LabelTwice),
            Some(place) => Ok(place.line),
            None => Err(Cause::LabelMissing),
        }
    }
}

// Returns the number of a subprogram that M98 calls, and how often.
fn times(dialect: Dialect, program: u128, count: Option<Number>) -> Result<(u128, u128), Cause>
    ensures { result ≡ spec.times dialect program count }
{
    if count.is_some() {
        let count = needed(count)?;
        return Ok((program, count));
    }
    if Switches::of(dialect).macros && program > 9999 {
        Ok((program % 10_000, program / 10_000))
    } else {
        Ok((program, 1))
    }
}

impl State {
    // Begins a call, and goes to a line.
    fn enter(&mut self, kind: CallKind, entry: usize, left: u128) -> Result<(), Cause>
        ensures { Gives (λ _. flow_of self.new) result
            (spec.enter kind entry left (flow_of self.old)) }
    {
        if self.calls.len() >= CALLS {
            return Err(Cause::TooDeep);
        }
        self.calls.push(Call {
            kind,
            back: after(self.line),
            entry,
            left,
        });
        self.go(entry);
        Ok(())
    }

    // Ends the last call, and goes to the line after it.
    fn leave(&mut self, call: Call)
        ensures { flow_of self.new ≡ spec.leave call (flow_of self.old) }
    {
        self.calls.pop();
        self.go(call.back);
    }

    fn last_call(&self) -> Option<Call>
        ensures { result ≡ spec.last_call (flow_of self.now) }
    {
        self.calls.as_slice().last().copied()
    }

    /// Executes a CALL.
    pub(crate) fn pass_call<A: Allocator + Copy>(
        &mut self,
        table: &Table<A>,
        line: &DialectLine,
        values: &LineValues,
    ) -> Result<Effect, Cause>
        ensures { Gives (λ e. (flow_of self.new, e)) result
            (spec.call_at (plan_of table.now) (values_of line.now values.now) (flow_of self.old)) }
    {
        let label = label_in(values.statements.as_slice());
        let sub = table.line_with(line, Search::Sub, label)?;
        self.enter(CallKind::Sub, after(sub), 0)?;
        Ok(Effect::Enter)
    }

    /// Executes an ENDSUB or RETURN.
    pub(crate) fn pass_return(
        &mut self,
        line: &DialectLine,
        values: &LineValues,
    ) -> Result<Effect, Cause>
        ensures { Gives (λ e. (flow_of self.new, e)) result
            (spec.return_at (values_of line.now values.now) (flow_of self.old)) }
    {
        let Some(call) = self.last_call() else {
            return Err(Cause::NotCalled);
        };
        match call.kind {
            CallKind::Sub => {
                self.leave(call);
                Ok(Effect::Return(argument(values.arguments.as_slice())))
            }
            _ => Err(Cause::NotCalled),
        }
    }

    /// Executes an M98.
    pub(crate) fn pass_m98<A: Allocator + Copy>(
        &mut self,
        table: &Table<A>,
        line: &DialectLine,
        values: &LineValues,
    ) -> Result<Effect, Cause>
        ensures { Gives (λ e. (flow_of self.new, e)) result
            (spec.m98_at (plan_of table.now) (values_of line.now values.now) (flow_of self.old)) }
    {
        let statements = values.statements.as_slice();
        let program = only_word(b'P', statements)?;
        let count = only_word(b'L', statements)?;
        let program = needed(program)?;
        let (program, count) = times(table.dialect, program, count)?;
        let label = Some(Label::Number(program));
        let first = table.line_with(line, Search::Program, label)?;
        if count == 0 {
            self.go_on();
            return Ok(Effect::Stay);
        }
        self.enter(CallKind::Program, after(first), count - 1)?;
        Ok(Effect::Stay)
    }

    /// Goes to the line with a number of its own.
    pub(crate) fn jump_to<A: Allocator + Copy>(
        &mut self,
        table: &Table<A>,
        line: &DialectLine,
        number: Number,
    ) -> Result<(), Cause>
        ensures { Gives (λ _. flow_of self.new) result
            (spec.jump_to (plan_of table.now) line.now.text.items number (flow_of self.old)) }
    {
        let label = number_label(whole_of(number.trillionths()));
        let next = table.line_with(line, Search::LineNumber, label)?;
        self.go(next);
        Ok(())
    }

    // Ends the last call, and goes to the line with the number P, or to the line after the call.
    fn leave_to<A: Allocator + Copy>(
        &mut self,
        table: &Table<A>,
        line: &DialectLine,
        number: Option<Number>,
        call: Call,
    ) -> Result<(), Cause>
        ensures { Gives (λ _. flow_of self.new) result
            (spec.leave_to (plan_of table.now) line.now.text.items number call (flow_of self.old)) }
    {
        self.leave(call);
        match number {
            Some(number) if Switches::of(table.dialect).macros => self.jump_to(table, line, number),
            _ => Ok(()),
        }
    }

    // Executes the subprogram of the last call again.
    fn enter_again(&mut self, call: Call)
        ensures { flow_of self.new ≡ spec.again call (flow_of self.old) }
    {
        let _open = self.calls.as_slice();
        self.calls.pop();
        self.calls.push(Call {
            kind: call.kind,
            back: call.back,
            entry: call.entry,
            left: call.left.saturating_sub(1),
        });
        self.go(call.entry);
    }

    fn m99_from<A: Allocator + Copy>(
        &mut self,
        table: &Table<A>,
        line: &DialectLine,
        values: &LineValues,
        call: Call,
    ) -> Result<(), Cause>
        ensures { Gives (λ _. flow_of self.new) result
            (spec.m99_from (plan_of table.now) (values_of line.now values.now) call (flow_of self.old)) }
    {
        if call.left == 0 {
            let number = word_in(b'P', values.statements.as_slice());
            return self.leave_to(table, line, number, call);
        }
        self.enter_again(call);
        Ok(())
    }

    /// Executes an M99.
    pub(crate) fn pass_m99<A: Allocator + Copy>(
        &mut self,
        table: &Table<A>,
        line: &DialectLine,
        values: &LineValues,
    ) -> Result<Effect, Cause>
        ensures { Gives (λ e. (flow_of self.new, e)) result
            (spec.m99_at (plan_of table.now) (values_of line.now values.now) (flow_of self.old)) }
    {
        let Some(call) = self.last_call() else {
            return Ok(Effect::End);
        };
        match call.kind {
            CallKind::Sub => Err(Cause::NotCalled),
            CallKind::Program => {
                self.m99_from(table, line, values, call)?;
                Ok(Effect::Stay)
            }
        }
    }
}
