//! One step of the flow.
ghost use Rattle.std.specs.Prelude.{◌≡◌};
ghost use Rattle.ngc_line_reader.specs.Scan.{Gives};
ghost use Rattle.ngc_dialect_flow.specs.Next as spec;
ghost use Rattle.ngc_dialect_flow.specs.Places.{plan_of};
ghost use Rattle.ngc_dialect_flow.specs.State.{flow_of};
ghost use Rattle.ngc_dialect_flow.specs.Words.{values_of};

use crate::effect::Effect;
use crate::fault::Cause;
use crate::mark::LineKind;
use crate::repetition::found;
use crate::state::State;
use crate::table::{Row, Table};
use crate::words::{argument, has_m, jump_in, loop_holds, or_zero};
use ngc_dialect_parameters::LineValues;
use ngc_dialect_reader::{DialectLine, Keyword};
use std::alloc::Allocator;

impl State {
    // Goes to the branch or the end of an IF.
    fn seek_found(&mut self, branch: Option<usize>) -> Result<(), Cause>
        ensures { Gives (λ _. flow_of self.new) result
            (spec.seek_found branch (flow_of self.old)) }
    {
        let branch = found(branch)?;
        self.seek(branch);
        Ok(())
    }

    fn test(&mut self, branch: Option<usize>, holds: bool) -> Result<(), Cause>
        ensures { Gives (λ _. flow_of self.new) result
            (spec.test_at branch holds (flow_of self.old)) }
    {
        if holds {
            self.go_on();
            Ok(())
        } else {
            self.seek_found(branch)
        }
    }

    fn pass_if(&mut self, row: Row, holds: bool) -> Result<(), Cause>
        ensures { Gives (λ _. flow_of self.new) result (spec.if_at row holds (flow_of self.old)) }
    {
        if self.seeking {
            Err(Cause::LabelTwice)
        } else {
            self.test(row.branch, holds)
        }
    }

    fn pass_else_if(&mut self, row: Row, holds: bool) -> Result<(), Cause>
        ensures { Gives (λ _. flow_of self.new) result
            (spec.else_if_at row holds (flow_of self.old)) }
    {
        if self.seeking {
            self.test(row.branch, holds)
        } else {
            self.seek_found(row.end)
        }
    }

    fn pass_else(&mut self, row: Row) -> Result<(), Cause>
        ensures { Gives (λ _. flow_of self.new) result (spec.else_at row (flow_of self.old)) }
    {
        if self.seeking {
            self.go_on();
            Ok(())
        } else {
            self.seek_found(row.end)
        }
    }

    // Executes an O word that calls nothing.
    fn turn(
        &mut self,
        keyword: Keyword,
        row: Row,
        line: &DialectLine,
        values: &LineValues,
    ) -> Result<(), Cause>
        ensures { Gives (λ _. flow_of self.new) result
            (spec.turn keyword row (values_of line.now values.now) (flow_of self.old)) }
    {
        let count = or_zero(argument(values.arguments.as_slice()));
        let holds = count.is_true();
        match keyword {
            Keyword::Sub => self.go_past(row.end),
            Keyword::If => self.pass_if(row, holds),
            Keyword::ElseIf => self.pass_else_if(row, holds),
            Keyword::Else => self.pass_else(row),
            Keyword::While => self.pass_while(row.end, holds),
            Keyword::EndWhile => self.pass_end_while(),
            Keyword::Do => self.pass_do(row.end),
            Keyword::Repeat => self.pass_repeat(row.end, count),
            Keyword::EndRepeat => self.pass_end_repeat(),
            Keyword::Break => self.pass_break(row.end),
            Keyword::Continue => self.pass_continue(row.end),
            _ => {
                self.go_on();
                Ok(())
            }
        }
    }

    fn pass_word<A: Allocator + Copy>(
        &mut self,
        keyword: Keyword,
        table: &Table<A>,
        row: Row,
        line: &DialectLine,
        values: &LineValues,
    ) -> Result<Effect, Cause>
        ensures { Gives (λ e. (flow_of self.new, e)) result
            (spec.o_word keyword (plan_of table.now) row (values_of line.now values.now)
            (flow_of self.old)) }
    {
        match keyword {
            Keyword::Call => self.pass_call(table, line, values),
            Keyword::EndSub | Keyword::Return => self.pass_return(line, values),
            _ => {
                self.turn(keyword, row, line, values)?;
                Ok(Effect::Stay)
            }
        }
    }

    // Goes to the line to which a line goes, or to the next one.
    fn pass_jump<A: Allocator + Copy>(
        &mut self,
        table: &Table<A>,
        line: &DialectLine,
        values: &LineValues,
    ) -> Result<(), Cause>
        ensures { Gives (λ _. flow_of self.new) result
            (spec.jump_at (plan_of table.now) (values_of line.now values.now) (flow_of self.old)) }
    {
        match jump_in(values.statements.as_slice()) {
            Some(number) => self.jump_to(table, line, number),
            None => {
                self.go_on();
                Ok(())
            }
        }
    }

    // Goes on after a line of words, or one of Fanuc's GOTO.
    fn pass_plain<A: Allocator + Copy>(
        &mut self,
        table: &Table<A>,
        line: &DialectLine,
        values: &LineValues,
    ) -> Result<Effect, Cause>
        ensures { Gives (λ e. (flow_of self.new, e)) result
            (spec.plain (plan_of table.now) (values_of line.now values.now) (flow_of self.old)) }
    {
        let statements = values.statements.as_slice();
        if has_m(98, statements) {
            return self.pass_m98(table, line, values);
        }
        if has_m(99, statements) {
            return self.pass_m99(table, line, values);
        }
        if has_m(2, statements) || has_m(30, statements) {
            return Ok(Effect::End);
        }
        self.pass_jump(table, line, values)?;
        Ok(Effect::Stay)
    }

    fn pass_row<A: Allocator + Copy>(
        &mut self,
        table: &Table<A>,
        row: Row,
        line: &DialectLine,
        values: &LineValues,
    ) -> Result<Effect, Cause>
        ensures { Gives (λ e. (flow_of self.new, e)) result
            (spec.by_kind row.kind (plan_of table.now) row (values_of line.now values.now)
            (flow_of self.old)) }
    {
        match row.kind {
            LineKind::Blank | LineKind::Percent | LineKind::Program => {
                self.go_on();
                Ok(Effect::Stay)
            }
            LineKind::Plain => self.pass_plain(table, line, values),
            LineKind::Word(keyword) => self.pass_word(keyword, table, row, line, values),
            LineKind::Loop => {
                self.begin_while(row.end, loop_holds(values.statements.as_slice()))?;
                Ok(Effect::Stay)
            }
            LineKind::EndLoop => {
                self.pass_end_while()?;
                Ok(Effect::Stay)
            }
        }
    }

    /// Returns whether the values of the line that is executed next are needed. Those of an ELSEIF
    /// that ends a branch aren't, and a control doesn't compute them.
    pub fn needs_values<A: Allocator + Copy>(&self, table: &Table<A>) -> bool
        ensures { result ≡ spec.needs_values (plan_of table.now) (flow_of self.now) }
    {
        match table.row(self.line) {
            Some(row) => match row.kind {
                LineKind::Word(Keyword::ElseIf) => self.seeking,
                _ => true,
            },
            None => false,
        }
    }

    /// Goes on after the line that is executed next, whose contents and values these are, and returns
    /// what else the step does. After a fault the state is unspecified.
    pub fn next<A: Allocator + Copy>(
        &mut self,
        table: &Table<A>,
        line: &DialectLine,
        values: &LineValues,
    ) -> Result<Effect, Cause>
        ensures { Gives (λ e. (flow_of self.new, e)) result
            (spec.next (plan_of table.now) (values_of line.now values.now) (flow_of self.old)) }
    {
        self.burn()?;
        match table.row(self.line) {
            Some(row) => self.pass_row(table, row, line, values),
            None => Ok(Effect::End),
        }
    }

    /// Goes on after a line that a block delete switch skips.
    pub fn skip(&mut self) -> Result<(), Cause>
        ensures { Gives (λ _. flow_of self.new) result (spec.skipped (flow_of self.old)) }
    {
        self.burn()?;
        self.go_on();
        Ok(())
    }
}
