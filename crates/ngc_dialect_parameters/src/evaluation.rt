ghost use Rattle.std.specs.Prelude.{◌≡◌, ◌<◌, drop, IfSome};
ghost use Rattle.arrayvec.specs.ArrayVec.{array_vec_len};
ghost use Rattle.ngc_line_reader.specs.Scan.{Gives};
ghost use Rattle.ngc_dialect_parameters.specs.Known.{known, found};
ghost use Rattle.ngc_dialect_parameters.specs.Evaluation as spec;
ghost use Rattle.ngc_dialect_parameters.specs.Evaluation.{sums_of};
ghost use Rattle.ngc_dialect_parameters.specs.NumberWords.{BeginWord, number_said};
ghost use Rattle.ngc_dialect_reader.specs.declared.part.PartKind.TheVariants as kinds;

use crate::control::Control;
use crate::fault::{Cause, EvaluationFault};
use crate::index::index_of;
use crate::operation::{applied, negated, number_of, operated, valued};
use crate::parameters::Parameters;
use crate::statement::{Statement, Word};
use crate::values::LineValues;
use ngc_dialect_numbers::Number;
use ngc_dialect_reader::{DialectLine, Function, Literal, Name, Operator, Part, PartKind};
use std::alloc::Allocator;

fn literal(literal: Literal, values: &mut LineValues) -> Result<(), Cause>
    requires { array_vec_len values.old.arguments < 128 }
    ensures { Gives (λ _. sums_of values.new) result (spec.literal literal (sums_of values.old)) }
{
    let number = valued(Number::from_trillionths(literal.value))?;
    values.push(Some(number), literal.point);
    Ok(())
}

fn apply(function: Function, values: &mut LineValues) -> Result<(), Cause>
    requires { array_vec_len values.old.arguments < 128 }
    ensures { Gives (λ _. sums_of values.new) result (spec.apply function (sums_of values.old)) }
{
    let value = applied(function, number_of(values.pop()))?;
    values.push(Some(value), true);
    Ok(())
}

fn operate(operator: Operator, values: &mut LineValues) -> Result<(), Cause>
    requires { array_vec_len values.old.arguments < 128 }
    ensures { Gives (λ _. sums_of values.new) result (spec.operate operator (sums_of values.old)) }
{
    let right = values.pop();
    let left = values.pop();
    let value = operated(operator, left, right)?;
    values.push(Some(value), true);
    Ok(())
}

fn arc_tangent(values: &mut LineValues)
    requires { array_vec_len values.old.arguments < 128 }
    ensures { sums_of values.new ≡ spec.arc_tangent (sums_of values.old) }
{
    let x = number_of(values.pop());
    let y = number_of(values.pop());
    values.push(Some(Number::arc_tangent(y, x)), true);
}

fn word(letter: u8, values: &mut LineValues)
    requires { array_vec_len values.old.statements < 128 }
    ensures { sums_of values.new ≡ spec.word letter (sums_of values.old) }
{
    let point = values.point();
    if let Some(value) = values.pop() {
        values.say(Statement::Word(Word {
            letter,
            value,
            point,
        }));
    }
}

// Says a word whose value is a number: what the number's part and the word's do after each other.
#[inline(always)]
fn number_word(number: Literal, letter: u8, values: &mut LineValues) -> Result<(), Cause>
    requires { array_vec_len values.old.statements < 128 }
    ensures { Gives (λ _. sums_of values.new) result
        (number_said number letter (sums_of values.old)) }
{
    let value = valued(Number::from_trillionths(number.value))?;
    values.say_word(letter, value, number.point);
    Ok(())
}

fn word_of(first: PartKind, second: PartKind) -> Option<(Literal, u8)>
    ensures { IfSome result (λ x. (first ≡ kinds.Number x.0) × (second ≡ kinds.Word x.1)) }
{
    match (first, second) {
        (PartKind::Number(number), PartKind::Word(letter)) => Some((number, letter)),
        _ => None,
    }
}

// Returns the number and the letter of a word, if parts begin with one whose value is a number.
#[inline(always)]
fn number_first(parts: &[Part]) -> Option<(Literal, u8)>
    ensures { IfSome result (λ x. BeginWord x.0 x.1 parts.now) }
{
    match parts {
        [first, second, ..] => word_of(first.kind, second.kind),
        _ => None,
    }
}

// Returns the parts after the first.
#[inline(always)]
fn others(parts: &[Part]) -> &[Part]
    ensures { result.now ≡ drop 1 parts.now }
{
    match parts {
        [_, others @ ..] => others,
        [] => parts,
    }
}

fn begin_loop(values: &mut LineValues)
    requires { array_vec_len values.old.statements < 128 }
    ensures { sums_of values.new ≡ spec.begin_loop (sums_of values.old) }
{
    let number = number_of(values.pop());
    let condition = number_of(values.pop()).is_true();
    values.say(Statement::Loop(condition, number));
}

impl<A: Allocator + Copy> Parameters<A> {
    fn parameter<C: Control>(&self, control: &C, values: &mut LineValues) -> Result<(), Cause>
        requires { array_vec_len values.old.arguments < 128 }
        ensures { Gives (λ _. sums_of values.new) result (spec.parameter
            (known self.now (C.number control.now) (C.name control.now)) (sums_of values.old)) }
    {
        let index = index_of(self.dialect, number_of(values.pop()))?;
        let value = self.value(control, values.statements.as_slice(), index)?;
        values.push(value, true);
        Ok(())
    }

    fn name<C: Control>(
        &self,
        control: &C,
        name: &[u8],
        values: &mut LineValues,
    ) -> Result<(), Cause>
        requires { array_vec_len values.old.arguments < 128 }
        ensures { Gives (λ _. sums_of values.new) result (spec.named
            (found (known self.now (C.number control.now) (C.name control.now)) name.now)
            (sums_of values.old)) }
    {
        match self.found(control, name) {
            Some(value) => {
                values.push(Some(value), true);
                Ok(())
            }
            None => Err(Cause::Unset),
        }
    }

    fn setting<C: Control>(&self, control: &C, values: &mut LineValues) -> Result<(), Cause>
        requires { array_vec_len values.old.statements < 128 }
        ensures { Gives (λ _. sums_of values.new) result (spec.setting
            (known self.now (C.number control.now) (C.name control.now)) (sums_of values.old)) }
    {
        let value = values.pop();
        let index = index_of(self.dialect, number_of(values.pop()))?;
        let index = self.settable(control, index)?;
        values.say(Statement::Set(index, value));
        Ok(())
    }

    fn name_setting<C: Control>(
        &self,
        control: &C,
        line: &DialectLine,
        name: Name,
        values: &mut LineValues,
    ) -> Result<(), Cause>
        requires { array_vec_len values.old.statements < 128 }
        ensures { Gives (λ _. sums_of values.new) result (spec.name_setting
            (known self.now (C.number control.now) (C.name control.now)) line.now.text.items name
            (sums_of values.old)) }
    {
        if !self.is_settable(control, line.name(name)) {
            return Err(Cause::ReadOnly);
        }
        let value = number_of(values.pop());
        values.say(Statement::SetNamed(name, value));
        Ok(())
    }

    fn step<C: Control>(
        &self,
        control: &C,
        line: &DialectLine,
        kind: PartKind,
        values: &mut LineValues,
    ) -> Result<(), Cause>
        requires stack { array_vec_len values.old.arguments < 128 }
        requires statements { array_vec_len values.old.statements < 128 }
        ensures { Gives (λ _. sums_of values.new) result (spec.step
            (known self.now (C.number control.now) (C.name control.now)) line.now.text.items kind
            (sums_of values.old)) }
    {
        match kind {
            PartKind::Number(number) => return literal(number, values),
            PartKind::Parameter => return self.parameter(control, values),
            PartKind::Named(name) => return self.name(control, line.name(name), values),
            PartKind::Exists(name) => {
                let is_set = self.found(control, line.name(name)).is_some();
                values.push(Some(Number::truth(is_set)), true);
            }
            PartKind::Negate => {
                let value = values.pop();
                values.push(negated(value), true);
            }
            PartKind::Apply(function) => return apply(function, values),
            PartKind::ArcTangent => arc_tangent(values),
            PartKind::Operate(operator) => return operate(operator, values),
            PartKind::Word(letter) => word(letter, values),
            PartKind::Set => return self.setting(control, values),
            PartKind::SetNamed(name) => return self.name_setting(control, line, name, values),
            PartKind::Delete(level) => values.say(Statement::Delete(level)),
            PartKind::LineNumber => {
                let value = number_of(values.pop());
                values.say(Statement::LineNumber(value));
            }
            PartKind::Percent => values.say(Statement::Percent),
            PartKind::Home => values.say(Statement::Home),
            PartKind::Label => {
                let value = number_of(values.pop());
                values.say(Statement::Label(value));
            }
            PartKind::LabelNamed(name) => values.say(Statement::LabelNamed(name)),
            PartKind::Flow(keyword, count) => values.say(Statement::Flow(keyword, count)),
            PartKind::When => {
                values.pop();
            }
            PartKind::GoTo => {
                let value = number_of(values.pop());
                values.say(Statement::GoTo(value));
            }
            PartKind::Loop => begin_loop(values),
            PartKind::EndLoop => {
                let value = number_of(values.pop());
                values.say(Statement::EndLoop(value));
            }
        }
        Ok(())
    }

    /// Computes the values of a line, and puts them in `values`, in place of what was there. After a
    /// fault the contents of `values` are unspecified.
    pub fn evaluate<C: Control>(
        &self,
        control: &C,
        line: &DialectLine,
        values: &mut LineValues,
    ) -> Result<(), EvaluationFault>
        ensures { Gives (λ _. sums_of values.new) result (spec.line_values
            (known self.now (C.number control.now) (C.name control.now)) line.now.text.items
            line.now.parts.items) }
    {
        values.clear();
        let mut rest = line.parts.as_slice();
        while let [part, after @ ..] = rest {
            // Most parts are a number and the word that takes it: these need no stack.
            let done = if let Some((number, letter)) = number_first(rest) {
                rest = others(after);
                number_word(number, letter, values)
            } else {
                if values.is_stopped(part.kind) {
                    values.pop();
                    return Ok(());
                }
                rest = after;
                self.step(control, line, part.kind, values)
            };
            match done {
                Ok(()) => {}
                Err(cause) => {
                    return Err(EvaluationFault {
                        cause,
                        left: part.left,
                    })
                }
            }
        }
        Ok(())
    }
}
