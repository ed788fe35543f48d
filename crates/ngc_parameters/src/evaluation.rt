ghost use Rattle.std.specs.Prelude.{◌≡◌, ◌+◌, ◌≤◌, ◌<◌, ℕ, ℤ, pos, length, IfOk, IfErr, ◌≢◌};
ghost use Rattle.std.specs.Prelude.{slice_index_or, List, ◌++◌};
ghost use Rattle.ngc_parameters.specs.Meaning.{Parameters, index_of as index_found};
ghost use Rattle.ngc_parameters.specs.Meaning.{apply as applied, from_number as number_found};
ghost use Rattle.ngc_parameters.specs.Meaning.{Before, joined as joined_with};
ghost use Rattle.ngc_parameters.specs.Evaluate.{symbol_value as value_found};
ghost use Rattle.ngc_parameters.specs.Evaluate.{symbols_with as with_found};
ghost use Rattle.ngc_parameters.specs.EvaluateView.{ValueResultIs, held, before_of, with_rest};
ghost use Rattle.ngc_line_reader.specs.Grammar.{Real};
ghost use Rattle.ngc_line_reader.specs.declared.token.Symbol.{Symbol};
ghost use Rattle.ngc_line_reader.specs.Tokens.{symbols_of, symbols, IsWithinLimit};
ghost use Rattle.ngc_parameters.specs.Meaning.{value_of};

use crate::fault::EvalFault;
use ngc_fixed_length::{NumberFault, Value};
use ngc_line_reader::{Operator, Symbol, Token};

/// Returns the index of the parameter with this number. Returns an error if the number isn't whole,
/// or isn't from 1 to 5160.
pub fn index_of(value: Value) -> Result<usize, EvalFault>
    ensures value { result ≡ index_found value }
    ensures not_memory { IfErr result (λ e. e ≢ EvalFault.Memory) }
{
    let millionths = value.millionths();
    let size = millionths.unsigned_abs();
    if size % 1_000_000 != 0 {
        return Err(EvalFault::IndexNotWhole);
    }
    if millionths < 0 || size < 1_000_000 || size > 5_160_000_000 {
        return Err(EvalFault::IndexOutOfRange);
    }
    Ok((size / 1_000_000) as usize)
}

fn from_number(outcome: Result<Value, NumberFault>) -> Result<Value, EvalFault>
    ensures value { result ≡ number_found outcome }
    ensures not_memory { IfErr result (λ e. e ≢ EvalFault.Memory) }
{
    match outcome {
        Ok(value) => Ok(value),
        Err(fault) => Err(EvalFault::Number(fault)),
    }
}

fn apply(operator: Operator, x: Value, y: Value) -> Result<Value, EvalFault>
    ensures value { result ≡ applied operator x y }
    ensures not_memory { IfErr result (λ e. e ≢ EvalFault.Memory) }
{
    match operator {
        Operator::Add => from_number(x.add(y)),
        Operator::Subtract => from_number(x.sub(y)),
        Operator::Multiply => from_number(x.mul(y)),
        Operator::Divide => from_number(x.div(y)),
    }
}

// Returns the term, joined to the value before it by the operator between them, if there is one.
fn join(before: Option<(Value, Operator)>, term: Value) -> Result<Value, EvalFault>
    ensures value { result ≡ joined_with (before_of before) term }
    ensures not_memory { IfErr result (λ e. e ≢ EvalFault.Memory) }
{
    match before {
        None => Ok(term),
        Some((total, operator)) => apply(operator, total, term),
    }
}

/// Returns the value at the start of some tokens, and the tokens after it. `room` is how many brackets
/// may still be open inside one another.
#[cycle(evaluate)]
#[tactic(auto, using(crate::proofs::EvaluateSteps::value_step))]
pub fn value_at<'a>(
    steps: usize,
    room: usize,
    parameters: &[Value],
    s: &'a [Token],
) -> Result<(Value, &'a [Token]), EvalFault>
    requires steps { length s.now < steps }
    requires all { length parameters.now ≡ 5161 }
    ensures value { ValueResultIs result
        (value_found steps room (held parameters.now) (symbols s.now)) }
    ensures shorter { IfOk result (λ x. length x.1.now < length s.now) }
    ensures not_memory { IfErr result (λ e. e ≢ EvalFault.Memory) }
{
    let Some((first, rest)) = s.split_first() else {
        return Err(EvalFault::TooDeep);
    };
    match first.symbol {
        Symbol::Number(value) => Ok((value, rest)),
        Symbol::Parameter => {
            if room == 0 {
                return Err(EvalFault::TooDeep);
            }
            match value_at(steps - 1, room - 1, parameters, rest) {
                Ok((value, rest)) => match index_of(value) {
                    Ok(index) => Ok((parameters[index], rest)),
                    Err(fault) => Err(fault),
                },
                Err(fault) => Err(fault),
            }
        }
        Symbol::Open => {
            if room == 0 {
                return Err(EvalFault::TooDeep);
            }
            match value_at(steps - 1, room - 1, parameters, rest) {
                Ok((value, rest)) => {
                    value_with(steps - 1, room - 1, parameters, None, value, rest)
                }
                Err(fault) => Err(fault),
            }
        }
        Symbol::Close | Symbol::Operator(_) => Err(EvalFault::TooDeep),
    }
}

#[cycle(evaluate)]
#[tactic(auto, using(crate::proofs::EvaluateSteps::with_step))]
fn value_with<'a>(
    steps: usize,
    room: usize,
    parameters: &[Value],
    before: Option<(Value, Operator)>,
    term: Value,
    s: &'a [Token],
) -> Result<(Value, &'a [Token]), EvalFault>
    requires steps { length s.now < steps }
    requires all { length parameters.now ≡ 5161 }
    ensures value { ValueResultIs result
        (with_found steps room (held parameters.now) (before_of before) term (symbols s.now)) }
    ensures shorter { IfOk result (λ x. length x.1.now < length s.now) }
    ensures not_memory { IfErr result (λ e. e ≢ EvalFault.Memory) }
{
    let Some((first, rest)) = s.split_first() else {
        return Err(EvalFault::TooDeep);
    };
    match first.symbol {
        Symbol::Close => match join(before, term) {
            Ok(value) => Ok((value, rest)),
            Err(fault) => Err(fault),
        },
        Symbol::Operator(operator) => match operator {
            Operator::Add | Operator::Subtract => match join(before, term) {
                Ok(total) => match value_at(steps - 1, room, parameters, rest) {
                    Ok((value, rest)) => value_with(
                        steps - 1,
                        room,
                        parameters,
                        Some((total, operator)),
                        value,
                        rest,
                    ),
                    Err(fault) => Err(fault),
                },
                Err(fault) => Err(fault),
            },
            Operator::Multiply | Operator::Divide => {
                match value_at(steps - 1, room, parameters, rest) {
                    Ok((value, rest)) => match apply(operator, term, value) {
                        Ok(term) => value_with(steps - 1, room, parameters, before, term, rest),
                        Err(fault) => Err(fault),
                    },
                    Err(fault) => Err(fault),
                }
            }
        },
        Symbol::Number(_) | Symbol::Parameter | Symbol::Open => Err(EvalFault::TooDeep),
    }
}

/// Returns the value of the real value at the front of some tokens, and the remaining tokens.
pub fn evaluate<'a>(parameters: &[Value], s: &'a [Token]) -> Result<(Value, &'a [Token]), EvalFault>
    requires all { length parameters.now ≡ 5161 }
    requires short { length s.now ≤ 256 }
    ensures computed { ValueResultIs result
        (value_found (length s.now + 1) 16 (held parameters.now) (symbols s.now)) }
    ensures tree { (v : Real) (rest : List Symbol) → IsWithinLimit v →
        symbols s.now ≡ symbols_of v ++ rest →
        ValueResultIs result (with_rest rest (value_of (held parameters.now) v)) }
    ensures not_memory { IfErr result (λ e. e ≢ EvalFault.Memory) }
{
    value_at(s.len() + 1, 16, parameters, s)
}
