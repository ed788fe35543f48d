//! Functions and operators of expressions.
ghost use Rattle.std.specs.Prelude.{◌≡◌};
ghost use Rattle.ngc_dialect_parameters.specs.Operations as spec;

use crate::fault::Cause;
use ngc_dialect_numbers::{NoValue, Number};
use ngc_dialect_reader::{Function, Operator};

/// Returns the number that a value counts as: an empty one is 0.
pub(crate) fn number_of(value: Option<Number>) -> Number
    ensures { result ≡ spec.number_of value }
{
    match value {
        Some(number) => number,
        None => Number::truth(false),
    }
}

pub(crate) fn valued(value: Result<Number, NoValue>) -> Result<Number, Cause>
    ensures { result ≡ spec.valued value }
{
    match value {
        Ok(number) => Ok(number),
        Err(reason) => Err(Cause::Value(reason)),
    }
}

/// Returns a value with the other sign.
pub(crate) fn negated(value: Option<Number>) -> Option<Number>
    ensures { result ≡ spec.negated value }
{
    match value {
        Some(number) => Some(number.negated()),
        None => None,
    }
}

/// Returns the value of a function.
pub(crate) fn applied(function: Function, x: Number) -> Result<Number, Cause>
    ensures { result ≡ spec.applied function x }
{
    match function {
        Function::Absolute => Ok(x.abs()),
        Function::ArcCosine => valued(x.arc_cosine()),
        Function::ArcSine => valued(x.arc_sine()),
        Function::Cosine => Ok(x.cos()),
        Function::Exponential => valued(x.exp()),
        Function::RoundDown => Ok(x.fix()),
        Function::RoundUp => Ok(x.fup()),
        Function::Logarithm => valued(x.ln()),
        Function::Round => Ok(x.round()),
        Function::Sine => Ok(x.sin()),
        Function::SquareRoot => valued(x.sqrt()),
        Function::Tangent => valued(x.tan()),
    }
}

/// Returns the value of an operator.
pub(crate) fn operated(
    operator: Operator,
    left: Option<Number>,
    right: Option<Number>,
) -> Result<Number, Cause>
    ensures { result ≡ spec.operated operator left right }
{
    let alike = left.is_some() == right.is_some();
    let x = number_of(left);
    let y = number_of(right);
    match operator {
        Operator::Power => valued(x.power(y)),
        Operator::Multiply => valued(x.times(y)),
        Operator::Divide => valued(x.divided_by(y)),
        Operator::Modulo => valued(x.modulo(y)),
        Operator::Add => valued(x.plus(y)),
        Operator::Subtract => valued(x.minus(y)),
        Operator::Equal => Ok(Number::truth(alike && x.equals(y))),
        Operator::NotEqual => Ok(Number::truth(!(alike && x.equals(y)))),
        Operator::Greater => Ok(Number::truth(x.is_above(y))),
        Operator::NotLess => Ok(Number::truth(x.is_at_least(y))),
        Operator::Less => Ok(Number::truth(x.is_below(y))),
        Operator::NotGreater => Ok(Number::truth(x.is_at_most(y))),
        Operator::And => Ok(Number::truth(x.and(y))),
        Operator::Or => Ok(Number::truth(x.or(y))),
        Operator::Xor => Ok(Number::truth(x.xor(y))),
    }
}
