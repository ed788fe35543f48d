//! Calls of operations by name.

use crate::decimal::{Decimal, read_number};
use ngc_dialect_numbers::{NoValue, Number};

/// The answer to a line.
#[derive(Clone, Copy)]
pub enum Answer {
    Number(Decimal),
    Refused(NoValue),
    /// The line names no operation, or other arguments than it has.
    Unknown,
}

impl Answer {
    fn of(value: Result<Number, NoValue>) -> Answer {
        match value {
            Ok(number) => Answer::Number(Decimal::new(number)),
            Err(reason) => Answer::Refused(reason),
        }
    }

    fn number(number: Number) -> Answer {
        Answer::Number(Decimal::new(number))
    }

    fn truth(holds: bool) -> Answer {
        Answer::number(Number::truth(holds))
    }
}

fn of_whole(name: &str, x: Number) -> Answer {
    match name {
        "abs" => Answer::number(x.abs()),
        "fix" => Answer::number(x.fix()),
        "fup" => Answer::number(x.fup()),
        "round" => Answer::number(x.round()),
        "negated" => Answer::number(x.negated()),
        "millionths" => Answer::number(Number::from_value(x.to_value())),
        _ => of_function(name, x),
    }
}

fn of_function(name: &str, x: Number) -> Answer {
    match name {
        "sqrt" => Answer::of(x.sqrt()),
        "sin" => Answer::number(x.sin()),
        "cos" => Answer::number(x.cos()),
        "tan" => Answer::of(x.tan()),
        "asin" => Answer::of(x.arc_sine()),
        "acos" => Answer::of(x.arc_cosine()),
        "exp" => Answer::of(x.exp()),
        "ln" => Answer::of(x.ln()),
        _ => Answer::Unknown,
    }
}

fn of_two(name: &str, x: Number, y: Number) -> Answer {
    match name {
        "plus" => Answer::of(x.plus(y)),
        "minus" => Answer::of(x.minus(y)),
        "times" => Answer::of(x.times(y)),
        "over" => Answer::of(x.divided_by(y)),
        "mod" => Answer::of(x.modulo(y)),
        "power" => Answer::of(x.power(y)),
        "atan" => Answer::number(Number::arc_tangent(x, y)),
        _ => of_comparison(name, x, y),
    }
}

fn of_comparison(name: &str, x: Number, y: Number) -> Answer {
    match name {
        "eq" => Answer::truth(x.equals(y)),
        "ne" => Answer::truth(x.differs(y)),
        "lt" => Answer::truth(x.is_below(y)),
        "le" => Answer::truth(x.is_at_most(y)),
        "gt" => Answer::truth(x.is_above(y)),
        "ge" => Answer::truth(x.is_at_least(y)),
        "and" => Answer::truth(x.and(y)),
        "or" => Answer::truth(x.or(y)),
        "xor" => Answer::truth(x.xor(y)),
        _ => Answer::Unknown,
    }
}

// Returns whether a number is within 10^-15 of another, as a part of its size.
fn is_near(number: Number, expected: Number) -> bool {
    let distance = (number.trillionths() - expected.trillionths()).unsigned_abs();
    distance * 1_000_000_000_000_000 <= expected.trillionths().unsigned_abs()
}

fn nearness(answer: Answer, expected: Option<Number>) -> Answer {
    match (answer, expected) {
        (Answer::Number(found), Some(expected)) => Answer::truth(is_near(found.number(), expected)),
        _ => answer,
    }
}

// Returns the answer to a call: a name and one or two numbers, with a space in front of each.
fn answer_to_call(call: &str) -> Answer {
    let mut words = call.split(' ');
    let name = words.next().unwrap_or("");
    let x = words.next().map(read_number);
    let y = words.next().map(read_number);
    match (x, y) {
        (Some(Some(x)), None) => of_whole(name, x),
        (Some(Some(x)), Some(Some(y))) => of_two(name, x, y),
        _ => Answer::Unknown,
    }
}

/// Returns the answer to a line, which is a call, or a call and a number after `nearly`: then it is 1
/// if the value is within 10^-15 of that number, as a part of its size.
pub fn answer_to(line: &str) -> Answer {
    let Some(rest) = line.strip_prefix("nearly ") else {
        return answer_to_call(line);
    };
    match rest.rsplit_once(' ') {
        Some((call, expected)) => nearness(answer_to_call(call), read_number(expected)),
        None => Answer::Unknown,
    }
}
