ghost use Rattle.std.specs.Prelude.{◌≡◌, ℕ, ◌≤◌, length, drop, List};
ghost use Rattle.ngc_line_reader.specs.Scan.{Gives};
ghost use Rattle.std.specs.Str.{bytes_eq};
ghost use Rattle.ngc_dialect_reader.specs.Number.{has_sign as sign_found};
ghost use Rattle.ngc_dialect_reader.specs.Value as spec;
ghost use Rattle.ngc_dialect_reader.specs.Value.{value_at as value_found};

use crate::fault::{Cause, Refusal};
use crate::number::{begins, number_at, refused, tail};
use crate::part::{Function, Operator, PartKind};
use crate::steps::{
    Parts, add, added, after, begins_letter, closed, name_at, needed, starts_with, word_length,
};
use crate::switches::Switches;

/// The dialect, and how deep values may still nest.
#[derive(Clone, Copy)]
pub(crate) struct Scope {
    pub(crate) dialect: Switches,
    pub(crate) depth: usize,
}

pub(crate) fn is(name: &[u8], word: &[u8]) -> bool
    ensures { result ≡ bytes_eq name.now word.now }
{
    name == word
}

fn function_of(name: &[u8]) -> Option<Function>
    ensures { result ≡ spec.function_of name.now }
{
    if is(name, b"ABS") {
        Some(Function::Absolute)
    } else if is(name, b"ACOS") {
        Some(Function::ArcCosine)
    } else if is(name, b"ASIN") {
        Some(Function::ArcSine)
    } else if is(name, b"COS") {
        Some(Function::Cosine)
    } else if is(name, b"EXP") {
        Some(Function::Exponential)
    } else if is(name, b"FIX") {
        Some(Function::RoundDown)
    } else if is(name, b"FUP") {
        Some(Function::RoundUp)
    } else if is(name, b"LN") {
        Some(Function::Logarithm)
    } else if is(name, b"ROUND") {
        Some(Function::Round)
    } else if is(name, b"SIN") {
        Some(Function::Sine)
    } else if is(name, b"SQRT") {
        Some(Function::SquareRoot)
    } else if is(name, b"TAN") {
        Some(Function::Tangent)
    } else {
        None
    }
}

fn operator_at(s: &[u8]) -> Option<Operator>
    ensures { result ≡ spec.operator_at s.now }
{
    if starts_with(s, b"**") {
        Some(Operator::Power)
    } else if starts_with(s, b"*") {
        Some(Operator::Multiply)
    } else if starts_with(s, b"/") {
        Some(Operator::Divide)
    } else if starts_with(s, b"MOD") {
        Some(Operator::Modulo)
    } else if starts_with(s, b"+") {
        Some(Operator::Add)
    } else if starts_with(s, b"-") {
        Some(Operator::Subtract)
    } else if starts_with(s, b"EQ") {
        Some(Operator::Equal)
    } else if starts_with(s, b"NE") {
        Some(Operator::NotEqual)
    } else if starts_with(s, b"GT") {
        Some(Operator::Greater)
    } else if starts_with(s, b"GE") {
        Some(Operator::NotLess)
    } else if starts_with(s, b"LT") {
        Some(Operator::Less)
    } else if starts_with(s, b"LE") {
        Some(Operator::NotGreater)
    } else if starts_with(s, b"AND") {
        Some(Operator::And)
    } else if starts_with(s, b"OR") {
        Some(Operator::Or)
    } else if starts_with(s, b"XOR") {
        Some(Operator::Xor)
    } else {
        None
    }
}

fn operator_length(operator: Operator) -> usize
    ensures { result ≡ spec.operator_length operator }
{
    match operator {
        Operator::Multiply | Operator::Divide | Operator::Add | Operator::Subtract => 1,
        Operator::Modulo | Operator::And | Operator::Xor => 3,
        _ => 2,
    }
}

// Returns how strongly an operator binds.
fn rank(fanuc: bool, operator: Operator) -> u8
    ensures { result ≡ spec.rank fanuc operator }
{
    match operator {
        Operator::Power => { if fanuc { 0 } else { 5 } }
        Operator::Multiply | Operator::Divide | Operator::Modulo => 4,
        Operator::Add | Operator::Subtract => 3,
        Operator::And => { if fanuc { 4 } else { 1 } }
        Operator::Or | Operator::Xor => { if fanuc { 3 } else { 1 } }
        _ => 2,
    }
}

// Returns the operator at `s`, if it binds more strongly than a rank.
fn operator_above(fanuc: bool, level: u8, s: &[u8]) -> Option<Operator>
    ensures { result ≡ spec.above fanuc level (spec.operator_at s.now) }
{
    match operator_at(s) {
        Some(operator) if level < rank(fanuc, operator) => Some(operator),
        _ => None,
    }
}

// Adds the operators and values after a value, as long as the operators bind more strongly than
// `level`, and returns the rest.
#[cycle(value)]
#[tactic(auto, using(crate::proofs::ValueSteps::chain_steps))]
fn chain_at<'a>(
    scope: Scope,
    more: usize,
    level: u8,
    s: &'a [u8],
    parts: &mut Parts,
) -> Result<&'a [u8], Refusal>
    requires { more ≤ 128 }
    ensures { Gives (λ r. (parts.new.items, r.now)) result
        (spec.chain_at scope.dialect.macros (value_found scope.dialect scope.depth) more level
        parts.old.items s.now) }
{
    if more == 0 {
        return Err(refused(Cause::TooManyParts, s));
    }
    let fanuc = scope.dialect.macros;
    let Some(operator) = operator_above(fanuc, level, s) else {
        return Ok(s);
    };
    let rest = value_at(scope, after(operator_length(operator), s), parts)?;
    let rest = chain_at(scope, more - 1, rank(fanuc, operator), rest, parts)?;
    add(PartKind::Operate(operator), s, parts)?;
    chain_at(scope, more - 1, level, rest, parts)
}

// Adds an expression, and returns the rest.
#[cycle(value)]
pub(crate) fn expression_at<'a>(
    scope: Scope,
    s: &'a [u8],
    parts: &mut Parts,
) -> Result<&'a [u8], Refusal>
    ensures { Gives (λ r. (parts.new.items, r.now)) result
        (spec.expression_with scope.dialect (value_found scope.dialect scope.depth)
        parts.old.items s.now) }
{
    let rest = value_at(scope, s, parts)?;
    chain_at(scope, 128, 0, rest, parts)
}

// Adds an expression, whose bracket is the first byte of `s`, and returns the rest after its `]`.
#[cycle(value)]
#[tactic(auto, unfolding(crate::specs::Value::bracket_with))]
pub(crate) fn bracket_at<'a>(
    scope: Scope,
    s: &'a [u8],
    parts: &mut Parts,
) -> Result<&'a [u8], Refusal>
    ensures { Gives (λ r. (parts.new.items, r.now)) result
        (spec.bracket_with scope.dialect (value_found scope.dialect scope.depth)
        parts.old.items s.now) }
{
    let rest = expression_at(scope, tail(s), parts)?;
    closed(b']', Cause::BracketNotClosed, s, rest)
}

#[cycle(value)]
#[tactic(auto, unfolding(crate::specs::Value::parameter_with))]
fn parameter_at<'a>(scope: Scope, s: &'a [u8], parts: &mut Parts) -> Result<&'a [u8], Refusal>
    ensures { Gives (λ r. (parts.new.items, r.now)) result
        (spec.parameter_with scope.dialect (value_found scope.dialect scope.depth)
        parts.old.items s.now) }
{
    if !begins(b'<', tail(s)) {
        let rest = value_at(scope, tail(s), parts)?;
        return added(PartKind::Parameter, s, parts, rest);
    }
    if !scope.dialect.names {
        return Err(refused(Cause::NotInDialect, s));
    }
    let (name, rest) = name_at(after(2, s))?;
    added(PartKind::Named(name), s, parts, rest)
}

// Adds the second argument of ATAN, and returns the rest after its `]`.
#[cycle(value)]
#[tactic(auto, unfolding(crate::specs::Value::second_with))]
fn second_at<'a>(
    scope: Scope,
    from: &[u8],
    s: &'a [u8],
    parts: &mut Parts,
) -> Result<&'a [u8], Refusal>
    ensures { Gives (λ r. (parts.new.items, r.now)) result
        (spec.second_with scope.dialect (value_found scope.dialect scope.depth) from.now
        parts.old.items s.now) }
{
    if scope.dialect.macros && begins(b',', s) {
        return bracket_at(scope, s, parts);
    }
    let slash = closed(b']', Cause::BracketNotClosed, from, s)?;
    let bracket = needed(b'/', Cause::SlashMissing, slash)?;
    if !begins(b'[', bracket) {
        return Err(refused(Cause::BracketMissing, bracket));
    }
    bracket_at(scope, bracket, parts)
}

#[cycle(value)]
#[tactic(auto, unfolding(crate::specs::Value::atan_with))]
fn atan_at<'a>(
    scope: Scope,
    from: &[u8],
    s: &'a [u8],
    parts: &mut Parts,
) -> Result<&'a [u8], Refusal>
    ensures { Gives (λ r. (parts.new.items, r.now)) result
        (spec.atan_with scope.dialect (value_found scope.dialect scope.depth) from.now
        parts.old.items s.now) }
{
    let rest = expression_at(scope, tail(s), parts)?;
    let rest = second_at(scope, s, rest, parts)?;
    added(PartKind::ArcTangent, from, parts, rest)
}

#[tactic(auto, unfolding(crate::specs::Value::exists_with))]
fn exists_at<'a>(
    dialect: Switches,
    from: &[u8],
    s: &'a [u8],
    parts: &mut Parts,
) -> Result<&'a [u8], Refusal>
    ensures { Gives (λ r. (parts.new.items, r.now)) result
        (spec.exists_with dialect from.now parts.old.items s.now) }
{
    if !dialect.names {
        return Err(refused(Cause::NotInDialect, from));
    }
    let sign = needed(b'#', Cause::NameMissing, tail(s))?;
    let front = needed(b'<', Cause::NameMissing, sign)?;
    let (name, end) = name_at(front)?;
    let rest = closed(b']', Cause::BracketNotClosed, s, end)?;
    added(PartKind::Exists(name), from, parts, rest)
}

#[cycle(value)]
#[tactic(auto, unfolding(crate::specs::Value::named_with))]
fn named_at<'a>(
    scope: Scope,
    name: &[u8],
    from: &[u8],
    s: &'a [u8],
    parts: &mut Parts,
) -> Result<&'a [u8], Refusal>
    ensures { Gives (λ r. (parts.new.items, r.now)) result
        (spec.named_with scope.dialect (value_found scope.dialect scope.depth) name.now from.now
        parts.old.items s.now) }
{
    if is(name, b"ATAN") {
        return atan_at(scope, from, s, parts);
    }
    if is(name, b"EXISTS") {
        return exists_at(scope.dialect, from, s, parts);
    }
    let Some(function) = function_of(name) else {
        return Err(refused(Cause::UnknownFunction, from));
    };
    let rest = bracket_at(scope, s, parts)?;
    added(PartKind::Apply(function), from, parts, rest)
}

#[cycle(value)]
#[tactic(auto, unfolding(crate::specs::Value::function_with))]
fn function_at<'a>(scope: Scope, s: &'a [u8], parts: &mut Parts) -> Result<&'a [u8], Refusal>
    ensures { Gives (λ r. (parts.new.items, r.now)) result
        (spec.function_with scope.dialect (value_found scope.dialect scope.depth)
        parts.old.items s.now) }
{
    let (name, rest) = s.split_at(word_length(s));
    if !begins(b'[', rest) {
        return Err(refused(Cause::ValueMissing, s));
    }
    named_at(scope, name, s, rest, parts)
}

pub(crate) fn begins_digits(s: &[u8]) -> bool
    ensures { result ≡ spec.begins_digits s.now }
{
    match s {
        [first, ..] => first.is_ascii_digit() || *first == b'.',
        [] => false,
    }
}

pub(crate) fn has_sign(s: &[u8]) -> bool
    ensures { result ≡ sign_found s.now }
{
    begins(b'+', s) || begins(b'-', s)
}

// Adds a number, and returns the rest.
#[inline(always)]
#[tactic(auto, unfolding(crate::specs::Value::literal_at))]
fn literal_at<'a>(s: &'a [u8], parts: &mut Parts) -> Result<&'a [u8], Refusal>
    ensures { Gives (λ r. (parts.new.items, r.now)) result
        (spec.literal_at parts.old.items s.now) }
{
    let (literal, rest) = number_at(s)?;
    added(PartKind::Number(literal), s, parts, rest)
}

#[cycle(value)]
#[tactic(auto, unfolding(crate::specs::Value::sign_with))]
fn sign_at<'a>(scope: Scope, s: &'a [u8], parts: &mut Parts) -> Result<&'a [u8], Refusal>
    ensures { Gives (λ r. (parts.new.items, r.now)) result
        (spec.sign_with (value_found scope.dialect scope.depth) parts.old.items s.now) }
{
    let rest = value_at(scope, tail(s), parts)?;
    if begins(b'-', s) {
        added(PartKind::Negate, s, parts, rest)
    } else {
        Ok(rest)
    }
}

#[cycle(value)]
#[tactic(auto, unfolding(crate::specs::Value::other_with))]
fn other_at<'a>(scope: Scope, s: &'a [u8], parts: &mut Parts) -> Result<&'a [u8], Refusal>
    ensures { Gives (λ r. (parts.new.items, r.now)) result
        (spec.other_with scope.dialect (value_found scope.dialect scope.depth)
        parts.old.items s.now) }
{
    if begins(b'[', s) {
        bracket_at(scope, s, parts)
    } else if begins(b'#', s) {
        parameter_at(scope, s, parts)
    } else {
        function_at(scope, s, parts)
    }
}

fn begins_other(s: &[u8]) -> bool
    ensures { result ≡ spec.begins_other s.now }
{
    begins(b'[', s) || begins(b'#', s) || begins_letter(s)
}

// Adds the parts of a value, in which values may nest as deep as `scope` says, and returns the rest.
#[cycle(value)]
#[tactic(auto, unfolding(crate::specs::Value::value_with))]
fn value_inside<'a>(scope: Scope, s: &'a [u8], parts: &mut Parts) -> Result<&'a [u8], Refusal>
    ensures { Gives (λ r. (parts.new.items, r.now)) result
        (spec.value_with scope.dialect (value_found scope.dialect scope.depth)
        parts.old.items s.now) }
{
    if begins_digits(s) {
        return literal_at(s, parts);
    }
    if has_sign(s) {
        return if scope.dialect.expressions && !begins_digits(tail(s)) {
            sign_at(scope, s, parts)
        } else {
            literal_at(s, parts)
        };
    }
    if !begins_other(s) {
        return Err(refused(Cause::ValueMissing, s));
    }
    if !scope.dialect.expressions {
        return Err(refused(Cause::NotInDialect, s));
    }
    other_at(scope, s, parts)
}

// Adds a value's parts, and returns the rest.
#[cycle(value)]
#[tactic(auto, using(crate::proofs::ValueSteps::value_steps))]
pub(crate) fn value_at<'a>(
    scope: Scope,
    s: &'a [u8],
    parts: &mut Parts,
) -> Result<&'a [u8], Refusal>
    ensures { Gives (λ r. (parts.new.items, r.now)) result
        (value_found scope.dialect scope.depth parts.old.items s.now) }
{
    if scope.depth == 0 {
        return Err(refused(Cause::TooDeep, s));
    }
    let inner = Scope {
        dialect: scope.dialect,
        depth: scope.depth - 1,
    };
    value_inside(inner, s, parts)
}
