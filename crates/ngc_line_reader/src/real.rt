ghost use Rattle.std.specs.Prelude.{◌≡◌, ◌+◌, ◌≤◌, ◌<◌, ◌++◌, ◌∷◌, [], length, IfOk, IfErr, IsOk};
ghost use Rattle.std.specs.Prelude.{◌≢◌};
ghost use Rattle.arrayvec.specs.ArrayVec.{array_vec_len};
ghost use Rattle.ngc_line_reader.specs.Text.{place_in};
ghost use Rattle.ngc_line_reader.specs.Tokens.{token_at};
ghost use Rattle.ngc_line_reader.specs.Scan.{Gives, real_at as real_found, rest_at as rest_found};
ghost use Rattle.ngc_line_reader.specs.Scan.{number_token as token_found};
ghost use Rattle.ngc_line_reader.specs.Scan.{operator_at as operator_found};

use crate::fault::{FaultKind, ItemRefusal};
use crate::number::{begins, number_at, refusal, tail};
use crate::text::column_of;
use crate::token::{Operator, Symbol, Token};
use arrayvec::ArrayVec;

// Adds the symbol that begins `s`.
#[inline]
pub(crate) fn push_symbol(
    columns: &[u16],
    symbol: Symbol,
    s: &[u8],
    tokens: &mut ArrayVec<Token, 256>,
)
    requires { array_vec_len tokens.old < 256 }
    ensures items { tokens.new.items ≡ tokens.old.items
        ++ token_at (place_in columns.now) symbol s.now ∷ [] }
    ensures len { array_vec_len tokens.new ≡ array_vec_len tokens.old + 1 }
{
    let column = column_of(columns, s.len());
    tokens.push(Token { symbol, column });
}

// Reads a number, and returns the rest. (It is outside the cycle of calls.)
#[inline]
#[tactic(auto, using(crate::proofs::Scanning::number_shorter))]
fn number_token<'a>(
    columns: &[u16],
    s: &'a [u8],
    tokens: &mut ArrayVec<Token, 256>,
) -> Result<&'a [u8], ItemRefusal>
    requires space { array_vec_len tokens.old + length s.now ≤ 256 }
    ensures reads { Gives (λ rest. (tokens.new.items, rest.now)) result
        (token_found (place_in columns.now) tokens.old.items s.now) }
    ensures shorter { IfOk result (λ rest. length rest.now < length s.now) }
    ensures space { IfOk result
        (λ rest. array_vec_len tokens.new + length rest.now
        ≤ array_vec_len tokens.old + length s.now) }
    ensures not_long { IfErr result (λ e. e ≢ ItemRefusal.OfItem FaultKind.LineTooLong) }
{
    match number_at(s) {
        Ok((value, rest)) => {
            push_symbol(columns, Symbol::Number(value), s, tokens);
            Ok(rest)
        }
        Err(fault) => Err(fault),
    }
}

// Reads the tokens of a real value, and returns the rest.
#[cycle(real)]
#[tactic(auto, using(crate::proofs::Scanning::real_step))]
pub(crate) fn real_at<'a>(
    columns: &[u16],
    room: usize,
    s: &'a [u8],
    tokens: &mut ArrayVec<Token, 256>,
) -> Result<&'a [u8], ItemRefusal>
    requires room { length s.now < room }
    requires space { array_vec_len tokens.old + length s.now ≤ 256 }
    ensures reads { Gives (λ rest. (tokens.new.items, rest.now)) result
        (real_found (place_in columns.now) room tokens.old.items s.now) }
    ensures shorter { IfOk result (λ rest. length rest.now < length s.now) }
    ensures space { IfOk result
        (λ rest. array_vec_len tokens.new + length rest.now
        ≤ array_vec_len tokens.old + length s.now) }
    ensures not_long { IfErr result (λ e. e ≢ ItemRefusal.OfItem FaultKind.LineTooLong) }
{
    if begins(b'#', s) {
        push_symbol(columns, Symbol::Parameter, s, tokens);
        return real_at(columns, room - 1, tail(s), tokens);
    }
    if begins(b'[', s) {
        push_symbol(columns, Symbol::Open, s, tokens);
        let rest = real_at(columns, room - 1, tail(s), tokens)?;
        return rest_at(columns, room - 1, rest, tokens);
    }
    number_token(columns, s, tokens)
}

// Returns the text after the first value in brackets.
#[cycle(real)]
#[tactic(auto, using(crate::proofs::Scanning::rest_step))]
fn rest_at<'a>(
    columns: &[u16],
    room: usize,
    s: &'a [u8],
    tokens: &mut ArrayVec<Token, 256>,
) -> Result<&'a [u8], ItemRefusal>
    requires room { length s.now < room }
    requires space { array_vec_len tokens.old + length s.now ≤ 256 }
    ensures reads { Gives (λ rest. (tokens.new.items, rest.now)) result
        (rest_found (place_in columns.now) room tokens.old.items s.now) }
    ensures shorter { IfOk result (λ rest. length rest.now < length s.now) }
    ensures space { IfOk result
        (λ rest. array_vec_len tokens.new + length rest.now
        ≤ array_vec_len tokens.old + length s.now) }
    ensures not_long { IfErr result (λ e. e ≢ ItemRefusal.OfItem FaultKind.LineTooLong) }
{
    if begins(b']', s) {
        push_symbol(columns, Symbol::Close, s, tokens);
        return Ok(tail(s));
    }
    let operator = operator_at(s)?;
    push_symbol(columns, Symbol::Operator(operator), s, tokens);
    let rest = real_at(columns, room - 1, tail(s), tokens)?;
    rest_at(columns, room - 1, rest, tokens)
}

#[tactic(auto, unfolding(crate::specs::Scan::operator_at))]
fn operator_at(s: &[u8]) -> Result<Operator, ItemRefusal>
    ensures reads { result ≡ operator_found s.now }
    ensures some { IsOk result → 0 < length s.now }
    ensures not_long { IfErr result (λ e. e ≢ ItemRefusal.OfItem FaultKind.LineTooLong) }
{
    match s {
        [b'+', ..] => Ok(Operator::Add),
        [b'-', ..] => Ok(Operator::Subtract),
        [b'*', ..] => Ok(Operator::Multiply),
        [b'/', ..] => Ok(Operator::Divide),
        _ => Err(refusal(FaultKind::Bracket, s)),
    }
}
