//! Numbers as people write them: `5`, `-12.5`, `.5`, `1/8`, `1 1/2`.
ghost use Rattle.std.specs.Prelude.{◌≡◌, ◌≤◌, ◌<◌, IfOk, length};
ghost use Rattle.std.specs.List.{prefix_len};
ghost use Rattle.std.specs.Char.{is_ascii_digit};
ghost use Rattle.ngc_quantities.specs.Numbers as spec;

use crate::digits::{digits_in, power_of_ten, some_digits_in};
use crate::fault::Cause;
use crate::text::{begins, has, split_mark, split_word, unblanked, without_first};

/// A ratio of whole numbers. `bottom` isn't 0.
#[derive(Clone, Copy)]
pub struct Ratio {
    pub top: u128,
    pub bottom: u64,
}

/// A number with its sign.
#[derive(Clone, Copy)]
pub struct Number {
    pub negative: bool,
    pub ratio: Ratio,
}

#[tactic(auto, using(crate::proofs::Counts::counted))]
fn digit_count(text: &[u8]) -> usize
    ensures count { result ≡ prefix_len is_ascii_digit text.now }
    ensures within { result ≤ length text.now }
{
    text.iter().take_while(|byte| byte.is_ascii_digit()).count()
}

// Returns the digits before the point, and the rest.
fn split_whole(text: &[u8]) -> (&[u8], &[u8])
    ensures before { result.0.now ≡ spec.whole_digits text.now }
    ensures after { result.1.now ≡ spec.after_whole text.now }
{
    text.split_at(digit_count(text))
}

fn is_decimal(text: &[u8]) -> bool
    ensures { result ≡ spec.is_decimal text.now }
{
    let (whole, rest) = split_whole(text);
    (rest.is_empty() || begins(b'.', rest))
        && (!whole.is_empty() || !without_first(rest).is_empty())
}

fn decimal_over(power: u64, text: &[u8]) -> Result<Ratio, Cause>
    requires some { 0 < power }
    requires bound { power ≤ 1000000000000 }
    ensures value { result ≡ spec.decimal_over power text.now }
    ensures ratio { IfOk result spec.IsRatio }
{
    let (whole, rest) = split_whole(text);
    let whole = digits_in(whole)?;
    let part = digits_in(without_first(rest))?;
    Ok(Ratio {
        top: u128::from(whole) * u128::from(power) + u128::from(part),
        bottom: power,
    })
}

#[tactic(auto, unfolding(crate::specs::Numbers::decimal_in))]
fn decimal_in(text: &[u8]) -> Result<Ratio, Cause>
    ensures value { result ≡ spec.decimal_in text.now }
    ensures ratio { IfOk result spec.IsRatio }
{
    if !is_decimal(text) {
        return Err(Cause::NoNumber);
    }
    let (_, rest) = split_whole(text);
    let places = without_first(rest).len();
    if places > 12 {
        return Err(Cause::ManyDigits);
    }
    decimal_over(power_of_ten(places), text)
}

fn over(top: u64, bottom: u64) -> Result<Ratio, Cause>
    requires top { top < 1000000000000 }
    requires bottom { bottom < 1000000000000 }
    ensures value { result ≡ spec.over top bottom }
    ensures ratio { IfOk result (λ r. spec.IsRatio r × (r.top < 1000000000000)) }
{
    if bottom == 0 {
        return Err(Cause::ZeroBelow);
    }
    Ok(Ratio {
        top: u128::from(top),
        bottom,
    })
}

#[tactic(auto, unfolding(crate::specs::Numbers::fraction_in))]
fn fraction_in(text: &[u8]) -> Result<Ratio, Cause>
    ensures value { result ≡ spec.fraction_in text.now }
    ensures ratio { IfOk result (λ r. spec.IsRatio r × (r.top < 1000000000000)) }
{
    let (before, after) = split_mark(b'/', text);
    let top = some_digits_in(before)?;
    let bottom = some_digits_in(after)?;
    over(top, bottom)
}

fn mixed_in(first: &[u8], second: &[u8]) -> Result<Ratio, Cause>
    ensures value { result ≡ spec.mixed_in first.now second.now }
    ensures ratio { IfOk result spec.IsRatio }
{
    let whole = some_digits_in(first)?;
    let part = fraction_in(second)?;
    Ok(Ratio {
        top: u128::from(whole) * u128::from(part.bottom) + part.top,
        bottom: part.bottom,
    })
}

fn unsigned(text: &[u8]) -> &[u8]
    ensures { result.now ≡ spec.unsigned text.now }
{
    if begins(b'+', text) || begins(b'-', text) {
        without_first(text)
    } else {
        text
    }
}

fn one_word(word: &[u8]) -> Result<Ratio, Cause>
    ensures value { result ≡ spec.one_word word.now }
    ensures ratio { IfOk result spec.IsRatio }
{
    if has(b'/', word) {
        fraction_in(word)
    } else {
        decimal_in(word)
    }
}

fn ratio_in(word: &[u8], rest: &[u8]) -> Result<Ratio, Cause>
    ensures value { result ≡ spec.ratio_in word.now rest.now }
    ensures ratio { IfOk result spec.IsRatio }
{
    if rest.is_empty() {
        return one_word(word);
    }
    let (second, more) = split_word(rest);
    if !unblanked(more).is_empty() {
        return Err(Cause::NoNumber);
    }
    mixed_in(word, second)
}

/// Returns the number that a text without leading blanks writes: with a sign or without, a decimal
/// or a fraction, blanks after it.
#[tactic(auto, unfolding(crate::specs::Numbers::number_in))]
pub(crate) fn number_in(text: &[u8]) -> Result<Number, Cause>
    ensures value { result ≡ spec.number_in text.now }
    ensures ratio { IfOk result (λ n. spec.IsRatio n.ratio) }
{
    let (word, rest) = split_word(text);
    let ratio = ratio_in(unsigned(word), unblanked(rest))?;
    Ok(Number {
        negative: begins(b'-', text),
        ratio,
    })
}
