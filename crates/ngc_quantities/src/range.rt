//! Ranges and places.
ghost use Rattle.std.specs.Prelude.{◌≡◌, ◌+◌, ◌≤◌, length, IfOk};
ghost use Rattle.ngc_quantities.specs.Ranges as spec;

use crate::fault::{Cause, Fault};
use crate::quantity::{amount_in, short_length};
use crate::text::{after_index, mark_index, split_mark};
use crate::unit::Kind;
use crate::written::Whole;

/// Two amounts in base units. `high` isn't below `low`.
#[derive(Clone, Copy)]
pub struct Range {
    pub low: i64,
    pub high: i64,
}

/// A place in nanometres.
#[derive(Clone, Copy)]
pub struct Place {
    pub x: i64,
    pub y: i64,
    pub z: i64,
}

// Returns the number of bytes before the word "to".
fn to_index(text: &[u8]) -> Result<usize, Fault>
    ensures value { result ≡ spec.to_index text.now }
    ensures within { IfOk result (λ n. n + 2 ≤ length text.now) }
{
    let index = mark_index(b't', text);
    if !text[index..].starts_with(b"to") {
        return Err(Fault {
            column: index + 1,
            cause: Cause::NoTo,
        });
    }
    Ok(index)
}

fn range_between(low: &Whole, high: &Whole) -> Result<Range, Fault>
    ensures { result ≡ spec.range_between low.now high.now }
{
    if high.amount < low.amount {
        return Err(Fault {
            column: high.column,
            cause: Cause::Reversed,
        });
    }
    Ok(Range {
        low: low.amount,
        high: high.amount,
    })
}

fn range_of(kind: Kind, text: &[u8]) -> Result<Range, Fault>
    ensures { result ≡ spec.range_of kind text.now }
{
    short_length(text)?;
    let index = to_index(text)?;
    let high = amount_in(kind, None, index + 2, &text[index + 2..])?;
    let low = amount_in(kind, high.unit, 0, &text[..index])?;
    range_between(&low, &high)
}

/// Returns a range of lengths in nanometres, as of `-5 mm to 300 mm` or `0 to 12 in`.
pub fn length_range_of(text: &[u8]) -> Result<Range, Fault>
    ensures { result ≡ spec.length_range_of text.now }
{
    range_of(Kind::Length, text)
}

/// Returns a range of speeds in nanometres per minute, as of `100 to 1500 mm/min`.
pub fn speed_range_of(text: &[u8]) -> Result<Range, Fault>
    ensures { result ≡ spec.speed_range_of text.now }
{
    range_of(Kind::Speed, text)
}

/// Returns a range of spindle speeds in millionths of a turn per minute, as of `8000 to 24000 rpm`.
pub fn turning_range_of(text: &[u8]) -> Result<Range, Fault>
    ensures { result ≡ spec.turning_range_of text.now }
{
    range_of(Kind::Turning, text)
}

// Returns whether a text has the word "to", as a range has.
fn has_to(text: &[u8]) -> bool
    ensures { result ≡ spec.has_to text.now }
{
    let index = mark_index(b't', text);
    text[index..].starts_with(b"to")
}

// Returns the amounts from 0 up to the one that a text says.
fn up_to(kind: Kind, text: &[u8]) -> Result<Range, Fault>
    ensures { result ≡ spec.up_to kind text.now }
{
    short_length(text)?;
    let most = amount_in(kind, None, 0, text)?;
    Ok(Range {
        low: 0,
        high: most.amount,
    })
}

fn limits_of(kind: Kind, text: &[u8]) -> Result<Range, Fault>
    ensures { result ≡ spec.limits_of kind text.now }
{
    if has_to(text) {
        range_of(kind, text)
    } else {
        up_to(kind, text)
    }
}

/// Returns limits of speeds in nanometres per minute: a range, as of `100 to 1500 mm/min`, or from 0
/// up to a speed, as of `1500 mm/min`.
pub fn speed_limits_of(text: &[u8]) -> Result<Range, Fault>
    ensures { result ≡ spec.speed_limits_of text.now }
{
    limits_of(Kind::Speed, text)
}

/// Returns limits of spindle speeds in millionths of a turn per minute: a range, as of
/// `8000 to 24000 rpm`, or from 0 up to a speed, as of `24000 rpm`.
pub fn turning_limits_of(text: &[u8]) -> Result<Range, Fault>
    ensures { result ≡ spec.turning_limits_of text.now }
{
    limits_of(Kind::Turning, text)
}

/// Returns a place in nanometres, X, Y and Z, as of `60, 40, -140 mm`.
pub fn place_of(text: &[u8]) -> Result<Place, Fault>
    ensures { result ≡ spec.place_of text.now }
{
    short_length(text)?;
    let (x, rest) = split_mark(b',', text);
    let (y, z) = split_mark(b',', rest);
    let at_y = after_index(text);
    let at_z = at_y + after_index(rest);
    let z = amount_in(Kind::Length, None, at_z, z)?;
    let x = amount_in(Kind::Length, z.unit, 0, x)?;
    let y = amount_in(Kind::Length, z.unit, at_y, y)?;
    Ok(Place {
        x: x.amount,
        y: y.amount,
        z: z.amount,
    })
}
