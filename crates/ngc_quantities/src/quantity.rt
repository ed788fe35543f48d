//! Texts of one quantity.
ghost use Rattle.std.specs.Prelude.{◌≡◌, ◌≤◌, OnOk, length};
ghost use Rattle.ngc_quantities.specs.Quantities as spec;

use crate::fault::{Cause, Fault};
use crate::sum::sum_in;
use crate::unit::{Ending, Kind, Unit};
use crate::written::{Wanted, Whole, whole_in};

// The greatest number of bytes of a text.
const MOST_TEXT: usize = 256;

/// Returns the length of a text of at most 256 bytes.
pub(crate) fn short_length(text: &[u8]) -> Result<usize, Fault>
    ensures value { result ≡ spec.short_length text.now }
    ensures short { OnOk result (length text.now ≤ 256) }
{
    if text.len() > MOST_TEXT {
        return Err(Fault {
            column: MOST_TEXT + 1,
            cause: Cause::LongText,
        });
    }
    Ok(text.len())
}

/// Refuses an amount below zero.
pub(crate) fn not_negative(whole: Whole) -> Result<Whole, Fault>
    ensures { result ≡ spec.not_negative whole }
{
    if whole.amount < 0 {
        return Err(Fault {
            column: whole.column,
            cause: Cause::Negative,
        });
    }
    Ok(whole)
}

// Returns an amount of a kind of which there is none below zero.
fn unsigned_in(kind: Kind, otherwise: Option<Unit>, at: usize, text: &[u8]) -> Result<Whole, Fault>
    requires at { at ≤ 5000 }
    requires text { length text.now ≤ 256 }
    ensures { result ≡ spec.unsigned_in kind otherwise at text.now }
{
    let wanted = Wanted {
        kind,
        otherwise,
        ending: Ending::Nothing,
    };
    let whole = whole_in(&wanted, at, text)?;
    not_negative(whole)
}

/// Returns the amount of a kind that a part of a text says.
pub(crate) fn amount_in(
    kind: Kind,
    otherwise: Option<Unit>,
    at: usize,
    text: &[u8],
) -> Result<Whole, Fault>
    requires at { at ≤ 4000 }
    requires text { length text.now ≤ 256 }
    ensures { result ≡ spec.amount_in kind otherwise at text.now }
{
    match kind {
        Kind::Length => sum_in(otherwise, at, text),
        _ => unsigned_in(kind, otherwise, at, text),
    }
}

fn amount_of(kind: Kind, text: &[u8]) -> Result<i64, Fault>
    ensures { result ≡ spec.amount_of kind text.now }
{
    short_length(text)?;
    let whole = amount_in(kind, None, 0, text)?;
    Ok(whole.amount)
}

fn one_size(kind: Kind, text: &[u8]) -> Result<u64, Fault>
    ensures { result ≡ spec.one_size kind text.now }
{
    let amount = amount_of(kind, text)?;
    Ok(amount.unsigned_abs())
}

/// Returns a length in nanometres, at most 10^12 in size, as of `12.5 mm`, `-1 1/8 in`,
/// `-140 mm + 12.7 mm`.
pub fn length_of(text: &[u8]) -> Result<i64, Fault>
    ensures { result ≡ spec.length_of text.now }
{
    amount_of(Kind::Length, text)
}

/// Returns a speed in nanometres per minute, at most 10^12, as of `8000 mm/min`.
pub fn speed_of(text: &[u8]) -> Result<u64, Fault>
    ensures { result ≡ spec.speed_of text.now }
{
    one_size(Kind::Speed, text)
}

/// Returns an acceleration in nanometres per second squared, at most 10^12, as of `500 mm/s2`.
pub fn acceleration_of(text: &[u8]) -> Result<u64, Fault>
    ensures { result ≡ spec.acceleration_of text.now }
{
    one_size(Kind::Acceleration, text)
}

/// Returns how fast a spindle turns in millionths of a turn per minute, at most 10^12, as of
/// `8000 rpm`.
pub fn turning_of(text: &[u8]) -> Result<u64, Fault>
    ensures { result ≡ spec.turning_of text.now }
{
    one_size(Kind::Turning, text)
}
