//! The words that restore saved modes.
ghost use Rattle.std.specs.Prelude.{◌≡◌, ◌<◌, ◌*◌, ◌*ℤ◌, pos};
ghost use Rattle.ngc_dialect_saved.specs.Restoring as spec;

use crate::modes::SavedModes;
use ngc_dialect_numbers::Number;
use ngc_dialect_parameters::Word;
use ngc_dialect_rules::Code;
use ngc_fixed_length::{Value, short_quotient};

// G93, in which F counts for its line alone.
const INVERSE_TIME: Code = Code::G(930);

// Returns a number of tenths as a number.
fn number_of(tenths: u32) -> Number
    ensures { result ≡ pos (tenths * 100000000000) }
{
    match Number::from_trillionths(i128::from(tenths) * 100_000_000_000) {
        Ok(number) => number,
        Err(_) => Number::truth(false),
    }
}

// Returns the word of a code.
fn code_word(code: Code) -> Word
    ensures { result ≡ spec.code_word code }
{
    match code {
        Code::G(tenths) => Word {
            letter: b'G',
            value: number_of(u32::from(tenths)),
            point: true,
        },
        Code::M(number) => Word {
            letter: b'M',
            value: number_of(u32::from(number) * 10),
            point: true,
        },
    }
}

// Returns the word of a saved code, unless it is in force.
fn changed(saved: Code, now: Code) -> Option<Word>
    ensures { result ≡ spec.changed saved now }
{
    if saved.is(now) {
        None
    } else {
        Some(code_word(saved))
    }
}

// Returns a number of units in 10^-12. A unit is in millionths.
fn trillionths(times: i64, unit: u32) -> i128
    ensures { result ≡ times *ℤ pos (unit * 1000000) }
{
    i128::from(times) * i128::from(u64::from(unit) * 1_000_000)
}

// Returns a value to the nearest multiple of a unit, or 0 above the greatest number. Both are in
// millionths.
fn rounded(value: Value, unit: u32) -> Number
    requires { 0 < unit }
    ensures { result ≡ spec.rounded value unit }
{
    let times = short_quotient(value.millionths(), u64::from(unit));
    match Number::from_trillionths(trillionths(times, unit)) {
        Ok(number) => number,
        Err(_) => Number::truth(false),
    }
}

fn is_same(a: Value, b: Value) -> bool
    ensures { result ≡ spec.is_same a b }
{
    a.millionths() == b.millionths()
}

// Returns F to a tenth, if a feed per minute is saved that isn't in force.
fn feed_word(saved: &SavedModes, now: &SavedModes) -> Option<Word>
    ensures { result ≡ spec.feed_word saved.now now.now }
{
    if INVERSE_TIME.is(saved.feed_mode) || is_same(saved.feed, now.feed) {
        None
    } else {
        Some(Word {
            letter: b'F',
            value: rounded(saved.feed, 100_000),
            point: true,
        })
    }
}

// Returns S to a whole number, if another speed is saved than the last one.
fn speed_word(saved: &SavedModes, now: &SavedModes) -> Option<Word>
    ensures { result ≡ spec.speed_word saved.now now.now }
{
    if is_same(saved.speed, now.speed) {
        None
    } else {
        Some(Word {
            letter: b'S',
            value: rounded(saved.speed, 1_000_000),
            point: true,
        })
    }
}

// Returns the code of a coolant that was on and isn't.
fn coolant_word(saved: bool, now: bool, code: Code) -> Option<Word>
    ensures { result ≡ spec.coolant_word saved now code }
{
    if saved && !now {
        Some(code_word(code))
    } else {
        None
    }
}

// Returns M9, if no coolant was on and one is.
fn coolant_end(saved: &SavedModes, now: &SavedModes) -> Option<Word>
    ensures { result ≡ spec.coolant_end saved.now now.now }
{
    if !(saved.mist || saved.flood) && (now.mist || now.flood) {
        Some(code_word(Code::M(9)))
    } else {
        None
    }
}

/// Returns the words that restore saved modes where others are in force, in the order in which they are
/// executed, each as a line of its own.
pub fn restoring(saved: &SavedModes, now: &SavedModes) -> [Option<Word>; 17]
    ensures { result ≡ spec.restoring saved.now now.now }
{
    [
        changed(saved.units, now.units),
        changed(saved.feed_mode, now.feed_mode),
        feed_word(saved, now),
        speed_word(saved, now),
        changed(saved.spindle, now.spindle),
        coolant_word(saved.mist, now.mist, Code::M(7)),
        coolant_word(saved.flood, now.flood, Code::M(8)),
        coolant_end(saved, now),
        changed(saved.overrides, now.overrides),
        changed(saved.plane, now.plane),
        changed(saved.length, now.length),
        changed(saved.system, now.system),
        changed(saved.path, now.path),
        changed(saved.distance, now.distance),
        changed(saved.centres, now.centres),
        changed(saved.retract, now.retract),
        changed(saved.offset, now.offset),
    ]
}
