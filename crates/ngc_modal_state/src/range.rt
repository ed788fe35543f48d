ghost use Rattle.std.specs.Prelude.{◌≡◌};
ghost use Rattle.ngc_modal_state.specs.Use.{is_whole as whole_number, whole as whole_part};
ghost use Rattle.ngc_modal_state.specs.Use.{negative, not_whole_from};

use ngc_fixed_length::{MILLIONTHS, Value};

// Returns the whole number of units in a value's size.
pub(crate) fn whole(value: Value) -> u32
    ensures { result ≡ whole_part value }
{
    (value.millionths().unsigned_abs() / MILLIONTHS) as u32
}

fn is_whole(value: Value) -> bool
    ensures { result ≡ whole_number value }
{
    value.millionths().unsigned_abs() % MILLIONTHS == 0
}

// Returns whether the word is present and its value is below 0.
pub(crate) fn is_negative(word: Option<Value>) -> bool
    ensures { result ≡ negative word }
{
    match word {
        Some(value) => value.millionths() < 0,
        None => false,
    }
}

// Returns whether the word is present and its value is no whole number from `low` to `high`.
pub(crate) fn is_not_whole_from(low: u32, high: u32, word: Option<Value>) -> bool
    ensures { result ≡ not_whole_from low high word }
{
    match word {
        Some(value) => {
            value.millionths() < 0 || !is_whole(value) || whole(value) < low || whole(value) > high
        }
        None => false,
    }
}
