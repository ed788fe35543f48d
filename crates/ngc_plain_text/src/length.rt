ghost use Rattle.std.specs.Prelude.{◌≡◌, ◌≤◌, ◌<◌, length, decimal, unsigned_abs, IsTrue};
ghost use Rattle.ngc_fixed_length.specs.Limits.{IsValue};
ghost use Rattle.ngc_line_reader.specs.Words.{pair_of, pairs_of};
ghost use Rattle.ngc_text.specs.Millimetres.{kept, sign_text, length_text};
ghost use Rattle.ngc_plain_text.specs.Text.{word_text};
ghost use Rattle.ngc_plain_text.specs.Limits.{is_short as keeps_limits, AreValues};

use itoa::Buffer;
use ngc_fixed_length::Value;
use ngc_line_reader::Word;

// The greatest number of words of a line of our own language.
const MOST_WORDS: usize = 64;

// One more than its greatest number of bytes: each word is counted with a blank.
const MOST_BYTES: usize = 257;

// Returns the number of bytes of the point and the decimals of some millionths.
fn decimals_length(millionths: u64) -> usize
    ensures value { result ≡ kept millionths }
    ensures few { result ≤ 7 }
{
    if millionths == 0 {
        0
    } else if millionths % 100_000 == 0 {
        2
    } else if millionths % 10_000 == 0 {
        3
    } else if millionths % 1_000 == 0 {
        4
    } else if millionths % 100 == 0 {
        5
    } else if millionths % 10 == 0 {
        6
    } else {
        7
    }
}

// Returns the number of digits of a number.
fn digits_length(number: u64) -> usize
    ensures value { result ≡ length (decimal number) }
    ensures few { result ≤ 40 }
{
    let mut buffer = Buffer::new();
    buffer.format(number).len()
}

// Returns the number of bytes of a value's sign.
fn sign_length(value: Value) -> usize
    ensures value { result ≡ length (sign_text value) }
    ensures few { result ≤ 1 }
{
    if value.millionths() < 0 { 1 } else { 0 }
}

// Returns the number of millionths without the sign.
fn millionths_of(value: Value) -> u64
    ensures size { result ≡ unsigned_abs value }
    ensures range { IsValue value }
{
    value.millionths().unsigned_abs()
}

// Returns the number of bytes of a value's text.
fn value_length(value: Value) -> usize
    ensures value { result ≡ length (length_text value) }
    ensures few { result ≤ 48 }
    ensures range { IsValue value }
{
    let size = millionths_of(value);
    sign_length(value) + digits_length(size / 1_000_000) + decimals_length(size % 1_000_000)
}

/// Returns whether a plain line keeps the limits of our own language: at most 64 words, and at most
/// 256 bytes without the line feed. The values of a line that does are in the range that the laws
/// require.
pub fn is_short(words: &[Word]) -> bool
    ensures limits { result ≡ keeps_limits (pairs_of words.now) }
    ensures values { IsTrue result → AreValues (pairs_of words.now) }
{
    if words.len() > MOST_WORDS {
        return false;
    }
    let mut length = 0;
    for word in words {
        length += 2 + value_length(word.value);
    }
    length <= MOST_BYTES
}
