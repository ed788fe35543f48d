ghost use Rattle.std.specs.Prelude.{◌≡◌, ◌<◌, ◌≤◌, min, [], ◌∷◌, length, IfSome, position, ◌==◌};
ghost use Rattle.std.specs.Prelude.{pos};
ghost use Rattle.std.specs.Option.{option_map};
ghost use Rattle.ngc_certificate_text.specs.Number.{fields, number_in as number_said, negated};
ghost use Rattle.ngc_certificate_text.specs.Clamped.{clamped, minus_tail, all_fields, numbers_left};

use arrayvec::ArrayVec;
use ngc_text::decimal_in;

/// The numbers of a line.
pub type Numbers = ArrayVec<i64, 8>;

// Returns the bytes after a leading minus sign.
fn after_minus(field: &[u8]) -> Option<&[u8]>
    ensures { option_map (λ d. d.now) result ≡ minus_tail field.now }
{
    match field {
        [first, digits @ ..] if *first == b'-' => Some(digits),
        _ => None,
    }
}

fn positive(size: Option<u64>) -> Option<i64>
    requires { IfSome size (λ n. n ≤ 10000000000) }
    ensures { result ≡ option_map pos size }
{
    match size {
        Some(size) => Some(size as i64),
        None => None,
    }
}

fn negative(size: Option<u64>) -> Option<i64>
    requires { IfSome size (λ n. n ≤ 10000000000) }
    ensures { result ≡ negated size }
{
    match size {
        Some(0) | None => None,
        Some(size) => Some(-(size as i64)),
    }
}

/// Returns the number that a field writes in decimal. A greater one is replaced with a number that
/// is out of every range.
fn number_in(field: &[u8]) -> Option<i64>
    ensures { result ≡ option_map clamped (number_said field.now) }
{
    match after_minus(field) {
        Some(digits) => negative(decimal_in(digits)),
        None => positive(decimal_in(field)),
    }
}

fn first_space(text: &[u8]) -> Option<usize>
    ensures value { result ≡ position (λ b. b == 32) text.now }
    ensures within { IfSome result (λ k. k < length text.now) }
{
    text.iter().position(|byte| *byte == b' ')
}

/// Returns the first field of a text, and the text after it if there is more.
pub(crate) fn split_field(text: &[u8]) -> (&[u8], Option<&[u8]>)
    ensures fields { fields text.now ≡ result.0.now ∷ all_fields result.1 }
    ensures shorter { IfSome result.1 (λ rest. length rest.now < length text.now) }
{
    match first_space(text) {
        Some(end) => {
            let (field, rest) = text.split_at(end);
            (field, Some(&rest[1..]))
        }
        None => (text, None),
    }
}

/// Returns the numbers in the remaining fields, one in each, if there are at most 8.
pub(crate) fn numbers_in(text: Option<&[u8]>) -> Option<Numbers>
    ensures { option_map (λ n. n.items) result ≡ numbers_left (all_fields text.entry) }
{
    let mut numbers = ArrayVec::new();
    let mut left = text;
    while let Some(rest) = left {
        let (field, afterwards) = split_field(rest);
        match number_in(field) {
            Some(number) => match numbers.try_push(number) {
                Ok(()) => {}
                Err(_) => return None,
            },
            None => return None,
        }
        left = afterwards;
    }
    Some(numbers)
}
