//! The value of a key.
ghost use Rattle.std.specs.Prelude.{◌≡◌, ◌+◌, ◌≤◌, drop, length, option_map, IfSome};
ghost use Rattle.std.specs.List.{prefix_len};
ghost use Rattle.ngc_file_lines.specs.Values as spec;

use crate::line::{begins, gives, unindented};

/// A line from a value on, and the column, from 1, in which the value begins.
#[derive(Clone, Copy)]
pub struct Value<'a> {
    pub column: usize,
    pub text: &'a [u8],
}

fn without_first(text: &[u8]) -> &[u8]
    ensures { result.now ≡ drop 1 text.now }
{
    match text {
        [_, rest @ ..] => rest,
        [] => text,
    }
}

// Returns the line after its key.
fn after_key<'a>(key: &[u8], line: &'a [u8]) -> &'a [u8]
    ensures { result.now ≡ spec.after_key key.now line.now }
{
    let line = unindented(line);
    &line[key.len().min(line.len())..]
}

/// Returns the value of a key on its line, or `None` if the line doesn't begin with the key and an
/// equals sign.
pub fn value_in<'a>(key: &[u8], line: &'a [u8]) -> Option<Value<'a>>
    ensures value { option_map spec.placed result ≡ spec.value_in key.now line.now }
    ensures within { IfSome result (λ v. v.column ≤ length line.now + 1) }
{
    let rest = after_key(key, line);
    if !gives(key, line) || !begins(b"=", rest) {
        return None;
    }
    let text = unindented(without_first(unindented(rest)));
    Some(Value {
        column: line.len().saturating_sub(text.len()) + 1,
        text,
    })
}

fn is_other(mark: u8, byte: u8) -> bool
    ensures { result ≡ spec.is_other mark byte }
{
    byte != mark
}

#[tactic(auto, using(crate::proofs::Counts::counted))]
fn mark_index(mark: u8, text: &[u8]) -> usize
    ensures count { result ≡ prefix_len (spec.is_other mark) text.now }
    ensures within { result ≤ length text.now }
{
    text.iter()
        .take_while(|byte| is_other(mark, **byte))
        .count()
}

fn through(mark: u8, value: &[u8]) -> &[u8]
    ensures { result.now ≡ spec.through mark value.now }
{
    let end = 2 + mark_index(mark, without_first(value));
    &value[..end.min(value.len())]
}

fn is_bare(byte: u8) -> bool
    ensures { result ≡ spec.is_bare byte }
{
    byte > b' ' && byte != b'#'
}

#[tactic(auto, using(crate::proofs::Counts::counted))]
fn bare_length(text: &[u8]) -> usize
    ensures count { result ≡ prefix_len spec.is_bare text.now }
    ensures within { result ≤ length text.now }
{
    text.iter().take_while(|byte| is_bare(**byte)).count()
}

fn starts(mark: u8, value: &[u8]) -> bool
    ensures { result ≡ spec.starts mark value.now }
{
    match value {
        [first, ..] => *first == mark,
        [] => false,
    }
}

fn is_long(value: &[u8]) -> bool
    ensures { result ≡ spec.is_long value.now }
{
    match value {
        [a, b, c, ..] => (*a == b'"' || *a == b'\'') && *b == *a && *c == *a,
        _ => false,
    }
}

/// Returns the value as it is written, from a line's text that begins with it: a text from its
/// quotation mark through the next one, and any other value up to a blank or a comment. Of a text of
/// several lines it is empty.
pub fn token(value: &[u8]) -> &[u8]
    ensures { result.now ≡ spec.token value.now }
{
    if is_long(value) {
        &[]
    } else if starts(b'"', value) {
        through(b'"', value)
    } else if starts(b'\'', value) {
        through(b'\'', value)
    } else {
        &value[..bare_length(value)]
    }
}
