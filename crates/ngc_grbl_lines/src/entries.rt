//! What stands on a line: a setting or a place.
ghost use Rattle.std.specs.Prelude.{◌≡◌, ◌≤◌, length, drop};
ghost use Rattle.std.specs.Char.{is_ascii_digit};
ghost use Rattle.std.specs.List.{prefix_len};
ghost use Rattle.ngc_grbl_lines.specs.Entries as spec;

use crate::lines::{after, before, from, is_blank, without_blanks, without_first};

fn begins(byte: u8, text: &[u8]) -> bool
    ensures { result ≡ spec.begins byte text.now }
{
    match text {
        [first, ..] => *first == byte,
        [] => false,
    }
}

// Returns a line without its comment.
#[tactic(auto, unfolding(crate::specs::Entries::content))]
fn content(line: &[u8]) -> &[u8]
    ensures { result.now ≡ spec.content line.now }
{
    if begins(b'#', without_blanks(line)) {
        b""
    } else {
        before(b'(', before(b';', line))
    }
}

#[tactic(auto, unfolding(crate::specs::Entries::after_dollar))]
fn after_dollar(line: &[u8]) -> &[u8]
    ensures { result.now ≡ spec.after_dollar line.now }
{
    after(b'$', content(line))
}

#[tactic(auto, using(crate::proofs::Counted::counted))]
fn digit_count(text: &[u8]) -> usize
    ensures count { result ≡ prefix_len is_ascii_digit text.now }
    ensures within { result ≤ length text.now }
{
    text.iter().take_while(|b| b.is_ascii_digit()).count()
}

fn digits(text: &[u8]) -> &[u8]
    ensures { result.now ≡ spec.digits text.now }
{
    text.split_at(digit_count(text)).0
}

// Returns a setting from its equals sign on.
#[tactic(auto, unfolding(crate::specs::Entries::after_number))]
fn after_number(line: &[u8]) -> &[u8]
    ensures { result.now ≡ spec.after_number line.now }
{
    let text = after_dollar(line);
    without_blanks(text.split_at(digit_count(text)).1)
}

/// Returns the digits of the number of a line's setting: none, if the line has no setting.
#[tactic(auto, unfolding(crate::specs::Entries::setting_number))]
pub fn setting_number(line: &[u8]) -> &[u8]
    ensures { result.now ≡ spec.setting_number line.now }
{
    if begins(b'=', after_number(line)) {
        digits(after_dollar(line))
    } else {
        b""
    }
}

fn is_of_word(byte: u8) -> bool
    ensures { result ≡ spec.is_of_word byte }
{
    !(is_blank(byte) || byte == b'\r' || byte == b'\n')
}

#[tactic(auto, using(crate::proofs::Counted::counted))]
fn word_length(text: &[u8]) -> usize
    ensures count { result ≡ prefix_len spec.is_of_word text.now }
    ensures within { result ≤ length text.now }
{
    text.iter().take_while(|b| is_of_word(**b)).count()
}

fn word(text: &[u8]) -> &[u8]
    ensures { result.now ≡ spec.word text.now }
{
    text.split_at(word_length(text)).0
}

/// Returns the value of a line's setting, up to a blank, a comment or the end of the line.
#[tactic(auto, unfolding(crate::specs::Entries::setting_value))]
pub fn setting_value(line: &[u8]) -> &[u8]
    ensures { result.now ≡ spec.setting_value line.now }
{
    word(without_blanks(without_first(after_number(line))))
}

fn is_place(text: &[u8]) -> bool
    ensures { result ≡ spec.is_place text.now }
{
    begins(b'G', text) && !digits(without_first(text)).is_empty()
}

fn place_after(text: &[u8]) -> &[u8]
    ensures { result.now ≡ spec.place_after text.now }
{
    if is_place(text) { text } else { b"" }
}

// Returns what follows the first bracket of a place.
#[tactic(auto, unfolding(crate::specs::Entries::place_text))]
fn place_text(line: &[u8]) -> &[u8]
    ensures { result.now ≡ spec.place_text line.now }
{
    let text = after(b'[', content(line));
    if is_place(text) {
        text
    } else {
        place_after(after(b'[', after(b']', text)))
    }
}

/// Returns the name of a line's place, as `G54`: nothing, if the line has no place.
#[tactic(auto, unfolding(crate::specs::Entries::place_name))]
pub fn place_name(line: &[u8]) -> &[u8]
    ensures { result.now ≡ spec.place_name line.now }
{
    before(b':', before(b']', place_text(line)))
}

/// Returns the coordinates of a line's place, as `10.000,20.000,-5.000`: nothing, if its bracket isn't
/// closed.
#[tactic(auto, unfolding(crate::specs::Entries::place_values))]
pub fn place_values(line: &[u8]) -> &[u8]
    ensures { result.now ≡ spec.place_values line.now }
{
    let text = place_text(line);
    if from(b']', text).is_empty() {
        b""
    } else {
        after(b':', before(b']', text))
    }
}
