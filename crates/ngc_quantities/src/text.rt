//! Parts of a text.
ghost use Rattle.std.specs.Prelude.{◌≡◌, ◌≤◌, length, take, drop};
ghost use Rattle.std.specs.List.{prefix_len};
ghost use Rattle.ngc_quantities.specs.Texts as spec;

pub(crate) fn is_blank(byte: u8) -> bool
    ensures { result ≡ spec.is_blank byte }
{
    byte == b' ' || byte == b'\t'
}

#[tactic(auto, using(crate::proofs::Counts::counted))]
pub(crate) fn blank_count(text: &[u8]) -> usize
    ensures count { result ≡ prefix_len spec.is_blank text.now }
    ensures within { result ≤ length text.now }
{
    text.iter().take_while(|byte| is_blank(**byte)).count()
}

fn is_of_word(byte: u8) -> bool
    ensures { result ≡ spec.is_of_word byte }
{
    !is_blank(byte)
}

#[tactic(auto, using(crate::proofs::Counts::counted))]
fn word_length(text: &[u8]) -> usize
    ensures count { result ≡ prefix_len spec.is_of_word text.now }
    ensures within { result ≤ length text.now }
{
    text.iter().take_while(|byte| is_of_word(**byte)).count()
}

/// Returns a text without the blanks at its beginning.
pub(crate) fn unblanked(text: &[u8]) -> &[u8]
    ensures { result.now ≡ spec.unblanked text.now }
{
    &text[blank_count(text)..]
}

/// Returns the bytes before the first blank, and those from it on.
pub(crate) fn split_word(text: &[u8]) -> (&[u8], &[u8])
    ensures word { result.0.now ≡ spec.first_word text.now }
    ensures rest { result.1.now ≡ spec.after_word text.now }
{
    text.split_at(word_length(text))
}

pub(crate) fn begins(byte: u8, text: &[u8]) -> bool
    ensures { result ≡ spec.begins byte text.now }
{
    match text {
        [first, ..] => *first == byte,
        [] => false,
    }
}

pub(crate) fn without_first(text: &[u8]) -> &[u8]
    ensures { result.now ≡ drop 1 text.now }
{
    match text {
        [_, rest @ ..] => rest,
        [] => text,
    }
}

fn is_other(mark: u8, byte: u8) -> bool
    ensures { result ≡ spec.is_other mark byte }
{
    byte != mark
}

/// Returns the number of bytes before the first mark, which is all of them if there is none.
#[tactic(auto, using(crate::proofs::Counts::counted))]
pub(crate) fn mark_index(mark: u8, text: &[u8]) -> usize
    ensures count { result ≡ spec.mark_index mark text.now }
    ensures within { result ≤ length text.now }
{
    text.iter()
        .take_while(|byte| is_other(mark, **byte))
        .count()
}

pub(crate) fn has(mark: u8, text: &[u8]) -> bool
    ensures { result ≡ spec.has mark text.now }
{
    mark_index(mark, text) < text.len()
}

/// Returns the texts before and after the first mark.
pub(crate) fn split_mark(mark: u8, text: &[u8]) -> (&[u8], &[u8])
    ensures before { result.0.now ≡ spec.before mark text.now }
    ensures after { result.1.now ≡ spec.after mark text.now }
    ensures before_short { length result.0.now ≤ length text.now }
    ensures after_short { length result.1.now ≤ length text.now }
{
    let (before, rest) = text.split_at(mark_index(mark, text));
    (before, without_first(rest))
}

/// Returns the index of the text after the first comma, or of the end.
pub(crate) fn after_index(text: &[u8]) -> usize
    ensures value { result ≡ spec.after_index text.now }
    ensures within { result ≤ length text.now }
{
    (mark_index(b',', text) + 1).min(text.len())
}
