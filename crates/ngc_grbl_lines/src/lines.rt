//! The lines of a text, and parts of them.
ghost use Rattle.std.specs.Prelude.{◌≡◌, ◌<◌, ◌≤◌, ◌∷◌, length, drop};
ghost use Rattle.std.specs.List.{prefix_len};
ghost use Rattle.ngc_grbl_lines.specs.Lines as spec;

fn is_other(byte: u8, b: u8) -> bool
    ensures { result ≡ spec.is_other byte b }
{
    b != byte
}

#[tactic(auto, using(crate::proofs::Counted::counted))]
fn count_to(byte: u8, text: &[u8]) -> usize
    ensures count { result ≡ prefix_len (spec.is_other byte) text.now }
    ensures within { result ≤ length text.now }
{
    text.iter().take_while(|b| is_other(byte, **b)).count()
}

/// Returns what stands before the first byte of this value: all, if there is none.
pub fn before(byte: u8, text: &[u8]) -> &[u8]
    ensures { result.now ≡ spec.before byte text.now }
{
    text.split_at(count_to(byte, text)).0
}

/// Returns the first byte of this value and what follows it: nothing, if there is none.
pub(crate) fn from(byte: u8, text: &[u8]) -> &[u8]
    ensures { result.now ≡ spec.from byte text.now }
{
    text.split_at(count_to(byte, text)).1
}

pub(crate) fn without_first(text: &[u8]) -> &[u8]
    ensures { result.now ≡ drop 1 text.now }
{
    match text {
        [_, rest @ ..] => rest,
        [] => text,
    }
}

/// Returns what follows the first byte of this value.
pub(crate) fn after(byte: u8, text: &[u8]) -> &[u8]
    ensures { result.now ≡ spec.after byte text.now }
{
    without_first(from(byte, text))
}

pub(crate) fn is_blank(byte: u8) -> bool
    ensures { result ≡ spec.is_blank byte }
{
    byte == b' ' || byte == b'\t'
}

#[tactic(auto, using(crate::proofs::Counted::counted))]
fn blank_count(text: &[u8]) -> usize
    ensures count { result ≡ prefix_len spec.is_blank text.now }
    ensures within { result ≤ length text.now }
{
    text.iter().take_while(|b| is_blank(**b)).count()
}

pub(crate) fn without_blanks(text: &[u8]) -> &[u8]
    ensures { result.now ≡ spec.without_blanks text.now }
{
    text.split_at(blank_count(text)).1
}

// Returns the number of bytes of a text's first line, with its line feed.
fn line_length(text: &[u8]) -> usize
    ensures value { result ≡ spec.line_length text.now }
    ensures within { result ≤ length text.now }
    ensures some { 0 < length text.now → 0 < result }
{
    let count = count_to(b'\n', text);
    if count < text.len() {
        count + 1
    } else {
        text.len()
    }
}

/// Returns the first line of a text with its line feed, and the rest.
#[tactic(auto, using(crate::proofs::LineLaws::lines_step))]
pub fn split_line(text: &[u8]) -> (&[u8], &[u8])
    requires { 0 < length text.now }
    ensures lines { spec.lines_of text.now ≡ result.0.now ∷ spec.lines_of result.1.now }
    ensures shorter { length result.1.now < length text.now }
{
    text.split_at(line_length(text))
}
