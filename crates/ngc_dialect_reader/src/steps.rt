ghost use Rattle.std.specs.Prelude.{◌≡◌, ℕ, ◌≤◌, length, drop, List};
ghost use Rattle.std.specs.List.{prefix_len, starts_with as begins_with};
ghost use Rattle.std.specs.Prelude.{nat_eq};
ghost use Rattle.ngc_line_reader.specs.Scan.{Gives};
ghost use Rattle.ngc_dialect_reader.specs.Steps as spec;

use crate::fault::{Cause, Refusal};
use crate::number::{begins, refused, tail};
use crate::part::{Name, Part, PartKind};
use arrayvec::ArrayVec;

/// The parts of a line so far.
pub(crate) type Parts = ArrayVec<Part, 128>;

// Adds a part that begins at `s`.
#[inline]
pub(crate) fn add(kind: PartKind, s: &[u8], parts: &mut Parts) -> Result<(), Refusal>
    ensures { Gives (λ _. parts.new.items) result (spec.add kind s.now parts.old.items) }
{
    if parts.is_full() {
        return Err(refused(Cause::TooManyParts, s));
    }
    parts.push(Part {
        kind,
        left: s.len(),
    });
    Ok(())
}

// Adds a part that begins at `s`, and returns the rest.
#[inline]
pub(crate) fn added<'a>(
    kind: PartKind,
    s: &[u8],
    parts: &mut Parts,
    rest: &'a [u8],
) -> Result<&'a [u8], Refusal>
    ensures { Gives (λ r. (parts.new.items, r.now)) result
        (spec.added kind s.now parts.old.items rest.now) }
{
    match add(kind, s, parts) {
        Ok(()) => Ok(rest),
        Err(refusal) => Err(refusal),
    }
}

// Returns the rest after a byte that closes what begins at `from`.
pub(crate) fn closed<'a>(
    byte: u8,
    cause: Cause,
    from: &[u8],
    s: &'a [u8],
) -> Result<&'a [u8], Refusal>
    ensures { Gives (λ r. r.now) result (spec.closed byte cause from.now s.now) }
{
    if begins(byte, s) {
        Ok(tail(s))
    } else if s.is_empty() {
        Err(refused(cause, from))
    } else {
        Err(refused(Cause::UnexpectedCharacter, s))
    }
}

// Returns the rest after a byte that must be there.
pub(crate) fn needed(byte: u8, cause: Cause, s: &[u8]) -> Result<&[u8], Refusal>
    ensures { Gives (λ r. r.now) result (spec.needed byte cause s.now) }
{
    if begins(byte, s) {
        Ok(tail(s))
    } else {
        Err(refused(cause, s))
    }
}

pub(crate) fn is_letter(byte: u8) -> bool
    ensures { result ≡ spec.is_letter byte }
{
    byte >= b'A' && byte <= b'Z'
}

pub(crate) fn begins_letter(s: &[u8]) -> bool
    ensures { result ≡ spec.begins_letter s.now }
{
    match s {
        [first, ..] => is_letter(*first),
        [] => false,
    }
}

// Returns the number of letters in front.
#[tactic(auto, using(crate::proofs::Digits::counted))]
pub(crate) fn word_length(s: &[u8]) -> usize
    ensures count { result ≡ spec.word_length s.now }
    ensures within { result ≤ length s.now }
{
    s.iter().take_while(|b| is_letter(**b)).count()
}

fn is_in_name(byte: u8) -> bool
    ensures { result ≡ spec.is_in_name byte }
{
    byte != b'>' && byte != b'('
}

#[tactic(auto, using(crate::proofs::Digits::counted))]
fn name_length(s: &[u8]) -> usize
    ensures count { result ≡ spec.name_length s.now }
    ensures within { result ≤ length s.now }
{
    s.iter().take_while(|b| is_in_name(**b)).count()
}

// Returns the name up to `>`, and the rest.
pub(crate) fn name_at(s: &[u8]) -> Result<(Name, &[u8]), Refusal>
    ensures { Gives (λ x. (x.0, x.1.now)) result (spec.name_at s.now) }
{
    let size = name_length(s);
    let (_, rest) = s.split_at(size);
    if size != 0 && begins(b'>', rest) {
        let left = s.len();
        Ok((Name { left, size }, tail(rest)))
    } else {
        Err(refused(Cause::NameNotClosed, s))
    }
}

fn is_mark(byte: u8) -> bool
    ensures { result ≡ spec.is_mark byte }
{
    byte == b'('
}

#[tactic(auto, using(crate::proofs::Digits::counted))]
fn comments_length(s: &[u8]) -> usize
    ensures count { result ≡ prefix_len spec.is_mark s.now }
    ensures within { result ≤ length s.now }
{
    s.iter().take_while(|b| is_mark(**b)).count()
}

// Returns the text without the comments at its front.
pub(crate) fn after_comments(s: &[u8]) -> &[u8]
    ensures { result.now ≡ spec.after_comments s.now }
{
    s.split_at(comments_length(s)).1
}

// Returns the empty rest, if nothing but comments follows.
pub(crate) fn ended(s: &[u8]) -> Result<&[u8], Refusal>
    ensures { (found : List Part) →
        Gives (λ r. (found, r.now)) result (spec.ended found s.now) }
{
    let rest = after_comments(s);
    if rest.is_empty() {
        Ok(rest)
    } else {
        Err(refused(Cause::TextAfterEnd, rest))
    }
}

pub(crate) fn starts_with(s: &[u8], word: &[u8]) -> bool
    ensures { result ≡ begins_with nat_eq s.now word.now }
{
    s.starts_with(word)
}

// Returns the text after its first `count` bytes, or nothing if it has fewer.
pub(crate) fn after(count: usize, s: &[u8]) -> &[u8]
    ensures { result.now ≡ drop count s.now }
{
    if count <= s.len() {
        &s[count..]
    } else {
        &s[..0]
    }
}
