ghost use Rattle.std.specs.Prelude.{◌≡◌, ◌≢◌, ℕ, ◌≤◌, ◌<◌, length, drop, List, IsTrue, IfSome, None, Ok};
ghost use Rattle.ngc_line_reader.specs.Scan.{Gives};
ghost use Rattle.ngc_dialect_reader.specs.Item as spec;
ghost use Rattle.ngc_dialect_reader.specs.Table.{switches_of};

use crate::fault::{Cause, Refusal};
use crate::number::{begins, refused, short_number, tail};
use crate::part::{Part, PartKind};
use crate::steps::{Parts, added, after, begins_letter, is_letter, name_at, needed, word_length};
use crate::switches::Switches;
use crate::value::{Scope, begins_digits, expression_at, has_sign, value_at};
use ngc_dialect_names::Dialect;

// Values nest at most 32 deep.
pub(crate) fn whole(dialect: Switches) -> Scope
    ensures dialect { result.dialect ≡ dialect }
    ensures depth { result.depth ≡ 32 }
{
    Scope { dialect, depth: 32 }
}

fn is_word_letter(dialect: Switches, byte: u8) -> bool
    ensures { result ≡ spec.is_word_letter dialect byte }
{
    (is_letter(byte) && byte != b'N' && byte != b'O')
        || (dialect.polar && (byte == b'@' || byte == b'^'))
}

fn begins_value(s: &[u8]) -> bool
    ensures { result ≡ spec.begins_value s.now }
{
    begins_digits(s)
        || has_sign(s)
        || begins(b'[', s)
        || begins(b'#', s)
        || (begins_letter(s) && begins(b'[', after(word_length(s), s)))
}

// Adds a word, and returns the rest.
#[tactic(auto, unfolding(crate::specs::Item::word_at))]
fn word_at<'a>(
    dialect: Switches,
    letter: u8,
    s: &'a [u8],
    parts: &mut Parts,
) -> Result<&'a [u8], Refusal>
    ensures { Gives (λ r. (parts.new.items, r.now)) result
        (spec.word_at dialect letter parts.old.items s.now) }
{
    if !begins_value(tail(s)) {
        return Err(refused(Cause::WordWithoutValue, s));
    }
    let rest = value_at(whole(dialect), tail(s), parts)?;
    added(PartKind::Word(letter), s, parts, rest)
}

// Adds what a setting sets, and returns the rest.
#[tactic(auto, unfolding(crate::specs::Item::assigned_at))]
fn assigned_at<'a>(dialect: Switches, s: &'a [u8], parts: &mut Parts) -> Result<&'a [u8], Refusal>
    ensures { Gives (λ r. (parts.new.items, r.now)) result
        (spec.assigned_at dialect parts.old.items s.now) }
{
    let value = needed(b'=', Cause::EqualsMissing, s)?;
    if dialect.macros {
        expression_at(whole(dialect), value, parts)
    } else {
        value_at(whole(dialect), value, parts)
    }
}

// Adds a setting, and returns the rest.
#[tactic(auto, unfolding(crate::specs::Item::setting_at))]
fn setting_at<'a>(dialect: Switches, s: &'a [u8], parts: &mut Parts) -> Result<&'a [u8], Refusal>
    ensures { Gives (λ r. (parts.new.items, r.now)) result
        (spec.setting_at dialect parts.old.items s.now) }
{
    if !dialect.expressions {
        return Err(refused(Cause::NotInDialect, s));
    }
    if !begins(b'<', tail(s)) {
        let equals = value_at(whole(dialect), tail(s), parts)?;
        let rest = assigned_at(dialect, equals, parts)?;
        return added(PartKind::Set, s, parts, rest);
    }
    if !dialect.names {
        return Err(refused(Cause::NotInDialect, s));
    }
    let (name, equals) = name_at(after(2, s))?;
    let rest = assigned_at(dialect, equals, parts)?;
    added(PartKind::SetNamed(name), s, parts, rest)
}

#[tactic(auto, unfolding(crate::specs::Item::item_at))]
fn item_at<'a>(dialect: Switches, s: &'a [u8], parts: &mut Parts) -> Result<&'a [u8], Refusal>
    ensures { Gives (λ r. (parts.new.items, r.now)) result
        (spec.item_at dialect parts.old.items s.now) }
{
    match s {
        [b'(', rest @ ..] => Ok(rest),
        [b'#', ..] => setting_at(dialect, s, parts),
        [letter, ..] if is_word_letter(dialect, *letter) => word_at(dialect, *letter, s, parts),
        _ => Err(refused(Cause::UnexpectedCharacter, s)),
    }
}

// Returns whether a letter begins words in each dialect.
#[inline]
pub(crate) fn is_plain_letter(byte: u8) -> bool
    ensures low { IsTrue result → 65 ≤ byte }
    ensures high { IsTrue result → byte ≤ 90 }
    ensures no_number { IsTrue result → byte ≢ 78 }
    ensures no_label { IsTrue result → byte ≢ 79 }
{
    is_letter(byte) && byte != b'N' && byte != b'O'
}

// Adds a word whose value is a number of few digits, as most items are, and returns the rest. It returns
// `None` for any other item, and then adds nothing.
#[inline(always)]
fn short_word<'a>(s: &'a [u8], parts: &mut Parts) -> Option<&'a [u8]>
    ensures read { IfSome result (λ rest. (d : Switches) →
        spec.item_at d parts.old.items s.now ≡ Ok (parts.new.items, rest.now)) }
    ensures other { result ≡ None → parts.new ≡ parts.old }
{
    if s.is_empty() || !is_plain_letter(s[0]) || parts.len() > 126 {
        return None;
    }
    let (literal, rest) = short_number(tail(s))?;
    parts.push(Part {
        kind: PartKind::Number(literal),
        left: tail(s).len(),
    });
    parts.push(Part {
        kind: PartKind::Word(s[0]),
        left: s.len(),
    });
    Some(rest)
}

// Adds the words in front that `short_word` reads. Returns how many items may follow, and the rest.
#[inline(always)]
fn short_words<'a>(s: &'a [u8], parts: &mut Parts) -> (usize, &'a [u8])
    ensures { (d : Switches) → spec.items_at d result.0 parts.new.items result.1.now
        ≡ spec.items d parts.old.items s.now }
{
    let mut rest = s;
    let mut room: usize = 257;
    while room > 0 {
        match short_word(rest, parts) {
            Some(afterwards) => rest = afterwards,
            None => return (room, rest),
        }
        room -= 1;
    }
    (room, rest)
}

// Adds at most `room` items, which are all of a text.
#[tactic(auto, using(crate::proofs::ItemSteps::items_step))]
fn items_at<'a>(
    dialect: Switches,
    room: usize,
    s: &'a [u8],
    parts: &mut Parts,
) -> Result<&'a [u8], Refusal>
    ensures { Gives (λ r. (parts.new.items, r.now)) result
        (spec.items_at dialect room parts.old.items s.now) }
{
    let mut rest = s;
    let mut room = room;
    while room > 0 {
        if rest.is_empty() {
            return Ok(rest);
        }
        room -= 1;
        if let Some(afterwards) = short_word(rest, parts) {
            rest = afterwards;
            continue;
        }
        match item_at(dialect, rest, parts) {
            Ok(afterwards) => rest = afterwards,
            Err(refusal) => return Err(refusal),
        }
    }
    Err(refused(Cause::TooManyParts, rest))
}

// Adds all items of a text.
pub(crate) fn items<'a>(
    dialect: Switches,
    s: &'a [u8],
    parts: &mut Parts,
) -> Result<&'a [u8], Refusal>
    ensures { Gives (λ r. (parts.new.items, r.now)) result
        (spec.items dialect parts.old.items s.now) }
{
    items_at(dialect, 257, s, parts)
}

// Does the same. It asks for what a dialect allows only after the words in front whose values are
// numbers: mostly there is nothing more.
#[inline(always)]
#[tactic(auto, using(crate::proofs::ItemSteps::items_step))]
pub(crate) fn plain_items<'a>(
    dialect: Dialect,
    s: &'a [u8],
    parts: &mut Parts,
) -> Result<&'a [u8], Refusal>
    ensures { Gives (λ r. (parts.new.items, r.now)) result
        (spec.items (switches_of dialect) parts.old.items s.now) }
{
    let (room, rest) = short_words(s, parts);
    if rest.is_empty() && room > 0 {
        return Ok(rest);
    }
    items_at(Switches::of(dialect), room, rest, parts)
}
