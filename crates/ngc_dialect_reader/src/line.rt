ghost use Rattle.std.specs.Prelude.{◌≡◌, ℕ, ◌≤◌, [], length, drop, take, List, ◌-◌, OnOk, IsTrue, false};
ghost use Rattle.ngc_line_reader.specs.Scan.{Gives};
ghost use Rattle.ngc_dialect_reader.specs.Line as spec;
ghost use Rattle.ngc_dialect_reader.specs.Table.{switches_of};
ghost use Rattle.ngc_dialect_reader.specs.Item.{items as all_items};
ghost use Rattle.ngc_dialect_reader.specs.Text.{text as text_of};

use crate::fault::{Cause, LineFault, Refusal};
use crate::flow::{macro_at, o_word_at};
use crate::item::{is_plain_letter, items, plain_items};
use crate::number::{begins, number_at, refused, tail};
use crate::part::{Name, Part, PartKind};
use crate::steps::{Parts, add, added, after, ended, starts_with};
use crate::switches::Switches;
use crate::text::{column_of, read_text};
use arrayvec::ArrayVec;
use ngc_dialect_names::Dialect;

/// The greatest number of bytes of a line, without its line feed.
const LINE_LENGTH: usize = 256;

/// The contents of a line: its text, which is the line without white space and comments, in upper
/// case, and the parts that are written there.
#[derive(Drop)]
pub struct DialectLine {
    pub text: ArrayVec<u8, 256>,
    pub parts: ArrayVec<Part, 128>,
}

// Returns the level of block delete that a text begins with.
fn level_at(dialect: Switches, s: &[u8]) -> Option<u8>
    ensures { result ≡ spec.level_at dialect s.now }
{
    match s {
        [digit @ b'1'..=b'9', ..] if dialect.levels => Some(*digit - b'0'),
        _ => None,
    }
}

#[tactic(auto, unfolding(crate::specs::Line::delete_at))]
fn delete_at<'a>(dialect: Switches, s: &'a [u8], parts: &mut Parts) -> Result<&'a [u8], Refusal>
    ensures { Gives (λ r. (parts.new.items, r.now)) result
        (spec.delete_at dialect parts.old.items s.now) }
{
    if !begins(b'/', s) {
        return Ok(s);
    }
    match level_at(dialect, tail(s)) {
        Some(level) => added(PartKind::Delete(level), s, parts, after(2, s)),
        None => added(PartKind::Delete(1), s, parts, tail(s)),
    }
}

fn begins_digit(s: &[u8]) -> bool
    ensures { result ≡ spec.begins_digit s.now }
{
    match s {
        [first, ..] => first.is_ascii_digit(),
        [] => false,
    }
}

#[tactic(auto, unfolding(crate::specs::Line::line_number_at))]
fn line_number_at<'a>(s: &'a [u8], parts: &mut Parts) -> Result<&'a [u8], Refusal>
    ensures { Gives (λ r. (parts.new.items, r.now)) result
        (spec.line_number_at parts.old.items s.now) }
{
    if !begins(b'N', s) {
        return Ok(s);
    }
    if !begins_digit(tail(s)) {
        return Err(refused(Cause::WordWithoutValue, s));
    }
    let (number, rest) = number_at(tail(s))?;
    add(PartKind::Number(number), tail(s), parts)?;
    added(PartKind::LineNumber, s, parts, rest)
}

// Adds the statement or the items of a line.
#[tactic(auto, unfolding(crate::specs::Line::statement_at))]
fn statement_at<'a>(dialect: Switches, s: &'a [u8], parts: &mut Parts) -> Result<&'a [u8], Refusal>
    ensures { Gives (λ r. (parts.new.items, r.now)) result
        (spec.statement_at dialect parts.old.items s.now) }
{
    if begins(b'%', s) {
        let rest = added(PartKind::Percent, s, parts, tail(s))?;
        return ended(rest);
    }
    if dialect.commands && starts_with(s, b"$H") {
        let rest = added(PartKind::Home, s, parts, after(2, s))?;
        return ended(rest);
    }
    if begins(b'O', s) || (dialect.macros && begins(b':', s)) {
        return o_word_at(dialect, s, parts);
    }
    if dialect.macros {
        macro_at(dialect, s, parts)
    } else {
        items(dialect, s, parts)
    }
}

// Returns whether a text has nothing but items, unless a dialect has statements that begin as words.
#[inline]
#[tactic(auto, using(crate::proofs::ShortWords::word_line))]
fn begins_word(s: &[u8]) -> bool
    ensures { IsTrue result → (d : Switches) → d.macros ≡ false →
        spec.text_at d s.now ≡ all_items d [] s.now }
{
    !s.is_empty() && is_plain_letter(s[0])
}

// Adds the parts of any text.
#[tactic(auto, unfolding(crate::specs::Line::text_at))]
fn any_text_at<'a>(dialect: Switches, s: &'a [u8], parts: &mut Parts) -> Result<&'a [u8], Refusal>
    ensures { Gives (λ r. (parts.new.items, r.now)) result (spec.text_at dialect s.now) }
{
    parts.clear();
    let numbered = delete_at(dialect, s, parts)?;
    let statement = line_number_at(numbered, parts)?;
    statement_at(dialect, statement, parts)
}

// Adds the parts of a text. Most begin with a word, and have nothing but words.
#[inline(always)]
fn text_at<'a>(dialect: Dialect, s: &'a [u8], parts: &mut Parts) -> Result<&'a [u8], Refusal>
    ensures { Gives (λ r. (parts.new.items, r.now)) result
        (spec.text_at (switches_of dialect) s.now) }
{
    if begins_word(s) && !Switches::of(dialect).macros {
        parts.clear();
        plain_items(dialect, s, parts)
    } else {
        any_text_at(Switches::of(dialect), s, parts)
    }
}

impl DialectLine {
    /// Returns an empty line.
    pub fn empty() -> DialectLine
        ensures text { result.text.items ≡ [] }
        ensures parts { result.parts.items ≡ [] }
    {
        DialectLine {
            text: ArrayVec::new(),
            parts: ArrayVec::new(),
        }
    }

    /// Reads a line's bytes, without its line feed. The new contents replace the old ones. Returns the
    /// first fault from the left; the parts are then unspecified.
    pub fn read(&mut self, dialect: Dialect, line: &[u8]) -> Result<(), LineFault>
        ensures parts { Gives (λ _. self.new.parts.items) result (spec.line_of dialect line.now) }
        ensures text { OnOk result (self.new.text.items ≡ text_of line.now) }
    {
        if line.len() > LINE_LENGTH {
            return Err(LineFault {
                cause: Cause::LineTooLong,
                column: 257,
            });
        }
        let closed = Switches::of(dialect).closed_comments;
        if let Some(fault) = read_text(closed, line, &mut self.text) {
            return Err(fault);
        }
        match text_at(dialect, self.text.as_slice(), &mut self.parts) {
            Ok(_) => Ok(()),
            Err(refusal) => Err(LineFault {
                cause: refusal.cause,
                column: column_of(line, refusal.left),
            }),
        }
    }

    /// Returns the bytes of a name of the line.
    pub fn name(&self, name: Name) -> &[u8]
        ensures { result.now ≡ spec.name_of self.now.text.items name }
    {
        let text = self.text.as_slice();
        let front = after(text.len().saturating_sub(name.left), text);
        if name.size <= front.len() {
            &front[..name.size]
        } else {
            front
        }
    }
}
