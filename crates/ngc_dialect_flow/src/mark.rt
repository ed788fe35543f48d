//! What the text of a line shows of the flow, without values.
ghost use Rattle.std.specs.Prelude.{◌≡◌};
ghost use Rattle.ngc_dialect_flow.specs.Marks as spec;

use ngc_dialect_names::Dialect;
use ngc_dialect_reader::{DialectLine, Keyword, Name, Part, PartKind};

/// The number of units in 1.
const ONE: u128 = 1_000_000_000_000;

/// A label, or the number of one of Fanuc's loops.
#[derive(Clone, Copy)]
pub(crate) enum Label {
    Number(u128),
    Name(Name),
}

/// What a line is for the flow.
#[derive(Clone, Copy)]
pub(crate) enum LineKind {
    /// A line without parts.
    Blank,
    /// Words, settings or a jump.
    Plain,
    Percent,
    /// A label alone.
    Program,
    Word(Keyword),
    /// The beginning of one of Fanuc's loops.
    Loop,
    EndLoop,
}

/// What the parts of a line show.
#[derive(Clone, Copy)]
pub(crate) struct Mark {
    pub(crate) kind: LineKind,
    pub(crate) label: Option<Label>,
    /// The line's own number.
    pub(crate) number: Option<u128>,
    /// The number that the last part writes.
    pub(crate) last: Option<i128>,
}

/// Returns the whole number, from 0 up, that a value is.
pub(crate) fn whole_of(trillionths: i128) -> Option<u128>
    ensures { result ≡ spec.whole_of trillionths }
{
    let size = trillionths.unsigned_abs();
    if trillionths < 0 || size % ONE != 0 {
        None
    } else {
        Some(size / ONE)
    }
}

pub(crate) fn number_label(number: Option<u128>) -> Option<Label>
    ensures { result ≡ spec.number_label number }
{
    match number {
        Some(number) => Some(Label::Number(number)),
        None => None,
    }
}

fn unmarked(kind: LineKind) -> Mark
    ensures { result ≡ spec.unmarked kind }
{
    Mark {
        kind,
        label: None,
        number: None,
        last: None,
    }
}

impl Mark {
    fn marked_as(self, kind: LineKind, label: Option<Label>) -> Mark
        ensures { result ≡ spec.marked_as kind label self }
    {
        Mark {
            kind,
            label,
            number: self.number,
            last: None,
        }
    }

    fn last_whole(self) -> Option<u128>
        ensures { result ≡ spec.last_whole self }
    {
        match self.last {
            Some(last) => whole_of(last),
            None => None,
        }
    }

    // Returns what the line shows after one more part.
    fn after(self, kind: PartKind) -> Mark
        ensures { result ≡ spec.noticed kind self }
    {
        match kind {
            PartKind::Number(literal) => Mark {
                kind: self.kind,
                label: self.label,
                number: self.number,
                last: Some(literal.value),
            },
            PartKind::LineNumber => Mark {
                kind: self.kind,
                label: self.label,
                number: self.last_whole(),
                last: None,
            },
            PartKind::Percent => self.marked_as(LineKind::Percent, None),
            PartKind::Label => self.marked_as(LineKind::Program, number_label(self.last_whole())),
            PartKind::LabelNamed(name) => {
                self.marked_as(LineKind::Program, Some(Label::Name(name)))
            }
            PartKind::Flow(keyword, _) => self.marked_as(LineKind::Word(keyword), self.label),
            PartKind::Loop => self.marked_as(LineKind::Loop, number_label(self.last_whole())),
            PartKind::EndLoop => self.marked_as(LineKind::EndLoop, number_label(self.last_whole())),
            _ => self.marked_as(self.kind, self.label),
        }
    }
}

fn mark_of(parts: &[Part]) -> Mark
    ensures { result ≡ spec.mark_of parts.now }
{
    if parts.is_empty() {
        return unmarked(LineKind::Blank);
    }
    let mut mark = unmarked(LineKind::Plain);
    for part in parts {
        mark = mark.after(part.kind);
    }
    mark
}

/// Reads a line, and returns what it shows: nothing if it can't be read.
pub(crate) fn read_mark(dialect: Dialect, bytes: &[u8], line: &mut DialectLine) -> Mark
    ensures mark { result ≡ (spec.line_in dialect bytes.now).mark }
    ensures text { line.new.text.items ≡ (spec.line_in dialect bytes.now).text }
{
    match line.read(dialect, bytes) {
        Ok(()) => mark_of(line.parts.as_slice()),
        Err(_) => {
            line.text.clear();
            unmarked(LineKind::Plain)
        }
    }
}
