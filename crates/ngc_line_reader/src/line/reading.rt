ghost use Rattle.std.specs.Prelude.{◌≡◌, ℕ, ◌+◌, ◌*◌, ◌≤◌, ◌<◌, List, [], length, OnOk, IfOk};
ghost use Rattle.std.specs.Prelude.{IfErr, IsOk, ◌≢◌};
ghost use Rattle.arrayvec.specs.ArrayVec.{array_vec_len};
ghost use Rattle.ngc_line_reader.specs.Text.{text, columns as columns_in, place_in};
ghost use Rattle.ngc_line_reader.specs.Grammar.{Reading, Reads};
ghost use Rattle.ngc_line_reader.specs.Held.{HoldsReading, WithinLimits};
ghost use Rattle.ngc_line_reader.specs.Scan.{Gives};
ghost use Rattle.ngc_line_reader.specs.ScanLine.{parts_of, no_parts, refused_at as refused_in};
ghost use Rattle.ngc_line_reader.specs.ScanLine.{items_at as items_found};
ghost use Rattle.ngc_line_reader.specs.ScanLine.{line_number_at as line_number_found};
ghost use Rattle.ngc_line_reader.specs.ScanLine.{after_slash as behind_slash, parsed_line_of};
ghost use Rattle.ngc_line_reader.specs.ScanLine.{text_at as text_found};
ghost use Rattle.ngc_line_reader.specs.ReadLine.{line_read};
ghost use Rattle.ngc_line_reader.specs.Refused.{WritesTooLarge, WritesManyWords};

use crate::fault::{FaultKind, ItemRefusal, LineFault};
use crate::line::Line;
use crate::line::items::{item_at, short_word};
use crate::number::{begins, refusal, split_digits, tail};
use crate::text::{Scratch, column_of, fill_text};
use arrayvec::ArrayVec;

/// The greatest number of bytes of a line, without its line feed.
const LINE_LENGTH: usize = 256;

// Returns a refusal with its column.
fn refused_at(columns: &[u16], left: usize, why: ItemRefusal) -> LineFault
    ensures value { (s : List ℕ) → length s ≡ left →
        result ≡ refused_in (place_in columns.now) s why }
    ensures not_long { why ≢ ItemRefusal.OfItem FaultKind.LineTooLong →
        result.kind ≢ FaultKind.LineTooLong }
{
    match why {
        ItemRefusal::OfItem(kind) => LineFault {
            kind,
            column: column_of(columns, left),
        },
        ItemRefusal::AtByte(left) => LineFault {
            kind: FaultKind::UnknownCharacter,
            column: column_of(columns, left),
        },
    }
}

// Reads the items of a text and adds them to those in `line`.
#[tactic(auto, using(crate::proofs::LineItems::items_step))]
fn items_at(columns: &[u16], room: usize, text: &[u8], line: &mut Line) -> Result<(), LineFault>
    requires room { length text.now < room }
    requires space { array_vec_len line.old.tokens + length text.now ≤ 256 }
    requires few { 4 * array_vec_len line.old.settings + length text.now ≤ 256 }
    ensures reads { Gives (λ _. parts_of line.new) result
        (items_found (place_in columns.now) room (parts_of line.old) text.now) }
    ensures not_long { IfErr result (λ f. f.kind ≢ FaultKind.LineTooLong) }
{
    let mut room = room;
    let mut rest = text;
    while !rest.is_empty() && !begins(b';', rest) {
        room -= 1;
        if let Some(afterwards) = short_word(columns, room, rest, line) {
            rest = afterwards;
            continue;
        }
        match item_at(columns, room, rest, line) {
            Ok(afterwards) => rest = afterwards,
            Err(why) => return Err(refused_at(columns, rest.len(), why)),
        }
    }
    Ok(())
}

// Reads a line's number, and returns the rest.
#[tactic(auto, unfolding(crate::specs::ScanLine::line_number_at))]
fn line_number_at(s: &[u8]) -> Result<(Option<u32>, &[u8]), ItemRefusal>
    ensures reads { Gives (λ x. (x.0, x.1.now)) result (line_number_found s.now) }
    ensures shorter { IfOk result (λ x. length x.1.now ≤ length s.now) }
    ensures not_long { IfErr result (λ e. e ≢ ItemRefusal.OfItem FaultKind.LineTooLong) }
{
    if !begins(b'N', s) {
        return Ok((None, s));
    }
    let (digits, rest) = split_digits(tail(s));
    if digits.bytes.is_empty() {
        return Err(refusal(FaultKind::BadLineNumber, rest));
    }
    if digits.bytes.len() >= 6 {
        return Err(ItemRefusal::OfItem(FaultKind::BadLineNumber));
    }
    if begins(b'.', rest) {
        return Err(ItemRefusal::OfItem(FaultKind::BadLineNumber));
    }
    Ok((Some(digits.units as u32), rest))
}

fn after_slash(s: &[u8]) -> &[u8]
    ensures value { result.now ≡ behind_slash s.now }
    ensures shorter { length result.now ≤ length s.now }
{
    if begins(b'/', s) { tail(s) } else { s }
}

// Reads a text into `line`, in place of its contents.
#[tactic(auto, unfolding(crate::specs::ScanLine::text_at))]
fn text_at(columns: &[u16], text: &[u8], line: &mut Line) -> Result<(), LineFault>
    requires { length text.now ≤ 256 }
    ensures reads { Gives (λ _. parsed_line_of line.new) result
        (text_found (place_in columns.now) text.now) }
    ensures not_long { IfErr result (λ f. f.kind ≢ FaultKind.LineTooLong) }
{
    line.words.clear();
    line.settings.clear();
    line.tokens.clear();
    let numbered = after_slash(text);
    match line_number_at(numbered) {
        Ok((number, rest)) => match items_at(columns, text.len() + 1, rest, line) {
            Ok(()) => {
                line.deleted = begins(b'/', text);
                line.number = number;
                Ok(())
            }
            Err(fault) => Err(fault),
        },
        Err(why) => Err(refused_at(columns, numbered.len(), why)),
    }
}

impl Line {
    /// Returns an empty line.
    pub fn empty() -> Line
        ensures { HoldsReading [] result }
    {
        Line {
            deleted: false,
            number: None,
            words: ArrayVec::new(),
            settings: ArrayVec::new(),
            tokens: ArrayVec::new(),
        }
    }

    /// Reads a line's bytes, without its line feed (NISTIR 6556, 3.3). The new contents replace the
    /// old ones. Returns the first fault from the left, with the column of its item; the contents
    /// are then unspecified.
    pub fn read(&mut self, bytes: &[u8]) -> Result<(), LineFault>
        // The line then holds a reading of the bytes.
        ensures found { OnOk result (HoldsReading bytes.now self.new) }
        // A line that has a reading within the limits is not refused.
        ensures only { (r : Reading) → Reads bytes.now r → WithinLimits r → length bytes.now ≤ 256 →
            IsOk result }
        // A line that is too long is refused for that reason. Any other line is refused for the
        // first fault from the left.
        ensures first { Gives (λ _. parsed_line_of self.new) result (line_read bytes.now) }
        // Only a line of more than 256 bytes is refused as too long.
        ensures long { IfErr result (λ f. f.kind ≡ FaultKind.LineTooLong → 256 < length bytes.now) }
        // A number is refused as too large only if such a number is written,
        ensures large { IfErr result (λ f. f.kind ≡ FaultKind.TooLarge → WritesTooLarge bytes.now) }
        // and a word as one too many only after 64 words.
        ensures many { IfErr result (λ f. f.kind ≡ FaultKind.TooManyWords →
            WritesManyWords bytes.now) }
    {
        self.read_into(bytes, &mut Scratch::new())
    }

    /// Does the same as `read`, with a text buffer that the caller keeps from line to line.
    pub(crate) fn read_into(&mut self, bytes: &[u8], scratch: &mut Scratch) -> Result<(), LineFault>
        ensures found { OnOk result (HoldsReading bytes.now self.new) }
        ensures only { (r : Reading) → Reads bytes.now r → WithinLimits r → length bytes.now ≤ 256 →
            IsOk result }
        ensures first { Gives (λ _. parsed_line_of self.new) result (line_read bytes.now) }
        ensures long { IfErr result (λ f. f.kind ≡ FaultKind.LineTooLong → 256 < length bytes.now) }
        ensures large { IfErr result (λ f. f.kind ≡ FaultKind.TooLarge → WritesTooLarge bytes.now) }
        ensures many { IfErr result (λ f. f.kind ≡ FaultKind.TooManyWords →
            WritesManyWords bytes.now) }
    {
        if bytes.len() > LINE_LENGTH {
            return Err(LineFault {
                kind: FaultKind::LineTooLong,
                column: 257,
            });
        }
        let length = fill_text(bytes, &mut scratch.bytes, &mut scratch.columns);
        text_at(&scratch.columns[..length], &scratch.bytes[..length], self)
    }
}

/// Returns the contents of a line, or the first fault from the left with the column of its item.
/// `Line::read` does the same in place, and is faster for many lines.
pub fn read_line(line: &[u8]) -> Result<Line, LineFault>
    // The result holds a reading of the line.
    ensures found { IfOk result (λ answer. HoldsReading line.now answer) }
    // A line that has a reading within the limits is not refused.
    ensures only { (r : Reading) → Reads line.now r → WithinLimits r → length line.now ≤ 256 →
        IsOk result }
    // A line that is too long is refused for that reason. Any other line is refused for the first
    // fault from the left.
    ensures first { Gives parsed_line_of result (line_read line.now) }
    // Only a line of more than 256 bytes is refused as too long.
    ensures long { IfErr result (λ f. f.kind ≡ FaultKind.LineTooLong → 256 < length line.now) }
    // A number is refused as too large only if such a number is written,
    ensures large { IfErr result (λ f. f.kind ≡ FaultKind.TooLarge → WritesTooLarge line.now) }
    // and a word as one too many only after 64 words.
    ensures many { IfErr result (λ f. f.kind ≡ FaultKind.TooManyWords → WritesManyWords line.now) }
{
    let mut answer = Line::empty();
    match answer.read(line) {
        Ok(()) => Ok(answer),
        Err(fault) => Err(fault),
    }
}
