ghost use Rattle.std.specs.Prelude.{◌≡◌, ◌≢◌, ℕ, ◌≤◌, ◌+◌, ◌++◌, length, drop, [], Bool, false, None, Some, IsTrue};
ghost use Rattle.arrayvec.specs.ArrayVec.{array_vec_len};
ghost use Rattle.ngc_dialect_reader.specs.Text as spec;
ghost use Rattle.ngc_dialect_reader.specs.declared.text.Place.TheVariants as places;

use crate::fault::{Cause, LineFault};
use arrayvec::ArrayVec;

/// The position of a byte of a line: outside comments, in parentheses, or after a semicolon.
#[derive(Clone, Copy)]
pub enum Place {
    Outside,
    InComment,
    InRemark,
}

#[inline]
fn place_after(place: Place, byte: u8) -> Place
    ensures { result ≡ spec.place_after place byte }
{
    match place {
        Place::Outside => match byte {
            b'(' => Place::InComment,
            b';' => Place::InRemark,
            _ => Place::Outside,
        },
        Place::InComment => {
            if byte == b')' {
                Place::Outside
            } else {
                Place::InComment
            }
        }
        Place::InRemark => Place::InRemark,
    }
}

#[inline]
fn is_blank(byte: u8, last: bool) -> bool
    ensures { result ≡ spec.is_blank byte last }
{
    byte == b' ' || byte == b'\t' || (byte == b'\r' && last)
}

#[inline]
fn upper(byte: u8) -> u8
    ensures { result ≡ spec.upper byte }
{
    if byte >= b'a' && byte <= b'z' {
        byte - 32
    } else {
        byte
    }
}

#[inline]
fn kept(place: Place, byte: u8, last: bool) -> Option<u8>
    ensures { result ≡ spec.kept place byte last }
{
    match place {
        Place::Outside => {
            if is_blank(byte, last) || byte == b';' {
                None
            } else {
                Some(upper(byte))
            }
        }
        Place::InComment | Place::InRemark => None,
    }
}

#[inline]
fn is_control(byte: u8, last: bool) -> bool
    ensures { result ≡ spec.is_control byte last }
{
    (byte < 32 || byte == 127) && !is_blank(byte, last)
}

fn is_nested(place: Place, byte: u8) -> bool
    ensures { result ≡ spec.is_nested place byte }
{
    matches!(place, Place::InComment) && byte == b'('
}

fn opened_after(place: Place, opened: usize, column: usize) -> usize
    ensures { result ≡ spec.opened_after place opened column }
{
    match place {
        Place::Outside => column,
        Place::InComment | Place::InRemark => opened,
    }
}

fn end_fault(closed: bool, place: Place, opened: usize) -> Option<LineFault>
    ensures { result ≡ spec.end_fault closed place opened }
{
    match place {
        Place::InComment if closed => Some(LineFault {
            cause: Cause::CommentNotClosed,
            column: opened,
        }),
        _ => None,
    }
}

// Returns whether a byte outside comments, which isn't ';', stands in the text as it is.
#[inline]
fn stays(byte: u8) -> bool
    requires { byte ≢ 59 }
    ensures kept { IsTrue result → (last : Bool) → spec.kept places.Outside byte last ≡ Some byte }
    ensures visible { IsTrue result → (last : Bool) → spec.is_control byte last ≡ false }
    ensures outside { IsTrue result → spec.place_after places.Outside byte ≡ places.Outside }
{
    byte >= b'-' && byte <= b'Z'
}

// Returns whether a byte is a space, which outside comments adds nothing.
#[inline]
fn is_space(byte: u8) -> bool
    ensures skipped { IsTrue result → (last : Bool) → spec.kept places.Outside byte last ≡ None }
    ensures visible { IsTrue result → (last : Bool) → spec.is_control byte last ≡ false }
    ensures outside { IsTrue result → spec.place_after places.Outside byte ≡ places.Outside }
{
    byte == b' '
}

#[inline]
fn is_outside(place: Place) -> bool
    ensures { IsTrue result → place ≡ places.Outside }
{
    matches!(place, Place::Outside)
}

// Adds the bytes outside comments from `from` on that stay in the text as they are, without the spaces
// between them, and returns the index of the first other byte. Nearly all bytes of programs are among
// these, so that nothing else is looked for here.
#[inline(always)]
#[tactic(auto, using(crate::proofs::TextBytes::text_steps))]
fn add_plain(line: &[u8], from: usize, bytes: &mut ArrayVec<u8, 256>) -> usize
    requires length { length line.now ≤ 256 }
    requires from { from ≤ length line.now }
    requires room { array_vec_len bytes.old ≤ from }
    ensures after { from ≤ result }
    ensures within { result ≤ length line.now }
    ensures room { array_vec_len bytes.new ≤ result }
    ensures text { bytes.new.items ++ spec.text_from places.Outside (drop result line.now)
        ≡ bytes.old.items ++ spec.text_from places.Outside (drop from line.now) }
    ensures fault { (closed : Bool) (opened : ℕ)
        → spec.text_fault closed places.Outside opened (result + 1) (drop result line.now)
        ≡ spec.text_fault closed places.Outside opened (from + 1) (drop from line.now) }
{
    let mut i = from;
    while i < line.len() {
        let byte = line[i];
        if byte == b';' {
            return i;
        }
        if stays(byte) {
            bytes.push(byte);
        } else if !is_space(byte) {
            return i;
        }
        i += 1;
    }
    i
}

// Writes the text of a line into `bytes`, in place of what was there, or returns why it has none: the
// first fault from the left. `bytes` is then unspecified.
#[tactic(auto, using(crate::proofs::TextBytes::text_steps))]
pub(crate) fn read_text(
    closed: bool,
    line: &[u8],
    bytes: &mut ArrayVec<u8, 256>,
) -> Option<LineFault>
    requires { length line.now ≤ 256 }
    ensures fault { result ≡ spec.fault_in closed line.now }
    ensures text { result ≡ None → bytes.new.items ≡ spec.text line.now }
{
    bytes.clear();
    let mut place = Place::Outside;
    let mut opened = 0;
    let mut i = add_plain(line, 0, bytes);
    while i < line.len() {
        let byte = line[i];
        let last = i + 1 == line.len();
        if is_control(byte, last) {
            return Some(LineFault {
                cause: Cause::ControlCharacter,
                column: i + 1,
            });
        }
        if is_nested(place, byte) {
            return Some(LineFault {
                cause: Cause::CommentInComment,
                column: i + 1,
            });
        }
        if let Some(letter) = kept(place, byte, last) {
            bytes.push(letter);
        }
        opened = opened_after(place, opened, i + 1);
        place = place_after(place, byte);
        i += 1;
        if is_outside(place) {
            i = add_plain(line, i, bytes);
        }
    }
    end_fault(closed, place, opened)
}

// Writes the text of a line into `bytes`, in place of what was there, also if the line has a fault.
#[tactic(auto, using(crate::proofs::TextBytes::text_steps))]
fn fill_text(line: &[u8], bytes: &mut ArrayVec<u8, 256>)
    requires { length line.now ≤ 256 }
    ensures { bytes.new.items ≡ spec.text line.now }
{
    bytes.clear();
    let mut place = Place::Outside;
    for i in 0..line.len() {
        let byte = line[i];
        if let Some(letter) = kept(place, byte, i + 1 == line.len()) {
            bytes.push(letter);
        }
        place = place_after(place, byte);
    }
}

fn text_length(line: &[u8]) -> usize
    requires { length line.now ≤ 256 }
    ensures { result ≡ length (spec.text line.now) }
{
    let mut bytes = ArrayVec::new();
    fill_text(line, &mut bytes);
    bytes.len()
}

/// Returns the column, from 1, of the byte of a line's text with `left` bytes of the text from it on:
/// for the `left` of a part, the column of that part.
#[tactic(auto, using(crate::proofs::TextBytes::text_steps))]
pub fn column_of(line: &[u8], left: usize) -> usize
    requires { length line.now ≤ 256 }
    ensures { result ≡ spec.column_in line.now left }
{
    let mut place = Place::Outside;
    let mut after = text_length(line);
    for i in 0..line.len() {
        let byte = line[i];
        if kept(place, byte, i + 1 == line.len()).is_some() {
            if after == left {
                return i + 1;
            }
            after = after.saturating_sub(1);
        }
        place = place_after(place, byte);
    }
    line.len() + 1
}
