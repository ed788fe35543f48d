ghost use Rattle.std.specs.Prelude.{◌≡◌, ◌+◌, ◌*◌, ◌≤◌, ◌<◌, length, IfOk, IfErr, ◌≢◌};
ghost use Rattle.std.specs.Prelude.{IfSome, None, Ok};
ghost use Rattle.std.specs.List.{prefix_len};
ghost use Rattle.arrayvec.specs.ArrayVec.{array_vec_len};
ghost use Rattle.ngc_line_reader.specs.Text.{place_in};
ghost use Rattle.ngc_line_reader.specs.Scan.{Gives};
ghost use Rattle.ngc_line_reader.specs.ScanLine.{parts_of, word_at as word_found};
ghost use Rattle.ngc_line_reader.specs.ScanLine.{setting_at as setting_found};
ghost use Rattle.ngc_line_reader.specs.ScanLine.{is_comment_byte as is_in_comment};
ghost use Rattle.ngc_line_reader.specs.ScanLine.{after_comment as behind_comment};
ghost use Rattle.ngc_line_reader.specs.ScanLine.{comment_at as comment_found};
ghost use Rattle.ngc_line_reader.specs.ScanLine.{start_fault as fault_of_start};
ghost use Rattle.ngc_line_reader.specs.ScanLine.{other_item_at as other_item_found};
ghost use Rattle.ngc_line_reader.specs.ScanLine.{item_at as item_found};

use crate::fault::{FaultKind, ItemRefusal};
use crate::letter::{Letter, letter_of};
use crate::line::{Line, RawSetting, RawWord};
use crate::number::{begins, number_at, refusal, tail};
use crate::real::{push_symbol, real_at};
use crate::text::column_of;
use crate::token::Symbol;

// Reads a word, and returns the rest.
#[tactic(auto, unfolding(crate::specs::ScanLine::word_at))]
fn word_at<'a>(
    columns: &[u16],
    room: usize,
    letter: Letter,
    s: &'a [u8],
    line: &mut Line,
) -> Result<&'a [u8], ItemRefusal>
    requires some { 0 < length s.now }
    requires room { length s.now ≤ room }
    requires space { array_vec_len line.old.tokens + length s.now ≤ 256 }
    ensures reads { Gives (λ rest. (parts_of line.new, rest.now)) result
        (word_found (place_in columns.now) room (parts_of line.old) letter s.now) }
    ensures shorter { IfOk result (λ rest. length rest.now < length s.now) }
    ensures space { IfOk result
        (λ rest. array_vec_len line.new.tokens + length rest.now
        ≤ array_vec_len line.old.tokens + length s.now) }
    ensures settings { line.new.settings ≡ line.old.settings }
    ensures not_long { IfErr result (λ e. e ≢ ItemRefusal.OfItem FaultKind.LineTooLong) }
{
    if line.words.is_full() {
        return Err(ItemRefusal::OfItem(FaultKind::TooManyWords));
    }
    let column = column_of(columns, s.len());
    let first = line.tokens.len() as u16;
    let rest = real_at(columns, room, tail(s), &mut line.tokens)?;
    line.words.push(RawWord {
        letter,
        column,
        first,
    });
    Ok(rest)
}

// Reads a word whose value is a number, as in most items, and returns the rest. It returns `None`
// for any other item.
#[inline(always)]
#[tactic(auto, using(crate::proofs::Scanning::number_shorter))]
pub(crate) fn short_word<'a>(
    columns: &[u16],
    room: usize,
    s: &'a [u8],
    line: &mut Line,
) -> Option<&'a [u8]>
    requires some { 0 < length s.now }
    requires room { length s.now ≤ room }
    requires space { array_vec_len line.old.tokens + length s.now ≤ 256 }
    ensures reads { IfSome result
        (λ rest. item_found (place_in columns.now) room (parts_of line.old) s.now
        ≡ Ok (parts_of line.new, rest.now)) }
    ensures shorter { IfSome result (λ rest. length rest.now < length s.now) }
    ensures space { IfSome result
        (λ rest. array_vec_len line.new.tokens + length rest.now
        ≤ array_vec_len line.old.tokens + length s.now) }
    ensures settings { line.new.settings ≡ line.old.settings }
    ensures other { result ≡ None → line.new ≡ line.old }
{
    let letter = letter_of(s[0])?;
    if line.words.is_full() {
        return None;
    }
    match number_at(tail(s)) {
        Ok((value, rest)) => {
            let column = column_of(columns, s.len());
            let first = line.tokens.len() as u16;
            push_symbol(columns, Symbol::Number(value), tail(s), &mut line.tokens);
            line.words.push(RawWord {
                letter,
                column,
                first,
            });
            Some(rest)
        }
        Err(_) => None,
    }
}

// Reads a setting, and returns the rest.
#[tactic(auto, unfolding(crate::specs::ScanLine::setting_at, crate::specs::ScanLine::value_after))]
fn setting_at<'a>(
    columns: &[u16],
    room: usize,
    s: &'a [u8],
    line: &mut Line,
) -> Result<&'a [u8], ItemRefusal>
    requires some { 0 < length s.now }
    requires room { length s.now ≤ room }
    requires space { array_vec_len line.old.tokens + length s.now ≤ 256 }
    requires few { 4 * array_vec_len line.old.settings + length s.now ≤ 256 }
    ensures reads { Gives (λ rest. (parts_of line.new, rest.now)) result
        (setting_found (place_in columns.now) room (parts_of line.old) s.now) }
    ensures shorter { IfOk result (λ rest. length rest.now < length s.now) }
    ensures space { IfOk result
        (λ rest. array_vec_len line.new.tokens + length rest.now
        ≤ array_vec_len line.old.tokens + length s.now) }
    ensures few { IfOk result
        (λ rest. 4 * array_vec_len line.new.settings + length rest.now
        ≤ 4 * array_vec_len line.old.settings + length s.now) }
    ensures not_long { IfErr result (λ e. e ≢ ItemRefusal.OfItem FaultKind.LineTooLong) }
{
    let column = column_of(columns, s.len());
    let index = line.tokens.len() as u16;
    let behind_index = real_at(columns, room, tail(s), &mut line.tokens)?;
    if !begins(b'=', behind_index) {
        return Err(refusal(FaultKind::BadNumber, behind_index));
    }
    let value = line.tokens.len() as u16;
    let rest = real_at(columns, room, tail(behind_index), &mut line.tokens)?;
    line.settings.push(RawSetting {
        column,
        index,
        value,
    });
    Ok(rest)
}

fn is_comment_byte(byte: u8) -> bool
    ensures { result ≡ is_in_comment byte }
{
    byte != b'(' && byte != b')'
}

#[tactic(auto, using(crate::proofs::Digits::counted))]
fn comment_count(s: &[u8]) -> usize
    ensures count { result ≡ prefix_len is_in_comment s.now }
    ensures within { result ≤ length s.now }
{
    s.iter().take_while(|b| is_comment_byte(**b)).count()
}

fn after_comment(s: &[u8]) -> &[u8]
    ensures value { result.now ≡ behind_comment s.now }
    ensures shorter { length result.now ≤ length s.now }
{
    s.split_at(comment_count(s)).1
}

// Returns the text after a comment.
fn comment_at(s: &[u8]) -> Result<&[u8], ItemRefusal>
    requires some { 0 < length s.now }
    ensures reads { Gives (λ rest. rest.now) result (comment_found s.now) }
    ensures shorter { IfOk result (λ rest. length rest.now < length s.now) }
    ensures not_long { IfErr result (λ e. e ≢ ItemRefusal.OfItem FaultKind.LineTooLong) }
{
    let end = after_comment(tail(s));
    if begins(b')', end) {
        Ok(tail(end))
    } else if begins(b'(', end) {
        Err(ItemRefusal::OfItem(FaultKind::CommentNested))
    } else {
        Err(ItemRefusal::OfItem(FaultKind::CommentNotClosed))
    }
}

// Returns why no item begins with this byte.
fn start_fault(byte: u8) -> FaultKind
    ensures value { result ≡ fault_of_start byte }
    ensures not_long { result ≢ FaultKind.LineTooLong }
{
    match byte {
        b'A'..=b'Z' => FaultKind::BadWord,
        b'0'..=b'9' | b'+' | b'-' | b'.' => FaultKind::BadNumber,
        b'[' | b']' => FaultKind::Bracket,
        _ => FaultKind::UnknownCharacter,
    }
}

// Reads an item that begins with no letter, and returns the rest.
#[tactic(auto, unfolding(crate::specs::ScanLine::other_item_at))]
fn other_item_at<'a>(
    columns: &[u16],
    room: usize,
    s: &'a [u8],
    line: &mut Line,
) -> Result<&'a [u8], ItemRefusal>
    requires some { 0 < length s.now }
    requires room { length s.now ≤ room }
    requires space { array_vec_len line.old.tokens + length s.now ≤ 256 }
    requires few { 4 * array_vec_len line.old.settings + length s.now ≤ 256 }
    ensures reads { Gives (λ rest. (parts_of line.new, rest.now)) result
        (other_item_found (place_in columns.now) room (parts_of line.old) s.now) }
    ensures shorter { IfOk result (λ rest. length rest.now < length s.now) }
    ensures space { IfOk result
        (λ rest. array_vec_len line.new.tokens + length rest.now
        ≤ array_vec_len line.old.tokens + length s.now) }
    ensures few { IfOk result
        (λ rest. 4 * array_vec_len line.new.settings + length rest.now
        ≤ 4 * array_vec_len line.old.settings + length s.now) }
    ensures not_long { IfErr result (λ e. e ≢ ItemRefusal.OfItem FaultKind.LineTooLong) }
{
    if begins(b'#', s) {
        return setting_at(columns, room, s, line);
    }
    if begins(b'(', s) {
        return comment_at(s);
    }
    Err(ItemRefusal::OfItem(start_fault(s[0])))
}

// Reads an item, and returns the rest. (Most items are short words, which get here only if they are
// refused.)
#[inline(never)]
#[tactic(auto, unfolding(crate::specs::ScanLine::item_at))]
pub(crate) fn item_at<'a>(
    columns: &[u16],
    room: usize,
    s: &'a [u8],
    line: &mut Line,
) -> Result<&'a [u8], ItemRefusal>
    requires some { 0 < length s.now }
    requires room { length s.now ≤ room }
    requires space { array_vec_len line.old.tokens + length s.now ≤ 256 }
    requires few { 4 * array_vec_len line.old.settings + length s.now ≤ 256 }
    ensures reads { Gives (λ rest. (parts_of line.new, rest.now)) result
        (item_found (place_in columns.now) room (parts_of line.old) s.now) }
    ensures shorter { IfOk result (λ rest. length rest.now < length s.now) }
    ensures space { IfOk result
        (λ rest. array_vec_len line.new.tokens + length rest.now
        ≤ array_vec_len line.old.tokens + length s.now) }
    ensures few { IfOk result
        (λ rest. 4 * array_vec_len line.new.settings + length rest.now
        ≤ 4 * array_vec_len line.old.settings + length s.now) }
    ensures not_long { IfErr result (λ e. e ≢ ItemRefusal.OfItem FaultKind.LineTooLong) }
{
    match letter_of(s[0]) {
        Some(letter) => word_at(columns, room, letter, s, line),
        None => other_item_at(columns, room, s, line),
    }
}
