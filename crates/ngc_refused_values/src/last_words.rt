//! The last word of a kind up to a line.
ghost use Rattle.std.specs.Prelude.{◌≡◌};
ghost use Rattle.std.specs.Option.{option_or};
ghost use Rattle.ngc_line_reader.specs.ProgramView.{text_in};
ghost use Rattle.ngc_line_reader.specs.ReadLine.{line_read};
ghost use Rattle.ngc_line_reader.specs.ScanLine.{parts_of, parsed_line_of};
ghost use Rattle.ngc_refused_values.specs.LastWords.{is_of, last_word, may_be, word_of};
ghost use Rattle.ngc_refused_values.specs.LastWords.{word_read, parsed_word};

use crate::said::has_letter;
use ngc_line_reader::{Letter, Line, Program, RawWord, Token, read_line};
use ngc_report::written_number;
use std::alloc::Allocator;

/// A kind of words of which the last one counts.
#[derive(Clone, Copy)]
pub enum Kind {
    /// T, which selects a tool.
    Tool,
    /// G20 and G21.
    Unit,
}

/// The last word of a kind.
#[derive(Clone, Copy)]
pub struct LastWord {
    /// The number of its line in the file, from 1.
    pub line: u32,
    /// Its number in millionths, or `None` if its value has brackets or a parameter.
    pub number: Option<i64>,
}

fn may_be(first: i64, second: i64, written: Option<i64>) -> bool
    ensures { result ≡ may_be first second written }
{
    match written {
        Some(written) => written == first || written == second,
        None => true,
    }
}

// Returns whether a word is of a kind; a code whose value has brackets or a parameter may be.
fn is_of(kind: Kind, tokens: &[Token], word: &RawWord) -> bool
    ensures { result ≡ is_of kind tokens.now word.now }
{
    match kind {
        Kind::Tool => has_letter(Letter::T, word),
        Kind::Unit => {
            has_letter(Letter::G, word)
                && may_be(20_000_000, 21_000_000, written_number(tokens, word))
        }
    }
}

fn word_of(kind: Kind, line: &Line) -> Option<RawWord>
    ensures { result ≡ word_of kind (parts_of line.now) }
{
    let tokens = line.tokens.as_slice();
    line.words
        .as_slice()
        .iter()
        .find(|word| is_of(kind, tokens, word))
        .copied()
}

fn parsed_word(kind: Kind, deletes: bool, number: u32, line: &Line) -> Option<LastWord>
    ensures { result ≡ parsed_word kind deletes number (parsed_line_of line.now) }
{
    if deletes && line.deleted {
        return None;
    }
    match word_of(kind, line) {
        None => None,
        Some(word) => Some(LastWord {
            line: number,
            number: written_number(line.tokens.as_slice(), &word),
        }),
    }
}

fn word_read(kind: Kind, deletes: bool, number: u32, bytes: &[u8]) -> Option<LastWord>
    ensures { result ≡ word_read kind deletes number (line_read bytes.now) }
{
    match read_line(bytes) {
        Ok(line) => parsed_word(kind, deletes, number, &line),
        Err(_) => None,
    }
}

fn later(last: Option<LastWord>, before: Option<LastWord>) -> Option<LastWord>
    ensures { result ≡ option_or last before }
{
    match last {
        Some(_) => last,
        None => before,
    }
}

/// Returns the last word of a kind in the lines up to the one with this number in the file, at a
/// setting of block delete, or `None` if there is none.
///
/// The function reads each of these lines once.
pub fn last_word<A: Allocator>(
    kind: Kind,
    deletes: bool,
    program: &Program<A>,
    number: u32,
) -> Option<LastWord>
    ensures { result ≡ last_word kind deletes number (text_in program.now).lines }
{
    let mut last = None;
    for index in 0..program.len() {
        let line = program.number(index);
        last = later(word_read(kind, deletes, line, program.bytes(index)), last);
        if line == number {
            return last;
        }
    }
    last
}
