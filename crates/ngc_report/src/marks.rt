//! The word of a quoted line that a fault names, in a mark and a sentence below the line.
ghost use Rattle.std.specs.Prelude.{◌≡◌, codes, OnOk, OnErr, Some};
ghost use Rattle.std.specs.Option.{option_map, option_or};
ghost use Rattle.std.specs.Io.KnownBytes.{Appends};
ghost use Rattle.ngc_text.specs.Failures.{CountsFailure};
ghost use Rattle.ngc_text.specs.Written.{AppendsPrefix};
ghost use Rattle.ngc_line_reader.specs.Letter.{letter_byte};
ghost use Rattle.ngc_line_reader.specs.Program.{lines_of};
ghost use Rattle.ngc_line_reader.specs.ProgramView.{text_in};
ghost use Rattle.ngc_line_reader.specs.ScanLine.{parts_of};
ghost use Rattle.ngc_sentences.specs.Parts.{part_text};
ghost use Rattle.ngc_sentences.specs.Saying.{Says};
ghost use Rattle.ngc_report.specs.Quotes.{bytes_with};
ghost use Rattle.ngc_report.specs.Marks.{number_of, written_number, is_wanted, fits, first_word};
ghost use Rattle.ngc_report.specs.Marks.{named_word, mark_of, mark_if, unknown_text};
ghost use Rattle.ngc_report.specs.Marks.{idle_text, missing_text, phrase, has_phrase};
ghost use Rattle.ngc_report.specs.Marks.{words_sentence, fact_sentence, sentence, named_line, content_by, named_below};
ghost use Rattle.ngc_report.specs.Marks.{named_quote, is_whole_from, breaks_range, breaks_length};
ghost use Rattle.ngc_report.specs.Marks.{breaks, word_breaks, breaking_word, sets_origin, tool_word};
ghost use Rattle.ngc_report.specs.Marks.{as_written, written_word, written_of, range_text};
ghost use Rattle.ngc_report.specs.Marks.{large_text, tool_text, number_phrase};
ghost use Rattle.ngc_text.specs.Millimetres.{length_text};

use crate::form::Form;
use crate::quotes::{line_bytes, say_quote};
use crate::source_lines::{say_mark, source_line};
use ngc_canonical::Fault;
use ngc_line_reader::{Letter, Line, Program, RawWord, Symbol, Token, read_line};
use ngc_modal_state::{MissingWord, ModalFault};
use ngc_sentences::{Page, Part, say};
use ngc_text::{Sink, WriteFault};
use std::alloc::Allocator;

/// Returns the byte of a letter, in upper case.
pub fn letter_byte(letter: Letter) -> u8
    ensures { result ≡ letter_byte letter }
{
    match letter {
        Letter::A => b'A',
        Letter::B => b'B',
        Letter::C => b'C',
        Letter::D => b'D',
        Letter::F => b'F',
        Letter::G => b'G',
        Letter::H => b'H',
        Letter::I => b'I',
        Letter::J => b'J',
        Letter::K => b'K',
        Letter::L => b'L',
        Letter::M => b'M',
        Letter::P => b'P',
        Letter::Q => b'Q',
        Letter::R => b'R',
        Letter::S => b'S',
        Letter::T => b'T',
        Letter::X => b'X',
        Letter::Y => b'Y',
        Letter::Z => b'Z',
    }
}

/// The wanted word among the words of a line with one letter.
#[derive(Clone, Copy)]
enum Wanted {
    Any,
    /// A word whose value is written as this number, in millionths.
    Number(i64),
    /// A word whose value has brackets or a parameter.
    Reckoned,
}

fn number_of(symbol: Symbol) -> Option<i64>
    ensures { result ≡ number_of symbol }
{
    match symbol {
        Symbol::Number(value) => Some(value.millionths()),
        _ => None,
    }
}

/// Returns the number as which a word's value is written, in millionths, or `None` if the value has
/// brackets or a parameter. `tokens` are those of its line.
pub fn written_number(tokens: &[Token], word: &RawWord) -> Option<i64>
    ensures { result ≡ written_number tokens.now word.now }
{
    match tokens.get(usize::from(word.first)) {
        Some(token) => number_of(token.symbol),
        None => None,
    }
}

fn is_wanted(wanted: Wanted, written: Option<i64>) -> bool
    ensures { result ≡ is_wanted wanted written }
{
    match (wanted, written) {
        (Wanted::Any, _) => true,
        (Wanted::Number(millionths), Some(number)) => number == millionths,
        (Wanted::Number(_), None) => false,
        (Wanted::Reckoned, _) => written.is_none(),
    }
}

fn fits(letter: Letter, wanted: Wanted, tokens: &[Token], word: &RawWord) -> bool
    ensures { result ≡ fits letter wanted tokens.now word.now }
{
    letter_byte(word.letter) == letter_byte(letter)
        && is_wanted(wanted, written_number(tokens, word))
}

fn first_word(line: &Line, letter: Letter, wanted: Wanted) -> Option<RawWord>
    ensures { result ≡ first_word letter wanted (parts_of line.now) }
{
    let tokens = line.tokens.as_slice();
    line.words
        .as_slice()
        .iter()
        .find(|word| fits(letter, wanted, tokens, word))
        .copied()
}

fn code_word(line: &Line, letter: Letter, millionths: i64) -> Option<RawWord>
    ensures { result ≡ option_or (first_word letter (Wanted.Number millionths) (parts_of line.now))
        (first_word letter Wanted.Reckoned (parts_of line.now)) }
{
    match first_word(line, letter, Wanted::Number(millionths)) {
        Some(word) => Some(word),
        None => first_word(line, letter, Wanted::Reckoned),
    }
}

// What a word's number breaks.
#[derive(Clone, Copy)]
enum Limit {
    /// The range of F, S, T, H and P, and on a line with G10 of L and P.
    Range { sets_origin: bool },
    /// The greatest length, 100,000 of either unit.
    Length,
}

fn is_whole_from(low: i64, high: i64, millionths: i64) -> bool
    ensures { result ≡ is_whole_from low high millionths }
{
    millionths.unsigned_abs() % 1_000_000 == 0 && low <= millionths && millionths <= high
}

fn breaks_range(sets_origin: bool, letter: Letter, millionths: i64) -> bool
    ensures { result ≡ breaks_range sets_origin letter millionths }
{
    match letter {
        Letter::F | Letter::S => millionths < 0,
        Letter::T | Letter::H => !is_whole_from(0, 1_000_000_000_000_000, millionths),
        Letter::P => {
            millionths < 0 || (sets_origin && !is_whole_from(1_000_000, 9_000_000, millionths))
        }
        Letter::L => sets_origin && millionths != 2_000_000,
        _ => false,
    }
}

fn breaks_length(letter: Letter, millionths: i64) -> bool
    ensures { result ≡ breaks_length letter millionths }
{
    match letter {
        Letter::X
        | Letter::Y
        | Letter::Z
        | Letter::I
        | Letter::J
        | Letter::K
        | Letter::R
        | Letter::Q => millionths.unsigned_abs() > 100_000_000_000,
        _ => false,
    }
}

fn breaks(limit: Limit, letter: Letter, written: Option<i64>) -> bool
    ensures { result ≡ breaks limit letter written }
{
    match (limit, written) {
        (_, None) => false,
        (Limit::Range { sets_origin }, Some(number)) => breaks_range(sets_origin, letter, number),
        (Limit::Length, Some(number)) => breaks_length(letter, number),
    }
}

fn word_breaks(limit: Limit, tokens: &[Token], word: &RawWord) -> bool
    ensures { result ≡ word_breaks limit tokens.now word.now }
{
    breaks(limit, word.letter, written_number(tokens, word))
}

fn breaking_word(line: &Line, limit: Limit) -> Option<RawWord>
    ensures { result ≡ breaking_word limit (parts_of line.now) }
{
    let tokens = line.tokens.as_slice();
    line.words
        .as_slice()
        .iter()
        .find(|word| word_breaks(limit, tokens, word))
        .copied()
}

fn sets_origin(line: &Line) -> bool
    ensures { result ≡ sets_origin (parts_of line.now) }
{
    first_word(line, Letter::G, Wanted::Number(10_000_000)).is_some()
}

// Returns the word of a tool that isn't in the table, where it must be of this line: H without M6,
// or T with M6 and without H.
fn tool_word(line: &Line) -> Option<RawWord>
    ensures { result ≡ tool_word (parts_of line.now) }
{
    let change = first_word(line, Letter::M, Wanted::Number(6_000_000));
    let length = first_word(line, Letter::H, Wanted::Any);
    match (change, length) {
        (None, length) => length,
        (Some(_), None) => first_word(line, Letter::T, Wanted::Any),
        (Some(_), Some(_)) => None,
    }
}

fn named_word(line: &Line, fault: &Fault) -> Option<RawWord>
    ensures { result ≡ named_word fault.now (parts_of line.now) }
{
    match fault {
        Fault::Modal(ModalFault::OutOfRange) => {
            let sets_origin = sets_origin(line);
            breaking_word(line, Limit::Range { sets_origin })
        }
        Fault::Length(_) => breaking_word(line, Limit::Length),
        Fault::NoSuchTool(_) => tool_word(line),
        Fault::Modal(ModalFault::UnknownCode { letter, millionths }) => {
            code_word(line, *letter, *millionths)
        }
        Fault::Modal(ModalFault::WithoutUse(letter)) => first_word(line, *letter, Wanted::Any),
        _ => None,
    }
}

/// Returns the column, from 1, of the word of a line that a fault names: of a length that is too
/// large (101), an unknown code (204), a word that nothing uses (207), a word that is out of its
/// range (209), and a tool that isn't in the table (222). It is `None` for any other fault, if there
/// is no such word, and if the line's bytes, without its line feed, can't be read.
///
/// An unknown code is the first word of its letter that is written as that number, or else the
/// first whose value has brackets or a parameter (our own). A tool that isn't in the table is
/// named only where it must be that of this line.
pub fn mark_of(bytes: &[u8], fault: &Fault) -> Option<u16>
    ensures { result ≡ mark_of bytes.now fault.now }
{
    match read_line(bytes) {
        Ok(line) => named_word(&line, fault).map(|word| word.column),
        Err(_) => None,
    }
}

fn length<'a>(millionths: &i64) -> Part<'a>
    ensures { part_text result ≡ length_text millionths.now }
{
    Part::Length(*millionths)
}

// A word by its letter and the number as which it is written.
#[derive(Clone, Copy)]
struct WrittenWord {
    letter: Letter,
    millionths: i64,
}

fn as_written(tokens: &[Token], word: &RawWord) -> Option<WrittenWord>
    ensures { result ≡ as_written tokens.now word.now }
{
    match written_number(tokens, word) {
        None => None,
        Some(millionths) => Some(WrittenWord {
            letter: word.letter,
            millionths,
        }),
    }
}

fn written_word(line: &Line, fault: &Fault) -> Option<WrittenWord>
    ensures { result ≡ written_word fault.now (parts_of line.now) }
{
    match named_word(line, fault) {
        None => None,
        Some(word) => as_written(line.tokens.as_slice(), &word),
    }
}

// Returns the word that a fault names, if it is written as a number.
fn written_of(bytes: &[u8], fault: &Fault) -> Option<WrittenWord>
    ensures { result ≡ written_of bytes.now fault.now }
{
    match read_line(bytes) {
        Ok(line) => written_word(&line, fault),
        Err(_) => None,
    }
}

#[tactic(auto, unfolding(crate::specs::Marks::letter_text))]
fn say_unknown<W: Sink>(letter: Letter, millionths: &i64, page: &mut Page, output: &mut W)
    ensures { Says (W.written output.old) (W.written output.new)
        (W.failures output.old) (W.failures output.new) page.old page.new
        (unknown_text letter millionths.now) }
{
    say!(page, output; b"The code ", Part::Text(&[letter_byte(letter)]), length(millionths), b" is unknown.");
}

#[tactic(auto, unfolding(crate::specs::Marks::letter_text))]
fn say_idle<W: Sink>(letter: Letter, page: &mut Page, output: &mut W)
    ensures { Says (W.written output.old) (W.written output.new)
        (W.failures output.old) (W.failures output.new) page.old page.new
        (idle_text letter) }
{
    say!(page, output; b"Nothing uses the word ", Part::Text(&[letter_byte(letter)]), b".");
}

#[tactic(auto, unfolding(crate::specs::Marks::letter_text, crate::specs::Marks::missing_text))]
fn say_missing<W: Sink>(word: MissingWord, page: &mut Page, output: &mut W)
    ensures { Says (W.written output.old) (W.written output.new)
        (W.failures output.old) (W.failures output.new) page.old page.new
        (missing_text word) }
{
    match word {
        MissingWord::Axis => say!(page, output; b"An axis word is missing."),
        MissingWord::Letter(letter) =>
            say!(page, output; b"The word ", Part::Text(&[letter_byte(letter)]), b" is missing."),
    }
}

#[tactic(auto, unfolding(crate::specs::Marks::letter_text))]
fn say_out_of_range<W: Sink>(word: &WrittenWord, page: &mut Page, output: &mut W)
    ensures { Says (W.written output.old) (W.written output.new)
        (W.failures output.old) (W.failures output.new) page.old page.new
        (range_text word.now) }
{
    say!(page, output; Part::Text(&[letter_byte(word.letter)]), length(&word.millionths), b" is out of its range.");
}

#[tactic(auto, unfolding(crate::specs::Marks::letter_text))]
fn say_too_large<W: Sink>(word: &WrittenWord, page: &mut Page, output: &mut W)
    ensures { Says (W.written output.old) (W.written output.new)
        (W.failures output.old) (W.failures output.new) page.old page.new
        (large_text word.now) }
{
    say!(page, output; Part::Text(&[letter_byte(word.letter)]), length(&word.millionths), b" is too large.");
}

fn say_no_feed<W: Sink>(page: &mut Page, output: &mut W)
    ensures { Says (W.written output.old) (W.written output.new)
        (W.failures output.old) (W.failures output.new) page.old page.new
        (codes "No feed above 0 is set for this motion.") }
{
    say!(page, output; b"No feed above 0 is set for this motion.");
}

fn say_no_tool<W: Sink>(tool: u32, page: &mut Page, output: &mut W)
    ensures { Says (W.written output.old) (W.written output.new)
        (W.failures output.old) (W.failures output.new) page.old page.new
        (tool_text tool) }
{
    say!(page, output; b"Tool ", Part::Number(u128::from(tool)), b" isn't in the tool table.");
}

// Says the sentence about a word by its number.
fn say_number_phrase<W: Sink>(fault: &Fault, word: &WrittenWord, page: &mut Page, output: &mut W)
    ensures { Says (W.written output.old) (W.written output.new)
        (W.failures output.old) (W.failures output.new) page.old page.new
        (number_phrase fault.now word.now) }
{
    match fault {
        Fault::Modal(ModalFault::OutOfRange) => say_out_of_range(word, page, output),
        Fault::Length(_) => say_too_large(word, page, output),
        _ => {}
    }
}

fn say_phrase<W: Sink>(fault: &Fault, word: &Option<WrittenWord>, page: &mut Page, output: &mut W)
    ensures { Says (W.written output.old) (W.written output.new)
        (W.failures output.old) (W.failures output.new) page.old page.new
        (phrase fault.now word.now) }
{
    match fault {
        Fault::FeedZero => say_no_feed(page, output),
        Fault::NoSuchTool(tool) => say_no_tool(*tool, page, output),
        Fault::Modal(ModalFault::UnknownCode { letter, millionths }) => {
            say_unknown(*letter, millionths, page, output)
        }
        Fault::Modal(ModalFault::WithoutUse(letter)) => say_idle(*letter, page, output),
        Fault::Modal(ModalFault::WordMissing(word)) => say_missing(*word, page, output),
        _ => match word {
            None => {}
            Some(word) => say_number_phrase(fault, word, page, output),
        },
    }
}

// Returns whether there is a sentence about a fault, by the word that it names.
fn has_phrase(fault: &Fault, word: &Option<WrittenWord>) -> bool
    ensures { result ≡ has_phrase fault.now word.now }
{
    match fault {
        Fault::FeedZero
        | Fault::NoSuchTool(_)
        | Fault::Modal(ModalFault::UnknownCode { .. })
        | Fault::Modal(ModalFault::WithoutUse(_))
        | Fault::Modal(ModalFault::WordMissing(_)) => true,
        Fault::Modal(ModalFault::OutOfRange) | Fault::Length(_) => word.is_some(),
        _ => false,
    }
}

fn say_words<W: Sink>(fault: &Fault, word: &Option<WrittenWord>, page: &mut Page, output: &mut W)
    ensures { Says (W.written output.old) (W.written output.new)
        (W.failures output.old) (W.failures output.new) page.old page.new
        (words_sentence fault.now word.now) }
{
    say_phrase(fault, word, page, output);
    say!(page, output; b"\n");
}

fn say_fact<W: Sink>(fault: &Fault, word: &Option<WrittenWord>, page: &mut Page, output: &mut W)
    ensures { Says (W.written output.old) (W.written output.new)
        (W.failures output.old) (W.failures output.new) page.old page.new
        (fact_sentence fault.now word.now) }
{
    say!(page, output; b",\n{\"fact\":\"reason\",\"text\":\"");
    say_phrase(fault, word, page, output);
    say!(page, output; b"\"}");
}

fn say_content<W: Sink>(
    form: Form,
    fault: &Fault,
    word: &Option<WrittenWord>,
    page: &mut Page,
    output: &mut W,
)
    ensures { Says (W.written output.old) (W.written output.new)
        (W.failures output.old) (W.failures output.new) page.old page.new
        (content_by form fault.now word.now) }
{
    match form {
        Form::Words => say_words(fault, word, page, output),
        Form::Json => say_fact(fault, word, page, output),
    }
}

#[tactic(auto, unfolding(crate::specs::Marks::sentence))]
fn say_sentence<W: Sink>(
    form: Form,
    fault: &Fault,
    word: &Option<WrittenWord>,
    page: &mut Page,
    output: &mut W,
)
    ensures { Says (W.written output.old) (W.written output.new)
        (W.failures output.old) (W.failures output.new) page.old page.new
        (sentence form fault.now word.now) }
{
    if has_phrase(fault, word) {
        say_content(form, fault, word, page, output);
    }
}

#[tactic(auto, unfolding(crate::specs::Marks::mark_if))]
fn say_mark_if<W: Sink>(
    form: Form,
    number: u32,
    column: Option<u16>,
    page: &mut Page,
    output: &mut W,
)
    ensures { Says (W.written output.old) (W.written output.new)
        (W.failures output.old) (W.failures output.new) page.old page.new
        (mark_if form number column) }
{
    match column {
        None => {}
        Some(column) => say_mark(form, number, column, page, output),
    }
}

// Says the word of a line that a fault is about, below the line.
fn say_named<W: Sink>(
    form: Form,
    number: u32,
    bytes: &[u8],
    fault: &Fault,
    page: &mut Page,
    output: &mut W,
)
    ensures { Says (W.written output.old) (W.written output.new)
        (W.failures output.old) (W.failures output.new) page.old page.new
        (named_below form number fault.now (Some bytes.now)) }
{
    say_mark_if(form, number, mark_of(bytes, fault), page, output);
    say_sentence(form, fault, &written_of(bytes, fault), page, output);
}

fn say_named_if<W: Sink>(
    form: Form,
    number: u32,
    bytes: Option<&[u8]>,
    fault: &Fault,
    page: &mut Page,
    output: &mut W,
)
    ensures { Says (W.written output.old) (W.written output.new)
        (W.failures output.old) (W.failures output.new) page.old page.new
        (named_below form number fault.now (option_map (λ b. b.now) bytes.entry)) }
{
    if let Some(bytes) = bytes {
        say_named(form, number, bytes, fault, page, output);
    }
}

/// Writes the word of a line that a fault is about, below what `write_line` writes of that line, by
/// its number in the file, from 1:
///
/// ```text
/// Line 3: G0 G5 X1
///            ^
/// The code G5 is unknown.
/// ```
///
/// The sentence may be `Nothing uses the word K.`, `The word P is missing.`, `An axis word is
/// missing.`, `X200000 is too large.`, `T1.5 is out of its range.`, `Tool 9 isn't in the tool
/// table.` or `No feed above 0 is set for this motion.`; a missing word and a missing feed have no
/// mark. Nothing is written for faults other than 101, 204, 207, 208, 209, 222 and 252, for 101, 209
/// and 222 where no word that is written as a number must be the reason, or if the program has no
/// such line.
///
/// After a fault (902, only if the sink failed) a prefix of the text is written.
pub fn write_named<A: Allocator, W: Sink>(
    form: Form,
    program: &Program<A>,
    number: u32,
    fault: &Fault,
    sink: &mut W,
) -> Result<(), WriteFault>
    ensures ok { OnOk result
        (Appends (W.written sink.old) (W.written sink.new)
        (named_line form number fault.now (text_in program.now).lines)) }
    ensures fault { OnErr result
        (AppendsPrefix (W.written sink.old) (W.written sink.new)
        (named_line form number fault.now (text_in program.now).lines)) }
    ensures counts { CountsFailure (W.failures sink.old) (W.failures sink.new) result }
{
    let mut page = Page::new();
    let bytes = line_bytes(program, number);
    say_named_if(form, number, bytes, fault, &mut page, sink);
    page.finish(sink)
}

fn say_named_quote<W: Sink>(
    form: Form,
    number: u32,
    bytes: Option<&[u8]>,
    fault: &Fault,
    page: &mut Page,
    output: &mut W,
)
    ensures { Says (W.written output.old) (W.written output.new)
        (W.failures output.old) (W.failures output.new) page.old page.new
        (named_quote form number fault.now (option_map (λ b. b.now) bytes.entry)) }
{
    if let Some(bytes) = bytes {
        say_quote(form, number, bytes, page, output);
        say_named(form, number, bytes, fault, page, output);
    }
}

/// Writes a line of a program's text, by its number from 1, and below it the word that the fault is
/// about, as `write_named` does. If there is no such line, nothing is written.
///
/// After a fault (902, only if the sink failed) a prefix of the text is written.
pub fn write_named_source<W: Sink>(
    form: Form,
    text: &[u8],
    number: u32,
    fault: &Fault,
    sink: &mut W,
) -> Result<(), WriteFault>
    ensures ok { OnOk result
        (Appends (W.written sink.old) (W.written sink.new)
        (named_quote form number fault.now (bytes_with number (lines_of text.now)))) }
    ensures fault { OnErr result
        (AppendsPrefix (W.written sink.old) (W.written sink.new)
        (named_quote form number fault.now (bytes_with number (lines_of text.now)))) }
    ensures counts { CountsFailure (W.failures sink.old) (W.failures sink.new) result }
{
    let mut page = Page::new();
    let bytes = source_line(text, number);
    say_named_quote(form, number, bytes, fault, &mut page, sink);
    page.finish(sink)
}
