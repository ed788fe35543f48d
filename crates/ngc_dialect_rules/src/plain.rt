//! Plain lines of our own language.
ghost use Rattle.std.specs.Prelude.{◌≡◌, ◌+◌, ◌*◌, ◌<◌, ◌≤◌, pos};
ghost use Rattle.arrayvec.specs.ArrayVec.{array_vec_len};
ghost use Rattle.ngc_dialect_rules.specs.Plain as spec;

use crate::code::Code;
use crate::length::{is_exact, written_in};
use crate::plan::Action;
use arrayvec::ArrayVec;
use ngc_fixed_length::{Nm, Units, Value};
use ngc_line_reader::{Letter, Word};

/// A part of plain lines: a word, or the end of a line.
#[derive(Clone, Copy)]
pub enum Plain {
    Word(Word),
    End,
}

impl Default for Plain {
    ghost use Rattle.ngc_dialect_rules.specs.declared.plain.Plain.TheVariants.{End};

    ghost is_default = { λ p. p ≡ End };

    fn default() -> Plain {
        Plain::End
    }
}

/// The plain lines of a line.
pub type PlainLines = ArrayVec<Plain, 64>;

// Returns a small number of millionths as a value.
fn small_value(millionths: u64) -> Value
    requires { millionths ≤ 1000000000000000 }
    ensures { result ≡ pos millionths }
{
    match Value::from_millionths(i128::from(millionths)) {
        Ok(value) => value,
        Err(_) => Value::zero(),
    }
}

/// Returns the word of a code.
pub fn code_word(code: Code) -> Word
    ensures { result ≡ spec.code_word code }
{
    match code {
        Code::G(tenths) => Word {
            letter: Letter::G,
            value: small_value(u64::from(tenths) * 100_000),
        },
        Code::M(number) => Word {
            letter: Letter::M,
            value: small_value(u64::from(number) * 1_000_000),
        },
    }
}

/// Returns the word of a code, if there is one.
pub(crate) fn a_code(code: Option<Code>) -> Option<Word>
    ensures { result ≡ spec.a_code code }
{
    match code {
        Some(code) => Some(code_word(code)),
        None => None,
    }
}

/// Returns a letter's word, if there is one.
pub(crate) fn a_word(letter: Letter, value: Option<Value>) -> Option<Word>
    ensures { result ≡ spec.a_word letter value }
{
    match value {
        Some(value) => Some(Word { letter, value }),
        None => None,
    }
}

/// Adds a word, if there is one.
#[tactic(auto, unfolding(crate::specs::Plain::with_word))]
pub(crate) fn add(lines: &mut PlainLines, word: Option<Word>)
    requires { array_vec_len lines.old < 64 }
    ensures items { lines.new.items ≡ spec.with_word word lines.old.items }
    ensures room { array_vec_len lines.new ≤ array_vec_len lines.old + 1 }
{
    if let Some(word) = word {
        lines.push(Plain::Word(word));
    }
}

// Returns whether the last line isn't ended.
fn is_open(lines: &[Plain]) -> bool
    ensures { result ≡ spec.is_open lines.now }
{
    matches!(lines.last(), Some(Plain::Word(_)))
}

/// Ends the last line, if it has words.
#[tactic(auto, unfolding(crate::specs::Plain::ended))]
pub fn end_line(lines: &mut PlainLines)
    requires { array_vec_len lines.old < 64 }
    ensures items { lines.new.items ≡ spec.ended lines.old.items }
    ensures room { array_vec_len lines.new ≤ array_vec_len lines.old + 1 }
{
    if is_open(lines.as_slice()) {
        lines.push(Plain::End);
    }
}

fn axis_word(units: Units, letter: Letter, length: Option<Nm>) -> Option<Word>
    ensures { result ≡ spec.axis_word units letter length }
{
    match length {
        None => None,
        Some(length) => a_word(letter, written_in(units, length)),
    }
}

fn machine_place(is_machine: bool) -> Option<Code>
    ensures { result ≡ spec.machine_place is_machine }
{
    if is_machine { Some(Code::G(530)) } else { None }
}

fn add_action_words(lines: &mut PlainLines, units: Units, action: &Action)
    requires { array_vec_len lines.old ≤ 53 }
    ensures items { lines.new.items
        ≡ spec.with_words (spec.action_words units action.now) lines.old.items }
    ensures room { array_vec_len lines.new ≤ array_vec_len lines.old + 11 }
{
    add(lines, a_code(machine_place(action.is_machine)));
    add(lines, a_code(action.code));
    add(lines, a_word(Letter::L, action.l));
    add(lines, a_word(Letter::P, action.p));
    add(lines, axis_word(units, Letter::X, action.axes.x));
    add(lines, axis_word(units, Letter::Y, action.axes.y));
    add(lines, axis_word(units, Letter::Z, action.axes.z));
    add(lines, axis_word(units, Letter::I, action.centre.x));
    add(lines, axis_word(units, Letter::J, action.centre.y));
    add(lines, axis_word(units, Letter::K, action.centre.z));
    add(lines, a_word(Letter::F, action.f));
}

/// Adds an action's words and ends the line. If inches can't write a length, the line is in
/// millimetres, and a line with G20 follows.
#[tactic(auto, unfolding(crate::specs::Plain::with_action))]
pub fn add_action(lines: &mut PlainLines, units: Units, action: &Action)
    requires { array_vec_len lines.old ≤ 48 }
    ensures items { lines.new.items ≡ spec.with_action units action.now lines.old.items }
    ensures room { array_vec_len lines.new ≤ array_vec_len lines.old + 16 }
{
    if is_exact(units, &action.axes) && is_exact(units, &action.centre) {
        add_action_words(lines, units, action);
        end_line(lines);
        return;
    }
    end_line(lines);
    add(lines, Some(code_word(Code::G(210))));
    add_action_words(lines, Units::Millimetres, action);
    end_line(lines);
    add(lines, Some(code_word(Code::G(200))));
    end_line(lines);
}
