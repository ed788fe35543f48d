ghost use Rattle.std.specs.Prelude.{◌≡◌, ◌≤◌, ◌++◌, [], length, IfOk, OnOk, map};
ghost use Rattle.ngc_line_reader.specs.ScanLine.{parts_of};
ghost use Rattle.ngc_line_reader.specs.Tokens.{symbols};
ghost use Rattle.ngc_line_reader.specs.Symbols.{kind_of, numbers_of, first_symbol, symbols_from};
ghost use Rattle.ngc_line_reader.specs.Kept.{number_in as number_of_symbol, numbered_words};
ghost use Rattle.ngc_line_reader.specs.Kept.{by_numbers, by_symbols};

use crate::line::{Line, RawSetting, RawWord};
use crate::token::{Operator, Symbol, Token};
use crate::word::Word;
use arrayvec::ArrayVec;
use ngc_fixed_length::Value;
use std::alloc::{AllocError, Allocator};

/// A symbol without its number.
#[derive(Clone, Copy)]
pub enum Kind {
    Number,
    Parameter,
    Open,
    Close,
    Operator(Operator),
}

/// The positions and counts of a line's words, settings, symbols and numbers.
#[derive(Clone, Copy)]
pub struct SymbolParts {
    pub words: u32,
    pub settings: u32,
    pub kinds: u32,
    pub numbers: u32,
    pub kind_count: u16,
    pub number_count: u16,
    pub word_count: u8,
    pub setting_count: u8,
}

/// The position of a line's contents.
#[derive(Clone, Copy)]
pub enum Kept {
    /// The value of each of its words is a number, and it has no setting. Its `count` words begin
    /// at index `first`.
    Numbers { first: u32, count: u8 },
    Symbols(SymbolParts),
}

/// Whether block delete skips a line, and the position of its contents.
#[derive(Clone, Copy)]
pub struct LineParts {
    pub deleted: bool,
    pub kept: Kept,
}

/// The contents of all lines, in order: words whose values are numbers, and for lines with other
/// values their words, settings, symbols and numbers.
#[derive(Drop)]
pub struct PartLists<A: Allocator> {
    numbered: Vec<Word, A>,
    words: Vec<RawWord, A>,
    settings: Vec<RawSetting, A>,
    kinds: Vec<Kind, A>,
    numbers: Vec<Value, A>,
}

// Returns the position after `count` entries.
fn place_after_item(count: usize) -> Result<u32, AllocError>
    ensures { IfOk result (λ place. place ≡ count) }
{
    if count > u32::MAX as usize {
        return Err(AllocError);
    }
    Ok(count as u32)
}

fn kind_in(symbol: Symbol) -> Kind
    ensures { result ≡ kind_of symbol }
{
    match symbol {
        Symbol::Number(_) => Kind::Number,
        Symbol::Parameter => Kind::Parameter,
        Symbol::Open => Kind::Open,
        Symbol::Close => Kind::Close,
        Symbol::Operator(operator) => Kind::Operator(operator),
    }
}

// Adds the kinds of tokens.
fn keep_kinds<A: Allocator>(kinds: &mut Vec<Kind, A>, tokens: &[Token]) -> Result<(), AllocError>
    ensures { OnOk result (kinds.new.items ≡ kinds.old.items ++ map kind_of (symbols tokens.now)) }
{
    for token in tokens {
        if kinds.push(kind_in(token.symbol)).is_err() {
            return Err(AllocError);
        }
    }
    Ok(())
}

// Adds the numbers of tokens.
fn keep_numbers<A: Allocator>(
    numbers: &mut Vec<Value, A>,
    tokens: &[Token],
) -> Result<(), AllocError>
    ensures { OnOk result
        (numbers.new.items ≡ numbers.old.items ++ numbers_of (symbols tokens.now)) }
{
    for token in tokens {
        if let Symbol::Number(value) = token.symbol {
            if numbers.push(value).is_err() {
                return Err(AllocError);
            }
        }
    }
    Ok(())
}

// Returns the symbol of a kind, and the remaining numbers.
fn take_symbol<'a>(kind: Kind, numbers: &'a [Value]) -> (Symbol, &'a [Value])
    ensures { (result.0, result.1.now) ≡ first_symbol kind numbers.now }
{
    match kind {
        Kind::Number => match numbers.split_first() {
            Some((value, rest)) => (Symbol::Number(*value), rest),
            None => (Symbol::Close, numbers),
        },
        Kind::Parameter => (Symbol::Parameter, numbers),
        Kind::Open => (Symbol::Open, numbers),
        Kind::Close => (Symbol::Close, numbers),
        Kind::Operator(operator) => (Symbol::Operator(operator), numbers),
    }
}

// Replaces `tokens` with the tokens of these kinds and numbers; their columns are not stored.
#[tactic(auto, using(crate::proofs::KeptSymbols::pushed_symbols))]
fn load_tokens(kinds: &[Kind], numbers: &[Value], tokens: &mut ArrayVec<Token, 256>)
    requires { length kinds.now ≤ 256 }
    ensures { symbols tokens.new.items ≡ symbols_from kinds.now numbers.now }
{
    tokens.clear();
    let mut rest = numbers;
    for kind in kinds {
        let (symbol, afterwards) = take_symbol(*kind, rest);
        rest = afterwards;
        tokens.push(Token { symbol, column: 0 });
    }
}

// Returns the number of a symbol, or 0.
fn number_in(symbol: Symbol) -> Value
    ensures { result ≡ number_of_symbol symbol }
{
    match symbol {
        Symbol::Number(value) => value,
        _ => Value::zero(),
    }
}

// Adds words with the numbers that are their values.
fn keep_numbered<A: Allocator>(
    numbered: &mut Vec<Word, A>,
    words: &[RawWord],
    tokens: &[Token],
) -> Result<(), AllocError>
    requires { length tokens.now ≡ length words.now }
    ensures { OnOk result
        (numbered.new.items ≡ numbered.old.items ++ numbered_words words.now tokens.now) }
{
    for (index, word) in words.iter().enumerate() {
        let word = Word {
            letter: word.letter,
            value: number_in(tokens[index].symbol),
        };
        if numbered.push(word).is_err() {
            return Err(AllocError);
        }
    }
    Ok(())
}

impl<A: Allocator> PartLists<A> {
    ghost use Rattle.ngc_line_reader.specs.Kept.{parts_in, parts_at, stored_contents, LiesWithin, Keeps};
    ghost use Rattle.ngc_line_reader.specs.Kept.{no_kept, is_numbered, IsWithin, symbols_at};
    ghost use Rattle.ngc_line_reader.specs.Kept.{symbols_kept_of};
    ghost use Rattle.ngc_line_reader.specs.declared.program.parts.Kept.TheVariants as places;

    pub(crate) fn new(alloc: A) -> PartLists<A>
    where
        A: Copy,
        ensures { parts_in result ≡ no_kept }
    {
        PartLists {
            numbered: Vec::new(alloc),
            words: Vec::new(alloc),
            settings: Vec::new(alloc),
            kinds: Vec::new(alloc),
            numbers: Vec::new(alloc),
        }
    }

    // Adds the contents of a line whose values are all numbers.
    fn push_numbered(&mut self, line: &Line) -> Result<Kept, AllocError>
        requires { length line.now.tokens.items ≡ length line.now.words.items }
        ensures kept { OnOk result (Keeps (parts_in self.old) (parts_in self.new)) }
        ensures within { IfOk result (λ k. LiesWithin (parts_in self.new) k) }
        ensures value { IfOk result (λ k. parts_at (parts_in self.new) k
            ≡ by_numbers (numbered_words line.now.words.items line.now.tokens.items)) }
    {
        let first = place_after_item(self.numbered.len())?;
        let view = line.view();
        keep_numbered(&mut self.numbered, view.words, view.tokens)?;
        Ok(Kept::Numbers {
            first,
            count: view.words.len() as u8,
        })
    }

    // Adds the contents of a line as symbols.
    fn push_symbols(&mut self, line: &Line) -> Result<Kept, AllocError>
        ensures kept { OnOk result (Keeps (parts_in self.old) (parts_in self.new)) }
        ensures within { IfOk result (λ k. LiesWithin (parts_in self.new) k) }
        ensures value { IfOk result (λ k. parts_at (parts_in self.new) k
            ≡ by_symbols (symbols_kept_of (parts_of line.now))) }
    {
        let words = place_after_item(self.words.len())?;
        let settings = place_after_item(self.settings.len())?;
        let kinds = place_after_item(self.kinds.len())?;
        let numbers = place_after_item(self.numbers.len())?;
        let view = line.view();
        self.words.extend_from_slice(view.words)?;
        self.settings.extend_from_slice(view.settings)?;
        keep_kinds(&mut self.kinds, view.tokens)?;
        keep_numbers(&mut self.numbers, view.tokens)?;
        Ok(Kept::Symbols(SymbolParts {
            words,
            settings,
            kinds,
            numbers,
            kind_count: view.tokens.len() as u16,
            number_count: (self.numbers.len() - numbers as usize) as u16,
            word_count: view.words.len() as u8,
            setting_count: view.settings.len() as u8,
        }))
    }

    // Adds the contents of a line.
    pub(crate) fn push(&mut self, line: &Line) -> Result<Kept, AllocError>
        ensures kept { OnOk result (Keeps (parts_in self.old) (parts_in self.new)) }
        ensures within { IfOk result (λ k. LiesWithin (parts_in self.new) k) }
        ensures value { IfOk result
            (λ k. parts_at (parts_in self.new) k ≡ stored_contents (parts_of line.now)) }
    {
        if line.settings.is_empty() && line.tokens.len() == line.words.len() {
            self.push_numbered(line)
        } else {
            self.push_symbols(line)
        }
    }

    // Returns words with the numbers that are their values.
    pub(crate) fn numbered(&self, first: u32, count: u8) -> &[Word]
        requires { LiesWithin (parts_in self.now) (places.Numbers first count) }
        ensures { parts_at (parts_in self.now) (places.Numbers first count) ≡ by_numbers result.now }
    {
        let first = first as usize;
        &self.numbered[first..first + count as usize]
    }

    // Loads the contents of a line from its symbols into `line`, except its number and whether
    // block delete skips it; the columns of its tokens are not stored.
    pub(crate) fn load(&self, parts: SymbolParts, line: &mut Line)
        requires { IsWithin (parts_in self.now) parts }
        ensures words { line.new.words.items ≡ (symbols_at (parts_in self.now) parts).words }
        ensures settings { line.new.settings.items
            ≡ (symbols_at (parts_in self.now) parts).settings }
        ensures symbols { symbols line.new.tokens.items
            ≡ symbols_from (symbols_at (parts_in self.now) parts).kinds
            (symbols_at (parts_in self.now) parts).numbers }
    {
        let words = parts.words as usize;
        let settings = parts.settings as usize;
        let kinds = parts.kinds as usize;
        let numbers = parts.numbers as usize;
        line.words.clear();
        let _ = line
            .words
            .try_extend_from_slice(&self.words[words..words + parts.word_count as usize]);
        line.settings.clear();
        let _ = line.settings.try_extend_from_slice(
            &self.settings[settings..settings + parts.setting_count as usize],
        );
        load_tokens(
            &self.kinds[kinds..kinds + parts.kind_count as usize],
            &self.numbers[numbers..numbers + parts.number_count as usize],
            &mut line.tokens,
        );
    }
}
