//! The words of a command line.
ghost use Rattle.std.specs.Prelude.{◌≡◌, ◌++◌, ◌∷◌, [], IfOk, OnOk, false, map, option_map};
ghost use Rattle.ngc_output_words.specs.Words.{IsFile, adapt_words, command_words, is_adapt, with_word, words_of};
ghost use Rattle.ngc_output_words.specs.Seen.{words_in};

use std::alloc::{AllocError, Global};

/// The words of a command line that `read_options` reads, and the file for the output.
#[derive(Drop)]
pub struct CallWords<'a> {
    pub words: Vec<&'a str>,
    /// The file of `--out`.
    pub out: Option<&'a str>,
}

/// The reason why the words are refused.
#[derive(Clone, Copy, Debug, PartialEq, Eq)]
pub enum WordsFault {
    /// `--out` is there twice.
    Twice,
    /// `--out` has no file, or an empty name.
    NoFile,
    /// Memory ran out.
    Memory,
}

impl WordsFault {
    /// Returns the text of the fault, as one for the other options, with its last line feed.
    pub fn text(self) -> &'static str {
        match self {
            WordsFault::Twice =>
                "error: the argument '--out <FILE>' cannot be used multiple times\n\nFor more information, try '--help'.\n",
            WordsFault::NoFile =>
                "error: a value is required for '--out <FILE>' but none was supplied\n\nFor more information, try '--help'.\n",
            WordsFault::Memory => "ngc: fault 900\n",
        }
    }

    /// Returns the exit status: 2 for the words, and 1 for memory.
    pub fn status(self) -> u8 {
        match self {
            WordsFault::Twice | WordsFault::NoFile => 2,
            WordsFault::Memory => 1,
        }
    }
}

// What was read of the words so far.
#[derive(Drop)]
struct Seen<'a> {
    rest: Vec<&'a str>,
    files: Vec<&'a str>,
    is_open: bool,
}

fn is_adapt(words: &[&str]) -> bool
    ensures { result ≡ is_adapt (map (λ w. w.now) words.now) }
{
    match words {
        [] => false,
        [command, ..] => *command == "adapt",
    }
}

// Adds a word of `ngc adapt`, which knows `--dialect` as `--from`.
fn add_adapt_word<'a>(words: &mut Vec<&'a str>, word: &'a str) -> Result<(), AllocError>
    ensures { OnOk result (map (λ w. w.now) words.new.items
        ≡ map (λ w. w.now) words.old.items ++ adapt_words word.entry.now) }
{
    if word == "--dialect" {
        words.push("--from")?;
        return Ok(());
    }
    match word.strip_prefix("--dialect=") {
        Some(name) => {
            words.push("--from")?;
            words.push(name)?;
        }
        None => words.push(word)?,
    }
    Ok(())
}

// Adds a word for the command.
fn add_word<'a>(words: &mut Vec<&'a str>, word: &'a str) -> Result<(), AllocError>
    ensures { OnOk result (map (λ w. w.now) words.new.items
        ≡ map (λ w. w.now) words.old.items ++ command_words (map (λ w. w.now) words.old.items) word.entry.now) }
{
    if is_adapt(words.as_slice()) {
        return add_adapt_word(words, word);
    }
    words.push(word)?;
    Ok(())
}

// Reads the next word, which isn't the file of `--out` before it.
fn see_word<'a>(seen: &mut Seen<'a>, word: &'a str) -> Result<(), AllocError>
    requires { seen.old.is_open ≡ false }
    ensures { OnOk result (words_in seen.new ≡ with_word (words_in seen.old) word.entry.now) }
{
    if word == "--out" {
        seen.is_open = true;
        return Ok(());
    }
    if let Some(file) = word.strip_prefix("--out=") {
        seen.files.push(file)?;
        return Ok(());
    }
    add_word(&mut seen.rest, word)
}

// Reads the next word.
fn see<'a>(seen: &mut Seen<'a>, word: &'a str) -> Result<(), AllocError>
    ensures { OnOk result (words_in seen.new ≡ with_word (words_in seen.old) word.entry.now) }
{
    if !seen.is_open {
        return see_word(seen, word);
    }
    seen.files.push(word)?;
    seen.is_open = false;
    Ok(())
}

// Reads all words.
fn see_all<'a>(alloc: Global, all: &[&'a str]) -> Result<Seen<'a>, AllocError>
    ensures { IfOk result (λ seen. words_in seen ≡ words_of (map (λ w. w.now) all.now)) }
{
    let mut seen = Seen {
        rest: Vec::new(alloc),
        files: Vec::new(alloc),
        is_open: false,
    };
    for word in all {
        see(&mut seen, word)?;
    }
    Ok(seen)
}

// Returns the file that `--out` names.
fn file_of<'a>(files: &[&'a str]) -> Result<Option<&'a str>, WordsFault>
    ensures { IfOk result (λ file. IsFile (map (λ w. w.now) files.now) (option_map (λ f. f.now) file)) }
{
    match files {
        [] => Ok(None),
        [file] => if file.is_empty() {
            Err(WordsFault::NoFile)
        } else {
            Ok(Some(*file))
        },
        _ => Err(WordsFault::Twice),
    }
}

/// Separates `--out FILE` or `--out=FILE`, which may stand anywhere, from the words for `read_options`. It is
/// refused if it is there twice, or without a file or with an empty name. In the words of `ngc adapt` it replaces
/// `--dialect` with `--from`.
pub fn call_words<'a>(alloc: Global, all: &[&'a str]) -> Result<CallWords<'a>, WordsFault>
    ensures words { IfOk result (λ call.
        map (λ w. w.now) call.words.items ≡ (words_of (map (λ w. w.now) all.now)).rest) }
    ensures out { IfOk result (λ call.
        IsFile (words_of (map (λ w. w.now) all.now)).files (option_map (λ f. f.now) call.out)) }
    ensures whole { OnOk result ((words_of (map (λ w. w.now) all.now)).is_open ≡ false) }
{
    let seen = match see_all(alloc, all) {
        Ok(seen) => seen,
        Err(_) => return Err(WordsFault::Memory),
    };
    if seen.is_open {
        return Err(WordsFault::NoFile);
    }
    match file_of(seen.files.as_slice()) {
        Ok(out) => Ok(CallWords {
            words: seen.rest,
            out,
        }),
        Err(fault) => Err(fault),
    }
}
