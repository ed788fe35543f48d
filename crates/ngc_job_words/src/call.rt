//! The words of a call without `--job FILE`, and with the program as an option.
ghost use Rattle.std.specs.Prelude.{◌≡◌, IfOk, Ok, OnOk, map, option_map};
ghost use Rattle.ngc_machine_figures.specs.Reading.{ok_map};
ghost use Rattle.ngc_job_words.specs.Asked as spec;
ghost use Rattle.ngc_job_words.specs.Seen as parts;
ghost use Rattle.ngc_job_words.specs.Seen.{words_in};

use crate::command::{Family, family_of};
use crate::values::values_of;
use crate::word::{has, is_plain, takes_value, value_in};
use std::alloc::{AllocError, Global};

/// What a call asks for.
#[derive(Drop)]
pub struct Asked<'a> {
    /// The words without `--job`, and with `--program` before a plain word.
    pub words: Vec<&'a str>,
    /// The file of `--job`.
    pub job: Option<&'a str>,
    /// The part program, unless it is standard input.
    pub program: Option<&'a str>,
}

/// The reason why the words are refused.
#[derive(Clone, Copy, Debug, PartialEq, Eq)]
pub enum AskedFault {
    /// `--job` is there twice.
    Twice,
    /// `--job` has no file, or an empty name.
    NoFile,
    /// Memory ran out.
    Memory,
}

impl AskedFault {
    /// Returns the text of the fault, as one for the other options, with its last line feed.
    pub fn text(self) -> &'static str
        ensures { result.now ≡ spec.fault_text self }
    {
        match self {
            AskedFault::Twice =>
                "error: the argument '--job <FILE>' cannot be used multiple times\n\nFor more information, try '--help'.\n",
            AskedFault::NoFile =>
                "error: a value is required for '--job <FILE>' but none was supplied\n\nFor more information, try '--help'.\n",
            AskedFault::Memory => "ngc: fault 900\n",
        }
    }
}

/// What the next word is.
#[derive(Clone, Copy)]
pub enum Next {
    Any,
    /// The value of the option before it.
    Value,
    /// The file of `--job`.
    File,
}

// What was read of the words so far.
#[derive(Drop)]
struct Seen<'a> {
    words: Vec<&'a str>,
    named: Vec<&'a str>,
    plain: Vec<&'a str>,
    files: Vec<&'a str>,
    next: Next,
}

fn keep<'a>(seen: &mut Seen<'a>, word: &'a str, next: Next) -> Result<(), AllocError>
    ensures { OnOk result (words_in seen.new ≡ parts.kept (words_in seen.old) word.entry.now next) }
{
    seen.words.push(word)?;
    seen.named.push(word)?;
    seen.next = next;
    Ok(())
}

fn keep_plain<'a>(seen: &mut Seen<'a>, word: &'a str) -> Result<(), AllocError>
    ensures { OnOk result (words_in seen.new ≡ parts.with_plain (words_in seen.old) word.entry.now) }
{
    seen.words.push(word)?;
    seen.named.push("--program")?;
    seen.named.push(word)?;
    seen.plain.push(word)?;
    seen.next = Next::Any;
    Ok(())
}

fn add_file<'a>(seen: &mut Seen<'a>, file: &'a str) -> Result<(), AllocError>
    ensures { OnOk result (words_in seen.new ≡ parts.with_file (words_in seen.old) file.entry.now) }
{
    seen.files.push(file)?;
    seen.next = Next::Any;
    Ok(())
}

fn next_after(word: &str) -> Next
    ensures { result ≡ parts.next_after word.now }
{
    if takes_value(word) {
        Next::Value
    } else {
        Next::Any
    }
}

// Reads a word that isn't the value of the one before it.
fn see_any<'a>(seen: &mut Seen<'a>, word: &'a str) -> Result<(), AllocError>
    ensures { OnOk result (words_in seen.new ≡ parts.with_any (words_in seen.old) word.entry.now) }
{
    if word == "--job" {
        seen.next = Next::File;
        return Ok(());
    }
    if let Some(file) = value_in("--job", word) {
        return add_file(seen, file);
    }
    if is_plain(word) {
        return keep_plain(seen, word);
    }
    keep(seen, word, next_after(word))
}

fn see<'a>(seen: &mut Seen<'a>, word: &'a str) -> Result<(), AllocError>
    ensures { OnOk result (words_in seen.new ≡ parts.with_word (words_in seen.old) word.entry.now) }
{
    match seen.next {
        Next::Any => see_any(seen, word),
        Next::Value => keep(seen, word, Next::Any),
        Next::File => add_file(seen, word),
    }
}

fn see_first<'a>(alloc: Global, command: &'a str) -> Result<Seen<'a>, AllocError>
    ensures { IfOk result (λ seen. words_in seen ≡ parts.begun command.entry.now) }
{
    let mut seen = Seen {
        words: Vec::new(alloc),
        named: Vec::new(alloc),
        plain: Vec::new(alloc),
        files: Vec::new(alloc),
        next: Next::Any,
    };
    keep(&mut seen, command, Next::Any)?;
    Ok(seen)
}

// Reads the words after the command.
fn see_all<'a>(alloc: Global, command: &'a str, rest: &[&'a str]) -> Result<Seen<'a>, AllocError>
    ensures { IfOk result (λ seen. words_in seen ≡ parts.seen_of command.entry.now (map (λ w. w.now) rest.now)) }
{
    let mut seen = see_first(alloc, command)?;
    for word in rest {
        see(&mut seen, word)?;
    }
    Ok(seen)
}

fn is_one(plain: &[&str]) -> bool
    ensures { result ≡ spec.is_one (map (λ w. w.now) plain.now) }
{
    match plain {
        [_] => true,
        _ => false,
    }
}

// Returns whether the plain word is the program.
fn is_program(family: Family, seen: &Seen<'_>) -> bool
    ensures { result ≡ parts.is_program family (words_in seen.now) }
{
    family.has_program()
        && is_one(seen.plain.as_slice())
        && !has("--program", seen.words.as_slice())
}

fn words_asked<'a>(family: Family, seen: Seen<'a>) -> Vec<&'a str>
    ensures { map (λ w. w.now) result.items ≡ parts.words_asked family (words_in seen.entry) }
{
    if is_program(family, &seen) {
        seen.named
    } else {
        seen.words
    }
}

// Returns whether the file of `--job` is still to come.
fn wants_file(next: Next) -> bool
    ensures { result ≡ parts.wants_file next }
{
    match next {
        Next::File => true,
        _ => false,
    }
}

// Returns the file that `--job` names.
fn file_of<'a>(files: &[&'a str], lacks_file: bool) -> Result<Option<&'a str>, AskedFault>
    ensures { ok_map (option_map (λ f. f.now)) result ≡ spec.file_by lacks_file (map (λ w. w.now) files.now) }
{
    match (lacks_file, files) {
        (true, _) => Err(AskedFault::NoFile),
        (_, []) => Ok(None),
        (_, [file]) => if file.is_empty() {
            Err(AskedFault::NoFile)
        } else {
            Ok(Some(*file))
        },
        _ => Err(AskedFault::Twice),
    }
}

fn first<'a>(values: &[&'a str]) -> Option<&'a str>
    ensures { option_map (λ v. v.now) result ≡ spec.first_of (map (λ v. v.now) values.now) }
{
    match values {
        [] => None,
        [value, ..] => Some(*value),
    }
}

fn program_in<'a>(alloc: Global, words: &[&'a str]) -> Result<Option<&'a str>, AllocError>
    ensures { IfOk result (λ program. option_map (λ p. p.now) program
        ≡ spec.program_in (map (λ w. w.now) words.now)) }
{
    let values = values_of(alloc, "--program", words)?;
    Ok(first(values.as_slice()))
}

fn asked_by<'a>(
    alloc: Global,
    family: Family,
    command: &'a str,
    rest: &[&'a str],
) -> Result<Asked<'a>, AskedFault>
    ensures { spec.AskedIs result (spec.asked_with
        (spec.words_for family command.entry.now (map (λ w. w.now) rest.now))
        (spec.file_asked (map (λ w. w.now) rest.now))) }
{
    let seen = match see_all(alloc, command, rest) {
        Ok(seen) => seen,
        Err(_) => return Err(AskedFault::Memory),
    };
    let job = file_of(seen.files.as_slice(), wants_file(seen.next))?;
    let words = words_asked(family, seen);
    match program_in(alloc, words.as_slice()) {
        Ok(program) => Ok(Asked {
            words,
            job,
            program,
        }),
        Err(_) => Err(AskedFault::Memory),
    }
}

fn unasked<'a>(alloc: Global, all: &[&'a str]) -> Result<Asked<'a>, AskedFault>
    ensures { spec.AskedIs result (Ok (spec.unasked (map (λ w. w.now) all.now))) }
{
    match Vec::from_slice(alloc, all) {
        Ok(words) => Ok(Asked {
            words,
            job: None,
            program: None,
        }),
        Err(_) => Err(AskedFault::Memory),
    }
}

/// Separates `--job FILE` or `--job=FILE`, which may stand anywhere after the command, from the words,
/// and writes `--program` before the only plain word of a command that reads a program. `--job` is
/// refused if it is there twice, or without a file or with an empty name. The words of a command that
/// no job file changes stay as they are.
#[tactic(auto, unfolding(crate::specs::Asked::asked_of))]
pub fn read_call<'a>(alloc: Global, all: &[&'a str]) -> Result<Asked<'a>, AskedFault>
    ensures { spec.AskedIs result (spec.asked_of (map (λ w. w.now) all.now)) }
{
    let family = family_of(all);
    match all {
        [command, rest @ ..] if !family.is_other() => asked_by(alloc, family, command, rest),
        _ => unasked(alloc, all),
    }
}
