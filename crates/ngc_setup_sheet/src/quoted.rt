//! The line of a file that has a key.
ghost use Rattle.std.specs.Prelude.{◌≡◌, ◌+◌, ◌≤◌, ◌++◌, length};
ghost use Rattle.ngc_text.specs.Collected.{CHUNK_SIZE};
ghost use Rattle.ngc_setup_sheet.specs.Quoted.{line_of, rest_after_line, lines_of, unindented};
ghost use Rattle.ngc_setup_sheet.specs.Quoted.{ends_key, begins, gives, sought, quote_from};
ghost use Rattle.ngc_setup_sheet.specs.Quoted.{header_text, headers, quote_of};

use crate::mistake::Section;
use ngc_text::Chunk;

/// Returns the first line and the bytes after it.
fn split_line(bytes: &[u8]) -> (&[u8], &[u8])
    ensures line { result.0.now ≡ line_of bytes.now }
    ensures afterwards { result.1.now ≡ rest_after_line bytes.now }
{
    for (i, byte) in bytes.iter().enumerate() {
        if *byte == b'\n' {
            return (&bytes[..i], &bytes[i + 1..]);
        }
    }
    (bytes, &[])
}

fn unindented(line: &[u8]) -> &[u8]
    ensures { result.now ≡ unindented line.now }
{
    for (i, byte) in line.iter().enumerate() {
        if *byte != b' ' && *byte != b'\t' {
            return &line[i..];
        }
    }
    &[]
}

fn ends_key(afterwards: &[u8]) -> bool
    ensures { result ≡ ends_key afterwards.now }
{
    match afterwards {
        [byte, ..] => *byte == b' ' || *byte == b'\t' || *byte == b'=',
        [] => false,
    }
}

fn begins(word: &[u8], line: &[u8]) -> bool
    ensures { result ≡ begins word.now line.now }
{
    unindented(line).starts_with(word)
}

fn gives(key: &[u8], line: &[u8]) -> bool
    ensures { result ≡ gives key.now line.now }
{
    let line = unindented(line);
    line.starts_with(key) && ends_key(&line[key.len()..])
}

/// The meaning of a line for the search for a key.
#[derive(Clone, Copy)]
pub enum Seek {
    Found,
    /// The table ends here.
    Ended,
    /// This number of headers still comes before the table.
    Ahead(u128),
}

fn sought(header: &[u8], key: &[u8], ahead: u128, line: &[u8]) -> Seek
    ensures { result ≡ sought header.now key.now ahead line.now }
{
    if begins(header, line) {
        if ahead == 0 {
            Seek::Ended
        } else {
            Seek::Ahead(ahead - 1)
        }
    } else if ahead == 0 && gives(key, line) {
        Seek::Found
    } else {
        Seek::Ahead(ahead)
    }
}

fn add_quote_from(chunk: &mut Chunk, header: &[u8], key: &[u8], headers: u128, bytes: &[u8])
    requires { length chunk.old + 400 ≤ CHUNK_SIZE }
    ensures { chunk.new ≡ chunk.old ++ quote_from header.now key.now headers 1
        (lines_of bytes.now) }
{
    let mut ahead = headers;
    let mut number = 1;
    let mut left = bytes;
    while !left.is_empty() {
        let (line, afterwards) = split_line(left);
        match sought(header, key, ahead, line) {
            Seek::Found => return chunk.add_line(number, line),
            Seek::Ended => return,
            Seek::Ahead(still) => ahead = still,
        }
        number += 1;
        left = afterwards;
    }
}

fn header(section: Section) -> &'static [u8]
    ensures { result.now ≡ header_text section }
{
    match section {
        Section::Machine | Section::FirstFixture(_) | Section::SecondFixture(_) => b"[[fixture]]",
        Section::Tools | Section::FirstTool(_) | Section::SecondTool(_) => b"[[tool]]",
    }
}

fn headers(section: Section) -> u128
    ensures { result ≡ headers section }
{
    match section {
        Section::Machine | Section::Tools => 0,
        Section::FirstFixture(number)
        | Section::SecondFixture(number)
        | Section::FirstTool(number)
        | Section::SecondTool(number) => number as u128 + 1,
    }
}

/// Adds the line in which a section has a key, if there is one.
pub(crate) fn add_quote(chunk: &mut Chunk, section: Section, key: &[u8], bytes: &[u8])
    requires { length chunk.old + 400 ≤ CHUNK_SIZE }
    ensures { chunk.new ≡ chunk.old ++ quote_of section key.now bytes.now }
{
    add_quote_from(chunk, header(section), key, headers(section), bytes);
}
