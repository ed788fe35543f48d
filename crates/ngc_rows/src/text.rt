use crate::directive::Role;
use std::alloc::{AllocError, Global};

/// How the lines of a text are read.
#[derive(Clone, Copy)]
pub enum Spelling {
    /// Unchanged, each with a line feed, repeated this number of times.
    Lines(u32),
    /// With escapes and without line feeds, repeated this number of times.
    Bytes(u32),
    /// As changes of the existing text, `OLD => NEW`.
    Changes,
}

/// A text of a row, or one that rows share.
#[derive(Drop)]
pub struct Text {
    pub role: Role,
    pub name: String,
    pub bytes: Vec<u8>,
    /// The start of the part that is repeated.
    start: usize,
    spelling: Spelling,
}

impl Text {
    /// Returns a text that begins with these bytes.
    pub fn new(
        alloc: Global,
        role: Role,
        name: &str,
        bytes: &[u8],
        spelling: Spelling,
    ) -> Result<Text, AllocError> {
        Ok(Text {
            role,
            name: name.to_string(alloc)?,
            bytes: bytes.to_vec(alloc)?,
            start: bytes.len(),
            spelling,
        })
    }

    /// Returns whether this is the text with that role and name.
    pub fn is(&self, role: Role, name: &str) -> bool {
        self.role == role && self.name.as_str() == name
    }

    /// Repeats the lines since the last directive, and changes how the next ones are read.
    pub fn go_on(&mut self, alloc: Global, spelling: Spelling) -> Result<(), AllocError> {
        let times = match self.spelling {
            Spelling::Lines(times) | Spelling::Bytes(times) => times,
            Spelling::Changes => 1,
        };
        let (_, part) = self
            .bytes
            .as_slice()
            .split_at_checked(self.start)
            .unwrap_or((b"", b""));
        let part = part.to_vec(alloc)?;
        for _ in 1..times {
            self.bytes.extend_from_slice(part.as_slice())?;
        }
        if times == 0 {
            self.bytes.truncate(self.start);
        }
        self.start = self.bytes.len();
        self.spelling = spelling;
        Ok(())
    }

    /// Reads a line of the text, and returns whether it can be read.
    pub fn take(&mut self, alloc: Global, line: &str) -> Result<bool, AllocError> {
        match self.spelling {
            Spelling::Lines(_) => {
                self.bytes.extend_from_slice(line.as_bytes())?;
                self.bytes.push(b'\n')?;
                Ok(true)
            }
            Spelling::Bytes(_) => push_unescaped(&mut self.bytes, line),
            Spelling::Changes => self.change(alloc, line),
        }
    }

    // Replaces a piece that the text has exactly once with another.
    fn change(&mut self, alloc: Global, line: &str) -> Result<bool, AllocError> {
        let Some((old, new)) = line.split_once(" => ") else {
            return Ok(false);
        };
        let mut piece = Vec::new(alloc);
        let mut other = Vec::new(alloc);
        if !push_unescaped(&mut piece, old)? || !push_unescaped(&mut other, new)? {
            return Ok(false);
        }
        let Some((before, after)) = around(self.bytes.as_slice(), piece.as_slice()) else {
            return Ok(false);
        };
        if around(after, piece.as_slice()).is_some() {
            return Ok(false);
        }
        let mut bytes = before.to_vec(alloc)?;
        bytes.extend_from_slice(other.as_slice())?;
        bytes.extend_from_slice(after)?;
        self.bytes = bytes;
        self.start = self.bytes.len();
        Ok(true)
    }
}

/// Returns the text before and after the first occurrence of a piece, if there is one.
pub fn around<'a>(text: &'a [u8], piece: &[u8]) -> Option<(&'a [u8], &'a [u8])> {
    let at = memchr::memmem::find(text, piece)?;
    let (before, rest) = text.split_at_checked(at)?;
    let (_, after) = rest.split_at_checked(piece.len())?;
    Some((before, after))
}

// Adds the bytes of a line with escapes, and returns whether all of them can be read.
fn push_unescaped(bytes: &mut Vec<u8>, line: &str) -> Result<bool, AllocError> {
    let mut rest = line.as_bytes();
    for _ in 0..line.len() {
        let Some((first, others)) = rest.split_first() else {
            break;
        };
        let (byte, others) = if *first == b'\\' {
            match escape(others) {
                Some(found) => found,
                None => return Ok(false),
            }
        } else {
            (*first, others)
        };
        bytes.push(byte)?;
        rest = others;
    }
    Ok(true)
}

// Returns the byte of an escape, and the rest.
fn escape(text: &[u8]) -> Option<(u8, &[u8])> {
    let (letter, rest) = text.split_first()?;
    match letter {
        b'n' => Some((b'\n', rest)),
        b'r' => Some((b'\r', rest)),
        b't' => Some((b'\t', rest)),
        b'\\' => Some((b'\\', rest)),
        b'x' => {
            let (digits, rest) = rest.split_at_checked(2)?;
            let digits = std::str::from_utf8(digits).ok()?;
            Some((u8::from_str_radix(digits, 16).ok()?, rest))
        }
        _ => None,
    }
}
