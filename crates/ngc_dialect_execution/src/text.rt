//! The lines of a text, and the percent signs that begin and end a program.
ghost use Rattle.std.specs.Prelude.{◌≡◌, ◌≤◌, ◌<◌, ◌∷◌, length};
ghost use Rattle.ngc_line_reader.specs.Program.{split_lines};
ghost use Rattle.ngc_dialect_execution.specs.Text as spec;

use memchr::memchr;
use ngc_dialect_names::Dialect;

/// What a line is to its text: the percent sign that begins the program, the one that ends it, or a
/// line of the program.
#[derive(Clone, Copy)]
pub(crate) enum Mark {
    Begins,
    Ends,
    IsLine,
}

/// What the lines before a line were: how many there are, whether any had something on it,
/// and whether the first such line was a percent sign.
#[derive(Clone, Copy)]
pub(crate) struct LinesBefore {
    pub(crate) count: usize,
    pub(crate) begun: bool,
    pub(crate) marked: bool,
}

/// Returns the first line of a text, and what follows its line feed.
pub(crate) fn first_line(text: &[u8]) -> (&[u8], &[u8])
    requires { 1 ≤ length text.now }
    ensures lines { split_lines text.now ≡ result.0.now ∷ split_lines result.1.now }
    ensures shorter { length result.1.now < length text.now }
{
    match memchr(b'\n', text) {
        Some(end) => (&text[..end], &text[end + 1..]),
        None => (text, &text[text.len()..]),
    }
}

// Returns the first byte of a line that isn't white space.
fn first_byte(bytes: &[u8]) -> Option<u8>
    ensures { result ≡ spec.first_byte bytes.now }
{
    bytes.iter().copied().find(|byte| !is_blank(*byte))
}

fn is_blank(byte: u8) -> bool
    ensures { result ≡ spec.is_blank byte }
{
    byte == b' ' || byte == b'\t' || byte == b'\r'
}

fn begins_with_slash(bytes: &[u8]) -> bool
    ensures { result ≡ spec.begins_with_slash bytes.now }
{
    match first_byte(bytes) {
        None => false,
        Some(byte) => byte == b'/',
    }
}

/// Returns whether a line of a text begins with `/`, so that block delete leaves it out.
pub fn has_deleted_lines(text: &[u8]) -> bool
    ensures { result ≡ spec.has_deleted text.now }
{
    let mut rest = text;
    while !rest.is_empty() {
        let (bytes, after) = first_line(rest);
        if begins_with_slash(bytes) {
            return true;
        }
        rest = after;
    }
    false
}

impl Mark {
    /// Returns whether the line ends the program.
    pub(crate) fn is_end(self) -> bool
        ensures { result ≡ spec.is_end self }
    {
        match self {
            Mark::Begins | Mark::IsLine => false,
            Mark::Ends => true,
        }
    }
}

fn ends_unmarked(dialect: Dialect) -> bool
    ensures { result ≡ spec.ends_unmarked dialect }
{
    match dialect {
        Dialect::LinuxCnc => false,
        Dialect::Grbl | Dialect::Mach3 | Dialect::Fanuc => true,
    }
}

impl LinesBefore {
    /// Returns what is known before the first line.
    pub(crate) fn none() -> LinesBefore
        ensures { result ≡ spec.no_lines }
    {
        LinesBefore {
            count: 0,
            begun: false,
            marked: false,
        }
    }

    // Returns what a line is.
    fn mark(&self, dialect: Dialect, first: Option<u8>) -> Mark
        ensures { result ≡ spec.mark_of self.now dialect first }
    {
        match first {
            Some(b'%') => {
                if !self.begun {
                    Mark::Begins
                } else if self.marked || ends_unmarked(dialect) {
                    Mark::Ends
                } else {
                    Mark::IsLine
                }
            }
            _ => Mark::IsLine,
        }
    }

    // Returns what is known after a line.
    fn after(&self, first: Option<u8>) -> LinesBefore
        ensures { result ≡ spec.lines_after self.now first }
    {
        let count = self.count.saturating_add(1);
        match first {
            None => LinesBefore { count, ..*self },
            Some(byte) => LinesBefore {
                count,
                begun: true,
                marked: self.marked || (byte == b'%' && !self.begun),
            },
        }
    }

    /// Goes to the next line, and returns what it is.
    pub(crate) fn pass(&mut self, dialect: Dialect, bytes: &[u8]) -> Mark
        ensures mark { result ≡ spec.mark_of self.old dialect (spec.first_byte bytes.now) }
        ensures after { self.new ≡ spec.lines_after self.old (spec.first_byte bytes.now) }
    {
        let first = first_byte(bytes);
        let mark = self.mark(dialect, first);
        *self = self.after(first);
        mark
    }
}

/// Returns the number of the last of `count` lines, 1 if there is none.
pub(crate) fn number_of(count: usize) -> u32
    ensures { result ≡ spec.number_of count }
{
    if count == 0 {
        1
    } else if count < 4_294_967_295 {
        count as u32
    } else {
        u32::MAX
    }
}
