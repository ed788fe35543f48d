//! The line of a key.
ghost use Rattle.std.specs.Prelude.{◌≡◌, option_map, IfSome};
ghost use Rattle.ngc_file_lines.specs.Search as spec;

use crate::line::{begins, gives, is_header, split_line};

/// A line of a file, and its number from 1.
#[derive(Clone, Copy)]
pub struct FileLine<'a> {
    pub number: usize,
    pub text: &'a [u8],
}

/// The meaning of a line for the search for a key.
#[derive(Clone, Copy)]
pub enum Seek {
    /// The line begins with the key.
    Found,
    /// The table ends here.
    Ended,
    /// The table begins here.
    Entered,
    /// This number of headers still comes, of which the last one opens the table.
    Ahead(u128),
}

fn sought(header: &[u8], key: &[u8], ahead: u128, line: &[u8]) -> Seek
    ensures { result ≡ spec.sought header.now key.now ahead line.now }
{
    if is_header(line) {
        if ahead == 0 {
            Seek::Ended
        } else if begins(header, line) {
            if ahead == 1 {
                Seek::Entered
            } else {
                Seek::Ahead(ahead - 1)
            }
        } else {
            Seek::Ahead(ahead)
        }
    } else if ahead == 0 && gives(key, line) {
        Seek::Found
    } else {
        Seek::Ahead(ahead)
    }
}

fn search<'a>(bytes: &'a [u8], header: &[u8], headers: u128, key: &[u8]) -> Option<FileLine<'a>>
    ensures { option_map spec.numbered result
        ≡ spec.key_line header.now headers key.now bytes.now }
{
    let mut found = None;
    let mut ahead = headers;
    let mut number = 1;
    let mut left = bytes;
    while !left.is_empty() {
        let (text, afterwards) = split_line(left);
        match sought(header, key, ahead, text) {
            Seek::Found => return Some(FileLine { number, text }),
            Seek::Ended => return found,
            Seek::Entered => {
                ahead = 0;
                found = Some(FileLine { number, text });
            }
            Seek::Ahead(still) => ahead = still,
        }
        number += 1;
        left = afterwards;
    }
    found
}

/// Returns the line that begins with a key. The key's table comes after the line of this number that
/// begins with the header; 0 is what is before all tables.
///
/// If no line of the table begins with the key, it returns the line of the header, or `None`.
pub fn key_line<'a>(
    bytes: &'a [u8],
    header: &[u8],
    headers: u128,
    key: &[u8],
) -> Option<FileLine<'a>>
    ensures value { option_map spec.numbered result
        ≡ spec.key_line header.now headers key.now bytes.now }
    ensures begins { IfSome result (λ l. spec.IsOfKey header.now key.now l.text.now) }
{
    search(bytes, header, headers, key)
}
