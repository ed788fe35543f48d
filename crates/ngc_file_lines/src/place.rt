//! The line of a byte.
ghost use Rattle.std.specs.Prelude.{◌≡◌};
ghost use Rattle.ngc_file_lines.specs.Places as spec;

use crate::line::split_line;
use crate::search::FileLine;

/// A place in a file: its line, and the number of bytes of that line in front of it.
#[derive(Clone, Copy)]
pub struct FilePlace<'a> {
    pub line: FileLine<'a>,
    pub before: usize,
}

/// Returns the place after this number of bytes. A line feed is at the end of its line. After the last
/// line feed the line is empty.
pub fn place_after(bytes: &[u8], count: usize) -> FilePlace<'_>
    ensures { spec.place_of result ≡ spec.place_after count bytes.now }
{
    let mut number = 1;
    let mut before = count;
    let mut left = bytes;
    while !left.is_empty() {
        let (text, afterwards) = split_line(left);
        if before <= text.len() {
            return FilePlace {
                line: FileLine { number, text },
                before,
            };
        }
        before -= text.len() + 1;
        number += 1;
        left = afterwards;
    }
    FilePlace {
        line: FileLine { number, text: &[] },
        before,
    }
}
