//! Whether plain lines keep the limits of our own language.
ghost use Rattle.std.specs.Prelude.{◌≡◌, IsTrue};
ghost use Rattle.std.specs.List.{AllByRecursion, list_all};
ghost use Rattle.ngc_plain_laws.specs.Laws.{IsPrintable, words_in};
ghost use Rattle.ngc_plain_program.specs.Programs.{lines_of};
ghost use Rattle.ngc_plain_text.specs.Limits.{AreValues, are_few, is_short};

use ngc_dialect_execution::KeptLine;
use ngc_plain_text::is_short;
use std::alloc::Allocator;

/// The most lines of a program in our own language.
const MOST_LINES: usize = 100_000;

// Returns whether each line has at most 64 words and 256 bytes.
fn are_short<A: Allocator>(lines: &[KeptLine<A>]) -> bool
    ensures limits { result ≡ list_all is_short (words_in (lines_of lines.now)) }
    ensures values { IsTrue result → AllByRecursion AreValues (words_in (lines_of lines.now)) }
{
    let mut rest = lines;
    while let [first, after @ ..] = rest {
        if !is_short(first.words.as_slice()) {
            return false;
        }
        rest = after;
    }
    true
}

/// Returns whether our own language reads the text of plain lines: at most 100,000, each of at most 64
/// words and 256 bytes.
pub fn is_printable<A: Allocator>(lines: &[KeptLine<A>]) -> bool
    ensures few { result ≡ are_few (words_in (lines_of lines.now)) }
    ensures printable { IsTrue result → IsPrintable (lines_of lines.now) }
{
    lines.len() <= MOST_LINES && are_short(lines)
}
