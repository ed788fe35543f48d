//! Lines that block delete takes out (NISTIR 6556, 3.3).
ghost use Rattle.std.specs.Prelude.{◌≡◌, List};
ghost use Rattle.ngc_line_reader.specs.Grammar.{Reading};
ghost use Rattle.ngc_line_reader.specs.ProgramText.{AreReadings};
ghost use Rattle.ngc_line_reader.specs.ProgramView.{text_in};
ghost use Rattle.ngc_canonical.specs.Meaning.{parsed_program, has_deleted};

use ngc_line_reader::Program;
use std::alloc::Allocator;

/// Returns whether a line of a program begins with `/`. If none does, block delete changes nothing.
pub fn has_deleted_lines<A: Allocator>(program: &Program<A>) -> bool
    // For all readings of the lines. Each line has exactly one.
    ensures { (rs : List Reading) → AreReadings (text_in program.now).lines rs →
        result ≡ has_deleted (parsed_program (text_in program.now) rs).lines }
{
    for index in 0..program.len() {
        if program.is_deleted(index) {
            return true;
        }
    }
    false
}
