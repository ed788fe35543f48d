ghost use Rattle.std.specs.Prelude.{◌≡◌};
ghost use Rattle.std.specs.Option.{option_map};
ghost use Rattle.ngc_line_reader.specs.ProgramView.{text_in};
ghost use Rattle.ngc_report.specs.Quotes.{bytes_with};

use ngc_line_reader::Program;
use std::alloc::Allocator;

/// Returns the bytes of the line with this number in the file.
pub(crate) fn line_bytes<A: Allocator>(program: &Program<A>, number: u32) -> Option<&[u8]>
    ensures { option_map (λ b. b.now) result ≡ bytes_with number (text_in program.now).lines }
{
    for index in 0..program.len() {
        if program.number(index) == number {
            return Some(program.bytes(index));
        }
    }
    None
}
