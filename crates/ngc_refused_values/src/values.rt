//! The lines that select a tool and that set the unit of lengths.
ghost use Rattle.std.specs.Prelude.{◌≡◌};
ghost use Rattle.std.specs.Option.{option_map};
ghost use Rattle.ngc_line_reader.specs.ProgramView.{text_in};
ghost use Rattle.ngc_line_reader.specs.ReadLine.{line_read};
ghost use Rattle.ngc_line_reader.specs.ScanLine.{parts_of};
ghost use Rattle.ngc_refused_values.specs.Values.{inches_of, inches_since, mounted_in, mounted_read};
ghost use Rattle.ngc_refused_values.specs.Values.{mounts_selected, selected_tool};

use crate::last_words::{Kind, LastWord, last_word};
use crate::quotes::line_bytes;
use crate::said::{changes_tool, has_word, is_number};
use ngc_line_reader::{Letter, Line, Program, read_line};
use std::alloc::Allocator;

fn mounts_selected(line: &Line) -> bool
    ensures { result ≡ mounts_selected (parts_of line.now) }
{
    changes_tool(line) && !has_word(line, Letter::T) && !has_word(line, Letter::H)
}

fn mounted_read(selection: Option<LastWord>, bytes: &[u8]) -> Option<LastWord>
    ensures { result ≡ mounted_read selection (line_read bytes.now) }
{
    match read_line(bytes) {
        Ok(line) if mounts_selected(&line) => selection,
        _ => None,
    }
}

fn mounted_in(selection: Option<LastWord>, bytes: Option<&[u8]>) -> Option<LastWord>
    ensures { result ≡ mounted_in selection (option_map (λ b. b.now) bytes.entry) }
{
    match bytes {
        None => None,
        Some(bytes) => mounted_read(selection, bytes),
    }
}

/// Returns the line that selects the tool that the line with this number mounts, at a setting of
/// block delete, where that line has M6 and neither T nor H: the last line before it with a T word.
/// It is `None` for any other line.
pub fn selected_tool<A: Allocator>(
    deletes: bool,
    program: &Program<A>,
    number: u32,
) -> Option<LastWord>
    ensures { result ≡ selected_tool deletes number (text_in program.now).lines }
{
    let selection = last_word(Kind::Tool, deletes, program, number);
    mounted_in(selection, line_bytes(program, number))
}

fn inches_of(word: Option<LastWord>) -> Option<u32>
    ensures { result ≡ inches_of word }
{
    match word {
        Some(word) if is_number(20_000_000, word.number) => Some(word.line),
        _ => None,
    }
}

/// Returns the line of the G20 that is in force in the line with this number, at a setting of block
/// delete, or `None` where lengths are in millimetres.
pub fn inches_since<A: Allocator>(deletes: bool, program: &Program<A>, number: u32) -> Option<u32>
    ensures { result ≡ inches_since deletes number (text_in program.now).lines }
{
    inches_of(last_word(Kind::Unit, deletes, program, number))
}
