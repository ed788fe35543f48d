//! How all mistakes in the words of a program are written.
ghost use Rattle.std.specs.Prelude.{OnOk, OnErr, ◌++◌};
ghost use Rattle.std.specs.Io.KnownBytes.{Appends};
ghost use Rattle.ngc_text.specs.Failures.{CountsFailure};
ghost use Rattle.ngc_text.specs.Written.{AppendsPrefix};
ghost use Rattle.ngc_machine_files.specs.Machine.{file_of};
ghost use Rattle.ngc_line_reader.specs.ProgramView.{text_in};
ghost use Rattle.ngc_sentences.specs.Saying.{Says};
ghost use Rattle.ngc_word_warnings.specs.Spelling.{spelled, word_warnings};

use crate::slip::AllSlips;
use crate::slips::slips_of;
use crate::spelling::say_slips;
use ngc_commands::Command;
use ngc_line_reader::Program;
use ngc_machine_files::{Machine, Tool};
use ngc_report::Form;
use ngc_sentences::Page;
use ngc_text::{Sink, WriteFault};
use std::alloc::Allocator;

fn say_all<W: Sink>(form: Form, found: &AllSlips, page: &mut Page, output: &mut W)
    ensures { Says (W.written output.old) (W.written output.new)
        (W.failures output.old) (W.failures output.new) page.old page.new
        (spelled form found.now.unmounted ++ spelled form found.now.other_offset
        ++ spelled form found.now.no_offset ++ spelled form found.now.stale_offset
        ++ spelled form found.now.part_home) }
{
    say_slips(form, &found.unmounted, page, output);
    say_slips(form, &found.other_offset, page, output);
    say_slips(form, &found.no_offset, page, output);
    say_slips(form, &found.stale_offset, page, output);
    say_slips(form, &found.part_home, page, output);
}

/// Writes the warnings about the words of a program on a machine with its tools, at a setting of
/// block delete. `commands` are the program's commands there.
///
/// The kinds are T words of tools that are never mounted, G43 with the H of a tool that isn't the
/// mounted one, feeds downwards without a length offset with a tool whose offset in the tool table
/// isn't 0, feeds with the length offset of another tool, which was applied before the mounted one
/// was mounted, and G28 or G30 with one or two axis words, each 0, where other controls move only
/// these axes home. Each kind that occurs has a line with the number of the program's lines that have it,
/// and the first of them, from 1, with its numbers. A program without mistakes has no line. Words
/// whose values have brackets or parameters are ignored, and so are lines after that of the last
/// command.
///
/// The function allocates no memory. After a fault (902, only if the sink failed) a prefix of the
/// text is written.
pub fn write_word_warnings<A: Allocator, B: Allocator, W: Sink>(
    form: Form,
    deletes: bool,
    program: &Program<A>,
    machine: &Machine<B>,
    tools: &[Tool],
    commands: &[Command],
    sink: &mut W,
) -> Result<(), WriteFault>
    ensures ok { OnOk result
        (Appends (W.written sink.old) (W.written sink.new)
        (word_warnings form deletes (file_of machine.now) tools.now commands.now
        (text_in program.now).lines)) }
    ensures fault { OnErr result
        (AppendsPrefix (W.written sink.old) (W.written sink.new)
        (word_warnings form deletes (file_of machine.now) tools.now commands.now
        (text_in program.now).lines)) }
    ensures counts { CountsFailure (W.failures sink.old) (W.failures sink.new) result }
{
    let found = slips_of(deletes, program, machine, tools, commands);
    let mut page = Page::new();
    say_all(form, &found, &mut page, sink);
    page.finish(sink)
}
