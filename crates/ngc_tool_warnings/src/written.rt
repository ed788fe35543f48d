//! How all mistakes with tools are written.
ghost use Rattle.std.specs.Prelude.{OnOk, OnErr};
ghost use Rattle.std.specs.Io.KnownBytes.{Appends};
ghost use Rattle.ngc_text.specs.Failures.{CountsFailure};
ghost use Rattle.ngc_text.specs.Written.{AppendsPrefix};
ghost use Rattle.ngc_machine_files.specs.Machine.{file_of};
ghost use Rattle.ngc_sentences.specs.Saying.{Says};
ghost use Rattle.ngc_tool_warnings.specs.Spelling.{kind_line, tool_warnings};

use crate::slip::Kind;
use crate::slips::slips_of;
use crate::spelling::say_slips;
use ngc_commands::Command;
use ngc_machine_files::Machine;
use ngc_report::Form;
use ngc_sentences::Page;
use ngc_text::{Sink, WriteFault};
use std::alloc::Allocator;

fn say_kind<A: Allocator, W: Sink>(
    form: Form,
    kind: Kind,
    machine: &Machine<A>,
    commands: &[Command],
    page: &mut Page,
    output: &mut W,
)
    ensures { Says (W.written output.old) (W.written output.new)
        (W.failures output.old) (W.failures output.new) page.old page.new
        (kind_line form kind (file_of machine.now) commands.now) }
{
    let found = slips_of(kind, machine, commands);
    say_slips(form, &found, page, output);
}

/// Writes the warnings about tool changes of a program, and about traverses after them. `commands`
/// are the program's commands at a setting of block delete.
///
/// The kinds are changes from a tool to a longer one below the height of the start, traverses
/// straight down that end lower than the first feed with the tool began and lower than the program
/// fed there before, and tool changes between two motions without a stop, on a machine without a
/// tool changer. Each kind that occurs has a line with the number of its commands, and the
/// program's line of the first, from 1, with its numbers. A program without mistakes has no line.
///
/// The function allocates no memory. After a fault (902, only if the sink failed) a prefix of the
/// text is written.
pub fn write_tool_warnings<A: Allocator, W: Sink>(
    form: Form,
    machine: &Machine<A>,
    commands: &[Command],
    output: &mut W,
) -> Result<(), WriteFault>
    ensures ok { OnOk result
        (Appends (W.written output.old) (W.written output.new)
        (tool_warnings form (file_of machine.now) commands.now)) }
    ensures fault { OnErr result
        (AppendsPrefix (W.written output.old) (W.written output.new)
        (tool_warnings form (file_of machine.now) commands.now)) }
    ensures counts { CountsFailure (W.failures output.old) (W.failures output.new) result }
{
    let mut page = Page::new();
    say_kind(form, Kind::LowChange, machine, commands, &mut page, output);
    say_kind(form, Kind::Drop, machine, commands, &mut page, output);
    say_kind(form, Kind::BareChange, machine, commands, &mut page, output);
    page.finish(output)
}
