//! How all mistakes with length offsets are written.
ghost use Rattle.std.specs.Prelude.{OnOk, OnErr};
ghost use Rattle.std.specs.Io.KnownBytes.{Appends};
ghost use Rattle.ngc_text.specs.Failures.{CountsFailure};
ghost use Rattle.ngc_text.specs.Written.{AppendsPrefix};
ghost use Rattle.ngc_machine_files.specs.Machine.{file_of};
ghost use Rattle.ngc_sentences.specs.Saying.{Says};
ghost use Rattle.ngc_length_warnings.specs.Spelling.{kind_line, length_warnings};

use crate::slip::Kind;
use crate::slips::slips_of;
use crate::spelling::say_slips;
use ngc_commands::Command;
use ngc_frames::FrameHistory;
use ngc_machine_files::Machine;
use ngc_report::Form;
use ngc_sentences::Page;
use ngc_text::{Sink, WriteFault};
use std::alloc::Allocator;

fn say_kind<A: Allocator, W: Sink>(
    form: Form,
    kind: Kind,
    machine: &Machine<A>,
    frames: &FrameHistory<A>,
    commands: &[Command],
    page: &mut Page,
    output: &mut W,
)
    ensures { Says (W.written output.old) (W.written output.new)
        (W.failures output.old) (W.failures output.new) page.old page.new
        (kind_line form kind (file_of machine.now) frames.now.start frames.now.changes.items
        commands.now) }
{
    let found = slips_of(kind, machine, frames, commands);
    say_slips(form, &found, page, output);
}

/// Writes the warnings about the length offset in force where a tool feeds. `commands` are a
/// program's commands at a setting of block delete, and `frames` their frames.
///
/// The kinds are feeds downwards with no offset in force, by a tool that has one in the tool table,
/// and feeds with an offset in force that differs by 10 nm or more from that of the mounted tool.
/// Each kind that occurs has a line with the number of its commands, and the program's line of the
/// first, from 1, with its numbers. A program without mistakes has no line.
///
/// The function allocates no memory. After a fault (902, only if the sink failed) a prefix of the
/// text is written.
pub fn write_length_warnings<A: Allocator, W: Sink>(
    form: Form,
    machine: &Machine<A>,
    frames: &FrameHistory<A>,
    commands: &[Command],
    output: &mut W,
) -> Result<(), WriteFault>
    ensures ok { OnOk result
        (Appends (W.written output.old) (W.written output.new)
        (length_warnings form (file_of machine.now) frames.now.start frames.now.changes.items
        commands.now)) }
    ensures fault { OnErr result
        (AppendsPrefix (W.written output.old) (W.written output.new)
        (length_warnings form (file_of machine.now) frames.now.start frames.now.changes.items
        commands.now)) }
    ensures counts { CountsFailure (W.failures output.old) (W.failures output.new) result }
{
    let mut page = Page::new();
    say_kind(
        form,
        Kind::Missing,
        machine,
        frames,
        commands,
        &mut page,
        output,
    );
    say_kind(
        form,
        Kind::Other,
        machine,
        frames,
        commands,
        &mut page,
        output,
    );
    page.finish(output)
}
