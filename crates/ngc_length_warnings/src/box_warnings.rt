//! How all boxes are warned of that count from a coordinate system in which the program cuts with no
//! tool length offset.
ghost use Rattle.std.specs.Prelude.{OnOk, OnErr};
ghost use Rattle.std.specs.Io.KnownBytes.{Appends};
ghost use Rattle.ngc_text.specs.Failures.{CountsFailure};
ghost use Rattle.ngc_text.specs.Written.{AppendsPrefix};
ghost use Rattle.ngc_machine_files.specs.Machine.{file_of};
ghost use Rattle.ngc_sentences.specs.Saying.{Says};
ghost use Rattle.ngc_length_warnings.specs.BoxTexts.{box_warnings, boxes_line};

use crate::box_texts::say_boxes;
use crate::cut::Boxes;
use crate::cuts::first_cut;
use ngc_commands::Command;
use ngc_frames::FrameHistory;
use ngc_machine_files::Machine;
use ngc_report::Form;
use ngc_sentences::Page;
use ngc_text::{Sink, WriteFault};
use std::alloc::Allocator;

fn say_kind<A: Allocator, W: Sink>(
    form: Form,
    boxes: Boxes,
    machine: &Machine<A>,
    frames: &FrameHistory<A>,
    commands: &[Command],
    page: &mut Page,
    output: &mut W,
)
    ensures { Says (W.written output.old) (W.written output.new)
        (W.failures output.old) (W.failures output.new) page.old page.new
        (boxes_line form boxes (file_of machine.now) frames.now.start frames.now.changes.items
        commands.now) }
{
    let cut = first_cut(boxes, machine, frames, commands);
    say_boxes(form, boxes, machine.fixtures.as_slice(), &cut, page, output);
}

/// Writes that fixtures, and that the block of material, count from a coordinate system in which the
/// program cuts with no tool length offset in force, by a tool that reaches below the spindle nose. If
/// that tool touched the zero of the system, these boxes are lower than where they are tested.
/// `commands` are a program's commands at a setting of block delete, and `frames` their frames.
///
/// There is at most one line about fixtures and one about the block, each with the line of the first
/// such cut. Boxes in machine coordinates have none. A motion cuts if it is a feed, with a tool
/// mounted, that doesn't go straight up.
///
/// The function allocates no memory. After a fault (902, only if the sink failed) a prefix of the
/// text is written.
pub fn write_box_warnings<A: Allocator, W: Sink>(
    form: Form,
    machine: &Machine<A>,
    frames: &FrameHistory<A>,
    commands: &[Command],
    output: &mut W,
) -> Result<(), WriteFault>
    ensures ok { OnOk result
        (Appends (W.written output.old) (W.written output.new)
        (box_warnings form (file_of machine.now) frames.now.start frames.now.changes.items
        commands.now)) }
    ensures fault { OnErr result
        (AppendsPrefix (W.written output.old) (W.written output.new)
        (box_warnings form (file_of machine.now) frames.now.start frames.now.changes.items
        commands.now)) }
    ensures counts { CountsFailure (W.failures output.old) (W.failures output.new) result }
{
    let mut page = Page::new();
    say_kind(
        form,
        Boxes::Fixtures,
        machine,
        frames,
        commands,
        &mut page,
        output,
    );
    say_kind(
        form,
        Boxes::Block,
        machine,
        frames,
        commands,
        &mut page,
        output,
    );
    page.finish(output)
}
