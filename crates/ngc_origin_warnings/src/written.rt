//! How the origins outside of the travel from which a program moves are written.
ghost use Rattle.std.specs.Prelude.{◌≡◌, OnOk, OnErr};
ghost use Rattle.std.specs.Io.KnownBytes.{Appends};
ghost use Rattle.ngc_certificate_text.specs.Collects.{Collects};
ghost use Rattle.ngc_frames.specs.Walks.{WalksOver};
ghost use Rattle.ngc_machine_files.specs.Machine.{file_of};
ghost use Rattle.ngc_text.specs.Failures.{CountsFailure};
ghost use Rattle.ngc_text.specs.Written.{AppendsPrefix};
ghost use Rattle.ngc_origin_warnings.specs.Texts.{warning_text};
ghost use Rattle.ngc_origin_warnings.specs.Warnings.{new_origin, none_warned, origin_warnings};
ghost use Rattle.ngc_origin_warnings.specs.Warnings.{warnings_from};

use crate::origin::{Origin, lowest, origin_of};
use crate::texts::add_warning;
use crate::warned::Warned;
use ngc_commands::Command;
use ngc_fixed_length::Nm;
use ngc_frames::{FrameHistory, FrameWalk};
use ngc_machine_files::{Machine, Tool};
use ngc_report::Form;
use ngc_text::{Chunk, Sink, WriteFault};
use std::alloc::Allocator;

// Returns the origin for which a command, counted from 0, is warned of, after these warnings.
fn new_origin<A: Allocator>(
    machine: &Machine<A>,
    lowest: Nm,
    history: &FrameHistory<A>,
    walk: &mut FrameWalk,
    warned: &Warned,
    index: usize,
    command: &Command,
) -> Option<Origin>
    requires { WalksOver history.now.start history.now.changes.items walk.old }
    ensures value { result ≡ new_origin (file_of machine.now) lowest history.now.start
        history.now.changes.items warned.now.lines index command.now }
    ensures walk { WalksOver history.now.start history.now.changes.items walk.new }
{
    let frame = walk.in_force(history, index);
    warned.if_new(origin_of(machine, lowest, &frame, &command.action))
}

fn collect_warning<W: Sink>(
    chunk: &mut Chunk,
    form: Form,
    line: u32,
    origin: &Option<Origin>,
    sink: &mut W,
) -> Result<(), WriteFault>
    ensures text { Collects (W.written sink.old) (W.written sink.new) chunk.old chunk.new result
        (warning_text form line origin.now) }
    ensures counts { CountsFailure (W.failures sink.old) (W.failures sink.new) result }
{
    match chunk.make_space(sink) {
        Ok(()) => {
            add_warning(chunk, form, line, origin);
            Ok(())
        }
        Err(fault) => Err(fault),
    }
}

fn collect_warnings<A: Allocator, W: Sink>(
    chunk: &mut Chunk,
    form: Form,
    machine: &Machine<A>,
    lowest: Nm,
    history: &FrameHistory<A>,
    commands: &[Command],
    sink: &mut W,
) -> Result<(), WriteFault>
    ensures text { Collects (W.written sink.old) (W.written sink.new) chunk.old chunk.new result
        (warnings_from form (file_of machine.now) lowest history.now.start
        history.now.changes.items none_warned 0 commands.now) }
    ensures counts { CountsFailure (W.failures sink.old) (W.failures sink.new) result }
{
    let mut walk = FrameWalk::start(history);
    let mut warned = Warned::none();
    for (index, command) in commands.iter().enumerate() {
        let origin = new_origin(machine, lowest, history, &mut walk, &warned, index, command);
        match collect_warning(chunk, form, command.line, &origin, sink) {
            Ok(()) => warned = warned.with(&origin),
            Err(fault) => return Err(fault),
        }
    }
    Ok(())
}

/// Writes the warnings of origins outside of the travel from which a program moves on a machine with
/// its tools. `history` has the program's frames at a setting of block delete, and `commands` its
/// commands there.
///
/// A motion is warned of if a line put the zero of its coordinates outside of the travel, which
/// tools lengthen downwards (G10, G92), and a feed also if the machine file has origins but leaves
/// that of its system at the machine's zero, outside of the travel. There is one warning for each
/// coordinate system and line: that of the first motion.
///
/// The function allocates no memory. After a fault (902, only if the sink failed) a prefix of the
/// text is written.
pub fn write_origin_warnings<A: Allocator, W: Sink>(
    form: Form,
    machine: &Machine<A>,
    tools: &[Tool],
    history: &FrameHistory<A>,
    commands: &[Command],
    sink: &mut W,
) -> Result<(), WriteFault>
    ensures ok { OnOk result
        (Appends (W.written sink.old) (W.written sink.new)
        (origin_warnings form (file_of machine.now) tools.now history.now.start
        history.now.changes.items commands.now)) }
    ensures fault { OnErr result
        (AppendsPrefix (W.written sink.old) (W.written sink.new)
        (origin_warnings form (file_of machine.now) tools.now history.now.start
        history.now.changes.items commands.now)) }
    ensures counts { CountsFailure (W.failures sink.old) (W.failures sink.new) result }
{
    let mut chunk = Chunk::new();
    let low = lowest(tools);
    match collect_warnings(&mut chunk, form, machine, low, history, commands, sink) {
        Ok(()) => chunk.write_out(sink),
        Err(fault) => Err(fault),
    }
}
