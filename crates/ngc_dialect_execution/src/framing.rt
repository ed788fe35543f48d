//! The frames by which commands are executed.
ghost use Rattle.std.specs.Ordering.{int_eq};
ghost use Rattle.std.specs.Prelude.{◌≡◌, ◌++◌, true, OnOk, Result};
ghost use Rattle.ngc_frames.specs.Changes.{change_at, frame_of};
ghost use Rattle.ngc_frames.specs.Frame.{are_same_points, is_same_frame, is_same_point, is_same_unit};
ghost use Rattle.ngc_dialect_execution.specs.declared.fault.DialectFault.{DialectFault as Fault};
ghost use Rattle.ngc_dialect_execution.specs.Ending.{framed_by as framed, with_changes};
ghost use Rattle.ngc_dialect_execution.specs.Faults.{ProgramSays};
ghost use Rattle.ngc_dialect_execution.specs.Taken.{Between};
ghost use Rattle.ngc_dialect_execution.specs.Views.{framed_in, progress_in};

use crate::fault::DialectFault;
use crate::lines::DialectInterpreter;
use crate::run::KeptLine;
use crate::words::Collected;
use ngc_commands::Command;
use ngc_dialect_notes::Notes;
use ngc_fixed_length::{Point3, Units};
use ngc_frames::{Frame, FrameChange, index_of};
use ngc_offsets::Frames;
use std::alloc::{AllocError, Allocator};

/// The commands of a program, each change of the frame by which they are executed, and what was
/// collected.
#[derive(Drop)]
pub(crate) struct Executed<A: Allocator> {
    pub(crate) commands: Vec<Command, A>,
    pub(crate) changes: Vec<FrameChange, A>,
    pub(crate) notes: Option<Notes>,
    pub(crate) lines: Option<Vec<KeptLine<A>, A>>,
}

/// Returns what was executed, with the changes of the frame.
pub(crate) fn framed_by<A: Allocator + Copy>(
    interpreter: DialectInterpreter<A>,
    changes: Vec<FrameChange, A>,
) -> Executed<A>
    ensures { framed_in result ≡ framed (progress_in interpreter).between changes.items }
{
    let Collected {
        commands,
        notes,
        lines,
    } = interpreter.into_collected();
    Executed {
        commands,
        changes,
        notes,
        lines,
    }
}

/// Returns the outcome of a program with the changes of its frame.
pub(crate) fn framed<A: Allocator + Copy>(
    outcome: Result<DialectInterpreter<A>, DialectFault>,
    changes: Vec<FrameChange, A>,
) -> Result<Executed<A>, DialectFault>
    ensures { (says : Result Between Fault)
        → ProgramSays (λ i. (progress_in i).between) outcome says
        → ProgramSays framed_in result (with_changes changes.items says) }
{
    match outcome {
        Ok(interpreter) => Ok(framed_by(interpreter, changes)),
        Err(fault) => Err(fault),
    }
}

fn is_same_point(p: &Point3, q: &Point3) -> bool
    ensures { result ≡ is_same_point p.now q.now }
{
    p.x.nanometres() == q.x.nanometres()
        && p.y.nanometres() == q.y.nanometres()
        && p.z.nanometres() == q.z.nanometres()
}

fn are_same_points(ps: &[Point3], qs: &[Point3]) -> bool
    ensures { result ≡ are_same_points ps.now qs.now }
{
    match ps {
        [] => qs.is_empty(),
        [p, ps @ ..] => match qs {
            [] => false,
            [q, qs @ ..] => is_same_point(p, q) && are_same_points(ps, qs),
        },
    }
}

fn is_same_unit(a: Units, b: Units) -> bool
    ensures { result ≡ is_same_unit a b }
{
    match (a, b) {
        (Units::Millimetres, Units::Millimetres) => true,
        (Units::Inches, Units::Inches) => true,
        _ => false,
    }
}

fn is_same_length(frame: &Frame, frames: &Frames) -> bool
    ensures { result ≡ int_eq frame.now.frames.length frames.now.length }
{
    frame.frames.length.nanometres() == frames.length.nanometres()
}

// Returns whether a frame has these coordinates and this unit. They come by reference, since a copy of
// them takes longer than the test.
fn is_frame_of(frame: &Frame, frames: &Frames, unit: Units) -> bool
    ensures { result ≡ is_same_frame frame.now (record { frames = frames.now; unit = unit }) }
{
    index_of(frame.frames.active) == index_of(frames.active)
        && are_same_points(&frame.frames.origins, &frames.origins)
        && is_same_point(&frame.frames.axis_offset, &frames.axis_offset)
        && is_same_length(frame, frames)
        && is_same_unit(frame.unit, unit)
}

// Returns whether a frame is the one in force.
fn is_in_force<A: Allocator + Copy>(frame: &Frame, interpreter: &DialectInterpreter<A>) -> bool
    ensures { result ≡ is_same_frame frame.now (frame_of (progress_in interpreter.now).between.state) }
{
    let own = &interpreter.execution.words.run.interpreter;
    is_frame_of(frame, own.frames(), own.length_unit())
}

/// Adds the change of the frame that a line made, if it made one. `command` is the number of commands
/// that were executed before the line. `recorded` has the parts of the frame then, and afterwards those
/// of the frame in force.
pub(crate) fn add_change<A: Allocator + Copy>(
    changes: &mut Vec<FrameChange, A>,
    interpreter: &DialectInterpreter<A>,
    line: u32,
    command: usize,
    recorded: &mut Frame,
) -> Result<(), AllocError>
    ensures added { OnOk result (changes.new.items ≡ changes.old.items
        ++ change_at line command recorded.old (frame_of (progress_in interpreter.now).between.state)) }
    ensures recorded { OnOk result
        (is_same_frame recorded.new (frame_of (progress_in interpreter.now).between.state) ≡ true) }
{
    if is_in_force(recorded, interpreter) {
        return Ok(());
    }
    match changes.push(FrameChange {
        line,
        command,
        frame: interpreter.frame(),
    }) {
        Ok(()) => {}
        Err(_) => return Err(AllocError),
    }
    *recorded = interpreter.frame();
    Ok(())
}
