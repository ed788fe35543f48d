//! The frame in force at a command, and the lines that set its parts.
ghost use Rattle.std.specs.Prelude.{◌≡◌, nat_le};
ghost use Rattle.ngc_frames.specs.InForce.{frame_at, line_that_set, frame_in_force};

use crate::change::FrameChange;
use crate::frame::{Frame, FramePart, is_same_part};

/// The frame by which a command is executed, and for each of its parts the line that set it
/// last: 0 if it is as at the start, by the machine file.
#[derive(Clone, Copy)]
pub struct FrameInForce {
    pub frame: Frame,
    /// The line of G54 to G59.3.
    pub selection_line: u32,
    /// The line of the G10 that set the origin of the selected coordinate system.
    pub origin_line: u32,
    /// The line of G92 to G92.3.
    pub axis_offset_line: u32,
    /// The line of G43 or G49.
    pub tool_length_line: u32,
    /// The line of G20 or G21.
    pub unit_line: u32,
}

pub(crate) fn is_up_to(change: &FrameChange, command: usize) -> bool
    ensures { result ≡ nat_le change.now.command command }
{
    change.command <= command
}

/// Returns the frame by which a command is executed, counted from 0: that of the last change before
/// it. A line sets its frame before it moves (NISTIR 6556, 3.8).
pub fn frame_at(start: &Frame, changes: &[FrameChange], command: usize) -> Frame
    ensures { result ≡ frame_at start.now changes.now command }
{
    let mut frame = *start;
    for change in changes {
        if !is_up_to(change, command) {
            return frame;
        }
        frame = change.frame;
    }
    frame
}

/// Returns the line that changed a part of the frame last before a command, counted from 0; 0 if none
/// did.
pub fn line_that_set(part: FramePart, start: &Frame, changes: &[FrameChange], command: usize) -> u32
    ensures { result ≡ line_that_set part command 0 start.now changes.now }
{
    let mut set = 0;
    let mut frame = *start;
    for change in changes {
        if !is_up_to(change, command) {
            return set;
        }
        if !is_same_part(part, &frame, &change.frame) {
            set = change.line;
        }
        frame = change.frame;
    }
    set
}

/// Returns the frame by which a command is executed, counted from 0, with the lines that set its
/// parts.
pub fn frame_in_force(start: &Frame, changes: &[FrameChange], command: usize) -> FrameInForce
    ensures { result ≡ frame_in_force start.now changes.now command }
{
    let frame = frame_at(start, changes, command);
    let origin = FramePart::Origin(frame.frames.active);
    FrameInForce {
        frame,
        selection_line: line_that_set(FramePart::Selection, start, changes, command),
        origin_line: line_that_set(origin, start, changes, command),
        axis_offset_line: line_that_set(FramePart::AxisOffset, start, changes, command),
        tool_length_line: line_that_set(FramePart::ToolLength, start, changes, command),
        unit_line: line_that_set(FramePart::Unit, start, changes, command),
    }
}
