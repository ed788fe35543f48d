//! The frames of commands in order, where each change is passed once.
ghost use Rattle.std.specs.Prelude.{◌≡◌, ◌≤◌, ◌<◌, ◌+◌, ◌^◌, List, slice_index_or};
ghost use Rattle.ngc_offsets.specs.Frames.{index};
ghost use Rattle.ngc_fixed_length.specs.declared.modes.System.{System};
ghost use Rattle.ngc_frames.specs.InForce.{frame_at, frame_in_force, line_that_set};
ghost use Rattle.ngc_frames.specs.InForce.{set_by};
ghost use Rattle.ngc_frames.specs.Walks.{WalksOver, here, set_line};
ghost use Rattle.ngc_frames.specs.declared.change.FrameChange.{FrameChange};
ghost use Rattle.ngc_frames.specs.declared.frame.FramePart.{FramePart};

use crate::change::FrameChange;
use crate::frame::{Frame, FramePart, index_of, is_same_part};
use crate::history::FrameHistory;
use crate::in_force::{FrameInForce, is_up_to};
use ngc_fixed_length::System;
use std::alloc::Allocator;

/// The lines that set the parts of a frame last: 0 for a part that is as at the start.
#[derive(Clone, Copy)]
pub(crate) struct SetLines {
    pub(crate) selection: u32,
    pub(crate) origins: [u32; 9],
    pub(crate) axis_offset: u32,
    pub(crate) tool_length: u32,
    pub(crate) unit: u32,
}

impl SetLines {
    fn none() -> SetLines
        ensures { (part : FramePart) → set_line result part ≡ 0 }
    {
        SetLines {
            selection: 0,
            origins: [0; 9],
            axis_offset: 0,
            tool_length: 0,
            unit: 0,
        }
    }

    fn of(&self, part: FramePart) -> u32
        ensures { result ≡ set_line self.now part }
    {
        match part {
            FramePart::Selection => self.selection,
            FramePart::Origin(system) => self.origins[index_of(system)],
            FramePart::AxisOffset => self.axis_offset,
            FramePart::ToolLength => self.tool_length,
            FramePart::Unit => self.unit,
        }
    }

    fn line_after(&self, part: FramePart, frame: &Frame, change: &FrameChange) -> u32
        ensures { result ≡ set_by part (set_line self.now part) frame.now change.now }
    {
        if is_same_part(part, frame, &change.frame) {
            self.of(part)
        } else {
            change.line
        }
    }

    fn origin_after(&self, system: System, frame: &Frame, change: &FrameChange) -> u32
        ensures { result ≡ set_by (FramePart.Origin system)
            (set_line self.now (FramePart.Origin system)) frame.now change.now }
    {
        self.line_after(FramePart::Origin(system), frame, change)
    }

    fn origins_after(&self, frame: &Frame, change: &FrameChange) -> [u32; 9]
        ensures { (system : System) → slice_index_or result (index system) 0
            ≡ set_by (FramePart.Origin system)
            (set_line self.now (FramePart.Origin system)) frame.now change.now }
    {
        [
            self.origin_after(System::First, frame, change),
            self.origin_after(System::Second, frame, change),
            self.origin_after(System::Third, frame, change),
            self.origin_after(System::Fourth, frame, change),
            self.origin_after(System::Fifth, frame, change),
            self.origin_after(System::Sixth, frame, change),
            self.origin_after(System::Seventh, frame, change),
            self.origin_after(System::Eighth, frame, change),
            self.origin_after(System::Ninth, frame, change),
        ]
    }

    // Returns the lines that set the parts after a change of this frame.
    fn after(&self, frame: &Frame, change: &FrameChange) -> SetLines
        ensures { (part : FramePart) → set_line result part
            ≡ set_by part (set_line self.now part) frame.now change.now }
    {
        SetLines {
            selection: self.line_after(FramePart::Selection, frame, change),
            origins: self.origins_after(frame, change),
            axis_offset: self.line_after(FramePart::AxisOffset, frame, change),
            tool_length: self.line_after(FramePart::ToolLength, frame, change),
            unit: self.line_after(FramePart::Unit, frame, change),
        }
    }
}

/// A walk over the changes of a program's frames, from command to command. Along rising commands each
/// change is passed once.
#[derive(Clone, Copy)]
pub struct FrameWalk {
    pub(crate) passed: usize,
    pub(crate) command: usize,
    pub(crate) frame: Frame,
    pub(crate) set: SetLines,
}

impl FrameWalk {
    // Returns the walk at the start, in this frame.
    fn fresh(frame: &Frame) -> FrameWalk
        ensures command { result.command ≡ 0 }
        ensures walks { (changes : List FrameChange) → WalksOver frame.now changes result }
    {
        FrameWalk {
            passed: 0,
            command: 0,
            frame: *frame,
            set: SetLines::none(),
        }
    }

    /// Returns the walk at its start.
    pub fn start<A: Allocator>(history: &FrameHistory<A>) -> FrameWalk
        ensures { WalksOver history.now.start history.now.changes.items result }
    {
        FrameWalk::fresh(&history.start)
    }

    // Goes back to the start if the walk is past a command.
    fn go_back(&mut self, start: &Frame, changes: &[FrameChange], command: usize)
        requires { WalksOver start.now changes.now self.old }
        ensures walks { WalksOver start.now changes.now self.new }
        ensures ahead { self.new.command ≤ command }
    {
        if command < self.command {
            *self = FrameWalk::fresh(start);
        }
    }

    // Passes the next change.
    fn pass(&mut self, change: &FrameChange)
        requires { self.old.passed < 2 ^ 63 }
        ensures passed { self.new.passed ≡ self.old.passed + 1 }
        ensures command { self.new.command ≡ self.old.command }
        ensures frame { self.new.frame ≡ change.now.frame }
        ensures set { (part : FramePart) → set_line self.new.set part
            ≡ set_by part (set_line self.old.set part) self.old.frame change.now }
    {
        self.set = self.set.after(&self.frame, change);
        self.frame = change.frame;
        self.passed += 1;
    }

    // Passes all changes before a command.
    fn go_on(&mut self, start: &Frame, changes: &[FrameChange], command: usize)
        requires walks { WalksOver start.now changes.now self.old }
        requires ahead { self.old.command ≤ command }
        ensures walks { WalksOver start.now changes.now self.new }
        ensures frame { self.new.frame ≡ frame_at start.now changes.now command }
        ensures set { (part : FramePart) →
            set_line self.new.set part ≡ line_that_set part command 0 start.now changes.now }
    {
        self.command = command;
        for change in &changes[self.passed..] {
            if !is_up_to(change, command) {
                return;
            }
            self.pass(change);
        }
    }

    /// Returns the frame by which a command is executed, counted from 0, with the lines that set its
    /// parts. The function is fastest if the commands rise from call to call.
    pub fn in_force<A: Allocator>(
        &mut self,
        history: &FrameHistory<A>,
        command: usize,
    ) -> FrameInForce
        requires { WalksOver history.now.start history.now.changes.items self.old }
        ensures frame { result ≡
            frame_in_force history.now.start history.now.changes.items command }
        ensures walks { WalksOver history.now.start history.now.changes.items self.new }
    {
        let changes = history.changes.as_slice();
        self.go_back(&history.start, changes, command);
        self.go_on(&history.start, changes, command);
        self.here()
    }

    // Returns the frame at this place, with the lines that set its parts.
    fn here(&self) -> FrameInForce
        ensures { result ≡ here self.now }
    {
        let origin = FramePart::Origin(self.frame.frames.active);
        FrameInForce {
            frame: self.frame,
            selection_line: self.set.selection,
            origin_line: self.set.of(origin),
            axis_offset_line: self.set.axis_offset,
            tool_length_line: self.set.tool_length,
            unit_line: self.set.unit,
        }
    }
}
