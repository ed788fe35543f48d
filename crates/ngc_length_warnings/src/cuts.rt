//! Cuts with no tool length offset in force, and the first of them in a coordinate system from which
//! boxes count.
ghost use Rattle.std.specs.Prelude.{◌≡◌};
ghost use Rattle.ngc_machine_files.specs.Machine.{file_of};
ghost use Rattle.ngc_length_warnings.specs.Cuts.{bare_cut, counted_cut, cut_by, cut_in, cuts};
ghost use Rattle.ngc_length_warnings.specs.Cuts.{first_cut, goes_up, is_bare, is_feed, is_upright};

use crate::boxes::count_from;
use crate::cut::{BareCut, Boxes};
use ngc_commands::{Action, Command, Motion, Pace, Reached, Way};
use ngc_fixed_length::Point3;
use ngc_frames::{Frame, FrameHistory, FrameWalk};
use ngc_machine_files::{Machine, Tool};
use std::alloc::Allocator;

fn is_feed(pace: &Pace) -> bool
    ensures { result ≡ is_feed pace.now }
{
    match pace {
        Pace::Rapid => false,
        Pace::Feed(_) => true,
    }
}

fn is_upright(start: &Point3, end: &Point3) -> bool
    ensures { result ≡ is_upright start.now end.now }
{
    start.x.nanometres() == end.x.nanometres() && start.y.nanometres() == end.y.nanometres()
}

// Returns whether a path goes straight up. A helix doesn't.
fn goes_up(way: &Way) -> bool
    ensures { result ≡ goes_up way.now }
{
    match way {
        Way::Line { start, end } => {
            is_upright(start, end) && start.z.nanometres() <= end.z.nanometres()
        }
        Way::Arc(_) => false,
    }
}

// Returns whether a motion with a tool cuts: a feed that doesn't go straight up.
fn cuts(motion: &Motion) -> bool
    ensures { result ≡ cuts motion.now }
{
    is_feed(&motion.pace) && !goes_up(&motion.way)
}

// Returns whether no length offset is in force, and the tool reaches below the spindle nose.
fn is_bare(frame: &Frame, tool: &Tool) -> bool
    ensures { result ≡ is_bare frame.now tool.now }
{
    frame.tool_length() == 0 && tool.bottom.nanometres() < 0
}

fn cut_by(line: u32, frame: &Frame, tool: &Tool) -> BareCut
    ensures { result ≡ cut_by line frame.now tool.now }
{
    BareCut {
        line,
        tool: tool.number,
        reach: tool.bottom.nanometres().unsigned_abs(),
        system: frame.system(),
    }
}

fn bare_cut(line: u32, frame: &Frame, tool: &Option<Tool>, motion: &Motion) -> Option<BareCut>
    ensures { result ≡ bare_cut line frame.now tool.now motion.now }
{
    match tool {
        Some(tool) if cuts(motion) && is_bare(frame, tool) => Some(cut_by(line, frame, tool)),
        _ => None,
    }
}

fn cut_in(frame: &Frame, tool: &Option<Tool>, command: &Command) -> Option<BareCut>
    ensures { result ≡ cut_in frame.now tool.now command.now }
{
    match &command.action {
        Action::Move(motion) => bare_cut(command.line, frame, tool, motion),
        _ => None,
    }
}

// Returns a cut if such boxes of a machine count from its coordinate system.
fn counted_cut<A: Allocator>(
    boxes: Boxes,
    machine: &Machine<A>,
    cut: Option<BareCut>,
) -> Option<BareCut>
    ensures { result ≡ counted_cut boxes (file_of machine.now) cut }
{
    match cut {
        Some(cut) if count_from(boxes, machine, cut.system) => Some(cut),
        _ => None,
    }
}

/// Returns the first cut of a program with no length offset in force that is made in a coordinate
/// system from which such boxes of the machine count, or `None`. `frames` are the program's frames,
/// and `commands` its commands.
pub fn first_cut<A: Allocator>(
    boxes: Boxes,
    machine: &Machine<A>,
    frames: &FrameHistory<A>,
    commands: &[Command],
) -> Option<BareCut>
    ensures { result ≡ first_cut boxes (file_of machine.now) frames.now.start
        frames.now.changes.items commands.now }
{
    let mut walk = FrameWalk::start(frames);
    let mut reached = Reached::at_start(machine);
    let mut index = 0;
    let mut left = commands;
    while let Some((command, later)) = left.split_first() {
        let frame = walk.in_force(frames, index).frame;
        let cut = cut_in(&frame, &reached.tool, command);
        if let Some(cut) = counted_cut(boxes, machine, cut) {
            return Some(cut);
        }
        reached = reached.after(&command.action);
        index += 1;
        left = later;
    }
    None
}
