//! The lowest heights of a program's commands.
ghost use Rattle.std.specs.Prelude.{◌≡◌, ◌<◌, find, length, IfOk, IfSome, OnOk};
ghost use Rattle.std.specs.List.{position};
ghost use Rattle.ngc_frames.specs.InForce.{frame_at};
ghost use Rattle.ngc_frames.specs.Walks.{WalksOver};
ghost use Rattle.ngc_lowest_tips.specs.Tips.{is_same_pair, lowest_tips, tip_of, tool_after};
ghost use Rattle.ngc_lowest_tips.specs.Tips.{has_offset, is_own, number_of, offset_of};
ghost use Rattle.ngc_lowest_tips.specs.Tips.{with_new, with_tip};

use crate::heights::{height_in, lowest_of};
use crate::tip::{LowestTip, is_same_pair, lower};
use ngc_commands::{Action, Command};
use ngc_frames::{Frame, FrameHistory, FrameWalk};
use ngc_machine_files::Tool;
use std::alloc::{AllocError, Allocator};

fn number_of(tool: &Option<Tool>) -> Option<u32>
    ensures { result ≡ number_of tool.now }
{
    match tool {
        None => None,
        Some(tool) => Some(tool.number),
    }
}

fn tool_after(had: Option<Tool>, action: &Action) -> Option<Tool>
    ensures { result ≡ tool_after had action.now }
{
    match action {
        Action::Mount(tool) => *tool,
        _ => had,
    }
}

// Returns whether a length offset is that of the mounted tool: a difference below 10 nm is none.
fn is_own(offset: i64, tool: &Option<Tool>) -> bool
    ensures { result ≡ is_own offset tool.now }
{
    match tool {
        None => false,
        Some(tool) => offset.abs_diff(tool.offset.nanometres()) < 10,
    }
}

fn has_offset(offset: i64, tool: &Tool) -> bool
    ensures { result ≡ has_offset offset tool.now }
{
    tool.offset.nanometres() == offset
}

fn tool_with(tools: &[Tool], offset: i64) -> Option<Tool>
    ensures { result ≡ find (has_offset offset) tools.now }
{
    tools.iter().find(|tool| has_offset(offset, tool)).copied()
}

// Returns the number of the tool whose length offset is in force, if that isn't the mounted tool.
fn offset_of(tools: &[Tool], offset: i64, tool: &Option<Tool>) -> Option<u32>
    ensures { result ≡ offset_of tools.now offset tool.now }
{
    if offset == 0 || is_own(offset, tool) {
        return None;
    }
    number_of(&tool_with(tools, offset))
}

// Returns the lowest height of an action in a frame, with a mounted tool.
fn tip_of(
    tools: &[Tool],
    frame: &Frame,
    tool: &Option<Tool>,
    line: u32,
    action: &Action,
) -> Option<LowestTip>
    ensures { result ≡ tip_of tools.now frame.now tool.now line action.now }
{
    match action {
        Action::Move(motion) => Some(LowestTip {
            system: frame.system(),
            tool: number_of(tool),
            by: offset_of(tools, frame.tool_length(), tool),
            height: height_in(frame, lowest_of(&motion.way)),
            line,
        }),
        _ => None,
    }
}

// Returns the lowest height of a command, counted from 0, with a mounted tool.
fn tip_at<A: Allocator>(
    tools: &[Tool],
    history: &FrameHistory<A>,
    walk: &mut FrameWalk,
    tool: &Option<Tool>,
    index: usize,
    command: &Command,
) -> Option<LowestTip>
    requires { WalksOver history.now.start history.now.changes.items walk.old }
    ensures value { result ≡ tip_of tools.now
        (frame_at history.now.start history.now.changes.items index) tool.now
        command.now.line command.now.action }
    ensures walk { WalksOver history.now.start history.now.changes.items walk.new }
{
    let frame = walk.in_force(history, index);
    tip_of(tools, &frame.frame, tool, command.line, &command.action)
}

// Returns where the height of the same coordinate system and tool is in a list.
fn position_of(tips: &[LowestTip], new: &LowestTip) -> Option<usize>
    ensures value { result ≡ position (λ t. is_same_pair t new.now) tips.now }
    ensures within { IfSome result (λ i. i < length tips.now) }
{
    tips.iter().position(|tip| is_same_pair(tip, new))
}

fn add_new<A: Allocator>(tips: &mut Vec<LowestTip, A>, new: &LowestTip) -> Result<(), AllocError>
    ensures { OnOk result (tips.new.items ≡ with_new tips.old.items new.now) }
{
    match position_of(tips.as_slice(), new) {
        Some(i) => {
            tips[i] = lower(tips[i], *new);
            Ok(())
        }
        None => match tips.push(*new) {
            Ok(()) => Ok(()),
            Err(_) => Err(AllocError),
        },
    }
}

fn add_tip<A: Allocator>(
    tips: &mut Vec<LowestTip, A>,
    tip: &Option<LowestTip>,
) -> Result<(), AllocError>
    ensures { OnOk result (tips.new.items ≡ with_tip tips.old.items tip.now) }
{
    match tip {
        None => Ok(()),
        Some(new) => add_new(tips, new),
    }
}

/// Returns the lowest height that the motions of a program go to, for each coordinate system and
/// mounted tool, in the order of their first motions. `history` has the program's frames at a
/// setting of block delete, and `commands` its commands there. `tools` is the tool table.
///
/// A height is in the program's coordinates: that of the tool's tip if its length offset is in
/// force, otherwise that of the spindle nose. If the length offset in force is that of another tool,
/// it is the height that a tip with that offset has, and the other tool is named: the first in the
/// table with this offset. A motion's start doesn't count, since it is the end
/// of an earlier motion; only an arc that begins at one of its quadrant points goes there again. Of
/// several motions that go equally low, the first counts. Motions home (G28, G30) and in machine
/// coordinates (G53) count too.
///
/// It returns an error only if memory runs out.
pub fn lowest_tips<A: Allocator + Copy>(
    alloc: A,
    tools: &[Tool],
    history: &FrameHistory<A>,
    commands: &[Command],
) -> Result<Vec<LowestTip, A>, AllocError>
    ensures { IfOk result (λ v. v.items
        ≡ lowest_tips tools.now history.now.start history.now.changes.items commands.now) }
{
    let mut walk = FrameWalk::start(history);
    let mut tool = None;
    let mut tips = Vec::new(alloc);
    for (index, command) in commands.iter().enumerate() {
        let tip = tip_at(tools, history, &mut walk, &tool, index, command);
        match add_tip(&mut tips, &tip) {
            Ok(()) => tool = tool_after(tool, &command.action),
            Err(fault) => return Err(fault),
        }
    }
    Ok(tips)
}
