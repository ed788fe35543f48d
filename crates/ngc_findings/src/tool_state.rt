//! The state after the commands before one, as far as a warning needs it.
ghost use Rattle.std.specs.Prelude.{◌≡◌, None};
ghost use Rattle.ngc_fixed_length.specs.Length.{IsStep};
ghost use Rattle.ngc_machine_files.specs.Machine.{file_of};
ghost use Rattle.ngc_findings.specs.ToolStates.{turns, is_turning_after, beginning, next};
ghost use Rattle.ngc_findings.specs.ToolStates.{no_entry, entered, entry_after, with_box, with_way};
ghost use Rattle.ngc_findings.specs.ToolStates.{with_feed, area, area_for};

use crate::bounds::{joint_box, reach};
use crate::warnings::Concern;
use ngc_commands::{Action, Command, Pace, Reached, SpindleState, Way};
use ngc_fixed_length::{GridBox, Nm};
use ngc_machine_files::Machine;
use std::alloc::Allocator;

/// The start of the last series of feeds.
#[derive(Clone, Copy)]
pub struct Entry {
    /// The height at which its first feed began; `None` if nothing was fed since the start or the
    /// last tool change.
    pub height: Option<Nm>,
    /// Whether a following feed belongs to the series.
    pub is_open: bool,
}

/// The tool, the position and the spindle between two commands.
#[derive(Clone, Copy)]
pub struct ToolState {
    pub reached: Reached,
    /// Whether the spindle turns, at a speed above 0.
    pub is_turning: bool,
    pub entry: Entry,
    /// The least box that holds the boxes of all feeds of the program, if a warning needs it.
    pub area: Option<GridBox>,
}

fn turns(spindle: &SpindleState) -> bool
    ensures { result ≡ turns spindle.now }
{
    match spindle {
        SpindleState::Off => false,
        SpindleState::Turning(_, speed) => 0 < *speed,
    }
}

fn is_turning_after(was: bool, action: &Action) -> bool
    ensures { result ≡ is_turning_after was action.now }
{
    match action {
        Action::Spindle(spindle) => turns(spindle),
        Action::Mount(_) => false,
        _ => was,
    }
}

impl Entry {
    fn none() -> Entry
        ensures { result ≡ no_entry }
    {
        Entry {
            height: None,
            is_open: false,
        }
    }

    fn entered(self, z: Nm, pace: &Pace) -> Entry
        ensures { result ≡ entered z self pace.now }
    {
        match pace {
            Pace::Rapid => Entry {
                is_open: false,
                ..self
            },
            Pace::Feed(_) => Entry {
                height: if self.is_open { self.height } else { Some(z) },
                is_open: true,
            },
        }
    }

    fn after(self, z: Nm, action: &Action) -> Entry
        ensures { result ≡ entry_after z self action.now }
    {
        match action {
            Action::Move(motion) => self.entered(z, &motion.pace),
            Action::Mount(_) => Entry::none(),
            _ => self,
        }
    }
}

fn with_box(found: &Option<GridBox>, bounds: GridBox) -> Option<GridBox>
    ensures { result ≡ with_box found.now bounds }
{
    match found {
        Some(found) => Some(joint_box(found, &bounds)),
        None => Some(bounds),
    }
}

fn with_way(step: Nm, found: Option<GridBox>, pace: &Pace, way: &Way) -> Option<GridBox>
    requires { IsStep step }
    ensures { result ≡ with_way step found pace.now way.now }
{
    match pace {
        Pace::Rapid => found,
        Pace::Feed(_) => with_box(&found, reach(step, way)),
    }
}

fn with_feed(step: Nm, found: Option<GridBox>, action: &Action) -> Option<GridBox>
    requires { IsStep step }
    ensures { result ≡ with_feed step found action.now }
{
    match action {
        Action::Move(motion) => with_way(step, found, &motion.pace, &motion.way),
        _ => found,
    }
}

fn area(step: Nm, commands: &[Command]) -> Option<GridBox>
    requires { IsStep step }
    ensures { result ≡ area step None commands.now }
{
    let mut found = None;
    for command in commands {
        found = with_feed(step, found, &command.action);
    }
    found
}

fn area_for(concern: Concern, step: Nm, commands: &[Command]) -> Option<GridBox>
    requires { IsStep step }
    ensures { result ≡ area_for concern step commands.now }
{
    match concern {
        Concern::LowAcross => area(step, commands),
        _ => None,
    }
}

impl ToolState {
    /// Returns the state before the first command: at the start, without a tool, with the spindle
    /// off.
    pub(crate) fn at_start<A: Allocator>(
        machine: &Machine<A>,
        concern: Concern,
        commands: &[Command],
    ) -> ToolState
        ensures { result ≡ beginning (file_of machine.now) concern commands.now }
    {
        ToolState {
            reached: Reached::at_start(machine),
            is_turning: false,
            entry: Entry::none(),
            area: area_for(concern, machine.step, commands),
        }
    }

    /// Returns the state after an action.
    pub(crate) fn after(self, action: &Action) -> ToolState
        ensures { result ≡ next self action.now }
    {
        ToolState {
            reached: self.reached.after(action),
            is_turning: is_turning_after(self.is_turning, action),
            entry: self.entry.after(self.reached.place.z, action),
            area: self.area,
        }
    }
}
