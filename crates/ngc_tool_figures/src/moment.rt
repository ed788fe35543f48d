//! The state between two commands, as far as the figures of a tool need it.
ghost use Rattle.std.specs.Prelude.{◌≡◌, ◌≤◌};
ghost use Rattle.ngc_tool_figures.specs.Moments.{beginning, hole_count, is_mounted, next};

use crate::dive::{Dive, dive_after};
use ngc_commands::{Action, SpindleState};
use ngc_machine_files::Tool;

/// The state between two commands.
#[derive(Clone, Copy)]
pub struct Moment {
    /// Whether the tool is mounted.
    pub is_mounted: bool,
    pub spindle: SpindleState,
    pub dive: Option<Dive>,
}

/// Returns whether the tool in the spindle is the one with this number, or whether there is none
/// and none is meant.
pub(crate) fn is_mounted(number: Option<u32>, tool: &Option<Tool>) -> bool
    ensures { result ≡ is_mounted number tool.now }
{
    match (number, tool) {
        (None, None) => true,
        (Some(number), Some(tool)) => number == tool.number,
        _ => false,
    }
}

impl Moment {
    /// Returns the state before the first command: no tool is mounted.
    pub(crate) fn at_start(number: Option<u32>) -> Moment
        ensures { result ≡ beginning number }
    {
        Moment {
            is_mounted: is_mounted(number, &None),
            spindle: SpindleState::Off,
            dive: None,
        }
    }

    /// Returns the state after an action.
    pub(crate) fn after(&self, number: Option<u32>, action: &Action) -> Moment
        ensures { result ≡ next number self.now action.now }
    {
        match action {
            Action::Move(motion) => Moment {
                dive: dive_after(self.dive, motion),
                ..*self
            },
            Action::Mount(tool) => Moment {
                is_mounted: is_mounted(number, tool),
                spindle: SpindleState::Off,
                dive: None,
            },
            Action::Spindle(spindle) => Moment {
                spindle: *spindle,
                ..*self
            },
            _ => *self,
        }
    }

    /// Returns 1 if the tool has drilled a hole where it is, and the axes are above its bottom.
    pub(crate) fn hole_count(&self) -> u128
        ensures value { result ≡ hole_count self.now }
        ensures bound { result ≤ 1 }
    {
        match &self.dive {
            Some(dive) if self.is_mounted && dive.is_out => 1,
            _ => 0,
        }
    }
}
