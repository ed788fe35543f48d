//! The state between two commands, as far as a warning about tools needs it.
ghost use Rattle.std.specs.Prelude.{◌≡◌, None};
ghost use Rattle.std.specs.Int.{int_min};
ghost use Rattle.ngc_machine_files.specs.Machine.{file_of};
ghost use Rattle.ngc_tool_warnings.specs.Betweens.{beginning, began_after, began_with, deeper};
ghost use Rattle.ngc_tool_warnings.specs.Betweens.{fed_after, fed_with, has_stopped_after, is_upright};
ghost use Rattle.ngc_tool_warnings.specs.Betweens.{has_moved_after, next};

use ngc_commands::{Action, Pace, Reached, Way};
use ngc_fixed_length::Nm;
use ngc_machine_files::Machine;
use std::alloc::Allocator;

/// The state between two commands.
#[derive(Clone, Copy)]
pub struct Between {
    pub reached: Reached,
    /// The height at which the first feed with the mounted tool began; `None` before that feed.
    pub began: Option<Nm>,
    /// The lowest height to which the program fed where the axes are now, as seen from above;
    /// `None` if they came there by a traverse.
    pub fed: Option<Nm>,
    /// Whether the axes have moved.
    pub has_moved: bool,
    /// Whether the program has stopped since the last motion.
    pub has_stopped: bool,
}

/// Returns whether a path goes straight up or down.
pub(crate) fn is_upright(way: &Way) -> bool
    ensures { result ≡ is_upright way.now }
{
    match way {
        Way::Line { start, end } => {
            start.x.nanometres() == end.x.nanometres() && start.y.nanometres() == end.y.nanometres()
        }
        Way::Arc(_) => false,
    }
}

fn began_with(z: Nm, had: Option<Nm>, pace: &Pace) -> Option<Nm>
    ensures { result ≡ began_with z had pace.now }
{
    match (pace, had) {
        (Pace::Rapid, _) | (Pace::Feed(_), Some(_)) => had,
        (Pace::Feed(_), None) => Some(z),
    }
}

fn began_after(z: Nm, had: Option<Nm>, action: &Action) -> Option<Nm>
    ensures { result ≡ began_after z had action.now }
{
    match action {
        Action::Move(motion) => began_with(z, had, &motion.pace),
        Action::Mount(_) => None,
        _ => had,
    }
}

fn lesser(a: Nm, b: Nm) -> Nm
    ensures { result ≡ int_min a b }
{
    if b.nanometres() < a.nanometres() {
        b
    } else {
        a
    }
}

fn deeper(had: Option<Nm>, z: Nm) -> Nm
    ensures { result ≡ deeper had z }
{
    match had {
        None => z,
        Some(deepest) => lesser(deepest, z),
    }
}

fn fed_with(had: Option<Nm>, pace: &Pace, way: &Way) -> Option<Nm>
    ensures { result ≡ fed_with had pace.now way.now }
{
    let before = if is_upright(way) { had } else { None };
    match pace {
        Pace::Rapid => before,
        Pace::Feed(_) => Some(deeper(before, way.end().z)),
    }
}

fn fed_after(had: Option<Nm>, action: &Action) -> Option<Nm>
    ensures { result ≡ fed_after had action.now }
{
    match action {
        Action::Move(motion) => fed_with(had, &motion.pace, &motion.way),
        _ => had,
    }
}

fn has_stopped_after(had: bool, action: &Action) -> bool
    ensures { result ≡ has_stopped_after had action.now }
{
    match action {
        Action::Move(_) => false,
        Action::Stop | Action::OptionalStop => true,
        _ => had,
    }
}

fn has_moved_after(had: bool, action: &Action) -> bool
    ensures { result ≡ has_moved_after had action.now }
{
    match action {
        Action::Move(_) => true,
        _ => had,
    }
}

impl Between {
    /// Returns the state before the first command.
    pub(crate) fn at_start<A: Allocator>(machine: &Machine<A>) -> Between
        ensures { result ≡ beginning (file_of machine.now) }
    {
        Between {
            reached: Reached::at_start(machine),
            began: None,
            fed: None,
            has_moved: false,
            has_stopped: false,
        }
    }

    /// Returns the state after an action.
    pub(crate) fn after(&self, action: &Action) -> Between
        ensures { result ≡ next self.now action.now }
    {
        Between {
            reached: self.reached.after(action),
            began: began_after(self.reached.place.z, self.began, action),
            fed: fed_after(self.fed, action),
            has_moved: has_moved_after(self.has_moved, action),
            has_stopped: has_stopped_after(self.has_stopped, action),
        }
    }
}
