//! The holes that a tool drills.
ghost use Rattle.std.specs.Prelude.{◌≡◌, ◌≤◌};
ghost use Rattle.ngc_tool_figures.specs.Holes.{holes_ended, holes_of};

use crate::dive::fall;
use crate::moment::Moment;
use ngc_commands::{Action, Command};

// Returns the number of holes, at most one, that an action ends.
fn holes_ended(moment: &Moment, action: &Action) -> u128
    ensures value { result ≡ holes_ended moment.now action.now }
    ensures bound { result ≤ 1 }
{
    match action {
        Action::Move(motion) if fall(&motion.way).is_some() => 0,
        Action::Move(_) | Action::Mount(_) => moment.hole_count(),
        _ => 0,
    }
}

/// Returns the number of holes that the tool with this number drills, or that are drilled without
/// a tool.
///
/// A hole is where feeds go straight down, and the axes leave their lowest point upwards before
/// they move aside, the tool is changed or the program ends.
pub fn holes_of(number: Option<u32>, commands: &[Command]) -> u128
    ensures { result ≡ holes_of number commands.now }
{
    let mut holes = 0;
    let mut moment = Moment::at_start(number);
    for command in commands {
        holes += holes_ended(&moment, &command.action);
        moment = moment.after(number, &command.action);
    }
    holes + moment.hole_count()
}
