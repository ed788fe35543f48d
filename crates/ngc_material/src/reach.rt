//! Which commands are near enough to a stock.
ghost use Rattle.std.specs.Prelude.{◌≡◌};
ghost use Rattle.ngc_material.specs.Heights.{is_reached, is_way_reached, is_action_reached, are_reached};

use ngc_commands::{Action, Command, Way};
use ngc_fixed_length::Point3;

/// Returns whether a point is within two metres of the machine's zero, in the plane.
pub(crate) fn is_reached(point: &Point3) -> bool
    ensures { result ≡ is_reached point.now }
{
    point.x.nanometres().unsigned_abs() <= 2_000_000_000
        && point.y.nanometres().unsigned_abs() <= 2_000_000_000
}

fn is_way_reached(way: &Way) -> bool
    ensures { result ≡ is_way_reached way.now }
{
    match way {
        Way::Line { start, end } => is_reached(start) && is_reached(end),
        Way::Arc(arc) => is_reached(&arc.end()),
    }
}

fn is_action_reached(action: &Action) -> bool
    ensures { result ≡ is_action_reached action.now }
{
    match action {
        Action::Move(motion) => is_way_reached(&motion.way),
        _ => true,
    }
}

/// Returns whether all straight motions, and the ends of arcs, are within two metres of the machine's
/// zero, in the plane.
pub(crate) fn are_reached(commands: &[Command]) -> bool
    ensures { result ≡ are_reached commands.now }
{
    for command in commands {
        if !is_action_reached(&command.action) {
            return false;
        }
    }
    true
}
