//! Which programs have arcs that the walk doesn't follow.
ghost use Rattle.std.specs.Prelude.{◌≡◌};
ghost use Rattle.ngc_stock_report.specs.Texts.{is_other, is_other_arc, has_other_arcs};

use ngc_commands::{Action, Command, Motion, Way};
use ngc_fixed_length::Plane;

fn is_other(plane: Plane) -> bool
    ensures { result ≡ is_other plane }
{
    match plane {
        Plane::XY => false,
        _ => true,
    }
}

fn is_other_arc(action: &Action) -> bool
    ensures { result ≡ is_other_arc action.now }
{
    match action {
        Action::Move(
            Motion {
                way: Way::Arc(arc),
                ..
            },
        ) => is_other(arc.plane()),
        _ => false,
    }
}

/// Returns whether a program has an arc in another plane than that of X and Y.
pub(crate) fn has_other_arcs(commands: &[Command]) -> bool
    ensures { result ≡ has_other_arcs commands.now }
{
    for command in commands {
        if is_other_arc(&command.action) {
            return true;
        }
    }
    false
}
