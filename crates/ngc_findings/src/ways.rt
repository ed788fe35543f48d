//! The lengths of straight paths, in nanometres.
ghost use Rattle.std.specs.Prelude.{◌≡◌, ◌*◌, ◌^◌, ◌<◌, ◌≤◌, ◌-ℤ◌, unsigned_abs};
ghost use Rattle.ngc_findings.specs.Ways.{square_between, line_length, straight_length, length_of};

use ngc_commands::{Action, Command, Way};
use ngc_fixed_length::{Nm, Point3, root_floor};

fn distance(from: Nm, to: Nm) -> u64
    ensures value { result ≡ unsigned_abs (to -ℤ from) }
    ensures bound { result ≤ 2 * 10 ^ 11 }
{
    (to.nanometres() - from.nanometres()).unsigned_abs()
}

pub(crate) fn square_between(from: Nm, to: Nm) -> u128
    ensures value { result ≡ square_between from to }
    ensures bound { result ≤ 4 * 10 ^ 22 }
{
    let distance = u128::from(distance(from, to));
    distance * distance
}

fn line_length(start: &Point3, end: &Point3) -> u64
    ensures value { result ≡ line_length start.now end.now }
    ensures bound { result < 2 ^ 39 }
{
    root_floor(
        square_between(start.x, end.x)
            + square_between(start.y, end.y)
            + square_between(start.z, end.z),
    )
}

fn straight_length(way: &Way) -> u64
    ensures value { result ≡ straight_length way.now }
    ensures bound { result < 2 ^ 39 }
{
    match way {
        Way::Line { start, end } => line_length(start, end),
        Way::Arc(_) => 0,
    }
}

/// Returns the length of the line along which a command moves, rounded down to a nanometre, or 0 if
/// there is no line.
pub(crate) fn length_of(command: &Command) -> u64
    ensures value { result ≡ length_of command.now }
    ensures bound { result < 2 ^ 39 }
{
    match &command.action {
        Action::Move(motion) => straight_length(&motion.way),
        _ => 0,
    }
}
