//! Corners of the programmed path.
ghost use Rattle.std.specs.Prelude.{◌≡◌, ◌*◌, ◌^◌, ◌≤◌, unsigned_abs};
ghost use Rattle.ngc_compensation.specs.Limits.{IsWithin};
ghost use Rattle.ngc_compensation.specs.Corners as spec;

use crate::moves::{Motion, Side};
use crate::vector::{cross, dot, is_inside};
use ngc_fixed_length::Point2;

/// A corner between two moves: none, one that the tool goes round, or one that it goes short of.
#[derive(Clone, Copy)]
pub(crate) enum Joint {
    Straight,
    Outside,
    Inside,
}

// Returns how far the path turns away from the tool.
fn away(side: Side, turn: i128) -> i128
    requires { unsigned_abs turn ≤ 2 * 10 ^ 20 }
    ensures value { result ≡ spec.away side turn }
    ensures bound { unsigned_abs result ≤ 2 * 10 ^ 20 }
{
    match side {
        Side::Left => -turn,
        Side::Right => turn,
    }
}

fn is_slight(across: i128, along: i128) -> bool
    requires across { unsigned_abs across ≤ 2 * 10 ^ 20 }
    requires along { unsigned_abs along ≤ 2 * 10 ^ 20 }
    ensures { result ≡ spec.is_slight across along }
{
    1199 * across.unsigned_abs() <= 60 * along.unsigned_abs()
}

fn joint_of(out: i128, along: i128, wide: bool) -> Joint
    requires out { unsigned_abs out ≤ 2 * 10 ^ 20 }
    requires along { unsigned_abs along ≤ 2 * 10 ^ 20 }
    ensures { result ≡ spec.joint_of out along wide }
{
    if is_slight(out, along) {
        if 0 < along {
            Joint::Straight
        } else if wide {
            Joint::Outside
        } else {
            Joint::Inside
        }
    } else if 0 < out {
        Joint::Outside
    } else {
        Joint::Inside
    }
}

/// Returns the corner between two moves, from the directions to the tool on both sides of it.
pub(crate) fn joint_between(side: Side, wide: bool, first: &Point2, second: &Point2) -> Joint
    requires first { IsWithin 10000000000 first.now }
    requires second { IsWithin 10000000000 second.now }
    ensures { result ≡ spec.joint side wide first.now second.now }
{
    let out = away(side, cross(first, second));
    joint_of(out, dot(first, second), wide)
}

/// Returns whether a sharp reversal is an outside corner.
pub(crate) fn is_wide(side: Side, held: &Motion, next: &Motion) -> bool
    ensures { result ≡ spec.is_wide side held.now next.now }
{
    match next {
        Motion::Arc(turn, _) => is_inside(side, *turn),
        Motion::Traverse | Motion::Feed => match held {
            Motion::Arc(turn, _) => is_inside(side, *turn),
            Motion::Traverse | Motion::Feed => true,
        },
    }
}
