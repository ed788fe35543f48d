//! The corner between the held move and the next one.
ghost use Rattle.std.specs.Prelude.{◌≡◌, ◌<◌, ◌≤◌, unsigned_abs, IfOk, IfSome};
ghost use Rattle.ngc_compensation.specs.Bounds.{IsDirection, IsNear, IsNearHeld, IsNearMotion};
ghost use Rattle.ngc_compensation.specs.Bounds.{AreDirections, IsNearJoined};
ghost use Rattle.ngc_compensation.specs.Limits.{IsWithin};
ghost use Rattle.ngc_compensation.specs.Steps as spec;

use crate::corner::{Joint, is_wide, joint_between};
use crate::meet::{circles_meet, line_meets, lines_meet};
use crate::moves::{Compensation, Held, Motion, Move};
use crate::normal::{Normals, radius_of};
use crate::offset::beside;
use crate::refusal::{Refusal, needed};
use crate::vector::{apart, centre_side, is_inside, opposite, turn_about};
use ngc_fixed_length::{Point2, Turn};

/// How a move follows the held one: where it begins, the moved end of the held one, and a corner's
/// move between both.
#[derive(Clone, Copy)]
pub(crate) struct Joined {
    pub(crate) start: Point2,
    pub(crate) moved: Option<Point2>,
    pub(crate) corner: Option<Move>,
}

// Returns where the held path meets a straight one.
fn meet_line(compensation: &Compensation, held: &Held, first: &Point2) -> Option<Point2>
    requires near { IsNear compensation.now }
    requires held { IsNearHeld held.now }
    requires first { IsDirection first.now }
    ensures value { result
        ≡ spec.meet_line compensation.now held.now first.now held.now.motion }
    ensures near { IfSome result (IsWithin 5000000000) }
{
    let side = compensation.side;
    let place = &compensation.place;
    let radius = radius_of(compensation);
    match &held.motion {
        Motion::Traverse | Motion::Feed => lines_meet(place, radius, &held.normal, first),
        Motion::Arc(turn, centre) => {
            let other = if is_inside(side, *turn) {
                side
            } else {
                opposite(side)
            };
            line_meets(
                place,
                radius,
                first,
                centre,
                apart(centre, &held.end),
                other,
            )
        }
    }
}

// Returns where the held path meets an arc's, which ends at `end`.
fn meet_arc(
    compensation: &Compensation,
    held: &Held,
    end: &Point2,
    turn: Turn,
    centre: &Point2,
) -> Option<Point2>
    requires near { IsNear compensation.now }
    requires held { IsNearHeld held.now }
    requires end { IsWithin 5000000000 end.now }
    requires centre { IsWithin 5000000000 centre.now }
    ensures value { result
        ≡ spec.meet_arc compensation.now held.now end.now turn centre.now held.now.motion }
    ensures near { IfSome result (IsWithin 5000000000) }
{
    let side = compensation.side;
    let square = apart(centre, end);
    match &held.motion {
        Motion::Arc(old, other) => {
            let inner = centre_side(turn);
            let on = if is_inside(side, *old) {
                inner
            } else {
                opposite(inner)
            };
            circles_meet(other, apart(other, &held.end), centre, square, on)
        }
        Motion::Traverse | Motion::Feed => {
            let on = if is_inside(side, turn) {
                opposite(side)
            } else {
                side
            };
            let radius = radius_of(compensation);
            line_meets(
                &compensation.place,
                radius,
                &held.normal,
                centre,
                square,
                on,
            )
        }
    }
}

// Returns where the held path meets that of a move to `end`.
fn meet(
    compensation: &Compensation,
    held: &Held,
    first: &Point2,
    end: &Point2,
    motion: &Motion,
) -> Option<Point2>
    requires near { IsNear compensation.now }
    requires held { IsNearHeld held.now }
    requires first { IsDirection first.now }
    requires end { IsWithin 5000000000 end.now }
    requires centre { IsNearMotion 4000000000 motion.now }
    ensures value { result
        ≡ spec.meet compensation.now held.now first.now end.now motion.now }
    ensures near { IfSome result (IsWithin 5000000000) }
{
    match motion {
        Motion::Traverse | Motion::Feed => meet_line(compensation, held, first),
        Motion::Arc(turn, centre) => meet_arc(compensation, held, end, *turn, centre),
    }
}

fn corner_motion(compensation: &Compensation, motion: &Motion) -> Motion
    ensures { result ≡ spec.corner_motion compensation.now motion.now }
{
    match motion {
        Motion::Traverse => Motion::Traverse,
        Motion::Feed | Motion::Arc(_, _) => {
            Motion::Arc(turn_about(opposite(compensation.side)), compensation.place)
        }
    }
}

fn round_corner(compensation: &Compensation, motion: &Motion, end: &Point2) -> Joined
    ensures { result ≡ spec.round_corner compensation.now motion.now end.now }
{
    Joined {
        start: *end,
        moved: None,
        corner: Some(Move {
            motion: corner_motion(compensation, motion),
            end: *end,
            height: compensation.height,
        }),
    }
}

fn begun_at(place: &Point2) -> Joined
    requires { IsWithin 5000000000 place.now }
    ensures value { result ≡ spec.begun_at place.now }
    ensures near { IsNearJoined result }
{
    Joined {
        start: *place,
        moved: Some(*place),
        corner: None,
    }
}

/// Returns how a move to `end` follows the held one.
pub(crate) fn join(
    compensation: &Compensation,
    held: &Held,
    motion: &Motion,
    normals: &Normals,
    end: &Point2,
) -> Result<Joined, Refusal>
    requires near { IsNear compensation.now }
    requires held { IsNearHeld held.now }
    requires centre { IsNearMotion 4000000000 motion.now }
    requires normals { AreDirections normals.now }
    requires end { IsWithin 5000000000 end.now }
    ensures value { result
        ≡ spec.joined compensation.now held.now motion.now normals.now end.now }
    ensures near { IfOk result IsNearJoined }
{
    let first = &normals.first;
    let wide = is_wide(compensation.side, &held.motion, motion);
    match joint_between(compensation.side, wide, &held.normal, first) {
        Joint::Straight => Ok(Joined {
            start: held.end,
            moved: None,
            corner: None,
        }),
        Joint::Outside => {
            let start = beside(&compensation.place, radius_of(compensation), first);
            Ok(round_corner(compensation, motion, &start))
        }
        Joint::Inside => {
            let meeting = meet(compensation, held, first, end, motion);
            Ok(begun_at(&needed(Refusal::NoIntersection, meeting)?))
        }
    }
}
