//! The directions from the path to the tool, at a move's beginning and at its end.
ghost use Rattle.std.specs.Prelude.{◌≡◌, ◌*◌, ◌<◌, ◌≤◌, unsigned_abs, IfOk};
ghost use Rattle.ngc_compensation.specs.Bounds.{IsDirection, IsNear, IsNearMotion, GoesOn};
ghost use Rattle.ngc_compensation.specs.Bounds.{AreDirections};
ghost use Rattle.ngc_compensation.specs.Entries.{radius_of as radius_in, arc_normal as arc_normal_of};
ghost use Rattle.ngc_compensation.specs.Entries.{is_too_small as is_small_arc};
ghost use Rattle.ngc_compensation.specs.Limits.{IsWithin};
ghost use Rattle.ngc_compensation.specs.Sides.{apart as apart_of, turned as turned_of};
ghost use Rattle.ngc_compensation.specs.Steps as spec;

use crate::moves::{Compensation, Motion, Side};
use crate::refusal::Refusal;
use crate::vector::{apart, backward, from, is_inside, turned};
use ngc_fixed_length::{Point2, Turn};

/// The directions from the path to the tool, at a move's beginning and at its end.
#[derive(Clone, Copy)]
pub(crate) struct Normals {
    pub(crate) first: Point2,
    pub(crate) last: Point2,
}

/// Returns the tool's radius in nanometres.
pub(crate) fn radius_of(compensation: &Compensation) -> u64
    requires { IsNear compensation.now }
    ensures value { result ≡ radius_in compensation.now }
    ensures bound { result ≤ 100000000 }
{
    compensation.radius.nanometres().unsigned_abs()
}

/// Returns the direction from a straight move to the tool.
pub(crate) fn line_normal(side: Side, start: &Point2, end: &Point2) -> Point2
    requires start { IsWithin 5000000000 start.now }
    requires end { IsWithin 5000000000 end.now }
    requires some { 0 < apart_of start.now end.now }
    ensures value { result ≡ spec.line_normal side start.now end.now }
    ensures direction { IsDirection result }
{
    turned(side, &from(start, end))
}

/// Returns the direction from a point of an arc to the tool.
pub(crate) fn arc_normal(side: Side, turn: Turn, centre: &Point2, point: &Point2) -> Point2
    requires centre { IsWithin 5000000000 centre.now }
    requires point { IsWithin 5000000000 point.now }
    requires some { 0 < apart_of point.now centre.now }
    ensures value { result ≡ arc_normal_of side turn centre.now point.now }
    ensures direction { IsDirection result }
{
    let to_centre = from(point, centre);
    if is_inside(side, turn) {
        to_centre
    } else {
        backward(&to_centre)
    }
}

/// Returns whether an arc is too small for the tool, or has no radius.
pub(crate) fn is_too_small(
    side: Side,
    radius: u64,
    turn: Turn,
    centre: &Point2,
    point: &Point2,
) -> bool
    requires radius { radius ≤ 100000000 }
    requires centre { IsWithin 5000000000 centre.now }
    requires point { IsWithin 5000000000 point.now }
    ensures { result ≡ is_small_arc side radius turn centre.now point.now }
{
    let square = apart(point, centre);
    square == 0 || (is_inside(side, turn) && square <= u128::from(radius * radius))
}

fn arc_normals(
    compensation: &Compensation,
    end: &Point2,
    turn: Turn,
    centre: &Point2,
) -> Result<Normals, Refusal>
    requires near { IsNear compensation.now }
    requires end { IsWithin 4000000000 end.now }
    requires centre { IsWithin 4000000000 centre.now }
    ensures value { result ≡ spec.arc_normals compensation.now end.now turn centre.now }
    ensures directions { IfOk result AreDirections }
{
    let start = &compensation.place;
    let side = compensation.side;
    if apart(start, centre) == 0 || is_too_small(side, radius_of(compensation), turn, centre, end) {
        return Err(Refusal::ArcTooSmall);
    }
    Ok(Normals {
        first: arc_normal(side, turn, centre, start),
        last: arc_normal(side, turn, centre, end),
    })
}

fn line_normals(compensation: &Compensation, end: &Point2) -> Normals
    requires near { IsNear compensation.now }
    requires end { IsWithin 4000000000 end.now }
    requires some { 0 < apart_of compensation.now.place end.now }
    ensures value { result ≡ spec.line_normals compensation.now end.now }
    ensures directions { AreDirections result }
{
    let side = compensation.side;
    Normals {
        first: line_normal(side, &compensation.place, end),
        last: line_normal(side, &compensation.place, end),
    }
}

/// Returns the directions of a move to `end`, or refuses an arc that is too small.
pub(crate) fn normals_of(
    compensation: &Compensation,
    end: &Point2,
    motion: &Motion,
) -> Result<Normals, Refusal>
    requires near { IsNear compensation.now }
    requires end { IsWithin 4000000000 end.now }
    requires centre { IsNearMotion 4000000000 motion.now }
    requires some { GoesOn compensation.now.place end.now motion.now }
    ensures value { result ≡ spec.normals compensation.now end.now motion.now }
    ensures directions { IfOk result AreDirections }
{
    match motion {
        Motion::Traverse | Motion::Feed => Ok(line_normals(compensation, end)),
        Motion::Arc(turn, centre) => arc_normals(compensation, end, *turn, centre),
    }
}
