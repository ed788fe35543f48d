//! A move after the held one.
ghost use Rattle.std.specs.Prelude.{◌≡◌, ◌<◌, ◌≤◌, IfSome, unwrap_or};
ghost use Rattle.ngc_compensation.specs.Bounds.{IsNear, IsNearHeld, IsNearMotion, IsNearMove};
ghost use Rattle.ngc_compensation.specs.Bounds.{AreDirections, GoesOn, IsNearJoined};
ghost use Rattle.ngc_compensation.specs.Limits.{IsWithin};
ghost use Rattle.ngc_compensation.specs.Sides.{apart as apart_of};
ghost use Rattle.ngc_compensation.specs.Steps as spec;

use crate::join::{Joined, join};
use crate::moves::{Compensation, Held, Motion, Move, Outcome, Side};
use crate::normal::{Normals, normals_of, radius_of};
use crate::offset::beside;
use crate::refusal::Refusal;
use crate::start::holding;
use crate::vector::{apart, from};
use crate::way::{is_close, keeps_end, keeps_start, runs_on, stays_short};
use ngc_fixed_length::{Point2, Turn};

// Returns the end of the held move, moved or not.
fn end_of<'a>(held: &'a Held, moved: &'a Option<Point2>) -> &'a Point2
    ensures { result.now ≡ unwrap_or moved.now held.now.end }
{
    match moved {
        Some(end) => end,
        None => &held.end,
    }
}

// Returns whether the held move still goes in its own direction.
fn keeps_way(side: Side, held: &Held, moved: &Option<Point2>) -> bool
    requires held { IsNearHeld held.now }
    requires moved { IfSome moved.now (IsWithin 5000000000) }
    ensures { result ≡ spec.keeps_way side held.now moved.now held.now.motion }
{
    match &held.motion {
        Motion::Traverse | Motion::Feed => {
            runs_on(side, &held.normal, &held.start, end_of(held, moved))
        }
        Motion::Arc(turn, centre) => match moved {
            None => true,
            Some(end) => keeps_start(
                *turn,
                &from(centre, &held.start),
                &from(centre, &held.end),
                &from(centre, end),
            ),
        },
    }
}

/// Returns the held move as it is made, with another end if there is one.
pub(crate) fn settled(side: Side, held: &Held, moved: &Option<Point2>) -> Result<Move, Refusal>
    requires held { IsNearHeld held.now }
    requires moved { IfSome moved.now (IsWithin 5000000000) }
    ensures { result ≡ spec.settled side held.now moved.now }
{
    if !keeps_way(side, held, moved) {
        return Err(Refusal::Backwards);
    }
    Ok(Move {
        motion: held.motion,
        end: *end_of(held, moved),
        height: held.height,
    })
}

fn circle_end(start: &Point2, end: &Point2) -> Result<Point2, Refusal>
    ensures { result ≡ spec.circle_end start.now end.now }
{
    if is_close(start, end) {
        Ok(*start)
    } else {
        Err(Refusal::Backwards)
    }
}

// Returns the tool's end of an arc that isn't begun later.
fn whole_arc(
    ends: &(Point2, Point2),
    turn: Turn,
    centre: &Point2,
    start: &Point2,
    end: &Point2,
) -> Result<Point2, Refusal>
    requires place { IsWithin 5000000000 ends.now.0 }
    requires programmed { IsWithin 5000000000 ends.now.1 }
    requires centre { IsWithin 5000000000 centre.now }
    requires start { IsWithin 5000000000 start.now }
    requires end { IsWithin 5000000000 end.now }
    ensures { result
        ≡ spec.whole_arc ends.now.0 ends.now.1 turn centre.now start.now end.now }
{
    if apart(&ends.0, &ends.1) == 0 {
        return circle_end(start, end);
    }
    let seen = (from(centre, &ends.0), from(centre, &ends.1));
    if stays_short(turn, &seen, &from(centre, start), &from(centre, end)) {
        Ok(*end)
    } else {
        Err(Refusal::Backwards)
    }
}

// Returns the tool's end of an arc that begins later.
fn later_arc(
    first: &Point2,
    turn: Turn,
    centre: &Point2,
    start: &Point2,
    end: &Point2,
) -> Result<Point2, Refusal>
    requires first { IsWithin 5000000000 first.now }
    requires centre { IsWithin 5000000000 centre.now }
    requires start { IsWithin 5000000000 start.now }
    requires end { IsWithin 5000000000 end.now }
    ensures { result ≡ spec.later_arc first.now turn centre.now start.now end.now }
{
    let begun = from(centre, first);
    if keeps_end(turn, &begun, &from(centre, end), &from(centre, start)) {
        Ok(*end)
    } else {
        Err(Refusal::Backwards)
    }
}

// Returns the tool's end of a move that would end at `end`, or refuses it.
fn last_place(
    compensation: &Compensation,
    next: &Move,
    normals: &Normals,
    junction: &Joined,
    end: &Point2,
) -> Result<Point2, Refusal>
    requires near { IsNear compensation.now }
    requires next { IsNearMove next.now }
    requires normals { AreDirections normals.now }
    requires junction { IsNearJoined junction.now }
    requires end { IsWithin 5000000000 end.now }
    ensures { result
        ≡ spec.last_place compensation.now next.now normals.now junction.now end.now
        next.now.motion }
{
    match &next.motion {
        Motion::Traverse | Motion::Feed => Ok(*end),
        Motion::Arc(turn, centre) => {
            let place = &compensation.place;
            if junction.moved.is_some() {
                let first = beside(place, radius_of(compensation), &normals.first);
                later_arc(&first, *turn, centre, &junction.start, end)
            } else {
                let ends = (*place, next.end);
                whole_arc(&ends, *turn, centre, &junction.start, end)
            }
        }
    }
}

#[tactic(auto, unfolding(crate::specs::Steps::follow_to))]
fn follow_to(
    compensation: &Compensation,
    held: &Held,
    next: &Move,
    normals: &Normals,
    end: &Point2,
) -> Result<Outcome, Refusal>
    requires near { IsNear compensation.now }
    requires held { IsNearHeld held.now }
    requires next { IsNearMove next.now }
    requires normals { AreDirections normals.now }
    requires end { IsWithin 5000000000 end.now }
    ensures { result
        ≡ spec.follow_to compensation.now held.now next.now normals.now end.now }
{
    let junction = join(compensation, held, &next.motion, normals, end)?;
    let made = settled(compensation.side, held, &junction.moved)?;
    let last = last_place(compensation, next, normals, &junction, end)?;
    Ok(Outcome {
        made: Some(made),
        corner: junction.corner,
        next: holding(
            compensation,
            next,
            next.motion,
            &junction.start,
            &last,
            &normals.last,
        ),
    })
}

/// Returns what follows from a move after the held one, which goes somewhere else.
#[tactic(auto, unfolding(crate::specs::Steps::follow))]
pub(crate) fn follow(
    compensation: &Compensation,
    held: &Held,
    next: &Move,
) -> Result<Outcome, Refusal>
    requires near { IsNear compensation.now }
    requires held { IsNearHeld held.now }
    requires next { IsNearMove next.now }
    requires some { GoesOn compensation.now.place next.now.end next.now.motion }
    ensures { result ≡ spec.follow compensation.now held.now next.now }
{
    let directions = normals_of(compensation, &next.end, &next.motion)?;
    let end = beside(&next.end, radius_of(compensation), &directions.last);
    follow_to(compensation, held, next, &directions, &end)
}
