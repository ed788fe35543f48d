//! The entry move.
ghost use Rattle.std.specs.Prelude.{◌≡◌, ◌≢◌, ◌^◌, ◌*◌, ◌≤◌, pos, unsigned_abs};
ghost use Rattle.ngc_compensation.specs.Bounds.{IsDirection, IsNear, IsNearMotion, IsNearMove};
ghost use Rattle.ngc_compensation.specs.Entries as spec;
ghost use Rattle.ngc_compensation.specs.Limits.{IsWithin};

use crate::moves::{Compensation, Held, Motion, Move, Outcome};
use crate::normal::{arc_normal, is_too_small, line_normal, radius_of};
use crate::offset::{beside, quotient, reached, times};
use crate::refusal::{Refusal, needed};
use crate::vector::{apart, dot, from};
use ngc_fixed_length::{Point2, Turn};

/// Returns the compensation after a move whose end is held.
pub(crate) fn holding(
    compensation: &Compensation,
    next: &Move,
    motion: Motion,
    start: &Point2,
    end: &Point2,
    normal: &Point2,
) -> Compensation
    ensures { result
        ≡ spec.holding compensation.now next.now motion start.now end.now normal.now }
{
    Compensation {
        side: compensation.side,
        radius: compensation.radius,
        place: next.end,
        height: next.height,
        held: Some(Held {
            motion,
            start: *start,
            end: *end,
            height: next.height,
            normal: *normal,
        }),
    }
}

fn entered(compensation: &Compensation, next: &Move, motion: Motion, normal: &Point2) -> Outcome
    requires near { IsNear compensation.now }
    requires next { IsNearMove next.now }
    requires normal { IsDirection normal.now }
    ensures { result ≡ spec.entered compensation.now next.now motion normal.now }
{
    let end = beside(&next.end, radius_of(compensation), normal);
    Outcome {
        made: None,
        corner: None,
        next: holding(
            compensation,
            next,
            motion,
            &compensation.place,
            &end,
            normal,
        ),
    }
}

// Returns the point in a direction from another at `square / divisor` times its length.
#[tactic(auto, unfolding(crate::specs::Entries::centre_at))]
fn centre_at(end: &Point2, direction: &Point2, square: u128, divisor: i128) -> Option<Point2>
    requires direction { IsWithin 10000000000 direction.now }
    requires square { square ≤ 2 * 10 ^ 20 }
    requires some { divisor ≢ pos 0 }
    requires divisor { unsigned_abs divisor ≤ 4 * 10 ^ 20 }
    ensures { result ≡ spec.centre_at end.now direction.now square divisor }
{
    let factor = square as i128;
    let u = quotient(times(direction.u, factor), divisor);
    let v = quotient(times(direction.v, factor), divisor);
    reached(end, u, v)
}

// Returns the centre of the arc from start to end that ends there about a centre in a direction.
fn entry_centre(start: &Point2, end: &Point2, direction: &Point2) -> Option<Point2>
    requires start { IsWithin 5000000000 start.now }
    requires end { IsWithin 5000000000 end.now }
    requires direction { IsWithin 10000000000 direction.now }
    ensures { result ≡ spec.entry_centre start.now end.now direction.now }
{
    let along = dot(&from(end, start), direction);
    if along <= 0 {
        return None;
    }
    centre_at(end, direction, apart(end, start), along + along)
}

fn enter_with(
    compensation: &Compensation,
    next: &Move,
    turn: Turn,
    centre: &Point2,
    normal: &Point2,
) -> Result<Outcome, Refusal>
    requires near { IsNear compensation.now }
    requires next { IsNearMove next.now }
    requires centre { IsWithin 4000000000 centre.now }
    requires normal { IsDirection normal.now }
    ensures { result
        ≡ spec.enter_with compensation.now next.now turn centre.now normal.now }
{
    let end = beside(&next.end, radius_of(compensation), normal);
    let direction = from(&next.end, centre);
    let found = entry_centre(&compensation.place, &end, &direction);
    let new_centre = needed(Refusal::NoEntryArc, found)?;
    Ok(entered(compensation, next, Motion::Arc(turn, new_centre), normal))
}

fn enter_arc(
    compensation: &Compensation,
    next: &Move,
    turn: Turn,
    centre: &Point2,
) -> Result<Outcome, Refusal>
    requires near { IsNear compensation.now }
    requires next { IsNearMove next.now }
    requires centre { IsWithin 4000000000 centre.now }
    ensures { result ≡ spec.enter_arc compensation.now next.now turn centre.now }
{
    let side = compensation.side;
    if is_too_small(side, radius_of(compensation), turn, centre, &next.end) {
        return Err(Refusal::ArcTooSmall);
    }
    let normal = arc_normal(side, turn, centre, &next.end);
    enter_with(compensation, next, turn, centre, &normal)
}

/// Returns what follows from the entry move.
#[tactic(auto, unfolding(crate::specs::Entries::enter))]
pub(crate) fn enter(compensation: &Compensation, next: &Move) -> Result<Outcome, Refusal>
    requires near { IsNear compensation.now }
    requires next { IsNearMove next.now }
    ensures { result ≡ spec.enter compensation.now next.now }
{
    let radius = radius_of(compensation);
    if apart(&compensation.place, &next.end) <= u128::from(radius * radius) {
        return Err(Refusal::EntryTooShort);
    }
    match next.motion {
        Motion::Arc(turn, centre) => enter_arc(compensation, next, turn, &centre),
        motion => {
            let normal = line_normal(compensation.side, &compensation.place, &next.end);
            Ok(entered(compensation, next, motion, &normal))
        }
    }
}
