//! Whether a move still goes in its own direction.
ghost use Rattle.std.specs.Prelude.{◌≡◌, ◌^◌, ◌*◌, ◌≤◌, unsigned_abs};
ghost use Rattle.ngc_compensation.specs.Limits.{IsWithin};
ghost use Rattle.ngc_compensation.specs.Ways as spec;

use crate::moves::Side;
use crate::vector::{cross, dot, from, opposite, turned};
use ngc_fixed_length::{Nm, Point2, Turn};

// Returns twice the area that two vectors span, above 0 in an arc's direction.
fn turning(turn: Turn, first: &Point2, second: &Point2) -> i128
    requires first { IsWithin 10000000000 first.now }
    requires second { IsWithin 10000000000 second.now }
    ensures value { result ≡ spec.turning turn first.now second.now }
{
    match turn {
        Turn::Counterclockwise => cross(first, second),
        Turn::Clockwise => cross(second, first),
    }
}

fn is_ahead(turn: Turn, first: &Point2, second: &Point2) -> bool
    requires first { IsWithin 10000000000 first.now }
    requires second { IsWithin 10000000000 second.now }
    ensures { result ≡ spec.is_ahead turn first.now second.now }
{
    0 <= turning(turn, first, second)
}

fn is_same_direction(first: &Point2, second: &Point2) -> bool
    requires first { IsWithin 10000000000 first.now }
    requires second { IsWithin 10000000000 second.now }
    ensures { result ≡ spec.is_same_direction first.now second.now }
{
    cross(first, second) == 0 && 0 < dot(first, second)
}

// Returns whether a vector is in the sector from the first to the last, both included.
fn is_between(turn: Turn, first: &Point2, last: &Point2, vector: &Point2) -> bool
    requires first { IsWithin 10000000000 first.now }
    requires last { IsWithin 10000000000 last.now }
    requires vector { IsWithin 10000000000 vector.now }
    ensures { result ≡ spec.is_between turn first.now last.now vector.now }
{
    if is_same_direction(first, last) {
        true
    } else if is_ahead(turn, first, last) {
        is_ahead(turn, first, vector) && is_ahead(turn, vector, last)
    } else {
        is_ahead(turn, first, vector) || is_ahead(turn, vector, last)
    }
}

/// Returns whether a straight move goes in the direction of its way, whose side has the direction
/// `normal`.
pub(crate) fn runs_on(side: Side, normal: &Point2, start: &Point2, end: &Point2) -> bool
    requires normal { IsWithin 10000000000 normal.now }
    requires start { IsWithin 5000000000 start.now }
    requires end { IsWithin 5000000000 end.now }
    ensures { result ≡ spec.runs_on side normal.now start.now end.now }
{
    let ahead = turned(opposite(side), normal);
    0 < dot(&from(start, end), &ahead)
}

/// Returns whether the new end of an arc is on its way, beyond its start. All three are seen from
/// the centre.
pub(crate) fn keeps_start(turn: Turn, start: &Point2, end: &Point2, new: &Point2) -> bool
    requires start { IsWithin 10000000000 start.now }
    requires end { IsWithin 10000000000 end.now }
    requires new { IsWithin 10000000000 new.now }
    ensures { result ≡ spec.keeps_start turn start.now end.now new.now }
{
    let goes_back = is_same_direction(start, new);
    is_between(turn, start, end, new) && !goes_back
}

/// Returns whether the new start of an arc is on its way, before its end.
pub(crate) fn keeps_end(turn: Turn, start: &Point2, end: &Point2, new: &Point2) -> bool
    requires start { IsWithin 10000000000 start.now }
    requires end { IsWithin 10000000000 end.now }
    requires new { IsWithin 10000000000 new.now }
    ensures { result ≡ spec.keeps_end turn start.now end.now new.now }
{
    let goes_back = is_same_direction(new, end);
    is_between(turn, start, end, new) && !goes_back
}

// Returns whether an arc between two vectors is less than a quarter of a circle.
fn is_short(turn: Turn, first: &Point2, second: &Point2) -> bool
    requires first { IsWithin 10000000000 first.now }
    requires second { IsWithin 10000000000 second.now }
    ensures { result ≡ spec.is_short turn first.now second.now }
{
    0 < turning(turn, first, second) && 0 < dot(first, second)
}

/// Returns whether an arc of less than a quarter of a circle is one of less than half a circle
/// beside its path.
pub(crate) fn stays_short(
    turn: Turn,
    programmed: &(Point2, Point2),
    start: &Point2,
    end: &Point2,
) -> bool
    requires first { IsWithin 10000000000 programmed.now.0 }
    requires second { IsWithin 10000000000 programmed.now.1 }
    requires start { IsWithin 10000000000 start.now }
    requires end { IsWithin 10000000000 end.now }
    ensures { result
        ≡ spec.stays_short turn programmed.now.0 programmed.now.1 start.now end.now }
{
    let is_long = !is_short(turn, &programmed.0, &programmed.1);
    is_long || 0 < turning(turn, start, end)
}

fn is_close_by(x: Nm, y: Nm) -> bool
    ensures { result ≡ spec.is_close_by x y }
{
    x.nanometres().abs_diff(y.nanometres()) <= 19
}

/// Returns whether two points are less than 20 nm apart on each axis.
pub(crate) fn is_close(first: &Point2, second: &Point2) -> bool
    ensures { result ≡ spec.is_close first.now second.now }
{
    is_close_by(first.u, second.u) && is_close_by(first.v, second.v)
}
