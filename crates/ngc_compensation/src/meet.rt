//! Where the tool's paths on both sides of an inside corner meet.
ghost use Rattle.std.specs.Prelude.{◌≡◌, ◌≢◌, ◌-◌, ◌*◌, ◌^◌, ◌<◌, ◌≤◌, pos, ◌+ℤ◌, ◌-ℤ◌, ◌*ℤ◌};
ghost use Rattle.std.specs.Prelude.{unsigned_abs, IfSome};
ghost use Rattle.ngc_compensation.specs.Sides.{norm as norm_of};
ghost use Rattle.ngc_compensation.specs.Limits.{IsWithin};
ghost use Rattle.ngc_compensation.specs.Meetings as spec;

use crate::moves::Side;
use crate::offset::{UNIT, UNIT_SQUARE, quotient, reached, scaled, times};
use crate::vector::{apart, cross, dot, from, turned};
use ngc_fixed_length::{Nm, Point2, root_floor};

// Returns the difference of two coordinates of unit vectors, times a radius.
fn difference(radius: u64, x: Nm, y: Nm) -> i128
    requires radius { radius ≤ 100000000 }
    requires x { unsigned_abs x ≤ 500000000 }
    requires y { unsigned_abs y ≤ 500000000 }
    ensures value { result ≡ (x -ℤ y) *ℤ pos (radius * 500000000) }
    ensures bound { unsigned_abs result ≤ 10 ^ 31 }
{
    times(x.minus(y), i128::from(radius * UNIT))
}

// Returns the point that is `radius` from another along both unit vectors, which span `area`.
#[tactic(auto, unfolding(crate::specs::Meetings::crossed))]
fn crossed(
    point: &Point2,
    radius: u64,
    first: &Point2,
    second: &Point2,
    area: i128,
) -> Option<Point2>
    requires radius { radius ≤ 100000000 }
    requires first { IsWithin 500000000 first.now }
    requires second { IsWithin 500000000 second.now }
    requires some { area ≢ pos 0 }
    requires area { unsigned_abs area ≤ 2 * 10 ^ 20 }
    ensures value { result ≡ spec.crossed point.now radius first.now second.now area }
    ensures near { IfSome result (IsWithin 5000000000) }
{
    let u = quotient(difference(radius, second.v, first.v), area);
    let v = quotient(difference(radius, first.u, second.u), area);
    reached(point, u, v)
}

// Returns the point that is `radius` from another along both unit vectors.
fn crossing(point: &Point2, radius: u64, first: &Point2, second: &Point2) -> Option<Point2>
    requires radius { radius ≤ 100000000 }
    requires first { IsWithin 500000000 first.now }
    requires second { IsWithin 500000000 second.now }
    ensures value { result ≡ spec.crossing point.now radius first.now second.now }
    ensures near { IfSome result (IsWithin 5000000000) }
{
    let area = cross(first, second);
    if area == 0 {
        return None;
    }
    crossed(point, radius, first, second, area)
}

/// Returns the point that is `radius` beside both lines through a point.
#[tactic(auto, unfolding(crate::specs::Meetings::lines_meet))]
pub(crate) fn lines_meet(
    point: &Point2,
    radius: u64,
    first: &Point2,
    second: &Point2,
) -> Option<Point2>
    requires radius { radius ≤ 100000000 }
    requires first { IsWithin 10000000000 first.now }
    requires second { IsWithin 10000000000 second.now }
    requires some_first { 0 < norm_of first.now }
    requires some_second { 0 < norm_of second.now }
    ensures value { result ≡ spec.lines_meet point.now radius first.now second.now }
    ensures near { IfSome result (IsWithin 5000000000) }
{
    let first = scaled(UNIT, first);
    let second = scaled(UNIT, second);
    crossing(point, radius, &first, &second)
}

// Returns half a circle's chord in units of 1 / UNIT, or `None` if the line passes it by.
fn half_chord(square: u128, h: i128) -> Option<u64>
    requires { square ≤ 2 * 10 ^ 20 }
    ensures value { result ≡ spec.half_chord square h }
    ensures bound { IfSome result (λ s. s ≤ 10 ^ 19) }
    ensures near { IfSome result (λ s. unsigned_abs h ≤ 10 ^ 19) }
{
    let size = h.unsigned_abs();
    if size > 10_000_000_000_000_000_000 {
        return None;
    }
    let whole = square * UNIT_SQUARE;
    if whole < size * size {
        None
    } else {
        Some(root_floor(whole - size * size))
    }
}

// Returns the sum of two coordinates along two unit vectors.
fn along_both(x: Nm, h: i128, y: Nm, s: u64) -> i128
    requires x { unsigned_abs x ≤ 500000000 }
    requires y { unsigned_abs y ≤ 500000000 }
    requires h { unsigned_abs h ≤ 10 ^ 19 }
    requires s { s ≤ 10 ^ 19 }
    ensures value { result ≡ (x *ℤ h) +ℤ (y *ℤ pos s) }
    ensures bound { unsigned_abs result ≤ 10 ^ 32 }
{
    times(x, h) + times(y, i128::from(s))
}

/// Returns the point of a circle about a centre on the line that is square to a unit vector at the
/// distance `h`, on a side of the vector. `square` is that of the radius.
#[tactic(auto, unfolding(crate::specs::Meetings::on_circle))]
fn on_circle(centre: &Point2, square: u128, unit: &Point2, h: i128, side: Side) -> Option<Point2>
    requires square { square ≤ 2 * 10 ^ 20 }
    requires unit { IsWithin 500000000 unit.now }
    ensures value { result ≡ spec.on_circle centre.now square unit.now h side }
    ensures near { IfSome result (IsWithin 5000000000) }
{
    let across = turned(side, unit);
    let s = half_chord(square, h)?;
    let u = quotient(along_both(unit.u, h, across.u, s), 250_000_000_000_000_000);
    let v = quotient(along_both(unit.v, h, across.v, s), 250_000_000_000_000_000);
    reached(centre, u, v)
}

// Returns where a line that is `radius` beside a point lies, seen from a centre along its unit
// vector.
fn line_at(point: &Point2, radius: u64, unit: &Point2, centre: &Point2) -> i128
    requires point { IsWithin 5000000000 point.now }
    requires radius { radius ≤ 100000000 }
    requires unit { IsWithin 500000000 unit.now }
    requires centre { IsWithin 5000000000 centre.now }
    ensures { result ≡ spec.line_at point.now radius unit.now centre.now }
{
    i128::from(radius * UNIT) + dot(unit, &from(centre, point))
}

/// Returns where a line that is `radius` beside a point in a direction meets a circle, on a side of
/// the direction. `square` is that of the circle's radius.
#[tactic(auto, unfolding(crate::specs::Meetings::line_meets))]
pub(crate) fn line_meets(
    point: &Point2,
    radius: u64,
    direction: &Point2,
    centre: &Point2,
    square: u128,
    side: Side,
) -> Option<Point2>
    requires point { IsWithin 5000000000 point.now }
    requires radius { radius ≤ 100000000 }
    requires direction { IsWithin 10000000000 direction.now }
    requires some { 0 < norm_of direction.now }
    requires centre { IsWithin 5000000000 centre.now }
    requires square { square ≤ 2 * 10 ^ 20 }
    ensures value { result
        ≡ spec.line_meets point.now radius direction.now centre.now square side }
    ensures near { IfSome result (IsWithin 5000000000) }
{
    let unit = scaled(UNIT, direction);
    let h = line_at(point, radius, &unit, centre);
    on_circle(centre, square, &unit, h, side)
}

// Returns the length in units of 1 / UNIT whose square is given.
fn length_of(square: u128) -> u64
    requires some { 0 < square }
    requires square { square ≤ 2 * 10 ^ 20 }
    ensures value { result ≡ spec.length_of square }
    ensures some { 0 < result }
    ensures bound { result ≤ 10 ^ 19 }
{
    root_floor(square * UNIT_SQUARE)
}

// Returns where the line through both points of intersection of two circles is, seen from the first
// centre.
fn chord_at(first: u128, distance: u128, second: u128) -> i128
    requires first { first ≤ 2 * 10 ^ 20 }
    requires some { 0 < distance }
    requires distance { distance ≤ 2 * 10 ^ 20 }
    requires second { second ≤ 2 * 10 ^ 20 }
    ensures { result ≡ spec.chord_at first distance second }
{
    let excess = first as i128 + distance as i128 - second as i128;
    quotient(
        excess * 250_000_000_000_000_000,
        2 * i128::from(length_of(distance)),
    )
}

/// Returns where two circles meet, on a side of the way from the first centre to the second. The
/// radii are given by their squares.
#[tactic(auto, unfolding(crate::specs::Meetings::circles_meet))]
pub(crate) fn circles_meet(
    centre: &Point2,
    square: u128,
    other: &Point2,
    other_square: u128,
    side: Side,
) -> Option<Point2>
    requires centre { IsWithin 5000000000 centre.now }
    requires square { square ≤ 2 * 10 ^ 20 }
    requires other { IsWithin 5000000000 other.now }
    requires other_square { other_square ≤ 2 * 10 ^ 20 }
    ensures value { result
        ≡ spec.circles_meet centre.now square other.now other_square side }
    ensures near { IfSome result (IsWithin 5000000000) }
{
    let distance = apart(centre, other);
    if distance == 0 {
        return None;
    }
    let unit = scaled(UNIT, &from(centre, other));
    let h = chord_at(square, distance, other_square);
    on_circle(centre, square, &unit, h, side)
}
