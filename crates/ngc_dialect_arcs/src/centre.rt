//! The centre of an arc. Points are vectors from the arc's start, in its plane.
ghost use Rattle.std.specs.Prelude.{◌≡◌, ◌*◌, ◌^◌, ◌<◌, ◌≤◌, ◌==◌, ◌||◌, ◌-ℤ◌, ◌*ℤ◌, unsigned_abs};
ghost use Rattle.ngc_arc_geometry.specs.Radii.{squared_distance, roots_within};
ghost use Rattle.ngc_arc_geometry.specs.Tolerance.{tolerance as tolerance_in};
ghost use Rattle.ngc_dialect_arcs.specs.Centre as spec;

use crate::limits::{least_radius, may_differ, roots_are_within, slack, tolerance};
use crate::refusal::{ArcRefusal, length};
use ngc_arc_geometry::{Arc, Ends};
use ngc_dialect_names::Dialect;
use ngc_fixed_length::{Nm, Plane, Point2, Point3, Turn, Units};

// The square of the greatest radius, 2*10^9 nm.
const SQUARE_LIMIT: u128 = 4_000_000_000_000_000_000;

// Returns the distance along an axis.
fn distance(from: Nm, to: Nm) -> u64
    ensures value { result ≡ unsigned_abs (to -ℤ from) }
    ensures bound { result ≤ 200000000000 }
{
    to.nanometres().abs_diff(from.nanometres())
}

fn square(distance: u64) -> u128
    requires { distance ≤ 200000000000 }
    ensures value { result ≡ distance * distance }
    ensures bound { result ≤ 4 * 10 ^ 22 }
{
    u128::from(distance) * u128::from(distance)
}

// Returns the square of the distance between two points.
fn squared(from: &Point2, to: &Point2) -> u128
    ensures value { result ≡ squared_distance from.now to.now }
    ensures bound { result ≤ 8 * 10 ^ 22 }
{
    square(distance(from.u, to.u)) + square(distance(from.v, to.v))
}

fn here() -> Point2
    ensures { result ≡ spec.here }
{
    Point2 {
        u: Nm::zero(),
        v: Nm::zero(),
    }
}

fn is_in_range(least: u128, square: u128) -> bool
    requires { least ≤ 1270 }
    ensures { result ≡ spec.is_in_range least square }
{
    least * least <= square && square <= SQUARE_LIMIT
}

// Returns the centre, or refuses it if a radius is out of range.
fn in_range(least: u128, end: &Point2, centre: &Point2) -> Result<Point2, ArcRefusal>
    requires { least ≤ 1270 }
    ensures { result ≡ spec.in_range least end.now centre.now }
{
    if is_in_range(least, squared(centre, &here())) && is_in_range(least, squared(centre, end)) {
        Ok(*centre)
    } else {
        Err(ArcRefusal::RadiusOutOfRange)
    }
}

// Returns by how much the square of the radius at the end exceeds that at the start.
fn excess(end: &Point2, centre: &Point2) -> i128
    ensures value { result ≡ spec.excess end.now centre.now }
    ensures bound { unsigned_abs result ≤ 8 * 10 ^ 22 }
{
    squared(centre, end) as i128 - squared(centre, &here()) as i128
}

fn product(part: i64, excess: i128) -> i128
    requires part { unsigned_abs part ≤ 100000000000 }
    requires excess { unsigned_abs excess ≤ 80000000000000000000000 }
    ensures value { result ≡ part *ℤ excess }
    ensures bound { unsigned_abs result ≤ 8 * 10 ^ 33 }
{
    i128::from(part) * excess
}

// Returns a quotient, rounded to the nearest whole number.
#[tactic(auto, unfolding(crate::specs::Centre::shift_by))]
fn shift_by(part: i64, excess: i128, chord: u128) -> i128
    requires part { unsigned_abs part ≤ 100000000000 }
    requires excess { unsigned_abs excess ≤ 80000000000000000000000 }
    requires some { 0 < chord }
    requires chord { chord ≤ 80000000000000000000000 }
    ensures { result ≡ spec.shift_by part excess chord }
{
    let sum = product(part, excess) + chord as i128;
    sum.div_euclid(2 * chord as i128)
}

// Returns how far the centre moves along an axis, on which the end is at `part`.
fn shift(part: Nm, end: &Point2, centre: &Point2) -> i128
    requires { 0 < spec.chord_square end.now }
    ensures { result ≡ spec.shift part end.now centre.now }
{
    shift_by(
        part.nanometres(),
        excess(end, centre),
        squared(&here(), end),
    )
}

// Returns a coordinate of the centre after a move along its axis.
fn moved(by: i128, part: Nm) -> Result<Nm, ArcRefusal>
    ensures { result ≡ spec.moved by part }
{
    if by.unsigned_abs() <= 25_000 {
        length(i128::from(part.nanometres()) + by)
    } else {
        Err(ArcRefusal::RadiiDiffer)
    }
}

// Returns a coordinate of the evened centre, along an axis on which the end is at `part` and the
// centre at `given`.
fn evened_along(part: Nm, given: Nm, end: &Point2, centre: &Point2) -> Result<Nm, ArcRefusal>
    requires { 0 < spec.chord_square end.now }
    ensures { result ≡ spec.moved (spec.shift part end.now centre.now) given }
{
    moved(shift(part, end, centre), given)
}

// Returns the centre from which start and end are alike.
#[tactic(auto, unfolding(crate::specs::Centre::evened))]
fn evened(end: &Point2, centre: &Point2) -> Result<Point2, ArcRefusal>
    requires { 0 < spec.chord_square end.now }
    ensures { result ≡ spec.evened end.now centre.now }
{
    let u = evened_along(end.u, centre.u, end, centre)?;
    let v = evened_along(end.v, centre.v, end, centre)?;
    in_range(1, end, &Point2 { u, v })
}

// Returns whether our own language takes the radii with these squares, if it is written in these
// units; those of a full circle are the same.
fn is_even(written: Units, end: &Point2, at_start: u128, at_end: u128) -> bool
    requires start { at_start ≤ 4 * 10 ^ 18 }
    requires end { at_end ≤ 4 * 10 ^ 18 }
    ensures { result ≡ ((spec.chord_square end.now == 0)
        || roots_within (tolerance_in written) at_start at_end) }
{
    squared(&here(), end) == 0 || roots_are_within(tolerance(written), at_start, at_end)
}

/// Returns the centre of an arc in our own language, which is written in the units `written`: the
/// centre as it is given, or the nearest one from which start and end are alike. `units` are those
/// in force.
#[tactic(auto, unfolding(crate::specs::Centre::settled))]
pub(crate) fn settled(
    dialect: Dialect,
    units: Units,
    written: Units,
    end: &Point2,
    given: &Point2,
) -> Result<Point2, ArcRefusal>
    ensures { result ≡ spec.settled dialect units written end.now given.now }
{
    let centre = in_range(least_radius(dialect), end, given)?;
    let at_start = squared(&centre, &here());
    let at_end = squared(&centre, end);
    if !may_differ(dialect, units, at_start, at_end) {
        return Err(ArcRefusal::RadiiDiffer);
    }
    if is_even(written, end, at_start, at_end) {
        Ok(centre)
    } else {
        evened(end, &centre)
    }
}

fn ends_of(turn: Turn, end: &Point2) -> Ends
    ensures { result ≡ spec.ends_of turn end.now }
{
    Ends {
        plane: Plane::XY,
        turn,
        start: Point3 {
            x: Nm::zero(),
            y: Nm::zero(),
            z: Nm::zero(),
        },
        end: end.at_height(Plane::XY, Nm::zero()),
        has_axis_word: true,
    }
}

fn is_radius(radius: Nm) -> bool
    ensures { result ≡ spec.is_radius radius }
{
    let size = u128::from(radius.nanometres().unsigned_abs());
    size != 0 && size * size <= SQUARE_LIMIT
}

// Returns whether R is shorter than half the distance from start to end.
fn is_too_short(dialect: Dialect, radius: Nm, chord: u128) -> bool
    ensures { result ≡ spec.is_too_short dialect radius chord }
{
    let reach = u128::from(radius.nanometres().unsigned_abs()) + slack(dialect);
    4 * reach * reach < chord
}

/// Returns the centre of an arc with R, as a vector from its start in the arc's plane, as is `end`. The
/// arc is written in the units `written`. It is refused if it ends where it begins, if R is 0 or over
/// 2 metres, or if R is too short to reach from start to end by more than the dialect allows.
#[tactic(auto, unfolding(crate::specs::Centre::by_radius))]
pub fn by_radius(
    dialect: Dialect,
    written: Units,
    turn: Turn,
    end: &Point2,
    radius: Nm,
) -> Result<Point2, ArcRefusal>
    ensures { result ≡ spec.by_radius dialect written turn end.now radius }
{
    let chord = squared(&here(), end);
    if chord == 0 {
        return Err(ArcRefusal::EndIsStart);
    }
    if !is_radius(radius) {
        return Err(ArcRefusal::RadiusOutOfRange);
    }
    if is_too_short(dialect, radius, chord) {
        return Err(ArcRefusal::RadiusTooSmall);
    }
    match Arc::radius_format(written, &ends_of(turn, end), radius) {
        Ok(arc) => in_range(1, end, &arc.centre()),
        Err(_) => Err(ArcRefusal::RadiusOutOfRange),
    }
}
