//! Points by their distance from the origin and their angle.
ghost use Rattle.std.specs.Prelude.{◌≡◌, ◌≤◌, ◌-ℤ◌, ◌^◌, pos, unsigned_abs};
ghost use Rattle.std.specs.Int.{int_rem_euclid};
ghost use Rattle.ngc_dialect_numbers.specs.Circles.{TURN};
ghost use Rattle.ngc_dialect_repeats.specs.Points as spec;
ghost use Rattle.ngc_dialect_repeats.specs.Refusals as steps;

use crate::refusal::PolarRefusal;
use ngc_dialect_numbers::Number;
use ngc_dialect_parameters::Word;
use ngc_fixed_length::{Nm, Point2, Units, root_floor, rounded_quotient};

/// A point by its distance from the origin, in units of 10^-12 mm, and its angle, in degrees.
#[derive(Clone, Copy)]
pub struct PolarPoint {
    pub distance: Number,
    pub angle: Number,
}

/// Where polar words led: to a place, which is rounded, by a distance and an angle.
#[derive(Clone, Copy)]
pub struct PolarEnd {
    pub place: Point2,
    pub point: PolarPoint,
}

fn is_same_place(p: &Point2, q: &Point2) -> bool
    ensures { result ≡ spec.is_same_place p.now q.now }
{
    p.u.nanometres() == q.u.nanometres() && p.v.nanometres() == q.v.nanometres()
}

/// Returns a point's distance and angle: those of the last polar words, if they led there.
pub(crate) fn seen_from(last: &Option<PolarEnd>, place: &Point2) -> PolarPoint
    ensures { result ≡ spec.seen_from last.now place.now }
{
    match last {
        None => seen_at(place),
        Some(end) => {
            if is_same_place(&end.place, place) {
                end.point
            } else {
                seen_at(place)
            }
        }
    }
}

/// Returns a number of nanometres as a length, or refuses it over 100 metres.
pub(crate) fn length(nanometres: i128) -> Result<Nm, PolarRefusal>
    ensures { result ≡ steps.length nanometres }
{
    match Nm::from_nanometres(nanometres) {
        Ok(length) => Ok(length),
        Err(_) => Err(PolarRefusal::TooFar),
    }
}

pub(crate) fn number(trillionths: i128) -> Result<Number, PolarRefusal>
    ensures { result ≡ steps.number trillionths }
{
    match Number::from_trillionths(trillionths) {
        Ok(number) => Ok(number),
        Err(_) => Err(PolarRefusal::TooFar),
    }
}

// Returns a small number of units of 10^-12.
fn small(trillionths: i128) -> Number
    requires { unsigned_abs trillionths ≤ 10 ^ 20 }
    ensures { result ≡ trillionths }
{
    match Number::from_trillionths(trillionths) {
        Ok(number) => number,
        Err(_) => Number::truth(false),
    }
}

fn square(length: Nm) -> u128
    ensures value { result ≡ spec.square length }
    ensures bound { result ≤ 10 ^ 22 }
{
    let size = u128::from(length.nanometres().unsigned_abs());
    size * size
}

/// Returns the angle in degrees of the direction to a point.
pub(crate) fn direction(u: i64, v: i64) -> Number
    requires u { unsigned_abs u ≤ 10 ^ 12 }
    requires v { unsigned_abs v ≤ 10 ^ 12 }
    ensures { result ≡ spec.direction u v }
{
    Number::arc_tangent(small(i128::from(v)), small(i128::from(u)))
}

fn distance_of(place: &Point2) -> Number
    ensures { result ≡ spec.distance_of place.now }
{
    let squares = square(place.u) + square(place.v);
    small(i128::from(root_floor(squares * 1_000_000_000_000)))
}

/// Returns a point's distance and angle.
#[tactic(auto, unfolding(crate::specs::Points::seen_at))]
pub(crate) fn seen_at(place: &Point2) -> PolarPoint
    ensures { result ≡ spec.seen_at place.now }
{
    PolarPoint {
        distance: distance_of(place),
        angle: direction(place.u.nanometres(), place.v.nanometres()),
    }
}

/// Returns a length of a program in units of 10^-12 mm.
pub(crate) fn in_millimetres(units: Units, value: Number) -> Result<Number, PolarRefusal>
    ensures { result ≡ spec.in_millimetres units value }
{
    match units {
        Units::Millimetres => Ok(value),
        Units::Inches => number(rounded_quotient(value.trillionths() * 254, 10)),
    }
}

// Returns an angle of less than a turn.
pub(crate) fn turned(angle: i128) -> Number
    ensures { result ≡ int_rem_euclid angle (pos TURN) }
{
    small(angle.rem_euclid(360_000_000_000_000))
}

// Returns a coordinate by a distance and the sine or the cosine of an angle.
fn coordinate(distance: Number, share: Number) -> Result<Nm, PolarRefusal>
    ensures { result ≡ spec.coordinate distance share }
{
    match distance.times(share) {
        Ok(product) => length(rounded_quotient(product.trillionths(), 1_000_000)),
        Err(_) => Err(PolarRefusal::TooFar),
    }
}

// Returns the point at a distance and an angle.
#[tactic(auto, unfolding(crate::specs::Points::point_facing))]
fn point_facing(distance: Number, angle: Number) -> Result<Point2, PolarRefusal>
    ensures { result ≡ spec.point_facing distance angle }
{
    let u = coordinate(distance, angle.cos())?;
    let v = coordinate(distance, angle.sin())?;
    Ok(Point2 { u, v })
}

/// Returns the point at a distance in units of 10^-12 mm and at an angle in units of 10^-12 degrees.
#[tactic(auto, unfolding(crate::specs::Points::point_at))]
pub(crate) fn point_at(distance: i128, angle: i128) -> Result<Point2, PolarRefusal>
    ensures { result ≡ spec.point_at distance angle }
{
    if distance < 0 {
        return Err(PolarRefusal::BelowZero);
    }
    let distance = number(distance)?;
    point_facing(distance, turned(angle))
}

/// Returns the difference of two coordinates.
pub(crate) fn difference(to: Nm, from: Nm) -> i64
    ensures value { result ≡ to -ℤ from }
    ensures bound { unsigned_abs result ≤ 200000000000 }
{
    to.nanometres() - from.nanometres()
}

// Returns a length as a program has it.
fn in_program(units: Units, nanometres: i64) -> Number
    requires { unsigned_abs nanometres ≤ 400000000000 }
    ensures { result ≡ spec.in_program units nanometres }
{
    let nanometres = i128::from(nanometres);
    match units {
        Units::Millimetres => small(nanometres * 1_000_000),
        Units::Inches => small(rounded_quotient(nanometres * 1_000_000_000_000, 25_400_000)),
    }
}

/// Returns a word with a length.
pub(crate) fn length_word(units: Units, letter: u8, nanometres: i64) -> Word
    requires { unsigned_abs nanometres ≤ 400000000000 }
    ensures { result ≡ spec.length_word units letter nanometres }
{
    Word {
        letter,
        value: in_program(units, nanometres),
        point: true,
    }
}
