ghost use Rattle.std.specs.Prelude.{◌≡◌, ◌≢◌, ℤ, pos, ◌+ℤ◌, ◌*ℤ◌, ◌-ℤ◌, ◌≤ℤ◌, ◌≤◌, ◌*◌, ◌^◌, ◌↔◌, unsigned_abs};
ghost use Rattle.ngc_fixed_length.specs.Roots.{IsRootFloor};
ghost use Rattle.ngc_cells.specs.Stretches.{REACH, RADIUS_LIMIT, PARTS_LIMIT, IsSpot, IsStretch, ahead, middle, square, IsAround};
ghost use Rattle.ngc_cells.specs.Stretches.{squared_length, along, aside, IsAlong, IsClose, IsBand, IsWidth, IsNear, IsPast, spot};
ghost use Rattle.ngc_cells.specs.Spans.{IsIn};

use crate::span::Span;
use crate::stretch::Stretch;
use ngc_fixed_length::root_floor;

/// Returns `count` times a distance.
fn times(count: u32, way: i64) -> i64
    requires count { count ≤ PARTS_LIMIT }
    requires way { unsigned_abs way ≤ 4000000000 }
    ensures value { result ≡ pos count *ℤ way }
    ensures bound { unsigned_abs result ≤ 4000000000000 }
{
    i64::from(count) * way
}

/// Returns the product of two numbers of at most 2^44.
fn product(x: i64, y: i64) -> i128
    requires x { unsigned_abs x ≤ 2 ^ 44 }
    requires y { unsigned_abs y ≤ 2 ^ 44 }
    ensures value { result ≡ x *ℤ y }
    ensures bound { unsigned_abs result ≤ 2 ^ 88 }
{
    i128::from(x) * i128::from(y)
}

/// Returns `parts` times the distance, along an axis, from a point of a line to `here`.
fn ahead(parts: u32, part: u32, start: i64, end: i64, here: i64) -> i64
    requires parts { parts ≤ PARTS_LIMIT }
    requires part { part ≤ PARTS_LIMIT }
    requires start { unsigned_abs start ≤ REACH }
    requires end { unsigned_abs end ≤ REACH }
    requires here { unsigned_abs here ≤ REACH }
    ensures value { result ≡ ahead parts part start end here }
    ensures bound { unsigned_abs result ≤ 2 ^ 44 }
{
    times(parts, here - start) - times(part, end - start)
}

/// Returns `parts` times a coordinate of a point of a line.
fn middle(parts: u32, part: u32, start: i64, end: i64) -> i64
    requires parts { parts ≤ PARTS_LIMIT }
    requires part { part ≤ PARTS_LIMIT }
    requires start { unsigned_abs start ≤ REACH }
    requires end { unsigned_abs end ≤ REACH }
    ensures value { result ≡ middle parts part start end }
    ensures bound { unsigned_abs result ≤ 2 ^ 44 }
{
    times(parts, start) + times(part, end - start)
}

/// Returns the numbers whose distance from `middle` is at most the root of `room`, as multiples of
/// `parts`.
fn rooted(middle: i64, room: i128, parts: u32) -> Span
    requires middle { unsigned_abs middle ≤ 2 ^ 44 }
    requires room { unsigned_abs room ≤ 2 ^ 90 }
    requires parts { parts ≢ 0 }
    ensures { (x : ℤ) → IsIn result x ↔ (square ((x *ℤ pos parts) -ℤ middle) ≤ℤ room) }
{
    if room < 0 {
        return Span::none();
    }
    let half = i128::from(root_floor(room as u128));
    let middle = i128::from(middle);
    Span::quotients(middle - half, middle + half, i128::from(parts))
}

/// Returns the points of a row that are at most `radius` from a point of a line.
fn around_span(stretch: &Stretch, part: u32, radius: u32, y: i64) -> Span
    requires stretch { IsStretch stretch.now }
    requires part { part ≤ stretch.now.parts }
    requires radius { radius ≤ RADIUS_LIMIT }
    requires y { unsigned_abs y ≤ REACH }
    ensures { (x : ℤ) → IsIn result x
        ↔ IsAround stretch.now.parts part stretch.now.start stretch.now.end radius (spot x y) }
{
    let rise = ahead(stretch.parts, part, stretch.start.y, stretch.end.y, y);
    let width = times(stretch.parts, i64::from(radius));
    let middle = middle(stretch.parts, part, stretch.start.x, stretch.end.x);
    rooted(
        middle,
        product(width, width) - product(rise, rise),
        stretch.parts,
    )
}

/// Returns the square of a difference of coordinates.
fn squared(way: i64) -> i128
    requires { unsigned_abs way ≤ 4000000000 }
    ensures value { result ≡ way *ℤ way }
    ensures bound { unsigned_abs result ≤ 16000000000000000000 }
{
    i128::from(way) * i128::from(way)
}

/// Returns the square of the length of a stretch's line.
fn squared_length(stretch: &Stretch) -> i128
    requires { IsStretch stretch.now }
    ensures value { result ≡ squared_length stretch.now.start stretch.now.end }
    ensures least { pos 0 ≤ℤ result }
    ensures bound { unsigned_abs result ≤ 32000000000000000000 }
{
    squared(stretch.end.x - stretch.start.x) + squared(stretch.end.y - stretch.start.y)
}

/// Returns the square of a radius.
fn area(radius: u32) -> u128
    requires { radius ≤ RADIUS_LIMIT }
    ensures value { result ≡ radius * radius }
    ensures bound { result ≤ 10 ^ 18 }
{
    u128::from(radius) * u128::from(radius)
}

/// Returns the product of an area and the square of a length.
fn room(area: u128, squared: u128) -> u128
    requires area { area ≤ 10 ^ 18 }
    requires squared { squared ≤ 32000000000000000000 }
    ensures value { result ≡ area * squared }
    ensures bound { result ≤ 10 ^ 38 }
{
    area * squared
}

/// Returns how far from a stretch's line, times the line's length, a point may be that is at most
/// `radius` from the line.
pub(crate) fn width(stretch: &Stretch, radius: u32) -> u64
    requires stretch { IsStretch stretch.now }
    requires radius { radius ≤ RADIUS_LIMIT }
    ensures { IsWidth stretch.now radius result }
{
    root_floor(room(area(radius), squared_length(stretch).unsigned_abs()))
}

/// Returns how far the point 0 of a row is from a stretch's line, times the line's length.
fn aside_at_zero(stretch: &Stretch, y: i64) -> i128
    requires stretch { IsStretch stretch.now }
    requires y { unsigned_abs y ≤ REACH }
    ensures value { result ≡ aside stretch.now.start stretch.now.end (spot (pos 0) y) }
    ensures bound { unsigned_abs result ≤ 2 ^ 90 }
{
    let x = stretch.end.x - stretch.start.x;
    let up = stretch.end.y - stretch.start.y;
    product(x, y - stretch.start.y) + product(up, stretch.start.x)
}

/// Returns how far the point 0 of a row is along a stretch, times the length of its line and its
/// parts.
fn along_at_zero(stretch: &Stretch, y: i64) -> i128
    requires stretch { IsStretch stretch.now }
    requires y { unsigned_abs y ≤ REACH }
    ensures value { result ≡ along stretch.now (spot (pos 0) y) }
    ensures bound { unsigned_abs result ≤ 2 ^ 90 }
{
    let x = stretch.end.x - stretch.start.x;
    let up = stretch.end.y - stretch.start.y;
    let rise = ahead(
        stretch.parts,
        stretch.part,
        stretch.start.y,
        stretch.end.y,
        y,
    );
    let middle = middle(stretch.parts, stretch.part, stretch.start.x, stretch.end.x);
    product(up, rise) - product(x, middle)
}

/// Returns the points of a row that are within a width of a stretch's line, which isn't level.
fn across_span(stretch: &Stretch, width: u64, y: i64) -> Span
    requires stretch { IsStretch stretch.now }
    requires y { unsigned_abs y ≤ REACH }
    requires tilted { stretch.now.end.y ≢ stretch.now.start.y }
    ensures { (x : ℤ) → IsIn result x ↔ IsBand stretch.now width (spot x y) }
{
    let aside = aside_at_zero(stretch, y);
    let width = i128::from(width);
    let up = i128::from(stretch.end.y - stretch.start.y);
    Span::quotients(aside - width, aside + width, up)
}

/// Returns the points of a row that are along a stretch, whose line has another direction than Y.
fn along_span(stretch: &Stretch, y: i64) -> Span
    requires stretch { IsStretch stretch.now }
    requires y { unsigned_abs y ≤ REACH }
    requires tilted { stretch.now.end.x ≢ stretch.now.start.x }
    ensures { (x : ℤ) → IsIn result x ↔ IsAlong stretch.now (spot x y) }
{
    let along = along_at_zero(stretch, y);
    let step = i128::from(times(stretch.parts, stretch.end.x - stretch.start.x));
    Span::quotients(1 - along, squared_length(stretch) - 1 - along, step)
}

/// Returns the points of a row that are along a stretch and within a width of its line, which has
/// the direction of Y, or no length.
fn upright_span(stretch: &Stretch, width: u64, y: i64) -> Span
    requires stretch { IsStretch stretch.now }
    requires y { unsigned_abs y ≤ REACH }
    requires upright { stretch.now.end.x ≡ stretch.now.start.x }
    ensures { (x : ℤ) → IsIn result x
        ↔ (IsAlong stretch.now (spot x y) × IsBand stretch.now width (spot x y)) }
{
    let along = along_at_zero(stretch, y);
    if stretch.end.y == stretch.start.y {
        return Span::none();
    }
    if along <= 0 {
        return Span::none();
    }
    if squared_length(stretch) <= along {
        return Span::none();
    }
    across_span(stretch, width, y)
}

/// Returns the points of a row that are along a stretch and within a width of its line, which has
/// the direction of X.
fn level_span(stretch: &Stretch, width: u64, y: i64) -> Span
    requires stretch { IsStretch stretch.now }
    requires y { unsigned_abs y ≤ REACH }
    requires level { stretch.now.end.y ≡ stretch.now.start.y }
    requires tilted { stretch.now.end.x ≢ stretch.now.start.x }
    ensures { (x : ℤ) → IsIn result x
        ↔ (IsAlong stretch.now (spot x y) × IsBand stretch.now width (spot x y)) }
{
    let aside = aside_at_zero(stretch, y);
    let most = i128::from(width);
    if aside < -most {
        return Span::none();
    }
    if most < aside {
        return Span::none();
    }
    along_span(stretch, y)
}

/// Returns the points of a row that are along a stretch and within a width of its line.
fn beside_span(stretch: &Stretch, width: u64, y: i64) -> Span
    requires stretch { IsStretch stretch.now }
    requires y { unsigned_abs y ≤ REACH }
    ensures { (x : ℤ) → IsIn result x
        ↔ (IsAlong stretch.now (spot x y) × IsBand stretch.now width (spot x y)) }
{
    if stretch.end.x == stretch.start.x {
        upright_span(stretch, width, y)
    } else if stretch.end.y == stretch.start.y {
        level_span(stretch, width, y)
    } else {
        across_span(stretch, width, y).meet(along_span(stretch, y))
    }
}

/// Returns the rows, by their Y, that are at most `radius` beyond the ends of a stretch's line. In all
/// other rows no point is near.
pub(crate) fn reach_span(stretch: &Stretch, radius: u32) -> Span
    requires { IsStretch stretch.now }
    ensures { (y : ℤ) → ¬ (IsIn result y) → IsPast stretch.now.start.y stretch.now.end.y radius y }
{
    let (start, end) = (stretch.start.y, stretch.end.y);
    let radius = i128::from(radius);
    Span {
        low: i128::from(start.min(end)) - radius,
        high: i128::from(start.max(end)) + radius,
    }
}

/// Returns the points of a row that are at most `radius` from a stretch, whose width for that radius
/// is known.
pub(crate) fn near_span(stretch: &Stretch, radius: u32, width: u64, y: i64) -> Span
    requires stretch { IsStretch stretch.now }
    requires radius { radius ≤ RADIUS_LIMIT }
    requires width { IsWidth stretch.now radius width }
    requires y { unsigned_abs y ≤ REACH }
    ensures { (x : ℤ) → IsIn result x ↔ IsNear stretch.now radius (spot x y) }
{
    let first = around_span(stretch, stretch.part, radius, y);
    let last = around_span(stretch, stretch.part + 1, radius, y);
    first.hull(last).hull(beside_span(stretch, width, y))
}
