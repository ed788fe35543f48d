//! Fixtures and points that are moved by a margin.
ghost use Rattle.std.specs.Prelude.{◌≡◌, ◌&&◌, map, pos};
ghost use Rattle.std.specs.List.{All, list_all};
ghost use Rattle.ngc_collision.specs.Body.{is_below};
ghost use Rattle.ngc_machine_files.specs.Ranges.{CORNER_LIMIT, IsFixture, IsFrom, IsSized};
ghost use Rattle.ngc_machine_files.specs.Ranges.{MARGIN_LIMIT};
ghost use Rattle.ngc_margins.specs.Margins as spec;

use ngc_fixed_length::{Nm, Point3};
use ngc_machine_files::Fixture;
use std::alloc::Allocator;

/// Returns a point that is moved down by a margin along each axis.
pub(crate) fn lowered(margin: Nm, point: &Point3) -> Point3
    requires margin { IsFrom (pos 0) MARGIN_LIMIT margin }
    requires point { IsSized CORNER_LIMIT point.now }
    ensures { result ≡ spec.lowered margin point.now }
{
    Point3 {
        x: point.x.minus(margin),
        y: point.y.minus(margin),
        z: point.z.minus(margin),
    }
}

/// Returns a point that is moved up by a margin along each axis.
pub(crate) fn raised(margin: Nm, point: &Point3) -> Point3
    requires margin { IsFrom (pos 0) MARGIN_LIMIT margin }
    requires point { IsSized CORNER_LIMIT point.now }
    ensures { result ≡ spec.raised margin point.now }
{
    Point3 {
        x: point.x.plus(margin),
        y: point.y.plus(margin),
        z: point.z.plus(margin),
    }
}

fn grown(margin: Nm, fixture: &Fixture) -> Fixture
    requires margin { IsFrom (pos 0) MARGIN_LIMIT margin }
    requires fixture { IsFixture fixture.now }
    ensures { result ≡ spec.grown margin fixture.now }
{
    Fixture {
        low: lowered(margin, &fixture.low),
        high: raised(margin, &fixture.high),
        name: fixture.name,
        system: fixture.system,
    }
}

fn is_sized(point: &Point3) -> bool
    ensures { result ≡ spec.is_sized point.now }
{
    point.x.nanometres().unsigned_abs() <= 4_000_000_000
        && point.y.nanometres().unsigned_abs() <= 4_000_000_000
        && point.z.nanometres().unsigned_abs() <= 4_000_000_000
}

fn fits(fixture: &Fixture) -> bool
    ensures { result ≡ spec.fits fixture.now }
{
    is_sized(&fixture.low) && is_sized(&fixture.high)
}

/// Returns whether all fixtures, larger by a margin, are within the range of a machine file.
pub(crate) fn all_fit(margin: Nm, fixtures: &[Fixture]) -> bool
    requires margin { IsFrom (pos 0) MARGIN_LIMIT margin }
    requires fixtures { All IsFixture fixtures.now }
    ensures { result ≡ list_all spec.fits (map (spec.grown margin) fixtures.now) }
{
    for fixture in fixtures {
        if !fits(&grown(margin, fixture)) {
            return false;
        }
    }
    true
}

/// Makes each fixture larger by a margin on all six sides.
pub(crate) fn grow<A: Allocator>(margin: Nm, fixtures: &mut Vec<Fixture, A>)
    requires margin { IsFrom (pos 0) MARGIN_LIMIT margin }
    requires fixtures { All IsFixture fixtures.old.items }
    ensures { fixtures.new.items ≡ map (spec.grown margin) fixtures.old.items }
{
    for i in 0..fixtures.len() {
        fixtures[i] = grown(margin, &fixtures[i]);
    }
}

/// Returns whether a point lies between two others on each axis.
pub(crate) fn is_between(low: &Point3, point: &Point3, high: &Point3) -> bool
    ensures { result ≡ (is_below low.now point.now && is_below point.now high.now) }
{
    is_below(low, point) && is_below(point, high)
}

fn is_below(low: &Point3, high: &Point3) -> bool
    ensures { result ≡ is_below low.now high.now }
{
    low.x <= high.x && low.y <= high.y && low.z <= high.z
}
