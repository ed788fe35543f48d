//! The gap between the body of a tool and fixtures.
ghost use Rattle.std.specs.Prelude.{◌≡◌, ◌<◌, ◌^◌, ◌-ℤ◌, unsigned_abs};
ghost use Rattle.std.specs.Int.{int_max};
ghost use Rattle.ngc_collision.specs.Inside.{solid_of};
ghost use Rattle.ngc_findings.specs.Gaps.{axis_gap, gap};

use ngc_collision::{Place, Solid};
use ngc_machine_files::Fixture;

fn greater(a: i128, b: i128) -> i128
    requires left { unsigned_abs a < 2 ^ 70 }
    requires right { unsigned_abs b < 2 ^ 70 }
    ensures value { result ≡ int_max a b }
    ensures bound { unsigned_abs result < 2 ^ 70 }
{
    a.max(b)
}

/// Returns the height of one coordinate above another.
pub(crate) fn rise(from: i64, to: i64) -> i128
    ensures value { result ≡ to -ℤ from }
    ensures bound { unsigned_abs result < 2 ^ 70 }
{
    i128::from(to) - i128::from(from)
}

fn axis_gap(low: i64, high: i64, least: i64, greatest: i64) -> i128
    ensures value { result ≡ axis_gap low high least greatest }
    ensures bound { unsigned_abs result < 2 ^ 70 }
{
    greater(rise(high, least), rise(greatest, low))
}

/// Returns the gap between a box and a fixture, in nanometres: the greatest of the gaps along the
/// three axes. The fixture might be larger by this much on every side. It is below zero if they
/// overlap.
pub fn gap(fixture: &Fixture, solid: &Solid) -> i128
    ensures value { result ≡ gap fixture.now (solid_of solid.now) }
    ensures bound { unsigned_abs result < 2 ^ 70 }
{
    let (low, high) = (Place::at(&fixture.low), Place::at(&fixture.high));
    let x = axis_gap(solid.low.x, solid.high.x, low.x, high.x);
    let y = axis_gap(solid.low.y, solid.high.y, low.y, high.y);
    let z = axis_gap(solid.low.z, solid.high.z, low.z, high.z);
    greater(x, greater(y, z))
}
