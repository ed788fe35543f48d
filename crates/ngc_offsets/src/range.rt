ghost use Rattle.std.specs.Prelude.{◌≡◌, ◌≤◌, unsigned_abs, IfOk};
ghost use Rattle.ngc_fixed_length.specs.Places.{IsPlace, plus as sum_of, minus as difference_of};
ghost use Rattle.ngc_offsets.specs.Ranges.{IsCoordinate, IsOffset, limit_of};
ghost use Rattle.ngc_offsets.specs.Faults.{limited as limited_to, coordinate as coordinate_in};
ghost use Rattle.ngc_offsets.specs.Faults.{offset as offset_in};

use crate::fault::{Axis, CoordinateRange, FrameFault, Quantity};
use ngc_fixed_length::{Nm, Point3};

/// The greatest size of a programmed coordinate near zero, in nanometres.
pub(crate) const COORDINATE: u64 = 1_000_000_000;

/// The greatest size of any programmed coordinate, in nanometres.
pub(crate) const FAR_COORDINATE: u64 = 4_000_000_000;

/// The greatest size of an origin or an offset, in nanometres.
pub(crate) const OFFSET: u64 = 4_000_000_000;

// Returns a length that is in the range of its quantity, or `BeyondRange`.
fn limited(axis: Axis, quantity: Quantity, at: i64) -> Result<Nm, FrameFault>
    ensures value { result ≡ limited_to axis quantity at }
    ensures range { IfOk result (λ l. unsigned_abs l ≤ limit_of quantity) }
{
    let beyond = FrameFault::BeyondRange { axis, quantity, at };
    if at.unsigned_abs() > quantity.limit() {
        return Err(beyond);
    }
    match Nm::from_nanometres(i128::from(at)) {
        Ok(length) => Ok(length),
        Err(_) => Err(beyond),
    }
}

/// Returns a programmed coordinate, or `BeyondRange` where it is farther than the reach.
pub(crate) fn coordinate(
    reach: CoordinateRange,
    axis: Axis,
    nanometres: i64,
) -> Result<Nm, FrameFault>
    ensures value { result ≡ coordinate_in reach axis nanometres }
    ensures range { IfOk result IsCoordinate }
{
    limited(axis, Quantity::Coordinate(reach), nanometres)
}

/// Returns an origin or an offset, or `BeyondRange` over 4*10^9 nm in size.
pub(crate) fn offset(axis: Axis, nanometres: i64) -> Result<Nm, FrameFault>
    ensures value { result ≡ offset_in axis nanometres }
    ensures range { IfOk result IsOffset }
{
    limited(axis, Quantity::Offset, nanometres)
}

/// Returns the sum of two points, axis by axis.
pub(crate) fn plus(p: &Point3, q: &Point3) -> Point3
    requires { IsPlace (sum_of p.now q.now) }
    ensures { result ≡ sum_of p.now q.now }
{
    Point3 {
        x: p.x.plus(q.x),
        y: p.y.plus(q.y),
        z: p.z.plus(q.z),
    }
}

/// Returns the difference of two points, axis by axis.
pub(crate) fn minus(p: &Point3, q: &Point3) -> Point3
    requires { IsPlace (difference_of p.now q.now) }
    ensures { result ≡ difference_of p.now q.now }
{
    Point3 {
        x: p.x.minus(q.x),
        y: p.y.minus(q.y),
        z: p.z.minus(q.z),
    }
}
